//! Files whose messages refer to messages of other files.
#![tactic(auto)]

ghost use Rattle.std.specs.Prelude.{◌≡◌, IfOk, map, option_map};
ghost use Rattle.fluent_ast.specs.Borrowed.{attributes_of, elements_of, entry_of};
ghost use Rattle.fluent_ids.specs.IdsView.{ids_view};
ghost use Rattle.fluent_lint.specs.Own.{ids_of_tree, wide_of_tree, wide_view};
ghost use Rattle.fluent_lint.specs.Shown.{any_refers_out, attributes_refer_out, leads_out, pattern_refers_out, refers_out, value_refers_out};
ghost use Rattle.lint_nodes.specs.NodeView.{node_view};
ghost use Rattle.std.specs.List.{list_any};

use fluent_ast::{Attribute, Entry, InlineExpression, Pattern, Resource};
use fluent_ids::FluentIds;
use lint_findings::CatalogIds;
use lint_nodes::{Node, pattern_nodes};
use std::alloc::{AllocError, Global};

/// What the messages and terms of a tree stand for, and then those of all trees of its catalog, if
/// a message of the tree refers to a message that isn't in it. Where two entries have one id, the
/// first stays.
///
/// # Errors
/// [`AllocError`] if memory runs out; nothing is kept.
pub fn wide_ids<'r, 's>(
    alloc: Global,
    own: &CatalogIds<'r, 's>,
    tree: &'r Resource<&'s str>,
    trees: &'r [Resource<&'s str>],
) -> Result<Option<CatalogIds<'r, 's>>, AllocError>
    requires { ids_view _ own.now ≡ ids_of_tree tree.now }
    ensures { IfOk result (λ ids. wide_view ids ≡ wide_of_tree trees.now tree.now) }
{
    if !any_refers_out(alloc, own, &tree.body)? {
        return Ok(None);
    }
    let mut ids = FluentIds::new(alloc);
    ids.add_resource_silently(tree)?;
    for other in trees {
        ids.add_resource_silently(other)?;
    }
    Ok(Some(ids))
}

/// Whether a message of these entries refers to one that these ids don't have.
fn any_refers_out(
    alloc: Global,
    own: &CatalogIds<'_, '_>,
    entries: &[Entry<&str>],
) -> Result<bool, AllocError>
    ensures { IfOk result (λ found. found ≡ any_refers_out (ids_view _ own.now) (map entry_of entries.now)) }
{
    for entry in entries {
        if refers_out(alloc, own, entry)? {
            return Ok(true);
        }
    }
    Ok(false)
}

/// Whether an entry is a message that refers to one that these ids don't have.
fn refers_out(
    alloc: Global,
    own: &CatalogIds<'_, '_>,
    entry: &Entry<&str>,
) -> Result<bool, AllocError>
    ensures { IfOk result (λ found. found ≡ refers_out (ids_view _ own.now) (entry_of entry.now)) }
{
    match entry {
        Entry::Message(message) => {
            if value_refers_out(alloc, own, &message.value)? {
                return Ok(true);
            }
            attributes_refer_out(alloc, own, &message.attributes)
        }
        _ => Ok(false),
    }
}

/// Whether a value does, if it is there.
fn value_refers_out(
    alloc: Global,
    own: &CatalogIds<'_, '_>,
    value: &Option<Pattern<&str>>,
) -> Result<bool, AllocError>
    ensures { IfOk result (λ found. found
        ≡ value_refers_out (ids_view _ own.now) (option_map elements_of value.now)) }
{
    match value {
        Some(pattern) => pattern_refers_out(alloc, own, pattern),
        None => Ok(false),
    }
}

/// Whether one of these attributes does.
fn attributes_refer_out(
    alloc: Global,
    own: &CatalogIds<'_, '_>,
    attributes: &[Attribute<&str>],
) -> Result<bool, AllocError>
    ensures { IfOk result (λ found. found
        ≡ attributes_refer_out (ids_view _ own.now) (attributes_of attributes.now)) }
{
    for attribute in attributes {
        if pattern_refers_out(alloc, own, &attribute.value)? {
            return Ok(true);
        }
    }
    Ok(false)
}

/// Whether a pattern does.
fn pattern_refers_out(
    alloc: Global,
    own: &CatalogIds<'_, '_>,
    pattern: &Pattern<&str>,
) -> Result<bool, AllocError>
    ensures { IfOk result (λ found. found
        ≡ pattern_refers_out (ids_view _ own.now) (elements_of pattern.now)) }
{
    let nodes = pattern_nodes(alloc, pattern)?;
    Ok(any_leads_out(own, &nodes))
}

/// Whether one of these nodes refers to a message that these ids don't have.
fn any_leads_out(own: &CatalogIds<'_, '_>, nodes: &[Node<'_, '_>]) -> bool
    ensures { result ≡ list_any (leads_out (ids_view _ own.now)) (map node_view nodes.now) }
{
    for node in nodes {
        if leads_out(own, *node) {
            return true;
        }
    }
    false
}

/// Whether a node refers to a message that these ids don't have.
fn leads_out(own: &CatalogIds<'_, '_>, node: Node<'_, '_>) -> bool
    ensures { result ≡ leads_out (ids_view _ own.now) (node_view node.entry) }
{
    match node {
        Node::Expression(InlineExpression::MessageReference { id, .. }) => {
            !own.has_message(id.name)
        }
        _ => false,
    }
}
