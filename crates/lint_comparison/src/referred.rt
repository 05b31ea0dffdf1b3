//! The functions that trees call, and the terms that they refer to.
#![tactic(auto)]

ghost use Rattle.std.specs.Prelude.{IfOk, OnOk, map, option_map};
ghost use Rattle.fluent_ast.specs.Borrowed.{attributes_of, elements_of, entry_of};
ghost use Rattle.lint_nodes.specs.NodeView.{node_view};
ghost use Rattle.lint_comparison.specs.Referred.{AddsIds, AreCalledIn, AreIdsIn, AreReferredIn, attribute_ids, entries_ids, entry_ids, named_by, node_ids, pattern_ids, value_ids};

use fluent_ast::{Attribute, Entry, InlineExpression, Pattern, Resource};
use lint_nodes::{Node, pattern_nodes};
use std::alloc::{AllocError, Global};

/// What references are looked for.
#[derive(Clone, Copy)]
enum Referred {
    /// Calls of functions.
    Functions,
    /// References to terms.
    Terms,
}

/// The ids of the functions that trees call, in their order and as often as they are called.
///
/// # Errors
/// [`AllocError`] if memory runs out; nothing is kept.
pub fn called_functions<'s>(
    alloc: Global,
    trees: &[Resource<&'s str>],
) -> Result<Vec<&'s str>, AllocError>
    ensures { IfOk result (AreCalledIn trees.now) }
{
    ids_in(alloc, Referred::Functions, trees)
}

/// The ids of the terms that trees refer to, in their order and as often as they do.
///
/// # Errors
/// [`AllocError`] if memory runs out; nothing is kept.
pub fn referred_terms<'s>(
    alloc: Global,
    trees: &[Resource<&'s str>],
) -> Result<Vec<&'s str>, AllocError>
    ensures { IfOk result (AreReferredIn trees.now) }
{
    ids_in(alloc, Referred::Terms, trees)
}

/// The ids that references of trees name.
fn ids_in<'s>(
    alloc: Global,
    what: Referred,
    trees: &[Resource<&'s str>],
) -> Result<Vec<&'s str>, AllocError>
    ensures { IfOk result (AreIdsIn what trees.now) }
{
    let mut ids = Vec::new(alloc);
    for tree in trees {
        push_entries(alloc, what, &tree.body, &mut ids)?;
    }
    Ok(ids)
}

/// Adds those of entries.
fn push_entries<'s>(
    alloc: Global,
    what: Referred,
    entries: &[Entry<&'s str>],
    ids: &mut Vec<&'s str>,
) -> Result<(), AllocError>
    ensures { OnOk result (AddsIds ids.old ids.new
        (entries_ids (named_by what) (map entry_of entries.now))) }
{
    for entry in entries {
        push_entry(alloc, what, entry, ids)?;
    }
    Ok(())
}

fn push_entry<'s>(
    alloc: Global,
    what: Referred,
    entry: &Entry<&'s str>,
    ids: &mut Vec<&'s str>,
) -> Result<(), AllocError>
    ensures { OnOk result (AddsIds ids.old ids.new (entry_ids (named_by what) (entry_of entry.now))) }
{
    match entry {
        Entry::Message(message) => {
            push_value(alloc, what, &message.value, ids)?;
            push_attributes(alloc, what, &message.attributes, ids)
        }
        Entry::Term(term) => {
            push_pattern(alloc, what, &term.value, ids)?;
            push_attributes(alloc, what, &term.attributes, ids)
        }
        _ => Ok(()),
    }
}

fn push_value<'s>(
    alloc: Global,
    what: Referred,
    value: &Option<Pattern<&'s str>>,
    ids: &mut Vec<&'s str>,
) -> Result<(), AllocError>
    ensures { OnOk result (AddsIds ids.old ids.new
        (value_ids (named_by what) (option_map elements_of value.now))) }
{
    match value {
        Some(pattern) => push_pattern(alloc, what, pattern, ids),
        None => Ok(()),
    }
}

fn push_attributes<'s>(
    alloc: Global,
    what: Referred,
    attributes: &[Attribute<&'s str>],
    ids: &mut Vec<&'s str>,
) -> Result<(), AllocError>
    ensures { OnOk result (AddsIds ids.old ids.new
        (attribute_ids (named_by what) (attributes_of attributes.now))) }
{
    for attribute in attributes {
        push_pattern(alloc, what, &attribute.value, ids)?;
    }
    Ok(())
}

fn push_pattern<'s>(
    alloc: Global,
    what: Referred,
    pattern: &Pattern<&'s str>,
    ids: &mut Vec<&'s str>,
) -> Result<(), AllocError>
    ensures { OnOk result (AddsIds ids.old ids.new
        (pattern_ids (named_by what) (elements_of pattern.now))) }
{
    let nodes = pattern_nodes(alloc, pattern)?;
    for node in &nodes {
        push_node(what, *node, ids)?;
    }
    Ok(())
}

fn push_node<'s>(
    what: Referred,
    node: Node<'_, 's>,
    ids: &mut Vec<&'s str>,
) -> Result<(), AllocError>
    ensures { OnOk result (AddsIds ids.old ids.new (node_ids (named_by what) (node_view node.entry))) }
{
    match (what, node) {
        (Referred::Functions, Node::Expression(InlineExpression::FunctionReference { id, .. }))
        | (Referred::Terms, Node::Expression(InlineExpression::TermReference { id, .. })) => {
            Ok(ids.push(id.name)?)
        }
        _ => Ok(()),
    }
}
