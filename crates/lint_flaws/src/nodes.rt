//! The flaw of a node.
#![tactic(auto)]

ghost use Rattle.std.specs.Prelude.{◌≡◌, map, option_copied, is_some};
ghost use Rattle.std.specs.Option.{option_to_list};
ghost use Rattle.fluent_ast.specs.Borrowed.{attributes_of, inline_of, variants_of};
ghost use Rattle.lint_findings.specs.EntryFindings.{node_flaws};
ghost use Rattle.lint_findings.specs.References.{function_error, reference_error};
ghost use Rattle.lint_flaws.specs.FlawView.{IsFlawOf, IsFlawAt, flaw_view};
ghost use Rattle.fluent_ids.specs.IdsView.{ids_view};
ghost use Rattle.fluent_meaning.specs.Choice.{first_default};
ghost use Rattle.fluent_meaning.specs.Ids.{attribute_named, find};
ghost use Rattle.fluent_meaning.specs.Substitution.{message_target, term_target};
ghost use Rattle.lint_nodes.specs.NodeView.{node_view};

use crate::flaw::Flaw;
use fluent_ast::{Attribute, InlineExpression, Variant};
use fluent_ids::Entry;
use lint_findings::CatalogIds;
use lint_nodes::{Node, name_of};

/// The flaw of a node of a pattern, in a catalog with these ids. A node has one at most.
pub fn node_flaw<'a, 's>(ids: &CatalogIds<'_, 's>, node: Node<'a, 's>) -> Option<Flaw<'a, 's>>
    ensures { map flaw_view (option_to_list result)
        ≡ node_flaws (ids_view _ ids.now) (node_view node.entry) }
{
    match node {
        Node::Expression(expression) => reference_flaw(ids, expression),
        Node::Select { variants, .. } => {
            if has_default(variants) {
                None
            } else {
                Some(Flaw::NoDefault)
            }
        }
        Node::RepeatedKey(key) => Some(Flaw::RepeatedKey(key)),
    }
}

/// Whether one of these variants is the default.
fn has_default(variants: &[Variant<&str>]) -> bool
    ensures { result ≡ is_some (first_default (variants_of variants.now)) }
{
    for variant in variants {
        if variant.default {
            return true;
        }
    }
    false
}

/// The flaw of a reference, if it has one.
fn reference_flaw<'a, 's>(
    ids: &CatalogIds<'_, 's>,
    expression: &'a InlineExpression<&'s str>,
) -> Option<Flaw<'a, 's>>
    ensures { IsFlawOf result
        (reference_error (find (ids_view _ ids.now)) (inline_of expression.now)) }
{
    match expression {
        InlineExpression::FunctionReference { id, .. } => function_flaw(ids, id.name),
        InlineExpression::MessageReference { id, attribute } => {
            message_flaw(ids, id.name, name_of(attribute))
        }
        InlineExpression::TermReference { id, attribute, .. } => {
            term_flaw(ids, id.name, name_of(attribute))
        }
        InlineExpression::StringLiteral { .. }
        | InlineExpression::NumberLiteral { .. }
        | InlineExpression::VariableReference { .. }
        | InlineExpression::Placeable { .. } => None,
    }
}

/// The flaw of a call of a function of this name, if it has one.
fn function_flaw<'a, 's>(ids: &CatalogIds<'_, 's>, id: &'s str) -> Option<Flaw<'a, 's>>
    ensures { IsFlawOf result (function_error id.now (find (ids_view _ ids.now) id.now)) }
{
    match ids.get(id) {
        Some(Entry::Function(_) | Entry::Number) => None,
        _ => Some(Flaw::UnknownFunction { id }),
    }
}

/// The flaw of a reference to this message, or to this attribute of it, if it has one.
fn message_flaw<'a, 's>(
    ids: &CatalogIds<'_, 's>,
    id: &'s str,
    attribute: Option<&'s str>,
) -> Option<Flaw<'a, 's>>
    ensures { IsFlawAt result
        (message_target id.now (option_copied attribute.entry) (find (ids_view _ ids.now) id.now)) }
{
    let unknown = Flaw::UnknownMessage { id, attribute };
    let Some(Entry::Message((_, message))) = ids.get(id) else {
        return Some(unknown);
    };
    match attribute {
        Some(name) if has_attribute(&message.attributes, name) => None,
        Some(_) => Some(unknown),
        None if message.value.is_some() => None,
        None => Some(Flaw::NoValue { id }),
    }
}

/// The flaw of a reference to this term, or to this attribute of it, if it has one.
fn term_flaw<'a, 's>(
    ids: &CatalogIds<'_, 's>,
    id: &'s str,
    attribute: Option<&'s str>,
) -> Option<Flaw<'a, 's>>
    ensures { IsFlawAt result
        (term_target id.now (option_copied attribute.entry) (find (ids_view _ ids.now) id.now)) }
{
    let unknown = Flaw::UnknownTerm { id, attribute };
    let Some(Entry::Term((_, term))) = ids.get(id) else {
        return Some(unknown);
    };
    match attribute {
        Some(name) if !has_attribute(&term.attributes, name) => Some(unknown),
        _ => None,
    }
}

/// Whether one of these attributes has this name.
fn has_attribute(attributes: &[Attribute<&str>], name: &str) -> bool
    ensures { result ≡ is_some (attribute_named name.now (attributes_of attributes.now)) }
{
    for attribute in attributes {
        if attribute.id.name == name {
            return true;
        }
    }
    false
}
