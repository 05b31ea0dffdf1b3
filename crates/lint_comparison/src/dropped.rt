//! Plural variants of the reference that a message drops.
#![tactic(auto)]

ghost use Rattle.std.specs.Prelude.{◌≡◌, IfOk, OnOk};
ghost use Rattle.std.specs.List.{list_any};
ghost use Rattle.fluent_ast.specs.Borrowed.{elements_of, inline_of, message_of, variants_of};
ghost use Rattle.lint_comparison.specs.LossView.{AddsLosses, IsName, dropped_in, dropped_variable_in, nodes_of};
ghost use Rattle.lint_findings.specs.Losses as l;
ghost use Rattle.lint_nodes.specs.NodeView.{node_view};

use crate::counted::are_categories;
use crate::loss::Loss;
use crate::same::is_same_pattern;
use crate::shown::message_shows;
use fluent_ast::{InlineExpression, Message, Pattern, Variant};
use fluent_number::PluralRuleType;
use fluent_plurals::LanguagePlurals;
use lint_flaws::{counted, has_forms, selector_rule};
use lint_nodes::Node;
use std::alloc::{AllocError, Global};

/// Adds that a message with these nodes has no choice, although the reference with the others
/// chooses by plural categories, if the language has more than one.
///
/// # Errors
/// [`AllocError`] if memory runs out; nothing is added then.
pub fn push_dropped<'i, 's: 'i>(
    alloc: Global,
    plurals: Option<LanguagePlurals>,
    message: &Message<&str>,
    nodes: &[Node<'_, '_>],
    others: &[Node<'_, 's>],
    losses: &mut Vec<Loss<'i>>,
) -> Result<(), AllocError>
    ensures { OnOk result (AddsLosses losses.old losses.new
        (dropped_in plurals message.now nodes.now others.now)) }
{
    let Some(plurals) = plurals else {
        return Ok(());
    };
    if let Some(variable) = dropped_variable(alloc, &plurals, message, nodes, others)? {
        losses.push(Loss::DroppedPlural(variable))?;
    }
    Ok(())
}

fn dropped_variable<'i>(
    alloc: Global,
    plurals: &LanguagePlurals,
    message: &Message<&str>,
    nodes: &[Node<'_, '_>],
    others: &[Node<'_, 'i>],
) -> Result<Option<&'i str>, AllocError>
    ensures { IfOk result
        (IsName (dropped_variable_in plurals.now message.now nodes.now others.now)) }
{
    if has_choice(nodes) || !has_forms(plurals) {
        return Ok(None);
    }
    first_plural(alloc, message, others)
}

/// The first variable by which a node of the reference chooses, and that the message shows.
fn first_plural<'i>(
    alloc: Global,
    message: &Message<&str>,
    others: &[Node<'_, 'i>],
) -> Result<Option<&'i str>, AllocError>
    ensures { IfOk result
        (IsName (l.first_plural (message_of message.now) (nodes_of others.now))) }
{
    for other in others {
        if let Some(variable) = plural_of(alloc, message, *other)? {
            return Ok(Some(variable));
        }
    }
    Ok(None)
}

fn plural_of<'i>(
    alloc: Global,
    message: &Message<&str>,
    other: Node<'_, 'i>,
) -> Result<Option<&'i str>, AllocError>
    ensures { IfOk result
        (IsName (l.plural_of (message_of message.now) (node_view other.entry))) }
{
    let Node::Select { selector, variants } = other else {
        return Ok(None);
    };
    if !chooses_plural(alloc, selector, variants)? {
        return Ok(None);
    }
    match counted(selector) {
        Some(variable) if message_shows(message, variable) => Ok(Some(variable)),
        _ => Ok(None),
    }
}

/// Whether a select has variants for plural categories alone, not of ordinals, which differ.
fn chooses_plural(
    alloc: Global,
    selector: &InlineExpression<&str>,
    variants: &[Variant<&str>],
) -> Result<bool, AllocError>
    ensures { IfOk result (λ chooses. chooses ≡ l.chooses_plural (inline_of selector.now)
        (variants_of variants.now)) }
{
    let is_cardinal = matches!(selector_rule(alloc, selector)?, PluralRuleType::CARDINAL);
    Ok(is_cardinal && are_categories(variants) && variants_differ(variants))
}

/// Whether one of some variants has another pattern than the first.
fn variants_differ<'s>(variants: &[Variant<&'s str>]) -> bool
    ensures { result ≡ l.variants_differ (variants_of variants.now) }
{
    match variants {
        [] => false,
        [first, others @ ..] => differ_from(&first.value, others),
    }
}

fn differ_from<'s>(pattern: &Pattern<&'s str>, variants: &[Variant<&'s str>]) -> bool
    ensures { result ≡ l.differ_from (elements_of pattern.now) (variants_of variants.now) }
{
    for variant in variants {
        if !is_same_pattern(&variant.value, pattern) {
            return true;
        }
    }
    false
}

/// Whether one of some nodes is a select with more than one variant.
fn has_choice(nodes: &[Node<'_, '_>]) -> bool
    ensures { result ≡ list_any l.is_choice (nodes_of nodes.now) }
{
    for node in nodes {
        if is_choice(*node) {
            return true;
        }
    }
    false
}

fn is_choice(node: Node<'_, '_>) -> bool
    ensures { result ≡ l.is_choice (node_view node.entry) }
{
    match node {
        Node::Select { variants, .. } => variants.len() > 1,
        _ => false,
    }
}
