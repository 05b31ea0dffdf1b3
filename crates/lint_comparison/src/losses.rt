//! What a message loses of that of the reference.
#![tactic(auto)]

ghost use Rattle.std.specs.Prelude.{◌≡◌, IfOk, OnOk};
ghost use Rattle.fluent_ast.specs.Borrowed.{message_of};
ghost use Rattle.lint_comparison.specs.LossView.{AddsBeside, AddsLosses, AreLossesOf, FindsAt, FindsLosses, losses_between, nodes_of, value_nodes};
ghost use Rattle.lint_findings.specs.Losses as l;
ghost use Rattle.lint_nodes.specs.NodeView.{Adds};

use crate::dropped::push_dropped;
use crate::lacking::{are_quoting, push_lacking};
use crate::loss::Loss;
use crate::written::push_written;
use fluent_ast::{Message, Pattern};
use fluent_plurals::LanguagePlurals;
use lint_findings::{CatalogIds, Finding};
use lint_flaws::{push_attributes, push_nodes};
use lint_nodes::Node;
use std::alloc::{AllocError, Global};

/// Adds the findings of what a message of the catalog loses of that of the reference, at this
/// offset.
///
/// # Errors
/// [`AllocError`] if memory runs out; some may be added then.
pub fn push_loss_findings<'t>(
    alloc: Global,
    reference: &CatalogIds<'_, 't>,
    plurals: Option<LanguagePlurals>,
    message: &Message<&str>,
    other: &Message<&'t str>,
    offset: usize,
    findings: &mut Vec<Finding>,
) -> Result<(), AllocError>
    ensures { OnOk result (FindsLosses reference.now plurals message.now other.now offset
        findings.old findings.new) }
{
    let losses = message_losses(alloc, reference, plurals, message, other)?;
    push_findings(alloc, message.id.name, offset, &losses, findings)
}

/// Adds the findings of these losses of the message of this id, at this offset.
fn push_findings(
    alloc: Global,
    id: &str,
    offset: usize,
    losses: &[Loss<'_>],
    findings: &mut Vec<Finding>,
) -> Result<(), AllocError>
    ensures { OnOk result (FindsAt id.now offset losses.now findings.old findings.new) }
{
    for loss in losses {
        findings.push(loss.finding(alloc, id, offset)?)?;
    }
    Ok(())
}

/// What a message loses of that of the reference, by the rules of a language, if they are known.
///
/// # Errors
/// [`AllocError`] if memory runs out; nothing is kept.
fn message_losses<'i, 's: 'i, 't: 'i>(
    alloc: Global,
    reference: &CatalogIds<'_, 't>,
    plurals: Option<LanguagePlurals>,
    message: &Message<&'s str>,
    other: &Message<&'t str>,
) -> Result<Vec<Loss<'i>>, AllocError>
    ensures { IfOk result (AreLossesOf reference.now plurals message.now other.now) }
{
    let mut losses = Vec::new(alloc);
    push_losses(alloc, reference, plurals, message, other, &mut losses)?;
    Ok(losses)
}

/// Adds those of a message that both have.
fn push_losses<'i, 's: 'i, 't: 'i>(
    alloc: Global,
    reference: &CatalogIds<'_, 't>,
    plurals: Option<LanguagePlurals>,
    message: &Message<&'s str>,
    other: &Message<&'t str>,
    losses: &mut Vec<Loss<'i>>,
) -> Result<(), AllocError>
    ensures { OnOk result (AddsLosses losses.old losses.new
        (losses_between reference.now plurals message.now other.now)) }
{
    let nodes = message_nodes(alloc, message)?;
    push_beside(alloc, reference, plurals, message, &nodes, other, losses)
}

/// The same of a message with these nodes.
fn push_beside<'i, 's: 'i, 't: 'i>(
    alloc: Global,
    reference: &CatalogIds<'_, 't>,
    plurals: Option<LanguagePlurals>,
    message: &Message<&'s str>,
    nodes: &[Node<'_, 's>],
    other: &Message<&'t str>,
    losses: &mut Vec<Loss<'i>>,
) -> Result<(), AllocError>
    ensures { OnOk result (AddsBeside reference.now plurals message.now nodes.now other.now
        losses.old losses.new) }
{
    let others = message_nodes(alloc, other)?;
    push_lacking(alloc, nodes, &others, losses)?;
    push_dropped(alloc, plurals, message, nodes, &others, losses)?;
    push_written(alloc, reference, message, other, nodes, &others, losses)
}

/// Whether a string literal of a message has a placeable in quotes.
///
/// # Errors
/// [`AllocError`] if memory runs out; nothing is kept.
pub fn has_quoted(alloc: Global, message: &Message<&str>) -> Result<bool, AllocError>
    ensures { IfOk result (λ has. has ≡ l.message_quotes (message_of message.now)) }
{
    let nodes = message_nodes(alloc, message)?;
    Ok(are_quoting(&nodes))
}

/// The nodes of a message: of its value, and of its attributes.
fn message_nodes<'a, 's>(
    alloc: Global,
    message: &'a Message<&'s str>,
) -> Result<Vec<Node<'a, 's>>, AllocError>
    ensures { IfOk result (λ nodes. nodes_of nodes.items ≡ l.message_nodes (message_of message.now)) }
{
    let mut nodes = Vec::new(alloc);
    push_value(alloc, &message.value, &mut nodes)?;
    push_attributes(alloc, &message.attributes, &mut nodes)?;
    Ok(nodes)
}

/// Adds the nodes of a value, if there is one.
fn push_value<'a, 's>(
    alloc: Global,
    value: &'a Option<Pattern<&'s str>>,
    nodes: &mut Vec<Node<'a, 's>>,
) -> Result<(), AllocError>
    ensures { OnOk result (Adds nodes.old nodes.new (value_nodes value.now)) }
{
    match value {
        Some(pattern) => push_nodes(alloc, pattern, nodes),
        None => Ok(()),
    }
}
