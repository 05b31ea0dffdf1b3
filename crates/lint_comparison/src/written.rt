//! Terms of the reference that a message writes out.
#![tactic(auto)]

ghost use Rattle.std.specs.Prelude.{◌≡◌, IfOk, OnOk};
ghost use Rattle.std.specs.List.{list_any};
ghost use Rattle.lint_comparison.specs.LossView.{IsName, nodes_of};
ghost use Rattle.lint_comparison.specs.WrittenView.{AddsTerm, IsTerm, IsTextOf, first_term_in, first_written_in, is_written_in, loss_in, term_in};
ghost use Rattle.lint_findings.specs.Losses as l;

use crate::loss::Loss;
use crate::words::{message_has, plain_texts};
use fluent_ast::{InlineExpression, Message};
use fluent_ids::GetEntry;
use lint_findings::CatalogIds;
use lint_nodes::Node;
use std::alloc::{AllocError, Global};

/// Adds the first term to which the message of the reference refers by one of the other nodes, and
/// that the message of the catalog with these nodes writes out.
///
/// # Errors
/// [`AllocError`] if memory runs out; nothing is added then.
pub fn push_written<'i, 's: 'i>(
    alloc: Global,
    reference: &CatalogIds<'_, 's>,
    message: &Message<&str>,
    other: &Message<&str>,
    nodes: &[Node<'_, '_>],
    others: &[Node<'_, 's>],
    losses: &mut Vec<Loss<'i>>,
) -> Result<(), AllocError>
    ensures { OnOk result (AddsTerm reference.now message.now other.now nodes.now others.now
        losses.old losses.new) }
{
    if let Some((id, text)) = first_term(alloc, reference, message, other, nodes, others)? {
        losses.push(Loss::WrittenTerm { id, text })?;
    }
    Ok(())
}

/// The id of that term, and the text as which it is written out.
fn first_term<'s>(
    alloc: Global,
    reference: &CatalogIds<'_, 's>,
    message: &Message<&str>,
    other: &Message<&str>,
    nodes: &[Node<'_, '_>],
    others: &[Node<'_, 's>],
) -> Result<Option<(&'s str, &'s str)>, AllocError>
    ensures { IfOk result
        (IsTerm (first_term_in reference.now message.now other.now nodes.now others.now)) }
{
    for node in others {
        if let Some(term) = term_of(alloc, reference, message, other, nodes, *node)? {
            return Ok(Some(term));
        }
    }
    Ok(None)
}

fn term_of<'s>(
    alloc: Global,
    reference: &CatalogIds<'_, 's>,
    message: &Message<&str>,
    other: &Message<&str>,
    nodes: &[Node<'_, '_>],
    node: Node<'_, 's>,
) -> Result<Option<(&'s str, &'s str)>, AllocError>
    ensures { IfOk result
        (IsTerm (term_in reference.now message.now other.now nodes.now node.entry)) }
{
    match node {
        Node::Expression(InlineExpression::TermReference { id, .. }) => {
            term_loss(alloc, reference, message, other, nodes, id.name)
        }
        _ => Ok(None),
    }
}

fn term_loss<'s>(
    alloc: Global,
    reference: &CatalogIds<'_, 's>,
    message: &Message<&str>,
    other: &Message<&str>,
    nodes: &[Node<'_, '_>],
    id: &'s str,
) -> Result<Option<(&'s str, &'s str)>, AllocError>
    ensures { IfOk result
        (IsTerm (loss_in reference.now message.now other.now nodes.now id.now)) }
{
    match written_text(alloc, reference, message, other, nodes, id)? {
        Some(text) => Ok(Some((id, text))),
        None => Ok(None),
    }
}

/// The text as which a message writes out the term of this id, if it doesn't refer to it.
fn written_text<'s>(
    alloc: Global,
    reference: &CatalogIds<'_, 's>,
    message: &Message<&str>,
    other: &Message<&str>,
    nodes: &[Node<'_, '_>],
    id: &str,
) -> Result<Option<&'s str>, AllocError>
    ensures { IfOk result
        (IsTextOf id.now (loss_in reference.now message.now other.now nodes.now id.now)) }
{
    if refers_to(nodes, id) {
        return Ok(None);
    }
    match reference.get_entry_term(id) {
        Some(term) => {
            let texts = plain_texts(alloc, &term.value)?;
            Ok(first_written(message, other, &texts))
        }
        None => Ok(None),
    }
}

/// The first of some texts that a message has, and that of the reference hasn't.
fn first_written<'s>(
    message: &Message<&str>,
    other: &Message<&str>,
    texts: &[&'s str],
) -> Option<&'s str>
    ensures { IsName (first_written_in message.now other.now texts.now) result }
{
    for text in texts {
        if is_written(message, other, text) {
            return Some(text);
        }
    }
    None
}

fn is_written(message: &Message<&str>, other: &Message<&str>, text: &str) -> bool
    ensures { result ≡ is_written_in message.now other.now text.now }
{
    text.len() > 2 && message_has(message, text) && !message_has(other, text)
}

/// Whether one of some nodes refers to the term of this id.
fn refers_to(nodes: &[Node<'_, '_>], id: &str) -> bool
    ensures { result ≡ list_any (l.is_term id.now) (nodes_of nodes.now) }
{
    for node in nodes {
        if let Node::Expression(InlineExpression::TermReference { id: other, .. }) = node {
            if other.name == id {
                return true;
            }
        }
    }
    false
}
