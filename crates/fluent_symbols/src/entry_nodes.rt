//! The nodes of the entries of a source, each after those in it.

ghost use Rattle.std.specs.Prelude.{◌≡◌, IfOk, OnOk, map};
ghost use Rattle.fluent_ast.specs.Borrowed.{attribute_of, attributes_of, entries_of, entry_of, lines_of, message_of, term_of};
ghost use Rattle.fluent_grammar.specs.Tree as t;
ghost use Rattle.fluent_symbols.specs.EntryNodes as plain;
ghost use Rattle.fluent_symbols.specs.Node.{comment_end, comment_node, next_line};
ghost use Rattle.fluent_symbols.specs.NodeView.{Adds, kind_view, node_view};
ghost use Rattle.fluent_symbols.specs.NodePartView.{elements_if, lines_if};

use crate::node::{Node, NodeKind, push_name, push_node};
use crate::pattern_nodes::{Ended, push_pattern};
use crate::places::{line_end, next_line};
use fluent_ast::{Attribute, Comment, Entry, Message, Pattern, Resource, Term};
use lint_entries::text::{after_equals, skip_blank_block, skip_spaces};
use lint_nodes::skip;
use lint_nodes::texts::first_placeable;
use std::alloc::{AllocError, Global};

/// The nodes of a source by its tree, each after those in it.
///
/// # Errors
/// [`AllocError`] if memory runs out; nothing is kept.
pub fn source_nodes<'s>(
    alloc: Global,
    source: &'s str,
    tree: &Resource<&str>,
) -> Result<Vec<Node<'s>>, AllocError>
    ensures { IfOk result (λ found. map node_view found.items
        ≡ plain.in_entries (entries_of tree.now) source.now) }
{
    let mut found = Vec::new(alloc);
    let mut rest = source.as_bytes();
    for entry in &tree.body {
        rest = push_entry(entry, skip_blank_block(rest), &mut found)?;
    }
    Ok(found)
}

/// Adds the nodes of the entry at the front of a text, with the comment above it. Returns the text
/// after it.
fn push_entry<'t>(
    entry: &Entry<&str>,
    text: &'t [u8],
    found: &mut Vec<Node<'t>>,
) -> Result<&'t [u8], AllocError>
    ensures rest { IfOk result (λ rest. rest.now ≡ plain.entry_rest (entry_of entry.now) text.now) }
    ensures added { OnOk result (Adds found.old found.new (plain.in_entry (entry_of entry.now) text.now)) }
{
    match entry {
        Entry::Message(message) => push_message(message, text, found),
        Entry::Term(term) => push_term(term, text, found),
        Entry::Comment(comment) => push_comment(NodeKind::Comment, comment, text, found),
        Entry::GroupComment(comment) => push_comment(NodeKind::GroupComment, comment, text, found),
        Entry::ResourceComment(comment) => {
            push_comment(NodeKind::ResourceComment, comment, text, found)
        }
        Entry::Junk { content } => {
            push_node(NodeKind::Junk, text, skip(text, content.len()), found)
        }
    }
}

/// Adds a comment. Returns the text after its last line.
fn push_comment<'t>(
    kind: NodeKind,
    comment: &Comment<&str>,
    text: &'t [u8],
    found: &mut Vec<Node<'t>>,
) -> Result<&'t [u8], AllocError>
    ensures rest { IfOk result (λ rest. rest.now ≡ next_line (comment_end (lines_of comment.now) text.now)) }
    ensures added { OnOk result (Adds found.old found.new
        (comment_node (kind_view kind) (lines_of comment.now) text.now)) }
{
    let end = end_of_comment(comment, text);
    push_node(kind, text, end, found)?;
    Ok(next_line(end))
}

/// The end of the last line of a comment.
fn end_of_comment<'t>(comment: &Comment<&str>, text: &'t [u8]) -> &'t [u8]
    ensures { result.now ≡ comment_end (lines_of comment.now) text.now }
{
    let mut end = line_end(text);
    let mut rest = text;
    for _line in &comment.content {
        end = line_end(rest);
        rest = next_line(rest);
    }
    end
}

/// Adds the comment above a message or a term, if there is one. Returns the text after it.
fn push_comment_above<'t>(
    comment: &Option<Comment<&str>>,
    text: &'t [u8],
    found: &mut Vec<Node<'t>>,
) -> Result<&'t [u8], AllocError>
    ensures rest { IfOk result (λ rest. rest.now ≡ plain.after_comment (lines_if comment.now) text.now) }
    ensures added { OnOk result (Adds found.old found.new
        (plain.in_comment (lines_if comment.now) text.now)) }
{
    match comment {
        Some(comment) => push_comment(NodeKind::Comment, comment, text, found),
        None => Ok(text),
    }
}

fn push_message<'t>(
    message: &Message<&str>,
    text: &'t [u8],
    found: &mut Vec<Node<'t>>,
) -> Result<&'t [u8], AllocError>
    ensures rest { IfOk result (λ rest. rest.now
        ≡ plain.entry_rest (t.message (message_of message.now)) text.now) }
    ensures added { OnOk result (Adds found.old found.new
        (plain.in_entry (t.message (message_of message.now)) text.now)) }
{
    let name = push_comment_above(&message.comment, text, found)?;
    push_name(message.id.name, name, found)?;
    let value = push_value(&message.value, after_equals(name), found)?;
    let at = skip_blank_block(value.rest);
    let attributes = push_attributes(&message.attributes, value.end, at, found)?;
    push_node(NodeKind::Message, text, attributes.end, found)?;
    Ok(attributes.rest)
}

/// Adds the nodes of a term. The text is the source from the comment above it on, or from its
/// minus.
fn push_term<'t>(
    term: &Term<&str>,
    text: &'t [u8],
    found: &mut Vec<Node<'t>>,
) -> Result<&'t [u8], AllocError>
    ensures rest { IfOk result (λ rest. rest.now
        ≡ plain.entry_rest (t.term (term_of term.now)) text.now) }
    ensures added { OnOk result (Adds found.old found.new
        (plain.in_entry (t.term (term_of term.now)) text.now)) }
{
    let name = skip(push_comment_above(&term.comment, text, found)?, 1);
    push_name(term.id.name, name, found)?;
    let value = push_pattern(&term.value, after_equals(name), found)?;
    let at = skip_blank_block(value.rest);
    let attributes = push_attributes(&term.attributes, value.end, at, found)?;
    push_node(NodeKind::Term, text, attributes.end, found)?;
    Ok(attributes.rest)
}

/// Adds the nodes of a value, which a message may lack.
fn push_value<'t>(
    value: &Option<Pattern<&str>>,
    text: &'t [u8],
    found: &mut Vec<Node<'t>>,
) -> Result<Ended<'t>, AllocError>
    ensures rest { IfOk result (λ ended. ended.rest.now
        ≡ plain.value_rest (elements_if value.now) text.now) }
    ensures end { IfOk result (λ ended. ended.end.now
        ≡ plain.value_end (elements_if value.now) text.now) }
    ensures added { OnOk result (Adds found.old found.new
        (plain.in_value (elements_if value.now) text.now)) }
{
    match value {
        Some(pattern) => push_pattern(pattern, text, found),
        None => Ok(Ended {
            end: text,
            rest: first_placeable(text),
        }),
    }
}

/// Adds the nodes of attributes, from the line of the first one on. The end is that of the last of
/// them, or that of what is before them.
fn push_attributes<'t>(
    attributes: &[Attribute<&str>],
    before: &'t [u8],
    text: &'t [u8],
    found: &mut Vec<Node<'t>>,
) -> Result<Ended<'t>, AllocError>
    ensures rest { IfOk result (λ ended. ended.rest.now
        ≡ plain.attributes_rest (attributes_of attributes.now) text.now) }
    ensures end { IfOk result (λ ended. ended.end.now
        ≡ plain.last_end before.now (attributes_of attributes.now) text.now) }
    ensures added { OnOk result (Adds found.old found.new
        (plain.in_attributes (attributes_of attributes.now) text.now)) }
{
    let mut end = before;
    let mut rest = text;
    for attribute in attributes {
        let ended = push_attribute(attribute, skip_spaces(rest), found)?;
        end = ended.end;
        rest = ended.rest;
    }
    Ok(Ended { end, rest })
}

/// Adds the nodes of an attribute, from its dot on.
fn push_attribute<'t>(
    attribute: &Attribute<&str>,
    text: &'t [u8],
    found: &mut Vec<Node<'t>>,
) -> Result<Ended<'t>, AllocError>
    ensures rest { IfOk result (λ ended. ended.rest.now
        ≡ plain.attribute_rest (attribute_of attribute.now) text.now) }
    ensures end { IfOk result (λ ended. ended.end.now
        ≡ plain.attribute_end (attribute_of attribute.now) text.now) }
    ensures added { OnOk result (Adds found.old found.new
        (plain.in_attribute (attribute_of attribute.now) text.now)) }
{
    let name = skip(text, 1);
    push_name(attribute.id.name, name, found)?;
    let ended = push_pattern(&attribute.value, after_equals(name), found)?;
    push_node(NodeKind::Attribute, text, ended.end, found)?;
    Ok(ended)
}
