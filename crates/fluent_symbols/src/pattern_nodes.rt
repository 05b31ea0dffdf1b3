//! A walk through the tree of a pattern and its source. Each function adds the nodes in a part,
//! each after those in it, and gives what follows the part.

ghost use Rattle.std.specs.Prelude.{◌≡◌, IfOk, OnOk, drop, length};
ghost use Rattle.fluent_ast.specs.Borrowed.{arguments_of, elements_of, expression_of, inline_of, key_of, maybe_arguments_of, named_of, positional_of, variants_of};
ghost use Rattle.fluent_grammar.specs.Tree as t;
ghost use Rattle.lint_findings.specs.FlawWords.{key_text as text_of_key};
ghost use Rattle.lint_nodes.specs.Rests as rests;
ghost use Rattle.fluent_symbols.specs.NodeView.{Adds, kind_view};
ghost use Rattle.fluent_symbols.specs.Node.{leaf};
ghost use Rattle.fluent_symbols.specs.NodePartView.{EndsAt, Leaves, function_of, in_term, message_of, name_if, term_of};
ghost use Rattle.fluent_symbols.specs.PatternNodes as plain;

use crate::node::{Node, NodeKind, push_name, push_node};
use crate::places::{line_end, pattern_start, text_start};
use fluent_ast::{
    CallArguments, Expression, Identifier, InlineExpression, NamedArgument, Pattern,
    PatternElement, Variant, VariantKey,
};
use fluent_tokens::ends_line;
use lint_nodes::key_text;
use lint_nodes::texts::{after_texts, first_placeable};
use lint_nodes::words::{
    after_name, after_sign, first_variant, key_of_variant, skip, skip_blank, skip_mark,
    skip_separator, value_of_argument, within,
};
use std::alloc::AllocError;

/// Where a part ends, and what follows it: after the end there may be blank that was read with it.
#[derive(Clone, Copy)]
pub struct Ended<'t> {
    pub end: &'t [u8],
    pub rest: &'t [u8],
}

/// Adds the nodes in a pattern at the front of a text.
///
/// # Errors
/// [`AllocError`] if memory runs out; `found` then holds its old nodes and some of these.
#[cycle(nodes)]
pub fn push_pattern<'t>(
    pattern: &Pattern<&str>,
    text: &'t [u8],
    found: &mut Vec<Node<'t>>,
) -> Result<Ended<'t>, AllocError>
    ensures rest { IfOk result (λ ended. ended.rest.now ≡ rests.pattern_rest (elements_of pattern.now) text.now) }
    ensures end { IfOk result (λ ended. ended.end.now ≡ plain.pattern_end (elements_of pattern.now) text.now) }
    ensures added { OnOk result (Adds found.old found.new
        (plain.in_pattern (elements_of pattern.now) text.now)) }
{
    let (start, begins_line) = pattern_start(text);
    let mut at = start;
    let mut at_line = begins_line;
    let mut next = first_placeable(text);
    for element in &pattern.elements {
        match element {
            PatternElement::TextElement { value } => {
                let from = text_start(at_line, value, at);
                at = after_name(from, value);
                push_node(NodeKind::TextElement, from, at, found)?;
                at_line = ends_line(value.as_bytes());
            }
            PatternElement::Placeable { expression } => {
                at = push_placeable(expression, next, found)?.rest;
                at_line = false;
                next = after_texts(at);
            }
        }
    }
    let ended = Ended {
        end: line_end(at),
        rest: next,
    };
    push_ended(NodeKind::Pattern, start, ended, found)
}

/// Adds the nodes of a placeable, from its brace on.
#[cycle(nodes)]
fn push_placeable<'t>(
    part: &Expression<&str>,
    text: &'t [u8],
    found: &mut Vec<Node<'t>>,
) -> Result<Ended<'t>, AllocError>
    ensures rest { IfOk result (λ ended. ended.rest.now ≡ rests.placeable_rest (expression_of part.now) text.now) }
    ensures end { IfOk result (λ ended. ended.end.now ≡ rests.placeable_rest (expression_of part.now) text.now) }
    ensures added { OnOk result (Adds found.old found.new
        (plain.in_placeable (expression_of part.now) text.now)) }
{
    let rest = after_sign(push_expression(part, within(text), found)?);
    push_ended(NodeKind::Placeable, text, Ended { end: rest, rest }, found)
}

#[cycle(nodes)]
fn push_expression<'t>(
    part: &Expression<&str>,
    text: &'t [u8],
    found: &mut Vec<Node<'t>>,
) -> Result<&'t [u8], AllocError>
    ensures rest { IfOk result (λ rest. rest.now ≡ rests.expression_rest (expression_of part.now) text.now) }
    ensures added { OnOk result (Adds found.old found.new
        (plain.in_expression (expression_of part.now) text.now)) }
{
    match part {
        Expression::Inline(inline) => Ok(push_inline(inline, text, found)?.rest),
        Expression::Select { selector, variants } => {
            let selected = push_inline(selector, text, found)?;
            let rest = push_variants(variants, first_variant(selected.rest), found)?;
            push_node(NodeKind::Select, text, rest, found)
        }
    }
}

#[cycle(nodes)]
fn push_variants<'t>(
    variants: &[Variant<&str>],
    text: &'t [u8],
    found: &mut Vec<Node<'t>>,
) -> Result<&'t [u8], AllocError>
    ensures rest { IfOk result (λ rest. rest.now ≡ rests.variants_rest (variants_of variants.now) text.now) }
    ensures added { OnOk result (Adds found.old found.new
        (plain.in_variants (variants_of variants.now) text.now)) }
{
    let mut rest = text;
    for variant in variants {
        let value = after_sign(push_key(&variant.key, key_of_variant(rest), found)?);
        let ended = push_pattern(&variant.value, value, found)?;
        push_node(variant_kind(variant.default), rest, ended.end, found)?;
        rest = skip_blank(ended.rest);
    }
    Ok(skip_mark(rest))
}

fn variant_kind(is_default: bool) -> NodeKind
    ensures { kind_view result ≡ plain.variant_kind is_default }
{
    if is_default {
        NodeKind::DefaultVariant
    } else {
        NodeKind::Variant
    }
}

/// Adds the key of a variant, which stands here. Returns the text after it.
fn push_key<'t>(
    key: &VariantKey<&str>,
    text: &'t [u8],
    found: &mut Vec<Node<'t>>,
) -> Result<&'t [u8], AllocError>
    ensures rest { IfOk result (λ rest. rest.now ≡ drop (length (text_of_key (key_of key.now))) text.now) }
    ensures added { OnOk result (Adds found.old found.new (plain.key_node (key_of key.now) text.now)) }
{
    let kind = match key {
        VariantKey::Identifier { .. } => NodeKind::Identifier,
        VariantKey::NumberLiteral { .. } => NodeKind::NumberLiteral,
    };
    push_node(kind, text, after_name(text, key_text(key)), found)
}

/// Adds the attribute that a reference names, if it names one: at the dot at the front. Returns the
/// text after it.
fn push_attribute<'t>(
    name: &Option<Identifier<&str>>,
    text: &'t [u8],
    found: &mut Vec<Node<'t>>,
) -> Result<&'t [u8], AllocError>
    ensures rest { IfOk result (λ rest. rest.now
        ≡ rests.after_attribute (name_if name.now) text.now) }
    ensures added { OnOk result (Adds found.old found.new
        (plain.attribute_named (name_if name.now) text.now)) }
{
    match name {
        Some(name) => push_name(name.name, skip(text, 1), found),
        None => Ok(text),
    }
}

/// Adds a node that begins here and ends as its last part does. Returns where that ends.
fn push_ended<'t>(
    kind: NodeKind,
    text: &'t [u8],
    last: Ended<'t>,
    found: &mut Vec<Node<'t>>,
) -> Result<Ended<'t>, AllocError>
    ensures rest { IfOk result (λ ended. ended.rest.now ≡ last.entry.rest.now) }
    ensures end { IfOk result (λ ended. ended.end.now ≡ last.entry.end.now) }
    ensures added { OnOk result (Adds found.old found.new
        (leaf (kind_view kind) text.now last.entry.end.now)) }
{
    push_node(kind, text, last.end, found)?;
    Ok(last)
}

#[cycle(nodes)]
fn push_inline<'t>(
    inline: &InlineExpression<&str>,
    text: &'t [u8],
    found: &mut Vec<Node<'t>>,
) -> Result<Ended<'t>, AllocError>
    ensures rest { IfOk result (λ ended. ended.rest.now ≡ rests.inline_rest (inline_of inline.now) text.now) }
    ensures end { IfOk result (λ ended. ended.end.now ≡ plain.inline_end (inline_of inline.now) text.now) }
    ensures added { OnOk result (Adds found.old found.new
        (plain.in_inline (inline_of inline.now) text.now)) }
{
    match inline {
        InlineExpression::StringLiteral { value } => {
            let rest = skip(after_name(skip(text, 1), value), 1);
            push_ended(
                NodeKind::StringLiteral,
                text,
                Ended { end: rest, rest },
                found,
            )
        }
        InlineExpression::NumberLiteral { value } => {
            let rest = after_name(text, value);
            push_ended(
                NodeKind::NumberLiteral,
                text,
                Ended { end: rest, rest },
                found,
            )
        }
        InlineExpression::VariableReference { id } => push_variable_reference(id.name, text, found),
        InlineExpression::MessageReference { id, attribute } => {
            push_message_reference(id.name, attribute, text, found)
        }
        InlineExpression::FunctionReference { id, arguments } => {
            push_function_reference(id.name, arguments, text, found)
        }
        InlineExpression::TermReference {
            id,
            attribute,
            arguments,
        } => push_term_reference(id.name, attribute, arguments, text, found),
        InlineExpression::Placeable { expression } => push_placeable(expression, text, found),
    }
}

/// Adds the nodes of a reference to a variable, from its dollar sign on.
fn push_variable_reference<'t>(
    name: &str,
    text: &'t [u8],
    found: &mut Vec<Node<'t>>,
) -> Result<Ended<'t>, AllocError>
    ensures rest { IfOk result (λ ended. ended.rest.now
        ≡ rests.inline_rest (t.variable_reference name.now) text.now) }
    ensures end { IfOk result (λ ended. ended.end.now
        ≡ plain.inline_end (t.variable_reference name.now) text.now) }
    ensures added { OnOk result (Adds found.old found.new
        (plain.in_inline (t.variable_reference name.now) text.now)) }
{
    let rest = push_name(name, skip(text, 1), found)?;
    push_ended(
        NodeKind::VariableReference,
        text,
        Ended { end: rest, rest },
        found,
    )
}

/// Adds the nodes of a reference to a message or to its attribute.
fn push_message_reference<'t>(
    name: &str,
    attribute: &Option<Identifier<&str>>,
    text: &'t [u8],
    found: &mut Vec<Node<'t>>,
) -> Result<Ended<'t>, AllocError>
    ensures rest { IfOk result (Leaves (rests.inline_rest (message_of name.now attribute.now) text.now)) }
    ensures end { IfOk result (EndsAt (plain.inline_end (message_of name.now attribute.now) text.now)) }
    ensures added { OnOk result (Adds found.old found.new
        (plain.in_inline (message_of name.now attribute.now) text.now)) }
{
    let named = push_name(name, text, found)?;
    let rest = push_attribute(attribute, skip_blank(named), found)?;
    let end = if attribute.is_some() { rest } else { named };
    push_ended(NodeKind::MessageReference, text, Ended { end, rest }, found)
}

/// Adds the nodes of a call of a function.
#[cycle(nodes)]
fn push_function_reference<'t>(
    name: &str,
    arguments: &CallArguments<&str>,
    text: &'t [u8],
    found: &mut Vec<Node<'t>>,
) -> Result<Ended<'t>, AllocError>
    ensures rest { IfOk result (Leaves (rests.inline_rest (function_of name.now arguments.now) text.now)) }
    ensures end { IfOk result (EndsAt (plain.inline_end (function_of name.now arguments.now) text.now)) }
    ensures added { OnOk result (Adds found.old found.new
        (plain.in_inline (function_of name.now arguments.now) text.now)) }
{
    let named = push_name(name, text, found)?;
    let called = push_arguments(arguments, skip_blank(named), found)?;
    push_ended(NodeKind::FunctionReference, text, called, found)
}

/// Adds the nodes of a reference to a term or to its attribute, from its minus on.
#[cycle(nodes)]
fn push_term_reference<'t>(
    name: &str,
    attribute: &Option<Identifier<&str>>,
    arguments: &Option<CallArguments<&str>>,
    text: &'t [u8],
    found: &mut Vec<Node<'t>>,
) -> Result<Ended<'t>, AllocError>
    ensures rest { IfOk result (Leaves
        (rests.inline_rest (term_of name.now attribute.now arguments.now) text.now)) }
    ensures end { IfOk result (EndsAt
        (plain.inline_end (term_of name.now attribute.now arguments.now) text.now)) }
    ensures added { OnOk result (Adds found.old found.new
        (in_term name.now attribute.now arguments.now text.now)) }
{
    let named = push_name(name, skip(text, 1), found)?;
    let end = push_attribute(attribute, named, found)?;
    let called = push_call(arguments, end, found)?;
    push_ended(NodeKind::TermReference, text, called, found)
}

/// Adds the nodes of the call of a term that is named before this place, if there are arguments.
#[cycle(nodes)]
fn push_call<'t>(
    call: &Option<CallArguments<&str>>,
    text: &'t [u8],
    found: &mut Vec<Node<'t>>,
) -> Result<Ended<'t>, AllocError>
    ensures rest { IfOk result (λ ended. ended.rest.now ≡ plain.call_rest (maybe_arguments_of call.now) text.now) }
    ensures end { IfOk result (λ ended. ended.end.now ≡ plain.call_end (maybe_arguments_of call.now) text.now) }
    ensures added { OnOk result (Adds found.old found.new
        (plain.in_call (maybe_arguments_of call.now) text.now)) }
{
    match call {
        Some(call) => push_arguments(call, skip_blank(text), found),
        None => Ok(Ended {
            end: text,
            rest: skip_blank(text),
        }),
    }
}

/// Adds the nodes of the arguments of a call, from their parenthesis on.
#[cycle(nodes)]
fn push_arguments<'t>(
    call: &CallArguments<&str>,
    text: &'t [u8],
    found: &mut Vec<Node<'t>>,
) -> Result<Ended<'t>, AllocError>
    ensures rest { IfOk result (Leaves
        (rests.arguments_rest (arguments_of call.now) (rests.within text.now))) }
    ensures end { IfOk result (EndsAt
        (rests.arguments_rest (arguments_of call.now) (rests.within text.now))) }
    ensures added { OnOk result (Adds found.old found.new
        (plain.in_arguments (arguments_of call.now) text.now)) }
{
    let named = push_positional(&call.positional, within(text), found)?;
    let rest = skip(push_named(&call.named, named, found)?, 1);
    push_ended(
        NodeKind::CallArguments,
        text,
        Ended { end: rest, rest },
        found,
    )
}

#[cycle(nodes)]
fn push_positional<'t>(
    given: &[InlineExpression<&str>],
    text: &'t [u8],
    found: &mut Vec<Node<'t>>,
) -> Result<&'t [u8], AllocError>
    ensures rest { IfOk result (λ rest. rest.now ≡ rests.inlines_rest (positional_of given.now) text.now) }
    ensures added { OnOk result (Adds found.old found.new
        (plain.in_inlines (positional_of given.now) text.now)) }
{
    let mut rest = text;
    for argument in given {
        rest = skip_separator(push_inline(argument, rest, found)?.rest);
    }
    Ok(rest)
}

#[cycle(nodes)]
fn push_named<'t>(
    given: &[NamedArgument<&str>],
    text: &'t [u8],
    found: &mut Vec<Node<'t>>,
) -> Result<&'t [u8], AllocError>
    ensures rest { IfOk result (λ rest. rest.now ≡ rests.nameds_rest (named_of given.now) text.now) }
    ensures added { OnOk result (Adds found.old found.new
        (plain.in_nameds (named_of given.now) text.now)) }
{
    let mut rest = text;
    for argument in given {
        let name = argument.name.name;
        push_name(name, rest, found)?;
        let ended = push_inline(&argument.value, value_of_argument(rest, name), found)?;
        push_node(NodeKind::NamedArgument, rest, ended.end, found)?;
        rest = skip_separator(ended.rest);
    }
    Ok(rest)
}
