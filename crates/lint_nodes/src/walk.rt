//! A walk through the tree of a pattern and its source. Each function adds the occurrences in a
//! part, and gives what follows the part.
#![tactic(auto)]

ghost use Rattle.std.specs.Prelude.{◌≡◌, [], IfOk, OnOk, option_map};
ghost use Rattle.fluent_ast.specs.Borrowed.{arguments_of, elements_of, expression_of, inline_of, key_of, maybe_arguments_of, name_of, named_of, positional_of, variants_of};
ghost use Rattle.lint_nodes.specs.HasKeys.{GetsKey};
ghost use Rattle.lint_nodes.specs.OccurrenceView.{Adds, AddsIfRepeated};
ghost use Rattle.lint_nodes.specs.Rests as rests;
ghost use Rattle.lint_nodes.specs.TreeOccurrences as tree;

use crate::names::key_text;
use crate::occurrence::Occurrence;
use crate::texts::{after_texts, first_placeable};
use crate::words::{
    after_name, after_sign, first_variant, key_of_variant, skip, skip_blank, skip_mark,
    skip_separator, value_of_argument, within,
};
use crate::{Keys, Node};
use fluent_ast::{
    CallArguments, Expression, Identifier, InlineExpression, NamedArgument, Pattern,
    PatternElement, Variant, VariantKey,
};
use std::alloc::AllocError;

/// Adds the occurrences in a pattern that is read at the front of a text. Returns the text after
/// it.
///
/// # Errors
/// [`AllocError`] if memory runs out; `found` then holds its old occurrences and some of these.
#[cycle(walk)]
pub fn push_pattern<'a, 's, 't>(
    pattern: &'a Pattern<&'s str>,
    text: &'t [u8],
    found: &mut Vec<Occurrence<'a, 's, 't>>,
) -> Result<&'t [u8], AllocError>
    ensures rest { IfOk result (λ rest. rest.now ≡ rests.pattern_rest (elements_of pattern.now) text.now) }
    ensures added { OnOk result (Adds found.old found.new (tree.pattern_found (elements_of pattern.now) text.now)) }
{
    let mut rest = first_placeable(text);
    for element in &pattern.elements {
        if let PatternElement::Placeable { expression } = element {
            let inside = push_expression(expression, within(rest), found)?;
            rest = after_texts(after_sign(inside));
        }
    }
    Ok(rest)
}

#[cycle(walk)]
fn push_expression<'a, 's, 't>(
    expression: &'a Expression<&'s str>,
    text: &'t [u8],
    found: &mut Vec<Occurrence<'a, 's, 't>>,
) -> Result<&'t [u8], AllocError>
    ensures rest { IfOk result (λ rest. rest.now ≡ rests.expression_rest (expression_of expression.now) text.now) }
    ensures added { OnOk result (Adds found.old found.new (tree.expression_found (expression_of expression.now) text.now)) }
{
    match expression {
        Expression::Inline(inline) => push_inline(inline, text, found),
        Expression::Select { selector, variants } => {
            let node = Node::Select { selector, variants };
            found.push(Occurrence { node, at: text })?;
            let rest = push_inline(selector, text, found)?;
            push_variants(variants, first_variant(rest), found)
        }
    }
}

#[cycle(walk)]
fn push_variants<'a, 's, 't>(
    variants: &'a [Variant<&'s str>],
    text: &'t [u8],
    found: &mut Vec<Occurrence<'a, 's, 't>>,
) -> Result<&'t [u8], AllocError>
    ensures rest { IfOk result (λ rest. rest.now ≡ rests.variants_rest (variants_of variants.now) text.now) }
    ensures added { OnOk result (Adds found.old found.new (tree.variants_found [] (variants_of variants.now) text.now)) }
{
    let mut keys = Keys::new(*found.allocator());
    let mut rest = text;
    for variant in variants {
        let at = key_of_variant(rest);
        push_if_repeated(&mut keys, &variant.key, at, found)?;
        let value = after_sign(after_name(at, key_text(&variant.key)));
        rest = skip_blank(push_pattern(&variant.value, value, found)?);
    }
    Ok(skip_mark(rest))
}

/// Adds the key of a variant if an earlier variant has it.
fn push_if_repeated<'a, 's, 't>(
    keys: &mut Keys<'s>,
    key: &'a VariantKey<&'s str>,
    at: &'t [u8],
    found: &mut Vec<Occurrence<'a, 's, 't>>,
) -> Result<(), AllocError>
    ensures keys { OnOk result (GetsKey keys.old (key_of key.now) keys.new) }
    ensures added { OnOk result
        (AddsIfRepeated keys.old (key_of key.now) at.now found.old found.new) }
{
    if !keys.insert(key)? {
        let node = Node::RepeatedKey(key);
        found.push(Occurrence { node, at })?;
    }
    Ok(())
}

#[cycle(walk)]
fn push_inline<'a, 's, 't>(
    inline: &'a InlineExpression<&'s str>,
    text: &'t [u8],
    found: &mut Vec<Occurrence<'a, 's, 't>>,
) -> Result<&'t [u8], AllocError>
    ensures rest { IfOk result (λ rest. rest.now ≡ rests.inline_rest (inline_of inline.now) text.now) }
    ensures added { OnOk result (Adds found.old found.new (tree.inline_found (inline_of inline.now) text.now)) }
{
    if let InlineExpression::Placeable { expression } = inline {
        let inside = push_expression(expression, within(text), found)?;
        return Ok(after_sign(inside));
    }
    let node = Node::Expression(inline);
    found.push(Occurrence { node, at: text })?;
    match inline {
        InlineExpression::StringLiteral { value } => Ok(skip(after_name(skip(text, 1), value), 1)),
        InlineExpression::NumberLiteral { value } => Ok(after_name(text, value)),
        InlineExpression::VariableReference { id } => Ok(after_name(skip(text, 1), id.name)),
        InlineExpression::MessageReference { id, attribute } => {
            Ok(after_attribute(attribute, skip_blank(after_name(text, id.name))))
        }
        InlineExpression::FunctionReference { id, arguments } => {
            push_arguments(
                arguments,
                within(skip_blank(after_name(text, id.name))),
                found,
            )
        }
        InlineExpression::TermReference {
            id,
            attribute,
            arguments,
        } => {
            let named = after_name(skip(text, 1), id.name);
            push_maybe_arguments(
                arguments,
                skip_blank(after_attribute(attribute, named)),
                found,
            )
        }
        InlineExpression::Placeable { .. } => Ok(text),
    }
}

#[cycle(walk)]
fn push_maybe_arguments<'a, 's, 't>(
    arguments: &'a Option<CallArguments<&'s str>>,
    text: &'t [u8],
    found: &mut Vec<Occurrence<'a, 's, 't>>,
) -> Result<&'t [u8], AllocError>
    ensures rest { IfOk result (λ rest. rest.now ≡ rests.maybe_rest (maybe_arguments_of arguments.now) text.now) }
    ensures added { OnOk result (Adds found.old found.new (tree.maybe_found (maybe_arguments_of arguments.now) text.now)) }
{
    match arguments {
        Some(arguments) => push_arguments(arguments, within(text), found),
        None => Ok(text),
    }
}

#[cycle(walk)]
fn push_arguments<'a, 's, 't>(
    arguments: &'a CallArguments<&'s str>,
    text: &'t [u8],
    found: &mut Vec<Occurrence<'a, 's, 't>>,
) -> Result<&'t [u8], AllocError>
    ensures rest { IfOk result (λ rest. rest.now ≡ rests.arguments_rest (arguments_of arguments.now) text.now) }
    ensures added { OnOk result (Adds found.old found.new (tree.arguments_found (arguments_of arguments.now) text.now)) }
{
    let named = push_positional(&arguments.positional, text, found)?;
    let end = push_named(&arguments.named, named, found)?;
    Ok(skip(end, 1))
}

#[cycle(walk)]
fn push_positional<'a, 's, 't>(
    arguments: &'a [InlineExpression<&'s str>],
    text: &'t [u8],
    found: &mut Vec<Occurrence<'a, 's, 't>>,
) -> Result<&'t [u8], AllocError>
    ensures rest { IfOk result (λ rest. rest.now ≡ rests.inlines_rest (positional_of arguments.now) text.now) }
    ensures added { OnOk result (Adds found.old found.new (tree.inlines_found (positional_of arguments.now) text.now)) }
{
    let mut rest = text;
    for argument in arguments {
        rest = skip_separator(push_inline(argument, rest, found)?);
    }
    Ok(rest)
}

#[cycle(walk)]
fn push_named<'a, 's, 't>(
    arguments: &'a [NamedArgument<&'s str>],
    text: &'t [u8],
    found: &mut Vec<Occurrence<'a, 's, 't>>,
) -> Result<&'t [u8], AllocError>
    ensures rest { IfOk result (λ rest. rest.now ≡ rests.nameds_rest (named_of arguments.now) text.now) }
    ensures added { OnOk result (Adds found.old found.new (tree.nameds_found (named_of arguments.now) text.now)) }
{
    let mut rest = text;
    for argument in arguments {
        let value = value_of_argument(rest, argument.name.name);
        rest = skip_separator(push_value(&argument.value, value, found)?);
    }
    Ok(rest)
}

/// Adds the occurrences in the value of a named argument. A literal belongs to the node of the
/// call.
#[cycle(walk)]
fn push_value<'a, 's, 't>(
    value: &'a InlineExpression<&'s str>,
    text: &'t [u8],
    found: &mut Vec<Occurrence<'a, 's, 't>>,
) -> Result<&'t [u8], AllocError>
    ensures rest { IfOk result (λ rest. rest.now ≡ rests.inline_rest (inline_of value.now) text.now) }
    ensures added { OnOk result (Adds found.old found.new (tree.value_found (inline_of value.now) text.now)) }
{
    match value {
        InlineExpression::StringLiteral { value } => Ok(skip(after_name(skip(text, 1), value), 1)),
        InlineExpression::NumberLiteral { value } => Ok(after_name(text, value)),
        _ => push_inline(value, text, found),
    }
}

/// The rest after the attribute of a reference, if it has one.
fn after_attribute<'t>(attribute: &Option<Identifier<&str>>, text: &'t [u8]) -> &'t [u8]
    ensures { result.now ≡ rests.after_attribute (option_map name_of attribute.now) text.now }
{
    match attribute {
        Some(name) => after_name(skip(text, 1), name.name),
        None => text,
    }
}
