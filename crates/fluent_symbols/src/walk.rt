//! A walk through the tree of a pattern and its source. Each function adds the occurrences in a
//! part, and gives what follows the part. All of a pattern belong to the same message or term, its
//! owner.

ghost use Rattle.std.specs.Prelude.{◌≡◌, IfOk, OnOk};
ghost use Rattle.fluent_ast.specs.Borrowed.{arguments_of, elements_of, expression_of, inline_of, maybe_arguments_of, named_of, positional_of, variants_of};
ghost use Rattle.lint_nodes.specs.Rests as rests;
ghost use Rattle.fluent_symbols.specs.OccurrenceView.{Adds};
ghost use Rattle.fluent_symbols.specs.PartView.{found_in_arguments, found_in_call, found_in_expression, found_in_inline, found_in_named, found_in_pattern, found_in_positional, found_in_variants};

use crate::names::{push_argument, push_attribute, push_name, push_variable};
use crate::occurrence::{Occurrence, Owner, SymbolKind};
use fluent_ast::{
    CallArguments, Expression, InlineExpression, NamedArgument, Pattern, PatternElement, Variant,
};
use lint_nodes::key_text;
use lint_nodes::texts::{after_texts, first_placeable};
use lint_nodes::words::{
    after_name, after_sign, first_variant, key_of_variant, skip, skip_blank, skip_mark,
    skip_separator, value_of_argument, within,
};
use std::alloc::AllocError;

/// Adds the occurrences in a pattern at the front of a text. Returns the text after it.
///
/// # Errors
/// [`AllocError`] if memory runs out; `found` then holds its old occurrences and some of these.
#[cycle(walk)]
pub fn push_pattern<'s, 't>(
    owner: Owner<'s>,
    pattern: &Pattern<&'s str>,
    text: &'t [u8],
    found: &mut Vec<Occurrence<'s, 't>>,
) -> Result<&'t [u8], AllocError>
    ensures rest { IfOk result (λ rest. rest.now ≡ rests.pattern_rest (elements_of pattern.now) text.now) }
    ensures added { OnOk result (Adds found.old found.new
        (found_in_pattern owner.entry pattern.now text.now)) }
{
    let mut rest = first_placeable(text);
    for element in &pattern.elements {
        if let PatternElement::Placeable { expression } = element {
            let inside = push_expression(owner, expression, within(rest), found)?;
            rest = after_texts(after_sign(inside));
        }
    }
    Ok(rest)
}

#[cycle(walk)]
fn push_expression<'s, 't>(
    owner: Owner<'s>,
    part: &Expression<&'s str>,
    text: &'t [u8],
    found: &mut Vec<Occurrence<'s, 't>>,
) -> Result<&'t [u8], AllocError>
    ensures rest { IfOk result (λ rest. rest.now ≡ rests.expression_rest (expression_of part.now) text.now) }
    ensures added { OnOk result (Adds found.old found.new
        (found_in_expression owner.entry part.now text.now)) }
{
    match part {
        Expression::Inline(inline) => push_inline(owner, inline, text, found),
        Expression::Select { selector, variants } => {
            let rest = push_inline(owner, selector, text, found)?;
            push_variants(owner, variants, first_variant(rest), found)
        }
    }
}

#[cycle(walk)]
fn push_variants<'s, 't>(
    owner: Owner<'s>,
    variants: &[Variant<&'s str>],
    text: &'t [u8],
    found: &mut Vec<Occurrence<'s, 't>>,
) -> Result<&'t [u8], AllocError>
    ensures rest { IfOk result (λ rest. rest.now ≡ rests.variants_rest (variants_of variants.now) text.now) }
    ensures added { OnOk result (Adds found.old found.new
        (found_in_variants owner.entry variants.now text.now)) }
{
    let mut rest = text;
    for variant in variants {
        let key = key_text(&variant.key);
        let value = after_sign(after_name(key_of_variant(rest), key));
        rest = skip_blank(push_pattern(owner, &variant.value, value, found)?);
    }
    Ok(skip_mark(rest))
}

#[cycle(walk)]
fn push_inline<'s, 't>(
    owner: Owner<'s>,
    inline: &InlineExpression<&'s str>,
    text: &'t [u8],
    found: &mut Vec<Occurrence<'s, 't>>,
) -> Result<&'t [u8], AllocError>
    ensures rest { IfOk result (λ rest. rest.now ≡ rests.inline_rest (inline_of inline.now) text.now) }
    ensures added { OnOk result (Adds found.old found.new
        (found_in_inline owner.entry inline.now text.now)) }
{
    match inline {
        InlineExpression::StringLiteral { value } => Ok(skip(after_name(skip(text, 1), value), 1)),
        InlineExpression::NumberLiteral { value } => Ok(after_name(text, value)),
        InlineExpression::VariableReference { id } => push_variable(owner, id.name, text, found),
        InlineExpression::MessageReference { id, attribute } => {
            let message = Owner {
                sign: "",
                id: id.name,
            };
            let rest = push_name(SymbolKind::Message, id.name, text, found)?;
            push_attribute(message, attribute, skip_blank(rest), found)
        }
        InlineExpression::FunctionReference { id, arguments } => {
            let rest = push_name(SymbolKind::Function, id.name, text, found)?;
            push_arguments(owner, None, arguments, within(skip_blank(rest)), found)
        }
        InlineExpression::TermReference {
            id,
            attribute,
            arguments,
        } => {
            let term = Owner {
                sign: "-",
                id: id.name,
            };
            let named = push_name(SymbolKind::Term, id.name, skip(text, 1), found)?;
            let rest = push_attribute(term, attribute, named, found)?;
            push_call(owner, term, arguments, skip_blank(rest), found)
        }
        InlineExpression::Placeable { expression } => {
            let inside = push_expression(owner, expression, within(text), found)?;
            Ok(after_sign(inside))
        }
    }
}

/// Adds the occurrences in the call of a term, if there are arguments.
#[cycle(walk)]
fn push_call<'s, 't>(
    owner: Owner<'s>,
    callee: Owner<'s>,
    call: &Option<CallArguments<&'s str>>,
    text: &'t [u8],
    found: &mut Vec<Occurrence<'s, 't>>,
) -> Result<&'t [u8], AllocError>
    ensures rest { IfOk result (λ rest. rest.now ≡ rests.maybe_rest (maybe_arguments_of call.now) text.now) }
    ensures added { OnOk result (Adds found.old found.new
        (found_in_call owner.entry callee.entry call.now text.now)) }
{
    match call {
        Some(call) => push_arguments(owner, Some(callee), call, within(text), found),
        None => Ok(text),
    }
}

/// Adds the occurrences in the arguments of a term, or of a function.
#[cycle(walk)]
fn push_arguments<'s, 't>(
    owner: Owner<'s>,
    callee: Option<Owner<'s>>,
    call: &CallArguments<&'s str>,
    text: &'t [u8],
    found: &mut Vec<Occurrence<'s, 't>>,
) -> Result<&'t [u8], AllocError>
    ensures rest { IfOk result (λ rest. rest.now ≡ rests.arguments_rest (arguments_of call.now) text.now) }
    ensures added { OnOk result (Adds found.old found.new
        (found_in_arguments owner.entry callee.entry call.now text.now)) }
{
    let named = push_positional(owner, &call.positional, text, found)?;
    let end = push_named(owner, callee, &call.named, named, found)?;
    Ok(skip(end, 1))
}

#[cycle(walk)]
fn push_positional<'s, 't>(
    owner: Owner<'s>,
    given: &[InlineExpression<&'s str>],
    text: &'t [u8],
    found: &mut Vec<Occurrence<'s, 't>>,
) -> Result<&'t [u8], AllocError>
    ensures rest { IfOk result (λ rest. rest.now ≡ rests.inlines_rest (positional_of given.now) text.now) }
    ensures added { OnOk result (Adds found.old found.new
        (found_in_positional owner.entry given.now text.now)) }
{
    let mut rest = text;
    for argument in given {
        rest = skip_separator(push_inline(owner, argument, rest, found)?);
    }
    Ok(rest)
}

#[cycle(walk)]
fn push_named<'s, 't>(
    owner: Owner<'s>,
    callee: Option<Owner<'s>>,
    given: &[NamedArgument<&'s str>],
    text: &'t [u8],
    found: &mut Vec<Occurrence<'s, 't>>,
) -> Result<&'t [u8], AllocError>
    ensures rest { IfOk result (λ rest. rest.now ≡ rests.nameds_rest (named_of given.now) text.now) }
    ensures added { OnOk result (Adds found.old found.new
        (found_in_named owner.entry callee.entry given.now text.now)) }
{
    let mut rest = text;
    for argument in given {
        push_argument(callee, argument.name.name, rest, found)?;
        let value = value_of_argument(rest, argument.name.name);
        rest = skip_separator(push_inline(owner, &argument.value, value, found)?);
    }
    Ok(rest)
}
