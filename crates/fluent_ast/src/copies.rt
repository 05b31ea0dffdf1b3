//! Copies of trees over any text type.
//!
//! The functions on patterns and expressions call each other, so they take the text type as a value
//! under [`Texts`].

ghost use Rattle.std.specs.Prelude.{◌≡◌, IfOk, map, option_map};
ghost use Rattle.fluent_ast.specs.declared.InlineExpression.TheVariants.{StringLiteral, NumberLiteral, FunctionReference, MessageReference, TermReference, VariableReference};
ghost use Rattle.fluent_grammar.specs.Tree.{nested};
ghost use Rattle.fluent_ast.specs.Copy.{GivesCopy};
ghost use Rattle.fluent_ast.specs.View.{pattern_view, element_view, expression_view, inline_view, variant_view, arguments_view, named_view, key_of, name_of};

use crate::{
    CallArguments, Expression, Identifier, InlineExpression, NamedArgument, Pattern,
    PatternElement, Variant, VariantKey,
};
use fluent_text::Texts;
use std::alloc::{AllocError, Global};

pub(crate) fn clone_identifier<S: Drop, T: Texts<S>>(
    texts: &T,
    alloc: Global,
    id: &Identifier<S>,
) -> Result<Identifier<S>, AllocError>
    ensures { GivesCopy (name_of S T.text) id.now result }
{
    let name = texts.try_clone(&id.name, alloc)?;
    Ok(Identifier { name })
}

pub(crate) fn clone_key<S: Drop, T: Texts<S>>(
    texts: &T,
    alloc: Global,
    key: &VariantKey<S>,
) -> Result<VariantKey<S>, AllocError>
    ensures { GivesCopy (key_of S T.text) key.now result }
{
    match key {
        VariantKey::Identifier { name } => {
            let name = texts.try_clone(name, alloc)?;
            Ok(VariantKey::Identifier { name })
        }
        VariantKey::NumberLiteral { value } => {
            let value = texts.try_clone(value, alloc)?;
            Ok(VariantKey::NumberLiteral { value })
        }
    }
}

/// The name of an attribute after a reference, if there is one.
fn clone_accessor<S: Drop, T: Texts<S>>(
    texts: &T,
    alloc: Global,
    attribute: &Option<Identifier<S>>,
) -> Result<Option<Identifier<S>>, AllocError>
    ensures { GivesCopy (option_map (name_of S T.text)) attribute.now result }
{
    match attribute {
        Some(id) => Ok(Some(clone_identifier(texts, alloc, id)?)),
        None => Ok(None),
    }
}

#[cycle(copies)]
pub(crate) fn clone_pattern<S: Drop, T: Texts<S>>(
    texts: &T,
    alloc: Global,
    pattern: &Pattern<S>,
) -> Result<Pattern<S>, AllocError>
    ensures { GivesCopy (pattern_view S T.text) pattern.now result }
{
    let mut elements = Vec::new(alloc);
    for element in &pattern.elements {
        elements.push(clone_element(texts, alloc, element)?)?;
    }
    Ok(Pattern { elements })
}

#[cycle(copies)]
pub(crate) fn clone_element<S: Drop, T: Texts<S>>(
    texts: &T,
    alloc: Global,
    element: &PatternElement<S>,
) -> Result<PatternElement<S>, AllocError>
    ensures { GivesCopy (element_view S T.text) element.now result }
{
    match element {
        PatternElement::TextElement { value } => {
            let value = texts.try_clone(value, alloc)?;
            Ok(PatternElement::TextElement { value })
        }
        PatternElement::Placeable { expression } => {
            let expression = clone_expression(texts, alloc, expression)?;
            Ok(PatternElement::Placeable { expression })
        }
    }
}

#[cycle(copies)]
pub(crate) fn clone_expression<S: Drop, T: Texts<S>>(
    texts: &T,
    alloc: Global,
    expression: &Expression<S>,
) -> Result<Expression<S>, AllocError>
    ensures { GivesCopy (expression_view S T.text) expression.now result }
{
    match expression {
        Expression::Select { selector, variants } => {
            let variants = clone_variants(texts, alloc, variants)?;
            let selector = clone_inline(texts, alloc, selector)?;
            Ok(Expression::Select { selector, variants })
        }
        Expression::Inline(inline) => Ok(Expression::Inline(clone_inline(texts, alloc, inline)?)),
    }
}

#[cycle(copies)]
fn clone_variants<S: Drop, T: Texts<S>>(
    texts: &T,
    alloc: Global,
    variants: &[Variant<S>],
) -> Result<Vec<Variant<S>>, AllocError>
    ensures { IfOk result (λ copies. map (variant_view S T.text) copies.items
        ≡ map (variant_view S T.text) variants.now) }
{
    let mut copies = Vec::new(alloc);
    for variant in variants {
        copies.push(clone_variant(texts, alloc, variant)?)?;
    }
    Ok(copies)
}

#[cycle(copies)]
pub(crate) fn clone_variant<S: Drop, T: Texts<S>>(
    texts: &T,
    alloc: Global,
    variant: &Variant<S>,
) -> Result<Variant<S>, AllocError>
    ensures { GivesCopy (variant_view S T.text) variant.now result }
{
    let key = clone_key(texts, alloc, &variant.key)?;
    let value = clone_pattern(texts, alloc, &variant.value)?;
    Ok(Variant {
        key,
        value,
        default: variant.default,
    })
}

#[cycle(copies)]
pub(crate) fn clone_inline<S: Drop, T: Texts<S>>(
    texts: &T,
    alloc: Global,
    inline: &InlineExpression<S>,
) -> Result<InlineExpression<S>, AllocError>
    ensures { GivesCopy (inline_view S T.text) inline.now result }
{
    match inline {
        InlineExpression::StringLiteral { value } => clone_string(texts, alloc, value),
        InlineExpression::NumberLiteral { value } => clone_number(texts, alloc, value),
        InlineExpression::FunctionReference { id, arguments } => {
            clone_call(texts, alloc, id, arguments)
        }
        InlineExpression::MessageReference { id, attribute } => {
            clone_message_reference(texts, alloc, id, attribute)
        }
        InlineExpression::TermReference {
            id,
            attribute,
            arguments,
        } => clone_term_reference(texts, alloc, id, attribute, arguments),
        InlineExpression::VariableReference { id } => clone_variable(texts, alloc, id),
        InlineExpression::Placeable { expression } => clone_nested(texts, alloc, expression),
    }
}

/// A string literal of the same text.
fn clone_string<S: Drop, T: Texts<S>>(
    texts: &T,
    alloc: Global,
    value: &S,
) -> Result<InlineExpression<S>, AllocError>
    ensures { GivesCopy (inline_view S T.text) (StringLiteral value.now) result }
{
    let value = texts.try_clone(value, alloc)?;
    Ok(InlineExpression::StringLiteral { value })
}

/// A number literal of the same digits.
fn clone_number<S: Drop, T: Texts<S>>(
    texts: &T,
    alloc: Global,
    value: &S,
) -> Result<InlineExpression<S>, AllocError>
    ensures { GivesCopy (inline_view S T.text) (NumberLiteral value.now) result }
{
    let value = texts.try_clone(value, alloc)?;
    Ok(InlineExpression::NumberLiteral { value })
}

/// A reference to the same variable.
fn clone_variable<S: Drop, T: Texts<S>>(
    texts: &T,
    alloc: Global,
    id: &Identifier<S>,
) -> Result<InlineExpression<S>, AllocError>
    ensures { GivesCopy (inline_view S T.text) (VariableReference id.now) result }
{
    let id = clone_identifier(texts, alloc, id)?;
    Ok(InlineExpression::VariableReference { id })
}

/// A placeable of the same expression, inside a placeable.
#[cycle(copies)]
fn clone_nested<S: Drop, T: Texts<S>>(
    texts: &T,
    alloc: Global,
    expression: &Expression<S>,
) -> Result<InlineExpression<S>, AllocError>
    ensures { IfOk result (λ copy. inline_view S T.text copy
        ≡ nested (expression_view S T.text expression.now)) }
{
    let expression = Box::new(alloc, clone_expression(texts, alloc, expression)?)?;
    Ok(InlineExpression::Placeable { expression })
}

#[cycle(copies)]
fn clone_call<S: Drop, T: Texts<S>>(
    texts: &T,
    alloc: Global,
    id: &Identifier<S>,
    arguments: &CallArguments<S>,
) -> Result<InlineExpression<S>, AllocError>
    ensures { GivesCopy (inline_view S T.text) (FunctionReference id.now arguments.now) result }
{
    let id = clone_identifier(texts, alloc, id)?;
    let arguments = clone_arguments(texts, alloc, arguments)?;
    Ok(InlineExpression::FunctionReference { id, arguments })
}

fn clone_message_reference<S: Drop, T: Texts<S>>(
    texts: &T,
    alloc: Global,
    id: &Identifier<S>,
    attribute: &Option<Identifier<S>>,
) -> Result<InlineExpression<S>, AllocError>
    ensures { GivesCopy (inline_view S T.text) (MessageReference id.now attribute.now) result }
{
    let id = clone_identifier(texts, alloc, id)?;
    let attribute = clone_accessor(texts, alloc, attribute)?;
    Ok(InlineExpression::MessageReference { id, attribute })
}

#[cycle(copies)]
fn clone_term_reference<S: Drop, T: Texts<S>>(
    texts: &T,
    alloc: Global,
    id: &Identifier<S>,
    attribute: &Option<Identifier<S>>,
    arguments: &Option<CallArguments<S>>,
) -> Result<InlineExpression<S>, AllocError>
    ensures { GivesCopy (inline_view S T.text) (TermReference id.now attribute.now arguments.now) result }
{
    let id = clone_identifier(texts, alloc, id)?;
    let attribute = clone_accessor(texts, alloc, attribute)?;
    let arguments = match arguments {
        Some(arguments) => Some(clone_arguments(texts, alloc, arguments)?),
        None => None,
    };
    Ok(InlineExpression::TermReference {
        id,
        attribute,
        arguments,
    })
}

#[cycle(copies)]
pub(crate) fn clone_arguments<S: Drop, T: Texts<S>>(
    texts: &T,
    alloc: Global,
    arguments: &CallArguments<S>,
) -> Result<CallArguments<S>, AllocError>
    ensures { GivesCopy (arguments_view S T.text) arguments.now result }
{
    let positional = clone_positional(texts, alloc, &arguments.positional)?;
    let named = clone_all_named(texts, alloc, &arguments.named)?;
    Ok(CallArguments { positional, named })
}

#[cycle(copies)]
fn clone_positional<S: Drop, T: Texts<S>>(
    texts: &T,
    alloc: Global,
    arguments: &[InlineExpression<S>],
) -> Result<Vec<InlineExpression<S>>, AllocError>
    ensures { IfOk result (λ copies. map (inline_view S T.text) copies.items
        ≡ map (inline_view S T.text) arguments.now) }
{
    let mut copies = Vec::new(alloc);
    for argument in arguments {
        copies.push(clone_inline(texts, alloc, argument)?)?;
    }
    Ok(copies)
}

#[cycle(copies)]
fn clone_all_named<S: Drop, T: Texts<S>>(
    texts: &T,
    alloc: Global,
    arguments: &[NamedArgument<S>],
) -> Result<Vec<NamedArgument<S>>, AllocError>
    ensures { IfOk result (λ copies. map (named_view S T.text) copies.items
        ≡ map (named_view S T.text) arguments.now) }
{
    let mut copies = Vec::new(alloc);
    for argument in arguments {
        copies.push(clone_named(texts, alloc, argument)?)?;
    }
    Ok(copies)
}

#[cycle(copies)]
pub(crate) fn clone_named<S: Drop, T: Texts<S>>(
    texts: &T,
    alloc: Global,
    argument: &NamedArgument<S>,
) -> Result<NamedArgument<S>, AllocError>
    ensures { GivesCopy (named_view S T.text) argument.now result }
{
    let name = clone_identifier(texts, alloc, &argument.name)?;
    let value = clone_inline(texts, alloc, &argument.value)?;
    Ok(NamedArgument { name, value })
}
