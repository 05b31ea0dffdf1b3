//! From JSON values to identifiers, patterns and expressions.
//!
//! Each function gives the part of a tree that has the value, or `Shape` if no part of that kind
//! has it.

ghost use Rattle.std.specs.Prelude.{◌≡◌, IfOk};
ghost use Rattle.serde_json.specs.View.{view, items_view};
ghost use Rattle.fluent_json_write.specs.Objects.{placeable, function_reference, message_reference, identifier};
ghost use Rattle.fluent_json.specs.Given.{IfShape, term_reference_of};
ghost use Rattle.fluent_json_write.specs.Json.{HasNone, or_null, json_key, json_pattern, json_elements, json_expression, json_variants, json_inline, json_arguments, json_maybe_arguments, json_positional, json_named};
ghost use Rattle.fluent_json_write.specs.Parts.{accessor_json, maybe_arguments_json, identifier_json, key_json, pattern_json, element_json, json_element, expression_json, inline_json, variant_json, json_variant, variants_json, elements_json, arguments_json, positional_json, named_json, json_one_named, nameds_json};

use crate::error::FromValueError;
use fluent_ast::{
    CallArguments, Expression, Identifier, InlineExpression, NamedArgument, Pattern,
    PatternElement, Variant, VariantKey,
};
use fluent_json_write::parts;
use serde_json::Value;
use std::alloc::Global;

pub(super) fn read_identifier(
    alloc: Global,
    value: &Value,
) -> Result<Identifier<String>, FromValueError>
    ensures ok { IfOk result (λ id. identifier_json id ≡ view value.now) }
    ensures shape { IfShape result (HasNone identifier (view value.now)) }
{
    let Some(name) = parts::identifier(value) else {
        return Err(FromValueError::Shape);
    };
    let name = String::from_str(alloc, name)?;
    Ok(Identifier { name })
}

/// An identifier, or None for null.
fn read_accessor(alloc: Global, value: &Value) -> Result<Option<Identifier<String>>, FromValueError>
    ensures ok { IfOk result (λ id. accessor_json id ≡ view value.now) }
    ensures shape { IfShape result (HasNone (or_null identifier) (view value.now)) }
{
    if value.is_null() {
        return Ok(None);
    }
    Ok(Some(read_identifier(alloc, value)?))
}

fn read_key(alloc: Global, value: &Value) -> Result<VariantKey<String>, FromValueError>
    ensures ok { IfOk result (λ key. key_json key ≡ view value.now) }
    ensures shape { IfShape result (HasNone json_key (view value.now)) }
{
    if let Some(name) = parts::identifier(value) {
        let name = String::from_str(alloc, name)?;
        return Ok(VariantKey::Identifier { name });
    }
    if let Some(value) = parts::number_literal(value) {
        let value = String::from_str(alloc, value)?;
        return Ok(VariantKey::NumberLiteral { value });
    }
    Err(FromValueError::Shape)
}

#[cycle(read)]
pub(super) fn read_pattern(alloc: Global, value: &Value) -> Result<Pattern<String>, FromValueError>
    ensures ok { IfOk result (λ pattern. pattern_json pattern ≡ view value.now) }
    ensures shape { IfShape result (HasNone json_pattern (view value.now)) }
{
    let Some(elements) = parts::pattern(value) else {
        return Err(FromValueError::Shape);
    };
    let elements = read_elements(alloc, elements)?;
    Ok(Pattern { elements })
}

#[cycle(read)]
fn read_elements(
    alloc: Global,
    values: &[Value],
) -> Result<Vec<PatternElement<String>>, FromValueError>
    ensures ok { IfOk result (λ elements. elements_json elements.items ≡ items_view values.now) }
    ensures shape { IfShape result (HasNone json_elements (items_view values.now)) }
{
    let mut elements = Vec::new(alloc);
    for value in values {
        elements.push(read_element(alloc, value)?)?;
    }
    Ok(elements)
}

#[cycle(read)]
fn read_element(alloc: Global, value: &Value) -> Result<PatternElement<String>, FromValueError>
    ensures ok { IfOk result (λ element. element_json element ≡ view value.now) }
    ensures shape { IfShape result (HasNone json_element (view value.now)) }
{
    if let Some(text) = parts::text_element(value) {
        let value = String::from_str(alloc, text)?;
        return Ok(PatternElement::TextElement { value });
    }
    if let Some(expression) = parts::placeable(value) {
        let expression = read_expression(alloc, expression)?;
        return Ok(PatternElement::Placeable { expression });
    }
    Err(FromValueError::Shape)
}

#[cycle(read)]
fn read_expression(alloc: Global, value: &Value) -> Result<Expression<String>, FromValueError>
    ensures ok { IfOk result (λ expression. expression_json expression ≡ view value.now) }
    ensures shape { IfShape result (HasNone json_expression (view value.now)) }
{
    if let Some((selector, variants)) = parts::select(value) {
        let selector = read_inline(alloc, selector)?;
        let variants = read_variants(alloc, variants)?;
        return Ok(Expression::Select { selector, variants });
    }
    Ok(Expression::Inline(read_inline(alloc, value)?))
}

#[cycle(read)]
fn read_variants(alloc: Global, values: &[Value]) -> Result<Vec<Variant<String>>, FromValueError>
    ensures ok { IfOk result (λ variants. variants_json variants.items ≡ items_view values.now) }
    ensures shape { IfShape result (HasNone json_variants (items_view values.now)) }
{
    let mut variants = Vec::new(alloc);
    for value in values {
        variants.push(read_variant(alloc, value)?)?;
    }
    Ok(variants)
}

#[cycle(read)]
fn read_variant(alloc: Global, value: &Value) -> Result<Variant<String>, FromValueError>
    ensures ok { IfOk result (λ variant. variant_json variant ≡ view value.now) }
    ensures shape { IfShape result (HasNone json_variant (view value.now)) }
{
    let Some((key, pattern, default)) = parts::variant(value) else {
        return Err(FromValueError::Shape);
    };
    let key = read_key(alloc, key)?;
    let value = read_pattern(alloc, pattern)?;
    Ok(Variant {
        key,
        value,
        default,
    })
}

#[cycle(read)]
fn read_inline(alloc: Global, value: &Value) -> Result<InlineExpression<String>, FromValueError>
    ensures ok { IfOk result (λ inline. inline_json inline ≡ view value.now) }
    ensures shape { IfShape result (HasNone json_inline (view value.now)) }
{
    if let Some(text) = parts::string_literal(value) {
        let value = String::from_str(alloc, text)?;
        return Ok(InlineExpression::StringLiteral { value });
    }
    if let Some(text) = parts::number_literal(value) {
        let value = String::from_str(alloc, text)?;
        return Ok(InlineExpression::NumberLiteral { value });
    }
    if let Some(id) = parts::variable_reference(value) {
        let id = read_identifier(alloc, id)?;
        return Ok(InlineExpression::VariableReference { id });
    }
    if let Some((id, attribute)) = parts::message_reference(value) {
        return read_message_reference(alloc, id, attribute);
    }
    if let Some((id, attribute, arguments)) = parts::term_reference(value) {
        return read_term_reference(alloc, id, attribute, arguments);
    }
    if let Some((id, arguments)) = parts::function_reference(value) {
        return read_function_reference(alloc, id, arguments);
    }
    if let Some(expression) = parts::placeable(value) {
        return read_nested(alloc, expression);
    }
    Err(FromValueError::Shape)
}

/// A placeable inside a placeable, from its expression.
#[cycle(read)]
fn read_nested(
    alloc: Global,
    expression: &Value,
) -> Result<InlineExpression<String>, FromValueError>
    ensures ok { IfOk result (λ inline. inline_json inline ≡ placeable (view expression.now)) }
    ensures shape { IfShape result (HasNone json_inline (placeable (view expression.now))) }
{
    let expression = Box::new(alloc, read_expression(alloc, expression)?)?;
    Ok(InlineExpression::Placeable { expression })
}

/// A message reference from its parts.
fn read_message_reference(
    alloc: Global,
    id: &Value,
    attribute: &Value,
) -> Result<InlineExpression<String>, FromValueError>
    ensures ok { IfOk result (λ inline. inline_json inline
        ≡ message_reference (view id.now) (view attribute.now)) }
    ensures shape { IfShape result (HasNone json_inline (message_reference (view id.now)
        (view attribute.now))) }
{
    let id = read_identifier(alloc, id)?;
    let attribute = read_accessor(alloc, attribute)?;
    Ok(InlineExpression::MessageReference { id, attribute })
}

/// A function reference from its parts.
#[cycle(read)]
fn read_function_reference(
    alloc: Global,
    id: &Value,
    arguments: &Value,
) -> Result<InlineExpression<String>, FromValueError>
    ensures ok { IfOk result (λ inline. inline_json inline
        ≡ function_reference (view id.now) (view arguments.now)) }
    ensures shape { IfShape result (HasNone json_inline (function_reference (view id.now)
        (view arguments.now))) }
{
    let id = read_identifier(alloc, id)?;
    let arguments = read_arguments(alloc, arguments)?;
    Ok(InlineExpression::FunctionReference { id, arguments })
}

/// A term reference from its parts.
#[cycle(read)]
fn read_term_reference(
    alloc: Global,
    id: &Value,
    attribute: &Value,
    arguments: &Value,
) -> Result<InlineExpression<String>, FromValueError>
    ensures ok { IfOk result (λ inline. inline_json inline
        ≡ term_reference_of id.now attribute.now arguments.now) }
    ensures shape { IfShape result (HasNone json_inline
        (term_reference_of id.now attribute.now arguments.now)) }
{
    let id = read_identifier(alloc, id)?;
    let attribute = read_accessor(alloc, attribute)?;
    let arguments = read_maybe_arguments(alloc, arguments)?;
    Ok(InlineExpression::TermReference {
        id,
        attribute,
        arguments,
    })
}

/// The arguments of a call, or None for null.
#[cycle(read)]
fn read_maybe_arguments(
    alloc: Global,
    value: &Value,
) -> Result<Option<CallArguments<String>>, FromValueError>
    ensures ok { IfOk result (λ arguments. maybe_arguments_json arguments ≡ view value.now) }
    ensures shape { IfShape result (HasNone json_maybe_arguments (view value.now)) }
{
    if value.is_null() {
        return Ok(None);
    }
    Ok(Some(read_arguments(alloc, value)?))
}

#[cycle(read)]
fn read_arguments(alloc: Global, value: &Value) -> Result<CallArguments<String>, FromValueError>
    ensures ok { IfOk result (λ arguments. arguments_json arguments ≡ view value.now) }
    ensures shape { IfShape result (HasNone json_arguments (view value.now)) }
{
    let Some((positional, named)) = parts::call_arguments(value) else {
        return Err(FromValueError::Shape);
    };
    let positional = read_positional(alloc, positional)?;
    let named = read_all_named(alloc, named)?;
    Ok(CallArguments { positional, named })
}

#[cycle(read)]
fn read_positional(
    alloc: Global,
    values: &[Value],
) -> Result<Vec<InlineExpression<String>>, FromValueError>
    ensures ok { IfOk result (λ positional. positional_json positional.items
        ≡ items_view values.now) }
    ensures shape { IfShape result (HasNone json_positional (items_view values.now)) }
{
    let mut positional = Vec::new(alloc);
    for value in values {
        positional.push(read_inline(alloc, value)?)?;
    }
    Ok(positional)
}

#[cycle(read)]
fn read_all_named(
    alloc: Global,
    values: &[Value],
) -> Result<Vec<NamedArgument<String>>, FromValueError>
    ensures ok { IfOk result (λ named. nameds_json named.items ≡ items_view values.now) }
    ensures shape { IfShape result (HasNone json_named (items_view values.now)) }
{
    let mut named = Vec::new(alloc);
    for value in values {
        named.push(read_named(alloc, value)?)?;
    }
    Ok(named)
}

#[cycle(read)]
fn read_named(alloc: Global, value: &Value) -> Result<NamedArgument<String>, FromValueError>
    ensures ok { IfOk result (λ argument. named_json argument ≡ view value.now) }
    ensures shape { IfShape result (HasNone json_one_named (view value.now)) }
{
    let Some((name, inner)) = parts::named_argument(value) else {
        return Err(FromValueError::Shape);
    };
    let name = read_identifier(alloc, name)?;
    let value = read_inline(alloc, inner)?;
    Ok(NamedArgument { name, value })
}
