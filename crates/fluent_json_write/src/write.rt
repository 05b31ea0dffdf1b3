//! From a tree to its JSON value, object by object: each function makes those of a row of
//! `docs/reference/json.md`.

ghost use Rattle.std.specs.Prelude.{◌≡◌, IfOk};
ghost use Rattle.serde_json.specs.View.{view, items_view};
ghost use Rattle.fluent_json_write.specs.Objects.{placeable, message_reference};
ghost use Rattle.fluent_json_write.specs.Json.{json};
ghost use Rattle.fluent_json_write.specs.Given.{given};
ghost use Rattle.fluent_json_write.specs.Unfinished.{entry_members, identified_members, term_reference_members};
ghost use Rattle.fluent_json_write.specs.Parts.{plain, accessor_json, text_json, variable_json, maybe_comment_json, commented_json, lines_json, identifier_json, key_json, pattern_json, maybe_pattern_json, element_json, elements_json, expression_json, inline_json, variant_json, variants_json, arguments_json, positional_json, named_json, nameds_json, attribute_json, attributes_json, message_json, term_json, entry_json, entries_json};

use crate::Object;
use fluent_ast::{
    Attribute, CallArguments, Comment, Entry, Expression, Identifier, InlineExpression, Message,
    NamedArgument, Pattern, PatternElement, Resource, Term, Variant, VariantKey,
};
use serde_json::Value;
use std::alloc::{AllocError, Global};

/// The JSON value of a tree, as `docs/reference/json.md` says. It is defined for every tree, also
/// for one that no source reads as.
///
/// An object holds its members in the order of their keys' bytes, and the compact text of the value
/// writes them so.
///
/// ```
/// let value = to_value(alloc, tree)?;
/// match from_value(alloc, &value) {
///     Ok(back) => Ok(back),
/// ..
/// }
/// ```
///
/// # Errors
/// [`AllocError`] if memory runs out; nothing is kept.
pub fn to_value(alloc: Global, resource: &Resource<String>) -> Result<Value, AllocError>
    ensures { IfOk result (λ value. view value ≡ json (plain resource.now)) }
{
    let body = entry_values(alloc, &resource.body)?;
    let object = Object::of_type(alloc, "Resource")?.with("body", Value::Array(body))?;
    object.finish_text("syntax", "2")
}

fn entry_values(alloc: Global, entries: &[Entry<String>]) -> Result<Vec<Value>, AllocError>
    ensures { IfOk result (λ values. items_view values.items ≡ entries_json entries.now) }
{
    let mut values = Vec::new(alloc);
    for entry in entries {
        values.push(entry_value(alloc, entry)?)?;
    }
    Ok(values)
}

fn entry_value(alloc: Global, entry: &Entry<String>) -> Result<Value, AllocError>
    ensures { IfOk result (λ value. view value ≡ entry_json entry.now) }
{
    match entry {
        Entry::Message(message) => message_value(alloc, message),
        Entry::Term(term) => term_value(alloc, term),
        Entry::Comment(comment) => comment_value(alloc, "Comment", comment),
        Entry::GroupComment(comment) => comment_value(alloc, "GroupComment", comment),
        Entry::ResourceComment(comment) => comment_value(alloc, "ResourceComment", comment),
        Entry::Junk { content } => {
            Object::of_type(alloc, "Junk")?.finish_text("content", content.as_str())
        }
    }
}

fn message_value(alloc: Global, message: &Message<String>) -> Result<Value, AllocError>
    ensures { IfOk result (λ value. view value ≡ message_json message.now) }
{
    let Message {
        id,
        value,
        attributes,
        comment,
    } = message;
    let object = entry_object(alloc, "Message", id, attributes, comment)?;
    object.finish("value", pattern_or_null(alloc, value)?)
}

fn term_value(alloc: Global, term: &Term<String>) -> Result<Value, AllocError>
    ensures { IfOk result (λ value. view value ≡ term_json term.now) }
{
    let Term {
        id,
        value,
        attributes,
        comment,
    } = term;
    let object = entry_object(alloc, "Term", id, attributes, comment)?;
    object.finish("value", pattern_value(alloc, value)?)
}

/// The object of a message or a term, without its value.
fn entry_object(
    alloc: Global,
    kind: &str,
    id: &Identifier<String>,
    attributes: &[Attribute<String>],
    comment: &Option<Comment<String>>,
) -> Result<Object, AllocError>
    ensures { IfOk result (λ made. given made
        ≡ entry_members kind.now id.now attributes.now comment.now) }
{
    let object = identified(alloc, kind, id)?;
    let object = object.with("comment", comment_or_null(alloc, comment)?)?;
    let attributes = attribute_values(alloc, attributes)?;
    object.with("attributes", Value::Array(attributes))
}

/// An object of this `type` with the identifier of its part.
fn identified(alloc: Global, kind: &str, id: &Identifier<String>) -> Result<Object, AllocError>
    ensures { IfOk result (λ made. given made ≡ identified_members kind.now id.now) }
{
    let object = Object::of_type(alloc, kind)?;
    object.with("id", identifier_value(alloc, id)?)
}

fn attribute_values(
    alloc: Global,
    attributes: &[Attribute<String>],
) -> Result<Vec<Value>, AllocError>
    ensures { IfOk result (λ values. items_view values.items ≡ attributes_json attributes.now) }
{
    let mut values = Vec::new(alloc);
    for attribute in attributes {
        values.push(attribute_value(alloc, attribute)?)?;
    }
    Ok(values)
}

fn attribute_value(alloc: Global, attribute: &Attribute<String>) -> Result<Value, AllocError>
    ensures { IfOk result (λ value. view value ≡ attribute_json attribute.now) }
{
    let object = identified(alloc, "Attribute", &attribute.id)?;
    object.finish("value", pattern_value(alloc, &attribute.value)?)
}

fn comment_or_null(alloc: Global, comment: &Option<Comment<String>>) -> Result<Value, AllocError>
    ensures { IfOk result (λ value. view value ≡ maybe_comment_json comment.now) }
{
    match comment {
        Some(comment) => comment_value(alloc, "Comment", comment),
        None => Ok(Value::Null),
    }
}

/// A comment of this `type`.
fn comment_value(alloc: Global, kind: &str, comment: &Comment<String>) -> Result<Value, AllocError>
    ensures { IfOk result (λ value. view value ≡ commented_json kind.now comment.now) }
{
    let content = line_values(alloc, &comment.content)?;
    Object::of_type(alloc, kind)?.finish("content", Value::Array(content))
}

fn line_values(alloc: Global, lines: &[String]) -> Result<Vec<Value>, AllocError>
    ensures { IfOk result (λ values. items_view values.items ≡ lines_json lines.now) }
{
    let mut values = Vec::new(alloc);
    for line in lines {
        values.push(Value::try_from_str(alloc, line.as_str())?)?;
    }
    Ok(values)
}

fn identifier_value(alloc: Global, id: &Identifier<String>) -> Result<Value, AllocError>
    ensures { IfOk result (λ value. view value ≡ identifier_json id.now) }
{
    Object::of_type(alloc, "Identifier")?.finish_text("name", id.name.as_str())
}

fn identifier_or_null(alloc: Global, id: &Option<Identifier<String>>) -> Result<Value, AllocError>
    ensures { IfOk result (λ value. view value ≡ accessor_json id.now) }
{
    match id {
        Some(id) => identifier_value(alloc, id),
        None => Ok(Value::Null),
    }
}

fn key_value(alloc: Global, key: &VariantKey<String>) -> Result<Value, AllocError>
    ensures { IfOk result (λ value. view value ≡ key_json key.now) }
{
    match key {
        VariantKey::Identifier { name } => {
            Object::of_type(alloc, "Identifier")?.finish_text("name", name.as_str())
        }
        VariantKey::NumberLiteral { value } => {
            text_value(alloc, "NumberLiteral", value.as_str())
        }
    }
}

fn pattern_or_null(alloc: Global, pattern: &Option<Pattern<String>>) -> Result<Value, AllocError>
    ensures { IfOk result (λ value. view value ≡ maybe_pattern_json pattern.now) }
{
    match pattern {
        Some(pattern) => pattern_value(alloc, pattern),
        None => Ok(Value::Null),
    }
}

#[cycle(write)]
fn pattern_value(alloc: Global, pattern: &Pattern<String>) -> Result<Value, AllocError>
    ensures { IfOk result (λ value. view value ≡ pattern_json pattern.now) }
{
    let elements = element_values(alloc, &pattern.elements)?;
    Object::of_type(alloc, "Pattern")?.finish("elements", Value::Array(elements))
}

#[cycle(write)]
fn element_values(
    alloc: Global,
    elements: &[PatternElement<String>],
) -> Result<Vec<Value>, AllocError>
    ensures { IfOk result (λ values. items_view values.items ≡ elements_json elements.now) }
{
    let mut values = Vec::new(alloc);
    for element in elements {
        values.push(element_value(alloc, element)?)?;
    }
    Ok(values)
}

#[cycle(write)]
fn element_value(alloc: Global, element: &PatternElement<String>) -> Result<Value, AllocError>
    ensures { IfOk result (λ value. view value ≡ element_json element.now) }
{
    match element {
        PatternElement::TextElement { value } => {
            text_value(alloc, "TextElement", value.as_str())
        }
        PatternElement::Placeable { expression } => placeable_value(alloc, expression),
    }
}

#[cycle(write)]
fn expression_value(alloc: Global, expression: &Expression<String>) -> Result<Value, AllocError>
    ensures { IfOk result (λ value. view value ≡ expression_json expression.now) }
{
    match expression {
        Expression::Select { selector, variants } => {
            let object = Object::of_type(alloc, "Select")?;
            let object = object.with("selector", inline_value(alloc, selector)?)?;
            object.finish("variants", Value::Array(variant_values(alloc, variants)?))
        }
        Expression::Inline(inline) => inline_value(alloc, inline),
    }
}

#[cycle(write)]
fn variant_values(alloc: Global, variants: &[Variant<String>]) -> Result<Vec<Value>, AllocError>
    ensures { IfOk result (λ values. items_view values.items ≡ variants_json variants.now) }
{
    let mut values = Vec::new(alloc);
    for variant in variants {
        values.push(variant_value(alloc, variant)?)?;
    }
    Ok(values)
}

#[cycle(write)]
fn variant_value(alloc: Global, variant: &Variant<String>) -> Result<Value, AllocError>
    ensures { IfOk result (λ value. view value ≡ variant_json variant.now) }
{
    let object = Object::of_type(alloc, "Variant")?;
    let object = object.with("default", Value::Bool(variant.default))?;
    let object = object.with("key", key_value(alloc, &variant.key)?)?;
    object.finish("value", pattern_value(alloc, &variant.value)?)
}

#[cycle(write)]
fn inline_value(alloc: Global, inline: &InlineExpression<String>) -> Result<Value, AllocError>
    ensures { IfOk result (λ value. view value ≡ inline_json inline.now) }
{
    match inline {
        InlineExpression::StringLiteral { value } => {
            text_value(alloc, "StringLiteral", value.as_str())
        }
        InlineExpression::NumberLiteral { value } => {
            text_value(alloc, "NumberLiteral", value.as_str())
        }
        InlineExpression::FunctionReference { id, arguments } => {
            let object = identified(alloc, "FunctionReference", id)?;
            object.finish("arguments", arguments_value(alloc, arguments)?)
        }
        InlineExpression::MessageReference { id, attribute } => {
            message_reference_value(alloc, id, attribute)
        }
        InlineExpression::TermReference {
            id,
            attribute,
            arguments,
        } => {
            let object = term_reference_object(alloc, id, attribute)?;
            match arguments {
                Some(call) => object.finish("arguments", arguments_value(alloc, call)?),
                None => object.finish("arguments", Value::Null),
            }
        }
        InlineExpression::VariableReference { id } => variable_value(alloc, id),
        InlineExpression::Placeable { expression } => placeable_value(alloc, expression),
    }
}

/// An object of this `type` whose value is a text.
fn text_value(alloc: Global, kind: &str, text: &str) -> Result<Value, AllocError>
    ensures { IfOk result (λ value. view value ≡ text_json kind.now text.now) }
{
    Object::of_type(alloc, kind)?.finish_text("value", text)
}

#[cycle(write)]
fn placeable_value(alloc: Global, expression: &Expression<String>) -> Result<Value, AllocError>
    ensures { IfOk result (λ value. view value ≡ placeable (expression_json expression.now)) }
{
    let expression = expression_value(alloc, expression)?;
    Object::of_type(alloc, "Placeable")?.finish("expression", expression)
}

fn message_reference_value(
    alloc: Global,
    id: &Identifier<String>,
    attribute: &Option<Identifier<String>>,
) -> Result<Value, AllocError>
    ensures { IfOk result (λ value. view value
        ≡ message_reference (identifier_json id.now) (accessor_json attribute.now)) }
{
    let object = identified(alloc, "MessageReference", id)?;
    object.finish("attribute", identifier_or_null(alloc, attribute)?)
}

/// The object of a reference to a term, without its arguments.
fn term_reference_object(
    alloc: Global,
    id: &Identifier<String>,
    attribute: &Option<Identifier<String>>,
) -> Result<Object, AllocError>
    ensures { IfOk result (λ made. given made ≡ term_reference_members id.now attribute.now) }
{
    let object = identified(alloc, "TermReference", id)?;
    object.with("attribute", identifier_or_null(alloc, attribute)?)
}

fn variable_value(alloc: Global, id: &Identifier<String>) -> Result<Value, AllocError>
    ensures { IfOk result (λ value. view value ≡ variable_json id.now) }
{
    let object = Object::of_type(alloc, "VariableReference")?;
    object.finish("id", identifier_value(alloc, id)?)
}

#[cycle(write)]
fn arguments_value(alloc: Global, arguments: &CallArguments<String>) -> Result<Value, AllocError>
    ensures { IfOk result (λ value. view value ≡ arguments_json arguments.now) }
{
    let object = Object::of_type(alloc, "CallArguments")?;
    let positional = positional_values(alloc, &arguments.positional)?;
    let object = object.with("positional", Value::Array(positional))?;
    object.finish(
        "named",
        Value::Array(named_values(alloc, &arguments.named)?),
    )
}

#[cycle(write)]
fn positional_values(
    alloc: Global,
    arguments: &[InlineExpression<String>],
) -> Result<Vec<Value>, AllocError>
    ensures { IfOk result (λ values. items_view values.items ≡ positional_json arguments.now) }
{
    let mut values = Vec::new(alloc);
    for argument in arguments {
        values.push(inline_value(alloc, argument)?)?;
    }
    Ok(values)
}

#[cycle(write)]
fn named_values(
    alloc: Global,
    arguments: &[NamedArgument<String>],
) -> Result<Vec<Value>, AllocError>
    ensures { IfOk result (λ values. items_view values.items ≡ nameds_json arguments.now) }
{
    let mut values = Vec::new(alloc);
    for argument in arguments {
        values.push(named_value(alloc, argument)?)?;
    }
    Ok(values)
}

#[cycle(write)]
fn named_value(alloc: Global, argument: &NamedArgument<String>) -> Result<Value, AllocError>
    ensures { IfOk result (λ value. view value ≡ named_json argument.now) }
{
    let object = Object::of_type(alloc, "NamedArgument")?;
    let object = object.with("name", identifier_value(alloc, &argument.name)?)?;
    object.finish("value", inline_value(alloc, &argument.value)?)
}
