//! The parts of the objects of a tree's JSON value, one function for each row of
//! `docs/reference/json.md`.
//!
//! Each gives the values of an object's keys, or None if the value isn't that object: if a key is
//! unknown or missing, the `type` is another one, or a text, an array or a truth value is something
//! else.

ghost use Rattle.std.specs.Prelude.{◌≡◌, ◌≢◌, ℕ, List, IfSome, IfNone};
ghost use Rattle.serde_json.specs.Data.{Data, Items};
ghost use Rattle.serde_json.specs.View.{view, items_view};
ghost use Rattle.fluent_json_write.specs.Objects as object;
ghost use Rattle.fluent_json_write.specs.Taken.{IsOfTwo, IsOfThree, IsOfEntry, IsOfNoTwo, IsOfNoThree, IsOfNoFour};

use crate::members::{five, four, is_text, three, two};
use serde_json::Value;

/// The body of a `Resource` with its version.
pub fn resource(value: &Value) -> Option<&[Value]>
    ensures some { IfSome result (λ part. view value.now ≡ object.resource (items_view part.now)) }
    ensures none { IfNone result ((body : Items) → view value.now ≢ object.resource body) }
{
    let (body, syntax, kind) = three(value, "body", "syntax", "type")?;
    is_text(kind, "Resource")?;
    is_text(syntax, "2")?;
    Some(body.as_array()?.as_slice())
}

/// The body of a `Resource` without a version.
pub fn unversioned_resource(value: &Value) -> Option<&[Value]>
    ensures some { IfSome result (λ part. view value.now
        ≡ object.unversioned_resource (items_view part.now)) }
    ensures none { IfNone result ((body : Items)
        → view value.now ≢ object.unversioned_resource body) }
{
    let (body, kind) = two(value, "body", "type")?;
    is_text(kind, "Resource")?;
    Some(body.as_array()?.as_slice())
}

/// The identifier, the value, the attributes and the comment of a `Message`.
pub fn message(value: &Value) -> Option<(&Value, &Value, &[Value], &Value)>
    ensures some { IfSome result (IsOfEntry object.message (view value.now)) }
    ensures none { IfNone result (IsOfNoFour object.message (view value.now)) }
{
    let (attributes, comment, id, kind, inner) = five(
        value,
        "attributes",
        "comment",
        "id",
        "type",
        "value",
    )?;
    is_text(kind, "Message")?;
    Some((id, inner, attributes.as_array()?.as_slice(), comment))
}

/// The identifier, the value, the attributes and the comment of a `Term`.
pub fn term(value: &Value) -> Option<(&Value, &Value, &[Value], &Value)>
    ensures some { IfSome result (IsOfEntry object.term (view value.now)) }
    ensures none { IfNone result (IsOfNoFour object.term (view value.now)) }
{
    let (attributes, comment, id, kind, inner) = five(
        value,
        "attributes",
        "comment",
        "id",
        "type",
        "value",
    )?;
    is_text(kind, "Term")?;
    Some((id, inner, attributes.as_array()?.as_slice(), comment))
}

/// The lines of a `Comment`.
pub fn comment(value: &Value) -> Option<&[Value]>
    ensures some { IfSome result (λ part. view value.now ≡ object.comment (items_view part.now)) }
    ensures none { IfNone result ((content : Items) → view value.now ≢ object.comment content) }
{
    let (content, kind) = two(value, "content", "type")?;
    is_text(kind, "Comment")?;
    Some(content.as_array()?.as_slice())
}

/// The lines of a `GroupComment`.
pub fn group_comment(value: &Value) -> Option<&[Value]>
    ensures some { IfSome result (λ part. view value.now
        ≡ object.group_comment (items_view part.now)) }
    ensures none { IfNone result ((content : Items)
        → view value.now ≢ object.group_comment content) }
{
    let (content, kind) = two(value, "content", "type")?;
    is_text(kind, "GroupComment")?;
    Some(content.as_array()?.as_slice())
}

/// The lines of a `ResourceComment`.
pub fn resource_comment(value: &Value) -> Option<&[Value]>
    ensures some { IfSome result (λ part. view value.now
        ≡ object.resource_comment (items_view part.now)) }
    ensures none { IfNone result ((content : Items)
        → view value.now ≢ object.resource_comment content) }
{
    let (content, kind) = two(value, "content", "type")?;
    is_text(kind, "ResourceComment")?;
    Some(content.as_array()?.as_slice())
}

/// The content of a `Junk`.
pub fn junk(value: &Value) -> Option<&str>
    ensures some { IfSome result (λ part. view value.now ≡ object.junk part.now) }
    ensures none { IfNone result ((content : List ℕ) → view value.now ≢ object.junk content) }
{
    let (content, kind) = two(value, "content", "type")?;
    is_text(kind, "Junk")?;
    content.as_str()
}

/// The name of an `Identifier`.
pub fn identifier(value: &Value) -> Option<&str>
    ensures some { IfSome result (λ part. view value.now ≡ object.identifier part.now) }
    ensures none { IfNone result ((name : List ℕ) → view value.now ≢ object.identifier name) }
{
    let (name, kind) = two(value, "name", "type")?;
    is_text(kind, "Identifier")?;
    name.as_str()
}

/// The identifier and the value of an `Attribute`.
pub fn attribute(value: &Value) -> Option<(&Value, &Value)>
    ensures some { IfSome result (IsOfTwo object.attribute (view value.now)) }
    ensures none { IfNone result (IsOfNoTwo object.attribute (view value.now)) }
{
    let (id, kind, inner) = three(value, "id", "type", "value")?;
    is_text(kind, "Attribute")?;
    Some((id, inner))
}

/// The elements of a `Pattern`.
pub fn pattern(value: &Value) -> Option<&[Value]>
    ensures some { IfSome result (λ part. view value.now ≡ object.pattern (items_view part.now)) }
    ensures none { IfNone result ((elements : Items) → view value.now ≢ object.pattern elements) }
{
    let (elements, kind) = two(value, "elements", "type")?;
    is_text(kind, "Pattern")?;
    Some(elements.as_array()?.as_slice())
}

/// The text of a `TextElement`.
pub fn text_element(value: &Value) -> Option<&str>
    ensures some { IfSome result (λ part. view value.now ≡ object.text_element part.now) }
    ensures none { IfNone result ((value' : List ℕ) → view value.now ≢ object.text_element value') }
{
    let (kind, inner) = two(value, "type", "value")?;
    is_text(kind, "TextElement")?;
    inner.as_str()
}

/// The expression of a `Placeable`.
pub fn placeable(value: &Value) -> Option<&Value>
    ensures some { IfSome result (λ part. view value.now ≡ object.placeable (view part.now)) }
    ensures none { IfNone result ((expression : Data)
        → view value.now ≢ object.placeable expression) }
{
    let (expression, kind) = two(value, "expression", "type")?;
    is_text(kind, "Placeable")?;
    Some(expression)
}

/// The selector and the variants of a `Select`.
pub fn select(value: &Value) -> Option<(&Value, &[Value])>
    ensures some { IfSome result (λ parts. view value.now
        ≡ object.select (view parts.0.now) (items_view parts.1.now)) }
    ensures none { IfNone result (IsOfNoTwo object.select (view value.now)) }
{
    let (selector, kind, variants) = three(value, "selector", "type", "variants")?;
    is_text(kind, "Select")?;
    Some((selector, variants.as_array()?.as_slice()))
}

/// The key and the value of a `Variant`, and whether it is the default.
pub fn variant(value: &Value) -> Option<(&Value, &Value, bool)>
    ensures some { IfSome result (λ parts. view value.now
        ≡ object.variant (view parts.0.now) (view parts.1.now) parts.2) }
    ensures none { IfNone result (IsOfNoThree object.variant (view value.now)) }
{
    let (default, key, kind, inner) = four(value, "default", "key", "type", "value")?;
    is_text(kind, "Variant")?;
    Some((key, inner, default.as_bool()?))
}

/// The raw text of a `StringLiteral`.
pub fn string_literal(value: &Value) -> Option<&str>
    ensures some { IfSome result (λ part. view value.now ≡ object.string_literal part.now) }
    ensures none { IfNone result ((value' : List ℕ)
        → view value.now ≢ object.string_literal value') }
{
    let (kind, inner) = two(value, "type", "value")?;
    is_text(kind, "StringLiteral")?;
    inner.as_str()
}

/// The text of a `NumberLiteral`.
pub fn number_literal(value: &Value) -> Option<&str>
    ensures some { IfSome result (λ part. view value.now ≡ object.number_literal part.now) }
    ensures none { IfNone result ((value' : List ℕ)
        → view value.now ≢ object.number_literal value') }
{
    let (kind, inner) = two(value, "type", "value")?;
    is_text(kind, "NumberLiteral")?;
    inner.as_str()
}

/// The identifier and the arguments of a `FunctionReference`.
pub fn function_reference(value: &Value) -> Option<(&Value, &Value)>
    ensures some { IfSome result (IsOfTwo object.function_reference (view value.now)) }
    ensures none { IfNone result (IsOfNoTwo object.function_reference (view value.now)) }
{
    let (arguments, id, kind) = three(value, "arguments", "id", "type")?;
    is_text(kind, "FunctionReference")?;
    Some((id, arguments))
}

/// The identifier and the attribute of a `MessageReference`.
pub fn message_reference(value: &Value) -> Option<(&Value, &Value)>
    ensures some { IfSome result (IsOfTwo object.message_reference (view value.now)) }
    ensures none { IfNone result (IsOfNoTwo object.message_reference (view value.now)) }
{
    let (attribute, id, kind) = three(value, "attribute", "id", "type")?;
    is_text(kind, "MessageReference")?;
    Some((id, attribute))
}

/// The identifier, the attribute and the arguments of a `TermReference`.
pub fn term_reference(value: &Value) -> Option<(&Value, &Value, &Value)>
    ensures some { IfSome result (IsOfThree object.term_reference (view value.now)) }
    ensures none { IfNone result (IsOfNoThree object.term_reference (view value.now)) }
{
    let (arguments, attribute, id, kind) = four(value, "arguments", "attribute", "id", "type")?;
    is_text(kind, "TermReference")?;
    Some((id, attribute, arguments))
}

/// The identifier of a `VariableReference`.
pub fn variable_reference(value: &Value) -> Option<&Value>
    ensures some { IfSome result (λ part. view value.now
        ≡ object.variable_reference (view part.now)) }
    ensures none { IfNone result ((id : Data) → view value.now ≢ object.variable_reference id) }
{
    let (id, kind) = two(value, "id", "type")?;
    is_text(kind, "VariableReference")?;
    Some(id)
}

/// The positional and the named arguments of `CallArguments`.
pub fn call_arguments(value: &Value) -> Option<(&[Value], &[Value])>
    ensures some { IfSome result (λ p. view value.now
        ≡ object.call_arguments (items_view p.0.now) (items_view p.1.now)) }
    ensures none { IfNone result (IsOfNoTwo object.call_arguments (view value.now)) }
{
    let (named, positional, kind) = three(value, "named", "positional", "type")?;
    is_text(kind, "CallArguments")?;
    Some((
        positional.as_array()?.as_slice(),
        named.as_array()?.as_slice(),
    ))
}

/// The name and the value of a `NamedArgument`.
pub fn named_argument(value: &Value) -> Option<(&Value, &Value)>
    ensures some { IfSome result (IsOfTwo object.named_argument (view value.now)) }
    ensures none { IfNone result (IsOfNoTwo object.named_argument (view value.now)) }
{
    let (name, kind, inner) = three(value, "name", "type", "value")?;
    is_text(kind, "NamedArgument")?;
    Some((name, inner))
}
