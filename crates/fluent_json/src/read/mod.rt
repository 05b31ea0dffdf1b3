//! From a JSON value to the tree that has it.

ghost use Rattle.std.specs.Prelude.{◌≡◌, List, IfOk};
ghost use Rattle.serde_json.specs.Data.{string};
ghost use Rattle.serde_json.specs.View.{view, items_view};
ghost use Rattle.fluent_grammar.specs.Tree.{Entry as PlainEntry};
ghost use Rattle.fluent_json.specs.Given.{IfShape, message_of, term_of};
ghost use Rattle.fluent_json_write.specs.Json.{HasValue, HasNoTree, HasNone, each, or_null, json_pattern, json_attribute, json_comment, json_entry};
ghost use Rattle.fluent_json_write.specs.Parts.{plain, lines_json, entries_json, attributes_json, attribute_json, maybe_pattern_json, maybe_comment_json, entry_json};

mod patterns;

use crate::error::FromValueError;
use crate::selects::selects_by_attribute;
use fluent_ast::{Attribute, Comment, Entry, Message, Pattern, Resource, Term};
use fluent_json_write::parts;
use patterns::{read_identifier, read_pattern};
use serde_json::Value;
use std::alloc::Global;

/// The tree that has a JSON value, as `docs/reference/json.md` says: the one whose value `to_value`
/// of `fluent_json_write` gives, or that value without its version.
///
/// Names and literals are not examined, and neither are the texts in them. Nothing changes what
/// `value` holds.
///
/// ```
/// match from_value(alloc, &value) {
///     Ok(back) => Ok(back),
///     Err(FromValueError::Shape) => unreachable!(),
///     Err(FromValueError::Memory) => Err(AllocError),
/// }
/// ```
///
/// # Errors
/// `Shape` exactly if no tree has the value: a key is unknown or missing, or a value is of another
/// kind than the table has there, so also if there is a number; the version is another one; or
/// there is none, and a select is by a message's attribute. `Memory` if memory runs out. Nothing of
/// the tree is left after either.
pub fn from_value(alloc: Global, value: &Value) -> Result<Resource<String>, FromValueError>
    ensures ok { IfOk result (λ resource. HasValue (plain resource) (view value.now)) }
    ensures inverse { (tree : List PlainEntry) → HasValue tree (view value.now)
        → IfOk result (λ read. plain read ≡ tree) }
    ensures shape { result ≡ Err FromValueError.Shape → HasNoTree (view value.now) }
{
    read_resource(alloc, value)
}

/// The tree, of a value with a version or without.
fn read_resource(alloc: Global, value: &Value) -> Result<Resource<String>, FromValueError>
    ensures ok { IfOk result (λ resource. HasValue (plain resource) (view value.now)) }
    ensures shape { IfShape result (HasNoTree (view value.now)) }
{
    if let Some(values) = parts::resource(value) {
        return read_body(alloc, values);
    }
    let Some(values) = parts::unversioned_resource(value) else {
        return Err(FromValueError::Shape);
    };
    let resource = read_body(alloc, values)?;
    if selects_by_attribute(&resource) {
        return Err(FromValueError::Shape);
    }
    Ok(resource)
}

fn read_body(alloc: Global, values: &[Value]) -> Result<Resource<String>, FromValueError>
    ensures ok { IfOk result (λ resource. entries_json resource.body.items
        ≡ items_view values.now) }
    ensures shape { IfShape result (HasNone (each json_entry) (items_view values.now)) }
{
    let mut body = Vec::new(alloc);
    for value in values {
        body.push(read_entry(alloc, value)?)?;
    }
    Ok(Resource { body })
}

fn read_entry(alloc: Global, value: &Value) -> Result<Entry<String>, FromValueError>
    ensures ok { IfOk result (λ entry. entry_json entry ≡ view value.now) }
    ensures shape { IfShape result (HasNone json_entry (view value.now)) }
{
    if let Some((id, pattern, attributes, comment)) = parts::message(value) {
        return read_message(alloc, id, pattern, attributes, comment);
    }
    if let Some((id, pattern, attributes, comment)) = parts::term(value) {
        return read_term(alloc, id, pattern, attributes, comment);
    }
    if let Some(lines) = parts::comment(value) {
        let content = read_lines(alloc, lines)?;
        return Ok(Entry::Comment(Comment { content }));
    }
    if let Some(lines) = parts::group_comment(value) {
        let content = read_lines(alloc, lines)?;
        return Ok(Entry::GroupComment(Comment { content }));
    }
    if let Some(lines) = parts::resource_comment(value) {
        let content = read_lines(alloc, lines)?;
        return Ok(Entry::ResourceComment(Comment { content }));
    }
    if let Some(text) = parts::junk(value) {
        let content = String::from_str(alloc, text)?;
        return Ok(Entry::Junk { content });
    }
    Err(FromValueError::Shape)
}

/// A message from its parts.
fn read_message(
    alloc: Global,
    id: &Value,
    pattern: &Value,
    attributes: &[Value],
    comment: &Value,
) -> Result<Entry<String>, FromValueError>
    ensures ok { IfOk result (λ entry. entry_json entry
        ≡ message_of id.now pattern.now attributes.now comment.now) }
    ensures shape { IfShape result (HasNone json_entry
        (message_of id.now pattern.now attributes.now comment.now)) }
{
    let id = read_identifier(alloc, id)?;
    let value = read_maybe_pattern(alloc, pattern)?;
    let attributes = read_attributes(alloc, attributes)?;
    let comment = read_maybe_comment(alloc, comment)?;
    Ok(Entry::Message(Message {
        id,
        value,
        attributes,
        comment,
    }))
}

/// A term from its parts.
fn read_term(
    alloc: Global,
    id: &Value,
    pattern: &Value,
    attributes: &[Value],
    comment: &Value,
) -> Result<Entry<String>, FromValueError>
    ensures ok { IfOk result (λ entry. entry_json entry
        ≡ term_of id.now pattern.now attributes.now comment.now) }
    ensures shape { IfShape result (HasNone json_entry
        (term_of id.now pattern.now attributes.now comment.now)) }
{
    let id = read_identifier(alloc, id)?;
    let value = read_pattern(alloc, pattern)?;
    let attributes = read_attributes(alloc, attributes)?;
    let comment = read_maybe_comment(alloc, comment)?;
    Ok(Entry::Term(Term {
        id,
        value,
        attributes,
        comment,
    }))
}

/// A pattern, or None for null.
fn read_maybe_pattern(
    alloc: Global,
    value: &Value,
) -> Result<Option<Pattern<String>>, FromValueError>
    ensures ok { IfOk result (λ pattern. maybe_pattern_json pattern ≡ view value.now) }
    ensures shape { IfShape result (HasNone (or_null json_pattern) (view value.now)) }
{
    if value.is_null() {
        return Ok(None);
    }
    Ok(Some(read_pattern(alloc, value)?))
}

/// The comment above an entry, or None for null.
fn read_maybe_comment(
    alloc: Global,
    value: &Value,
) -> Result<Option<Comment<String>>, FromValueError>
    ensures ok { IfOk result (λ comment. maybe_comment_json comment ≡ view value.now) }
    ensures shape { IfShape result (HasNone (or_null json_comment) (view value.now)) }
{
    if value.is_null() {
        return Ok(None);
    }
    let Some(lines) = parts::comment(value) else {
        return Err(FromValueError::Shape);
    };
    let content = read_lines(alloc, lines)?;
    Ok(Some(Comment { content }))
}

fn read_attributes(
    alloc: Global,
    values: &[Value],
) -> Result<Vec<Attribute<String>>, FromValueError>
    ensures ok { IfOk result (λ attributes. attributes_json attributes.items
        ≡ items_view values.now) }
    ensures shape { IfShape result (HasNone (each json_attribute) (items_view values.now)) }
{
    let mut attributes = Vec::new(alloc);
    for value in values {
        attributes.push(read_attribute(alloc, value)?)?;
    }
    Ok(attributes)
}

fn read_attribute(alloc: Global, value: &Value) -> Result<Attribute<String>, FromValueError>
    ensures ok { IfOk result (λ attribute. attribute_json attribute ≡ view value.now) }
    ensures shape { IfShape result (HasNone json_attribute (view value.now)) }
{
    let Some((id, pattern)) = parts::attribute(value) else {
        return Err(FromValueError::Shape);
    };
    let id = read_identifier(alloc, id)?;
    let value = read_pattern(alloc, pattern)?;
    Ok(Attribute { id, value })
}

fn read_lines(alloc: Global, values: &[Value]) -> Result<Vec<String>, FromValueError>
    ensures ok { IfOk result (λ lines. lines_json lines.items ≡ items_view values.now) }
    ensures shape { IfShape result (HasNone (each string) (items_view values.now)) }
{
    let mut lines = Vec::new(alloc);
    for value in values {
        let Some(line) = value.as_str() else {
            return Err(FromValueError::Shape);
        };
        lines.push(String::from_str(alloc, line)?)?;
    }
    Ok(lines)
}
