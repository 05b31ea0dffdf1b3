//! Errors, as rows write them: an object for each, with its place, `pos`, the `slice` of its junk
//! or null, what it is told as, `kind`, and the text that its kind holds, `detail`, or null.

use fluent_syntax::parser::{ErrorKind, ParserError};
use serde_json::Value;
use std::alloc::{AllocError, Global};
use std::ops::Range;

/// Whether these are the errors of a list, and each equals its copy.
pub fn are_told(
    alloc: Global,
    errors: &[ParserError],
    wanted: &[Value],
) -> Result<bool, AllocError> {
    for (error, wanted) in errors.iter().zip(wanted) {
        if !is_error(alloc, error, wanted)? {
            return Ok(false);
        }
    }
    Ok(errors.len() == wanted.len() && are_copied(alloc, errors)?)
}

/// Whether an error is the one of an object.
fn is_error(alloc: Global, error: &ParserError, wanted: &Value) -> Result<bool, AllocError> {
    let is_slice = match (&error.slice, wanted.get("slice")) {
        (Some(slice), Some(wanted)) => is_range(slice, Some(wanted)),
        (None, Some(wanted)) => *wanted == Value::Null,
        _ => false,
    };
    let is_place = is_slice && is_range(&error.pos, wanted.get("pos"));
    Ok(is_place && has_detail(&error.kind, wanted.get("detail")) && is_shown(alloc, error, wanted)?)
}

/// Whether a list is the start and the end of a range.
fn is_range(range: &Range<usize>, wanted: Option<&Value>) -> bool {
    match wanted.and_then(Value::as_array) {
        Some(ends) => match ends.as_slice() {
            [start, end] => {
                start.as_u64() == Some(range.start as u64) && end.as_u64() == Some(range.end as u64)
            }
            _ => false,
        },
        None => false,
    }
}

/// Whether an error is told as an object says.
fn is_shown(alloc: Global, error: &ParserError, wanted: &Value) -> Result<bool, AllocError> {
    let shown = format!(in alloc; "{error}")?;
    Ok(wanted.get("kind").and_then(Value::as_str) == Some(shown.as_str()))
}

/// Whether a value is the text that a kind holds, or null where it holds none.
fn has_detail(kind: &ErrorKind, wanted: Option<&Value>) -> bool {
    match (kind, wanted) {
        (ErrorKind::ExpectedToken(token), Some(Value::String(text))) => {
            text.as_str().strip_prefix(*token) == Some("")
        }
        (kind, Some(Value::String(text))) => text_in(kind) == Some(text.as_str()),
        (ErrorKind::ExpectedToken(_), _) => false,
        (kind, Some(Value::Null)) => text_in(kind).is_none(),
        _ => false,
    }
}

/// The text that a kind holds, which isn't a token.
fn text_in(kind: &ErrorKind) -> Option<&str> {
    match kind {
        ErrorKind::ExpectedCharRange { range } => Some(range.as_str()),
        ErrorKind::ExpectedMessageField { entry_id } => Some(entry_id.as_str()),
        ErrorKind::ExpectedTermField { entry_id } => Some(entry_id.as_str()),
        ErrorKind::DuplicatedNamedArgument(text) => Some(text.as_str()),
        ErrorKind::UnknownEscapeSequence(text) => Some(text.as_str()),
        ErrorKind::InvalidUnicodeEscapeSequence(text) => Some(text.as_str()),
        _ => None,
    }
}

/// Whether each error equals its copy and shows what its kind shows.
pub fn are_copied(alloc: Global, errors: &[ParserError]) -> Result<bool, AllocError> {
    for error in errors {
        if !is_copied(alloc, error)? || !shows_its_kind(alloc, error)? {
            return Ok(false);
        }
    }
    Ok(true)
}

fn is_copied(alloc: Global, error: &ParserError) -> Result<bool, AllocError> {
    let copy = error.try_clone(alloc)?;
    Ok(copy == *error)
}

/// Whether an error and a copy of its kind, which equals it, show the same.
fn shows_its_kind(alloc: Global, error: &ParserError) -> Result<bool, AllocError> {
    let kind = error.kind.try_clone(alloc)?;
    Ok(kind == error.kind && show_alike(alloc, error, &kind)?)
}

fn show_alike(alloc: Global, error: &ParserError, kind: &ErrorKind) -> Result<bool, AllocError> {
    let shown = format!(in alloc; "{error}")?;
    shows(alloc, kind, shown.as_str())
}

/// Whether a kind shows this text.
fn shows(alloc: Global, kind: &ErrorKind, text: &str) -> Result<bool, AllocError> {
    let shown = format!(in alloc; "{kind}")?;
    Ok(shown.as_str() == text)
}
