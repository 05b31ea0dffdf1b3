//! Raw texts of string literals, and what they stand for.

use crate::text_of;
use anyhow::Result;
use fluent_syntax::unicode::{unescape_unicode, unescape_unicode_to_string};
use serde_json::Value;
use std::alloc::Global;
use std::borrow::CowStr;

/// Whether both calls give the text of a row, and one borrows it where the row says so.
pub fn agrees(alloc: Global, vector: &Value) -> Result<bool> {
    let raw = text_of(vector, "raw")?;
    let text = text_of(vector, "text")?;
    Ok(is_written(alloc, raw, text)? && is_given(alloc, vector, raw, text)?)
}

fn is_written(alloc: Global, raw: &str, text: &str) -> Result<bool> {
    let mut written = String::new(alloc);
    unescape_unicode(&mut written, raw)?;
    Ok(written.as_str() == text)
}

fn is_given(alloc: Global, vector: &Value, raw: &str, text: &str) -> Result<bool> {
    let given = unescape_unicode_to_string(alloc, raw)?;
    let is_borrowed = matches!(given, CowStr::Borrowed(_));
    let wanted = vector.get("borrowed").and_then(Value::as_bool);
    Ok(given.as_str() == text && wanted == Some(is_borrowed))
}
