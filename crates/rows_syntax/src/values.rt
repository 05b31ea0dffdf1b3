//! JSON texts, and the trees that have their values.
//!
//! A row has a `text`, the tree of its value as `{:?}` shows it, `shown`, and the compact text of
//! that tree's value with the version, `written`. Where no tree has the value, a row says what the
//! `error` is told as, and its `code`. A row without a text stands for memory that ran out.

use crate::text_of;
use anyhow::{Context, Result};
use fluent_json::{FromValueError, from_value, to_value};
use fluent_syntax::ast::Resource;
use serde_json::Value;
use std::alloc::{AllocError, Global};

/// Whether the value of a row's text has the tree that the row shows, or none.
pub fn agrees(alloc: Global, vector: &Value) -> Result<bool> {
    match vector.get("text").and_then(Value::as_str) {
        Some(text) => {
            let value = Value::from_str(alloc, text).context("the text of a value")?;
            is_read(alloc, vector, &value)
        }
        None => is_told(alloc, vector, FromValueError::from(AllocError)),
    }
}

/// Whether a value is read as the row says.
fn is_read(alloc: Global, vector: &Value, value: &Value) -> Result<bool> {
    match from_value(alloc, value) {
        Ok(tree) => is_tree(alloc, vector, &tree),
        Err(error) => is_told(alloc, vector, error),
    }
}

/// Whether a tree is the one that a row shows, and its value is written as the row says.
fn is_tree(alloc: Global, vector: &Value, tree: &Resource<String>) -> Result<bool> {
    Ok(is_shown(alloc, vector, tree)? && is_written(alloc, vector, &to_value(alloc, tree)?)?)
}

/// Whether a tree is shown as a row says.
fn is_shown(alloc: Global, vector: &Value, tree: &Resource<String>) -> Result<bool> {
    let wanted = text_of(vector, "shown")?;
    let shown = format!(in alloc; "{tree:?}")?;
    Ok(shown.as_str() == wanted)
}

fn is_written(alloc: Global, vector: &Value, value: &Value) -> Result<bool> {
    let wanted = text_of(vector, "written")?;
    let written = value.to_string(alloc)?;
    Ok(written.as_str() == wanted)
}

/// Whether an error is told as a row says, and has its code.
fn is_told(alloc: Global, vector: &Value, error: FromValueError) -> Result<bool> {
    let wanted = text_of(vector, "error")?;
    let code = vector.get("code").and_then(Value::as_u64);
    let told = format!(in alloc; "{error}")?;
    Ok(told.as_str() == wanted && code == Some(error as u64))
}
