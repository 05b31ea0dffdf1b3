//! The members of rows.

use anyhow::{Context, Result};
use serde_json::Value;
use std::alloc::Global;

/// The list under a name.
pub fn list_in<'row>(row: &'row Value, name: &str) -> Result<&'row [Value]> {
    let list = row.get(name).and_then(Value::as_array).context("a list")?;
    Ok(list.as_slice())
}

/// The texts under a name.
pub fn texts_in<'row>(alloc: Global, row: &'row Value, name: &str) -> Result<Vec<&'row str>> {
    let list = list_in(row, name)?;
    let mut texts = Vec::new(alloc);
    for value in list {
        texts.push(value.as_str().context("a text")?)?;
    }
    Ok(texts)
}

/// Whether a setting is on, which a row may leave out.
pub fn is_set(row: &Value, name: &str, usual: bool) -> bool {
    row.get(name).and_then(Value::as_bool).unwrap_or(usual)
}

/// How often a text or a line comes.
pub fn count_of(count: &Value) -> Result<usize> {
    let count = count.as_u64().context("a count")?;
    Ok(usize::try_from(count).unwrap_or(0))
}
