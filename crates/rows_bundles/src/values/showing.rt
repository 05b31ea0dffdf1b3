//! What values are shown as.

use crate::values::count::{Count, Value};
use crate::values::made::value_of;
use crate::values::scope::Plain;
use fluent_value::{EnglishPlurals, FluentType, MemoizerKind};
use rows_common::Row;
use std::alloc::{AllocError, Global};
use std::borrow::CowStr;

/// What stands in a text before a value is written after it.
const BEFORE: &str = "> ";

/// Whether a value is shown as its row says, by each call.
pub fn is_right(alloc: Global, row: Row<'_>) -> Option<bool> {
    let value = value_of(alloc, row.subject)?;
    Some(
        is_written(alloc, &value, row.wanted)?
            && is_text(value.as_string(&Plain(alloc)), row.wanted)?
            && is_text(value.into_string(&Plain(alloc)), row.wanted)?,
    )
}

/// Whether a value is written after what stands there.
fn is_written(alloc: Global, value: &Value<'_>, wanted: &str) -> Option<bool> {
    let mut text = String::from_str(alloc, BEFORE).ok()?;
    value.write(&mut text, &Plain(alloc)).ok()?;
    Some(text.as_str().strip_prefix(BEFORE) == Some(wanted))
}

fn is_text(shown: Result<CowStr<'_>, AllocError>, wanted: &str) -> Option<bool> {
    let text = shown.ok()?;
    Some(text.as_str() == wanted)
}

/// Whether a count is shown as its row says, by its type and by the plural source, and is what it
/// is copied as.
pub fn is_own(alloc: Global, row: Row<'_>) -> Option<bool> {
    let count = Count(row.subject.parse::<u32>().ok()?);
    Some(
        is_text(count.as_string(alloc), row.wanted)?
            && is_text(EnglishPlurals.stringify_value(alloc, &count), row.wanted)?
            && count.duplicate(alloc) == Ok(count),
    )
}
