//! Which values are equal, and which equal their copies.

use crate::values::count::Value;
use crate::values::made::value_of;
use rows_common::Row;
use std::alloc::Global;

/// Whether two values are `equal`, or are not, as their row says.
pub fn is_right(alloc: Global, row: Row<'_>) -> Option<bool> {
    let value = value_of(alloc, row.subject)?;
    let other = value_of(alloc, row.by)?;
    Some((value == other) == (row.wanted == "equal"))
}

/// Whether a value equals its copies.
pub fn is_copied(alloc: Global, row: Row<'_>) -> Option<bool> {
    let value = value_of(alloc, row.subject)?;
    Some(equals_copy(alloc, &value)? && equals_owned(alloc, &value)?)
}

fn equals_copy(alloc: Global, value: &Value<'_>) -> Option<bool> {
    let copy = value.try_clone(alloc).ok()?;
    Some(copy == *value)
}

fn equals_owned(alloc: Global, value: &Value<'_>) -> Option<bool> {
    let owned = value.into_owned(alloc).ok()?;
    Some(owned == *value)
}
