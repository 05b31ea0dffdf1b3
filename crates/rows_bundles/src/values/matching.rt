//! Which keys match which values, by the plural rules of English.

use crate::values::made::value_of;
use crate::values::scope::Plain;
use rows_common::Row;
use std::alloc::Global;

/// Whether a key `matches` a value, or doesn't, as their row says.
pub fn is_right(alloc: Global, row: Row<'_>) -> Option<bool> {
    let key = value_of(alloc, row.subject)?;
    let value = value_of(alloc, row.by)?;
    Some(key.matches(&value, &Plain(alloc)) == (row.wanted == "matches"))
}
