//! Texts that are numbers, the fraction digits that they ask for, and what the numbers are shown
//! as.

use crate::values::count::Value;
use fluent_value::FluentValue;
use rows_common::Row;
use std::alloc::Global;

/// Whether a text is the number of its row.
pub fn is_right(alloc: Global, row: Row<'_>) -> Option<bool> {
    let value = Value::try_number(row.subject);
    let FluentValue::Number(number) = value else {
        return Some(false);
    };
    let are_digits = number.options.minimum_fraction_digits == row.by.parse::<usize>().ok();
    let text = number.as_string(alloc).ok()?;
    Some(are_digits && text.as_str() == row.wanted)
}
