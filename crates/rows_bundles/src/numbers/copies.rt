//! Copies of numbers and of their options.

use fluent_number::FluentNumber;
use rows_common::Row;
use std::alloc::Global;

/// Whether a number and its options equal their copies.
pub fn is_copied(alloc: Global, row: Row<'_>) -> Option<bool> {
    let number = row.subject.parse::<FluentNumber>().ok()?;
    Some(equals_copy(alloc, &number)? && equal_copy(alloc, &number)?)
}

fn equals_copy(alloc: Global, number: &FluentNumber) -> Option<bool> {
    let copy = number.try_clone(alloc).ok()?;
    Some(copy == *number)
}

/// Whether the options of a number equal their copy.
fn equal_copy(alloc: Global, number: &FluentNumber) -> Option<bool> {
    let copy = number.options.try_clone(alloc).ok()?;
    Some(copy == number.options)
}
