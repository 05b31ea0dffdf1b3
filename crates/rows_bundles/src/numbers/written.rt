//! Which texts are numbers, which digits they ask for, and what numbers are written as.

use fluent_number::{FluentNumber, NotANumber};
use rows_common::Row;
use std::alloc::{AllocError, Global};

/// Whether a text is a number that asks for so many fraction digits, if for any, and is written so.
pub fn is_read(alloc: Global, row: Row<'_>) -> Option<bool> {
    let number = row.subject.parse::<FluentNumber>().ok()?;
    let are_digits = number.options.minimum_fraction_digits == row.by.parse::<usize>().ok();
    Some(are_digits && is_written(alloc, &number, row.wanted)?)
}

fn is_written(alloc: Global, number: &FluentNumber, wanted: &str) -> Option<bool> {
    let text = number.as_string(alloc).ok()?;
    Some(text.as_str() == wanted)
}

/// Whether a text is no number, which is told so.
pub fn is_refused(alloc: Global, row: Row<'_>) -> Option<bool> {
    if !matches!(row.subject.parse::<FluentNumber>(), Err(NotANumber)) {
        return Some(false);
    }
    let told = NotANumber.to_string(alloc).ok()?;
    Some(told.as_str() == row.wanted)
}

/// Whether a number that is to have so many fraction digits at least, if any, is written so.
pub fn is_filled(alloc: Global, row: Row<'_>) -> Option<bool> {
    let mut number = row.subject.parse::<FluentNumber>().ok()?;
    number.options.minimum_fraction_digits = row.by.parse::<usize>().ok();
    is_written(alloc, &number, row.wanted)
}

/// Whether a number of so many fraction digits is refused, since no memory holds them.
pub fn is_too_long(alloc: Global, row: Row<'_>) -> Option<bool> {
    let mut number = row.subject.parse::<FluentNumber>().ok()?;
    number.options.minimum_fraction_digits = Some(row.by.parse::<usize>().ok()?);
    Some(matches!(number.as_string(alloc), Err(AllocError)))
}

/// Whether two numbers are `equal`, or are not, as their row says.
pub fn are_differing(row: Row<'_>) -> Option<bool> {
    let number = row.subject.parse::<FluentNumber>().ok()?;
    let other = row.by.parse::<FluentNumber>().ok()?;
    Some((number == other) == (row.wanted == "equal"))
}
