//! Decimals and their parts, and integers and the numbers that they are.

use fluent_number::{Decimal, FluentNumber};
use rows_common::Row;
use std::str::SplitWhitespace;

/// Whether a sign, a whole part and a fraction make the decimal whose parts stand after them, or
/// `none`.
pub fn are_parts(row: Row<'_>) -> Option<bool> {
    let made = decimal_of(row.subject)?;
    if row.wanted == "none" {
        return Some(made.is_none());
    }
    Some(made == decimal_of(row.wanted)? && has_parts(made?, row.wanted)?)
}

/// The decimal that these parts make, if they make one.
fn decimal_of(words: &str) -> Option<Option<Decimal>> {
    let (negative, whole, fraction) = parts_of(words)?;
    Some(Decimal::from_parts(negative, whole, fraction))
}

fn has_parts(decimal: Decimal, words: &str) -> Option<bool> {
    let (negative, whole, fraction) = parts_of(words)?;
    Some(
        decimal.is_negative() == negative
            && decimal.whole() == whole
            && decimal.fraction() == fraction,
    )
}

fn parts_of(words: &str) -> Option<(bool, u64, u64)> {
    let (sign, rest) = words.split_once(' ')?;
    let (whole, fraction) = rest.split_once(' ')?;
    Some((
        sign == "-",
        whole.parse::<u64>().ok()?,
        fraction.parse::<u64>().ok()?,
    ))
}

/// Whether a number is cut to its integers: in `i8`, `i16`, `i32`, `i64`, `isize` and `i128`, and
/// in those without a sign.
pub fn is_cut(row: Row<'_>) -> Option<bool> {
    let number = row.subject.parse::<FluentNumber>().ok()?;
    Some(is_cut_to_signed(&number, row.by) && is_cut_to_unsigned(&number, row.wanted))
}

fn is_cut_to_signed(number: &FluentNumber, words: &str) -> bool {
    let mut words = words.split_whitespace();
    is_next(&mut words, i128::from(i8::from(number)))
        && is_next(&mut words, i128::from(i16::from(number)))
        && is_next(&mut words, i128::from(i32::from(number)))
        && is_next(&mut words, i128::from(i64::from(number)))
        && is_next(&mut words, isize::from(number) as i128)
        && is_next(&mut words, i128::from(number))
}

fn is_cut_to_unsigned(number: &FluentNumber, words: &str) -> bool {
    let mut words = words.split_whitespace();
    is_next(&mut words, i128::from(u8::from(number)))
        && is_next(&mut words, i128::from(u16::from(number)))
        && is_next(&mut words, i128::from(u32::from(number)))
        && is_next(&mut words, i128::from(u64::from(number)))
        && is_next(&mut words, usize::from(number) as i128)
        && matches!(i128::try_from(u128::from(number)), Ok(n) if is_next(&mut words, n))
}

/// Whether the next word is this integer.
fn is_next(words: &mut SplitWhitespace<'_>, n: i128) -> bool {
    match words.next() {
        Some(word) => matches!(word.parse::<i128>(), Ok(wanted) if wanted == n),
        None => false,
    }
}

/// Whether an integer that may have no number comes `back` from it, or has `none`.
pub fn is_back(row: Row<'_>) -> Option<bool> {
    let found = match row.subject {
        "i128" => is_wide_signed(row.by.parse::<i128>().ok()?)?,
        "u128" => is_wide_unsigned(row.by.parse::<u128>().ok()?)?,
        _ => return None,
    };
    Some(found == (row.wanted == "back"))
}

/// Whether an integer comes back that may have no number, and for which that is known.
fn is_wide_signed(n: i128) -> Option<bool> {
    match FluentNumber::try_from_i128(n) {
        Some(number) => (n == i128::from(number)).then_some(true),
        None => Some(false),
    }
}

fn is_wide_unsigned(n: u128) -> Option<bool> {
    match FluentNumber::try_from_u128(n) {
        Some(number) => (n == u128::from(number)).then_some(true),
        None => Some(false),
    }
}
