//! Plural operands, and the plural rules of English.

use fluent_number::{
    Decimal, FluentNumber, PluralCategory, PluralOperands, PluralRuleType, english_category,
};
use rows_common::Row;
use std::str::SplitWhitespace;

/// Whether a number, which may be to have so many fraction digits at least, has these operands `i`,
/// `v`, `w`, `f` and `t`.
pub fn are_operands(row: Row<'_>) -> Option<bool> {
    let mut number = row.subject.parse::<FluentNumber>().ok()?;
    if !row.by.is_empty() {
        number.options.minimum_fraction_digits = Some(row.by.parse::<usize>().ok()?);
    }
    let operands = PluralOperands::from(&number);
    Some(is_without_sign(operands.n, number.value) && are_next(row.wanted, &operands))
}

fn is_without_sign(n: Decimal, value: Decimal) -> bool {
    !n.is_negative() && n.whole() == value.whole() && n.fraction() == value.fraction()
}

/// Whether operands are those of the words, `n` aside.
fn are_next(words: &str, operands: &PluralOperands) -> bool {
    let mut words = words.split_whitespace();
    is_next(&mut words, operands.i)
        && is_next(&mut words, operands.v as u64)
        && is_next(&mut words, operands.w as u64)
        && is_next(&mut words, operands.f)
        && is_next(&mut words, operands.t)
}

/// Whether the next word is this number.
fn is_next(words: &mut SplitWhitespace<'_>, n: u64) -> bool {
    match words.next() {
        Some(word) => matches!(word.parse::<u64>(), Ok(wanted) if wanted == n),
        None => false,
    }
}

/// Whether a number has these categories, as a count and as a place in an order.
pub fn are_categories(row: Row<'_>) -> Option<bool> {
    let number = row.subject.parse::<FluentNumber>().ok()?;
    let operands = PluralOperands::from(&number);
    let cardinal = name_of(english_category(PluralRuleType::CARDINAL, &operands));
    let ordinal = name_of(english_category(PluralRuleType::ORDINAL, &operands));
    Some(cardinal == row.by && ordinal == row.wanted)
}

/// The name of a category.
pub fn name_of(category: PluralCategory) -> &'static str {
    match category {
        PluralCategory::ZERO => "zero",
        PluralCategory::ONE => "one",
        PluralCategory::TWO => "two",
        PluralCategory::FEW => "few",
        PluralCategory::MANY => "many",
        PluralCategory::OTHER => "other",
    }
}
