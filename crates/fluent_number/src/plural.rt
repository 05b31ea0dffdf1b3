ghost use Rattle.std.specs.Prelude.{◌≡◌, max, min, unwrap_or};
ghost use Rattle.fluent_number.specs.Operands.{operands_of};
ghost use Rattle.fluent_number.specs.Number.{number_of};
ghost use Rattle.fluent_number.specs.Plurals.{english, english_cardinal as cardinal_category, english_ordinal as ordinal_category};

use crate::decimal::{Decimal, FRACTION_DIGITS, power_of_ten};
use crate::number::FluentNumber;
use crate::writing::significant_digits;

/// What plural rules look at, by the names of Unicode's plural rules.
///
/// ```
/// let number = FluentNumber::from(count);
/// english_category(PluralRuleType::CARDINAL, &PluralOperands::from(&number))
/// ```
#[derive(Clone, Copy, Debug, PartialEq, Eq, Hash)]
pub struct PluralOperands {
    /// The value without its sign.
    pub n: Decimal,
    /// The whole part.
    pub i: u64,
    /// How many digits are shown after the point, at most 18.
    pub v: usize,
    /// How many digits are after the point, without zeros at the end.
    pub w: usize,
    /// The number that the digits shown after the point write.
    pub f: u64,
    /// The number that the digits after the point write without zeros at the end.
    pub t: u64,
}

/// The operands of a number: `minimum_fraction_digits` counts as digits shown, up to 18 of them.
impl From<&FluentNumber> for PluralOperands {
    ghost from_gives = { λ number operands. operands ≡ operands_of (number_of number.now) };

    fn from(number: &FluentNumber) -> Self {
        let value = number.value;
        let fraction = value.fraction();
        let (w, t) = significant_digits(fraction);
        let v = shown_digits(w, number.options.minimum_fraction_digits);
        PluralOperands {
            n: value.abs(),
            i: value.whole(),
            v,
            w,
            f: fraction / power_of_ten(FRACTION_DIGITS - v),
            t,
        }
    }
}

/// How many digits are shown after the point: at least the significant ones, and at most 18 for the
/// count asked for.
fn shown_digits(significant: usize, minimum: Option<usize>) -> usize
    ensures { result ≡ max significant (min (unwrap_or minimum 0) 18) }
{
    significant.max(minimum.unwrap_or(0).min(FRACTION_DIGITS))
}

/// The category of a number in a language's plural rules, by the names of Unicode's plural rules.
///
/// ```no_run
/// let category = english_category(PluralRuleType::ORDINAL, &operands); // as in "2nd"
/// println!(rt; "{}", category == PluralCategory::TWO)?; // true
/// ```
#[derive(Clone, Copy, Debug, PartialEq, Eq, Hash)]
pub enum PluralCategory {
    /// `zero`.
    ZERO,
    /// `one`.
    ONE,
    /// `two`.
    TWO,
    /// `few`.
    FEW,
    /// `many`.
    MANY,
    /// `other`, which every language has.
    OTHER,
}

/// Which rules: those for counts, as in "2 days", or those for places in an order, as in "the 2nd
/// day".
///
/// ```
/// polish.category(PluralRuleType::CARDINAL, &PluralOperands::from(count))
/// ```
#[derive(Clone, Copy, Debug, PartialEq, Eq, Hash)]
pub enum PluralRuleType {
    /// The rules for counts.
    CARDINAL,
    /// The rules for places in an order.
    ORDINAL,
}

/// The category of a number in English, from its operands.
///
/// Of counts, 1 shown without digits after the point is `one` and all else `other`. Of places, a
/// whole number is `one`, `two` or `few` if its last digit is 1, 2 or 3 and its last two aren't 11,
/// 12 or 13, and all else is `other`.
pub fn english_category(rule: PluralRuleType, operands: &PluralOperands) -> PluralCategory
    ensures { result ≡ english rule operands.now }
{
    match rule {
        PluralRuleType::CARDINAL => english_cardinal(operands),
        PluralRuleType::ORDINAL => english_ordinal(operands),
    }
}

/// One of something, shown without digits after the point, as in "1 day" but "1.0 days".
fn english_cardinal(operands: &PluralOperands) -> PluralCategory
    ensures { result ≡ cardinal_category operands.now }
{
    if operands.i == 1 && operands.v == 0 {
        PluralCategory::ONE
    } else {
        PluralCategory::OTHER
    }
}

/// What the last digits of a whole number say, as in "1st", "2nd", "3rd" and "11th".
fn english_ordinal(operands: &PluralOperands) -> PluralCategory
    ensures { result ≡ ordinal_category operands.now }
{
    if operands.t != 0 || operands.w != 0 {
        return PluralCategory::OTHER;
    }
    match (operands.i % 10, operands.i % 100) {
        (1, last_two) if last_two != 11 => PluralCategory::ONE,
        (2, last_two) if last_two != 12 => PluralCategory::TWO,
        (3, last_two) if last_two != 13 => PluralCategory::FEW,
        _ => PluralCategory::OTHER,
    }
}
