//! How many digits are shown, and the number that they write.
ghost use Rattle.std.specs.Prelude.{◌≡◌, ◌+◌, ◌-◌, ◌*◌, ◌/◌, ◌%◌, ◌^◌, ◌<◌, ◌≤◌, length, decimal, unsigned_abs};
ghost use Rattle.fluent_number.specs.Options.{options_of};
ghost use Rattle.fluent_number.specs.Decimal.{fraction_of};
ghost use Rattle.fluent_numerals.specs.Rounding.{ArePartsByFraction, AreShownParts, asked_least, by_fraction, by_significant, has_significant_digits, least_fraction_digits, least_integer_digits, most_fraction_digits, rounded, shown_of};

use fluent_number::{Decimal, FluentNumberOptions};
use itoa::Buffer;

/// The most digits before the point that can be asked for.
const MOST_INTEGER_DIGITS: usize = 21;

/// The most digits after the point that can be asked for.
const MOST_FRACTION_DIGITS: usize = 100;

/// The most significant digits that can be asked for.
const MOST_SIGNIFICANT_DIGITS: usize = 21;

/// What is shown of a number.
#[derive(Clone, Copy)]
struct Shown {
    /// The units that are left after rounding.
    units: u128,
    /// How many digits there are after the point at least.
    least: usize,
}

/// What is shown of a number, before the point and after it.
#[derive(Clone, Copy)]
pub(crate) struct Parts {
    /// What stands before the point.
    pub(crate) whole: u128,
    /// What stands after the point, in units.
    pub(crate) fraction: u64,
    /// How many digits there are after the point at least.
    pub(crate) least: usize,
}

/// What is shown of a decimal, where a style shows ten to the power of `places` units as one, and
/// usually from `least` to `most` digits after the point.
///
/// A whole number needs no division: it is rounded to itself.
pub(crate) fn shown_parts(
    value: Decimal,
    places: usize,
    least: usize,
    most: usize,
    options: &FluentNumberOptions,
) -> Parts
    requires few { places ≤ 18 }
    ensures parts { AreShownParts places least most (options_of options.now) (unsigned_abs value) result }
    ensures below { result.fraction < 10 ^ places }
{
    if places == 18 && value.fraction() == 0 && !has_significant_digits(options) {
        return whole_parts(value, least, most, options);
    }
    let shown = shown_digits(units_of(value), places, least, most, options);
    let (whole, fraction) = split_at_point(shown.units, places);
    Parts {
        whole,
        fraction,
        least: shown.least,
    }
}

/// The same for a whole number, by the digits after the point.
fn whole_parts(value: Decimal, least: usize, most: usize, options: &FluentNumberOptions) -> Parts
    requires { fraction_of value ≡ 0 }
    ensures parts { ArePartsByFraction least most (options_of options.now) (unsigned_abs value) result }
    ensures none { result.fraction ≡ 0 }
{
    Parts {
        whole: u128::from(value.whole()),
        fraction: 0,
        least: fraction_counts(least, most, options).0,
    }
}

/// Whether significant digits are asked for.
fn has_significant_digits(options: &FluentNumberOptions) -> bool
    ensures { result ≡ has_significant_digits (options_of options.now) }
{
    options.minimum_significant_digits.is_some() || options.maximum_significant_digits.is_some()
}

/// The units of a decimal, without its sign.
fn units_of(value: Decimal) -> u128
    ensures value { result ≡ unsigned_abs value }
    ensures small { result < 10 ^ 38 }
{
    u128::from(value.whole()) * 1_000_000_000_000_000_000 + u128::from(value.fraction())
}

/// How many digits there are before the point at least.
pub(crate) fn least_integer_digits(options: &FluentNumberOptions) -> usize
    ensures value { result ≡ least_integer_digits (options_of options.now) }
    ensures few { result ≤ 21 }
{
    options
        .minimum_integer_digits
        .unwrap_or(1)
        .min(MOST_INTEGER_DIGITS)
}

/// What is shown of this many units, of which ten to the power of `places` are one, where a style
/// usually shows from `least` to `most` digits after the point.
fn shown_digits(
    units: u128,
    places: usize,
    least: usize,
    most: usize,
    options: &FluentNumberOptions,
) -> Shown
    requires small { units < 10 ^ 38 }
    requires few { places ≤ 18 }
    ensures value { result ≡ shown_of places least most (options_of options.now) units }
    ensures small { result.units < 2 * 10 ^ 38 }
{
    if has_significant_digits(options) {
        by_significant_digits(units, places, options)
    } else {
        by_fraction_digits(units, places, least, most, options)
    }
}

/// The same by the digits after the point.
fn by_fraction_digits(
    units: u128,
    places: usize,
    least: usize,
    most: usize,
    options: &FluentNumberOptions,
) -> Shown
    requires small { units < 10 ^ 38 }
    requires few { places ≤ 18 }
    ensures value { result ≡ by_fraction places least most (options_of options.now) units }
    ensures small { result.units < 2 * 10 ^ 38 }
{
    let (least, most) = fraction_counts(least, most, options);
    Shown {
        units: rounded(units, places.saturating_sub(most)),
        least,
    }
}

/// How many digits there are after the point at least and at most, where a style usually shows from
/// `least` to `most`.
fn fraction_counts(least: usize, most: usize, options: &FluentNumberOptions) -> (usize, usize)
    ensures least { result.0 ≡ least_fraction_digits least most (options_of options.now) }
    ensures most { result.1 ≡ most_fraction_digits least most (options_of options.now) }
{
    let asked = asked_least(least, most, options);
    let most = options
        .maximum_fraction_digits
        .unwrap_or(most.max(asked.unwrap_or(0)))
        .min(MOST_FRACTION_DIGITS);
    (asked.unwrap_or(least).min(most), most)
}

/// The least count of digits after the point that is asked for. Of a style with a fixed count it
/// counts only together with a greatest one, since a number that was written with digits there has
/// one by itself.
fn asked_least(least: usize, most: usize, options: &FluentNumberOptions) -> Option<usize>
    ensures { result ≡ asked_least least most (options_of options.now) }
{
    if least == most && options.maximum_fraction_digits.is_none() {
        None
    } else {
        options.minimum_fraction_digits
    }
}

/// The same by the significant digits.
fn by_significant_digits(units: u128, places: usize, options: &FluentNumberOptions) -> Shown
    requires small { units < 10 ^ 38 }
    requires few { places ≤ 18 }
    ensures value { result ≡ by_significant places (options_of options.now) units }
    ensures small { result.units < 2 * 10 ^ 38 }
{
    let most = options
        .maximum_significant_digits
        .unwrap_or(MOST_SIGNIFICANT_DIGITS)
        .clamp(1, MOST_SIGNIFICANT_DIGITS);
    let least = options.minimum_significant_digits.unwrap_or(1).min(most);
    let units = rounded(units, digit_count(units).saturating_sub(most));
    let size = if units == 0 {
        places + 1
    } else {
        digit_count(units)
    };
    Shown {
        units,
        least: (least + places).saturating_sub(size),
    }
}

/// A number rounded to a multiple of a power of ten, and halves away from zero.
fn rounded(units: u128, exponent: usize) -> u128
    requires small { units < 10 ^ 38 }
    requires few { exponent ≤ 38 }
    ensures value { result ≡ rounded exponent units }
    ensures small { result < 2 * 10 ^ 38 }
{
    let step = power_of_ten(exponent);
    (units + step / 2) / step * step
}

/// How many digits a number has.
fn digit_count(n: u128) -> usize
    ensures value { result ≡ length (decimal n) }
    ensures few { result ≤ 39 }
{
    let mut buffer = Buffer::new();
    buffer.format(n).len()
}

/// Ten to a power of at most 38. It isn't computed for the places of numbers, or for those that are
/// mostly rounded away.
fn power_of_ten(exponent: usize) -> u128
    requires { exponent ≤ 38 }
    ensures value { result ≡ 10 ^ exponent }
    ensures positive { 0 < result }
    ensures bound { result ≤ 10 ^ 38 }
{
    match exponent {
        15 => 1_000_000_000_000_000,
        18 => 1_000_000_000_000_000_000,
        _ => computed_power(exponent),
    }
}

/// Ten to a power of at most 38.
fn computed_power(exponent: usize) -> u128
    requires { exponent ≤ 38 }
    ensures value { result ≡ 10 ^ exponent }
    ensures positive { 0 < result }
    ensures bound { result ≤ 10 ^ 38 }
{
    10_u128.pow(exponent as u32)
}

/// What stands before the point, and after it, of units of which ten to a power are one.
fn split_at_point(units: u128, places: usize) -> (u128, u64)
    requires { places ≤ 18 }
    ensures whole { result.0 ≡ units / 10 ^ places }
    ensures fraction { result.1 ≡ units % 10 ^ places }
    ensures below { result.1 < 10 ^ places }
{
    let one = power_of_ten(places);
    (units / one, (units % one) as u64)
}

/// The first of this many digits of a number, as an ASCII byte, and the number that the others
/// write.
pub(crate) fn first_digit(number: u64, count: usize) -> (u8, u64)
    requires some { 0 < count }
    requires few { count ≤ 18 }
    requires below { number < 10 ^ count }
    ensures digit { result.0 ≡ 48 + number / 10 ^ (count - 1) }
    ensures rest { result.1 ≡ number % 10 ^ (count - 1) }
    ensures less { result.1 < 10 ^ (count - 1) }
{
    let power = power_of_ten(count - 1) as u64;
    (b'0' + (number / power) as u8, number % power)
}
