//! Reads a number from its text.

ghost use Rattle.std.specs.Prelude.{◌≡◌, ◌≢◌, ◌+◌, ◌-◌, ◌*◌, ◌^◌, ◌<◌, ◌≤◌, true, length, SomeIff, option_copied, option_map, unwrap_or, take, [], IfSome, OnSome, IfNone, IfOk, OnErr, Option};
ghost use Rattle.std.specs.Char.{is_ascii_digit};
ghost use Rattle.std.specs.List.{list_all, prefix_len};
ghost use Rattle.fluent_number.specs.Digits.{Text, digits_worth};
ghost use Rattle.fluent_number.specs.Spelling.{point_text};
ghost use Rattle.fluent_number.specs.Number.{number_of};
ghost use Rattle.fluent_number.specs.Options.{options_of, default_options};
ghost use Rattle.fluent_number.specs.Reading.{read_number, begins_with_minus, without_sign, numeral_of, IsTooGreatAsDigits, IsFraction, fraction_units};

use crate::decimal::{Decimal, FRACTION_DIGITS, power_of_ten};
use crate::number::{FluentNumber, NotANumber};
use crate::options::FluentNumberOptions;

/// This many digits write a number that fits in any case.
const SAFE_DIGITS: usize = 19;

/// The number that a text is, if it is one.
pub(crate) fn read(text: &str) -> Option<FluentNumber>
    ensures { option_map number_of result ≡ read_number text.now }
{
    let (negative, unsigned) = split_sign(text.as_bytes());
    let numeral = split_at_point(unsigned)?;
    let behind = digits_behind(numeral.fraction);
    if numeral.count == 0 && behind.is_empty() {
        return None;
    }
    let value = Decimal::from_parts(negative, numeral.whole, units_of_fraction(behind)?)?;
    Some(FluentNumber::new(value, options_showing(count_behind(numeral.fraction))))
}

/// The digits after a point, none if there is no point.
fn digits_behind(fraction: Option<&[u8]>) -> &[u8]
    ensures { result.now ≡ unwrap_or (option_copied fraction.entry) [] }
{
    fraction.unwrap_or(b"")
}

/// How many digits are after a point, if there is one.
fn count_behind(fraction: Option<&[u8]>) -> Option<usize>
    ensures { result ≡ option_map length (option_copied fraction.entry) }
{
    Some(fraction?.len())
}

/// The options that ask for this many digits after the point and for nothing else.
fn options_showing(minimum_fraction_digits: Option<usize>) -> FluentNumberOptions
    ensures { options_of result ≡ record default_options
        { minimum_fraction_digits = minimum_fraction_digits } }
{
    FluentNumberOptions {
        minimum_fraction_digits,
        ..FluentNumberOptions::default()
    }
}

/// Whether a minus stands first, and what follows the sign if there is one.
fn split_sign(text: &[u8]) -> (bool, &[u8])
    ensures negative { result.0 ≡ begins_with_minus text.now }
    ensures rest { result.1.now ≡ without_sign text.now }
{
    let Some(&first) = text.first() else {
        return (false, text);
    };
    let negative = first == b'-';
    (negative, &text[usize::from(negative | (first == b'+'))..])
}

/// An unsigned text whose whole part is digits and fits.
#[derive(Clone, Copy)]
struct Numeral<'a> {
    /// How many digits the whole part has.
    count: usize,
    /// The number that they write.
    whole: u64,
    /// What is after the point, if there is one.
    fraction: Option<&'a [u8]>,
}

/// A text parted at its first point, if digits stand before it and their number fits.
fn split_at_point(text: &[u8]) -> Option<Numeral<'_>>
    ensures digits { OnSome result (list_all is_ascii_digit (numeral_of text.now).whole ≡ true) }
    ensures count { IfSome result (λ n. n.count ≡ length (numeral_of text.now).whole) }
    ensures whole { IfSome result (λ n. n.whole ≡ digits_worth (numeral_of text.now).whole) }
    ensures small { IfSome result (λ n. n.whole < 2 ^ 64) }
    ensures fraction { IfSome result (λ n. option_copied n.fraction
        ≡ (numeral_of text.now).fraction) }
    ensures none { IfNone result (IsTooGreatAsDigits (numeral_of text.now).whole) }
{
    let (count, whole) = leading_digits(text)?;
    let Ok(fraction) = fraction_behind(&text[count..]) else {
        return None;
    };
    Some(Numeral {
        count,
        whole,
        fraction,
    })
}

/// What is after a point, or nothing if the text ends before it; no other byte may stand first.
fn fraction_behind(text: &[u8]) -> Result<Option<&[u8]>, NotANumber>
    ensures ok { IfOk result (λ fraction. text.now ≡ point_text (option_copied fraction)) }
    ensures err { OnErr result ((fraction : Option Text) → text.now ≢ point_text fraction) }
{
    match text {
        [] => Ok(None),
        [b'.', behind @ ..] => Ok(Some(behind)),
        _ => Err(NotANumber),
    }
}

/// How many digits stand at the front of a text, and the number that they write, if it fits.
fn leading_digits(text: &[u8]) -> Option<(usize, u64)>
    ensures count { IfSome result (λ d. d.0 ≡ prefix_len is_ascii_digit text.now) }
    ensures worth { IfSome result (λ d. d.1 ≡ digits_worth
        (take (prefix_len is_ascii_digit text.now) text.now)) }
    ensures none { IfNone result (2 ^ 64 ≤ digits_worth
        (take (prefix_len is_ascii_digit text.now) text.now)) }
{
    if text.len() <= SAFE_DIGITS {
        return Some(short_leading_digits(text));
    }
    let mut worth: u64 = 0;
    for (count, &byte) in text.iter().enumerate() {
        if !byte.is_ascii_digit() {
            return Some((count, worth));
        }
        worth = followed_by(worth, byte)?;
    }
    Some((text.len(), worth))
}

/// The same of a text that is too short for a number that doesn't fit.
fn short_leading_digits(text: &[u8]) -> (usize, u64)
    requires { length text.now ≤ 19 }
    ensures count { result.0 ≡ prefix_len is_ascii_digit text.now }
    ensures worth { result.1 ≡ digits_worth (take (prefix_len is_ascii_digit text.now) text.now) }
{
    let mut worth: u64 = 0;
    for (count, &byte) in text.iter().enumerate() {
        if !byte.is_ascii_digit() {
            return (count, worth);
        }
        worth = worth * 10 + u64::from(byte - b'0');
    }
    (text.len(), worth)
}

/// The number that one more digit makes of the digits before it, if it fits.
fn followed_by(worth: u64, digit: u8) -> Option<u64>
    requires { is_ascii_digit digit ≡ true }
    ensures { SomeIff result (worth * 10 + (digit - 48) < 2 ^ 64) (worth * 10 + (digit - 48)) }
{
    worth.checked_mul(10)?.checked_add(u64::from(digit - b'0'))
}

/// How many units the digits after a point are, if they are digits and not too many.
fn units_of_fraction(digits: &[u8]) -> Option<u64>
    ensures { SomeIff result (IsFraction digits.now) (fraction_units digits.now) }
{
    if digits.len() > FRACTION_DIGITS {
        return None;
    }
    let (count, worth) = short_leading_digits(digits);
    if count < digits.len() {
        return None;
    }
    Some(worth * power_of_ten(FRACTION_DIGITS - count))
}
