//! Writes a number's text.

ghost use Rattle.std.specs.Prelude.{◌≡◌, ◌≢◌, ◌+◌, ◌%◌, ◌^◌, ◌<◌, ◌≤◌, ◌++◌, replicate, string_bytes, IfOk, OnOk};
ghost use Rattle.fluent_number.specs.Digits.{last_digits, without_end_zeros};
ghost use Rattle.fluent_number.specs.Text.{minus_of, point_and, decimal_text};

use crate::decimal::{Decimal, FRACTION_DIGITS, power_of_ten};
use itoa::Buffer;
use std::alloc::{AllocError, Global};

/// The text of a decimal, with at least this many digits after the point if a count is given.
pub(crate) fn text_of(
    alloc: Global,
    value: Decimal,
    least: Option<usize>,
) -> Result<String, AllocError>
    ensures { IfOk result (λ text. string_bytes text ≡ decimal_text value least) }
{
    let mut buffer = Buffer::new();
    let whole = buffer.format(value.whole());
    let (count, digits) = significant_digits(value.fraction());

    // All the room is asked for here: a count that no memory holds is refused before a zero is
    // written.
    let shown = count.max(least.unwrap_or(0));
    let mut text = String::with_capacity(alloc, (whole.len() + 2).saturating_add(shown))?;
    push_minus(&mut text, value)?;
    text.push_str(whole)?;
    push_point_and(&mut text, least, count, digits)?;
    Ok(text)
}

/// Writes a minus before a decimal that is negative.
fn push_minus(text: &mut String, value: Decimal) -> Result<(), AllocError>
    ensures { OnOk result (string_bytes text.new ≡ string_bytes text.old ++ minus_of value) }
{
    if value.is_negative() {
        text.push('-')?;
    }
    Ok(())
}

/// Writes a point and this many digits of a number, filled up with zeros to the least count.
fn push_point_and(
    text: &mut String,
    least: Option<usize>,
    count: usize,
    digits: u64,
) -> Result<(), AllocError>
    requires short { count ≤ 18 }
    requires below { digits < 10 ^ count }
    ensures { OnOk result (string_bytes text.new
        ≡ string_bytes text.old ++ point_and least (last_digits count digits)) }
{
    if count == 0 && least.is_none() {
        return Ok(());
    }
    text.push('.')?;
    push_digits(text, count, digits)?;
    push_zeros(text, least.unwrap_or(0).saturating_sub(count))
}

/// How many digits of a fraction are left without the zeros at its end, and the number that they
/// write.
pub(crate) fn significant_digits(fraction: u64) -> (usize, u64)
    requires { fraction < 10 ^ 18 }
    ensures digits { last_digits result.0 result.1 ≡ without_end_zeros (last_digits 18 fraction) }
    ensures count { result.0 ≤ 18 }
    ensures below { result.1 < 10 ^ result.0 }
{
    if fraction == 0 {
        return (0, 0);
    }
    let (count, digits) = cut_zeros(FRACTION_DIGITS, fraction, 16);
    let (count, digits) = cut_zeros(count, digits, 8);
    let (count, digits) = cut_zeros(count, digits, 4);
    let (count, digits) = cut_zeros(count, digits, 2);
    cut_zeros(count, digits, 1)
}

/// Cuts this many zeros off the end of digits, if there are this many.
#[inline(always)]
fn cut_zeros(count: usize, digits: u64, zeros: usize) -> (usize, u64)
    requires some { 0 < digits }
    requires below { digits < 10 ^ count }
    requires few { zeros ≤ 18 }
    ensures same { without_end_zeros (last_digits result.0 result.1)
        ≡ without_end_zeros (last_digits count digits) }
    ensures short { result.0 ≤ count }
    ensures below { result.1 < 10 ^ result.0 }
    ensures some { 0 < result.1 }

    // If there were not twice as many zeros, there are not as many left.
    ensures fewer { digits % 10 ^ (zeros + zeros) ≢ 0 → result.1 % 10 ^ zeros ≢ 0 }
{
    let power = power_of_ten(zeros);
    if digits % power == 0 {
        (count - zeros, digits / power)
    } else {
        (count, digits)
    }
}

/// Writes this many digits of a number, with zeros at the front if it has fewer.
fn push_digits(text: &mut String, count: usize, digits: u64) -> Result<(), AllocError>
    requires short { count ≤ 18 }
    requires below { digits < 10 ^ count }
    ensures { OnOk result (string_bytes text.new
        ≡ string_bytes text.old ++ last_digits count digits) }
{
    let mut buffer = Buffer::new();
    let one_and_digits = buffer.format(power_of_ten(count) + digits);
    text.push_str(&one_and_digits[1..])
}

/// Writes this many zeros.
fn push_zeros(text: &mut String, count: usize) -> Result<(), AllocError>
    ensures { OnOk result (string_bytes text.new ≡ string_bytes text.old ++ replicate count 48) }
{
    for _ in 0..count {
        text.push('0')?;
    }
    Ok(())
}
