//! Numbers in a locale's digits.
ghost use Rattle.std.specs.Prelude.{replicate};
ghost use Rattle.fluent_dates.specs.Numbers.{native, natives, number};
ghost use Rattle.fluent_dates.specs.Written.{Adds};

use fluent_date_tables::Row;
use itoa::Buffer;
use std::alloc::AllocError;

/// Writes a digit, an ASCII byte, as the locale writes it.
fn push_digit(text: &mut String, digit: u8, glyphs: &[char; 10]) -> Result<(), AllocError>
    ensures { Adds result text.old text.new (native glyphs.now digit) }
{
    match glyphs.get(usize::from(digit.saturating_sub(b'0'))) {
        Some(native) => text.push(*native),
        None => text.push('0'),
    }
}

/// Writes digits as the locale writes them.
fn push_digits(text: &mut String, digits: &[u8], glyphs: &[char; 10]) -> Result<(), AllocError>
    ensures { Adds result text.old text.new (natives glyphs.now digits.now) }
{
    for &digit in digits {
        push_digit(text, digit, glyphs)?;
    }
    Ok(())
}

/// Writes this many zeros as the locale writes them.
fn push_zeros(text: &mut String, count: usize, glyphs: &[char; 10]) -> Result<(), AllocError>
    ensures { Adds result text.old text.new (natives glyphs.now (replicate count 48)) }
{
    for _ in 0..count {
        push_digit(text, b'0', glyphs)?;
    }
    Ok(())
}

/// Writes a number with zeros before it up to a least count of digits.
pub(crate) fn push_number(
    text: &mut String,
    row: &Row,
    value: u32,
    least: u8,
) -> Result<(), AllocError>
    ensures { Adds result text.old text.new (number row.now.digits value least) }
{
    let mut buffer = Buffer::new();
    let digits = buffer.format(value);
    let zeros = usize::from(least).saturating_sub(digits.len());
    push_zeros(text, zeros, &row.digits)?;
    push_digits(text, digits.as_bytes(), &row.digits)
}
