//! Writes dates and times as ISO 8601 has them.
ghost use Rattle.std.specs.Prelude.{◌≡◌, IfOk, string_bytes};
ghost use Rattle.fluent_date.specs.Changes.{Adds};
ghost use Rattle.fluent_date.specs.Iso.{clock_iso, date_iso, digit, fraction_iso, iso_text, minus_iso, odd_seconds_iso, offset_iso, sign_iso, time_iso, two, year_iso};

use crate::civil::CivilDate;
use crate::date_time::FluentDateTime;
use crate::offset::Offset;
use crate::time::TimeOfDay;
use std::alloc::{AllocError, Global};

/// Writes the last digit of a number.
fn push_digit(text: &mut String, number: u32) -> Result<(), AllocError>
    ensures { Adds result text.old text.new (digit number) }
{
    text.push(char::from(b'0' + (number % 10) as u8))
}

/// Writes the last two digits of a number.
fn push_two(text: &mut String, number: u32) -> Result<(), AllocError>
    ensures { Adds result text.old text.new (two number) }
{
    push_digit(text, number / 10)?;
    push_digit(text, number)
}

/// A minus, if a number is negative.
fn minus(is_negative: bool) -> &'static str
    ensures { result.now ≡ minus_iso is_negative }
{
    if is_negative { "-" } else { "" }
}

/// The sign of an offset.
fn sign(is_negative: bool) -> &'static str
    ensures { result.now ≡ sign_iso is_negative }
{
    if is_negative { "-" } else { "+" }
}

/// Writes a year in four digits, after a minus if it is negative.
fn push_year(text: &mut String, year: i16) -> Result<(), AllocError>
    ensures { Adds result text.old text.new (year_iso year) }
{
    let size = u32::from(year.unsigned_abs());
    text.push_str(minus(year < 0))?;
    push_two(text, size / 100)?;
    push_two(text, size)
}

/// Writes a date.
fn push_date(text: &mut String, date: &CivilDate) -> Result<(), AllocError>
    ensures { Adds result text.old text.new (date_iso date.now) }
{
    push_year(text, date.year())?;
    text.push_str("-")?;
    push_two(text, u32::from(date.month()))?;
    text.push_str("-")?;
    push_two(text, u32::from(date.day()))
}

/// Writes a second's fraction, if there is one.
fn push_fraction(text: &mut String, nanosecond: u32) -> Result<(), AllocError>
    ensures { Adds result text.old text.new (fraction_iso nanosecond) }
{
    if nanosecond == 0 {
        return Ok(());
    }
    text.push_str(".")?;
    push_two(text, nanosecond / 10_000_000)?;
    push_two(text, nanosecond / 100_000)?;
    push_two(text, nanosecond / 1000)?;
    push_two(text, nanosecond / 10)?;
    push_digit(text, nanosecond)
}

/// Writes a time.
fn push_time(text: &mut String, time: &TimeOfDay) -> Result<(), AllocError>
    ensures { Adds result text.old text.new (time_iso time.now) }
{
    push_two(text, u32::from(time.hour()))?;
    text.push_str(":")?;
    push_two(text, u32::from(time.minute()))?;
    text.push_str(":")?;
    push_two(text, u32::from(time.second()))?;
    push_fraction(text, time.nanosecond())
}

/// Writes an offset.
fn push_offset(text: &mut String, offset: &Offset) -> Result<(), AllocError>
    ensures { Adds result text.old text.new (offset_iso offset.now) }
{
    let seconds = offset.seconds();
    if seconds == 0 {
        return text.push_str("Z");
    }
    text.push_str(sign(offset.is_negative()))?;
    push_two(text, seconds / 3600)?;
    text.push_str(":")?;
    push_two(text, seconds / 60 % 60)?;
    push_odd_seconds(text, seconds % 60)
}

/// Writes the seconds of an offset, if there are any.
fn push_odd_seconds(text: &mut String, seconds: u32) -> Result<(), AllocError>
    ensures { Adds result text.old text.new (odd_seconds_iso seconds) }
{
    if seconds == 0 {
        return Ok(());
    }
    text.push_str(":")?;
    push_two(text, seconds)
}

/// Writes the time and the offset of a value, if there are any.
fn push_clock(text: &mut String, value: &FluentDateTime) -> Result<(), AllocError>
    ensures { Adds result text.old text.new (clock_iso value.now.time value.now.offset) }
{
    let Some(time) = &value.time else {
        return Ok(());
    };
    text.push_str("T")?;
    push_time(text, time)?;
    match &value.offset {
        Some(offset) => push_offset(text, offset),
        None => Ok(()),
    }
}

impl FluentDateTime {
    /// The text that ISO 8601 has for the date, and for the time and the offset if there are any:
    /// `2026-11-28T20:26:05+01:00`. The options don't count.
    ///
    /// A fraction of a second has nine digits, the offset of UTC is `Z`, and a negative year has a
    /// minus before its four digits.
    ///
    /// # Errors
    /// [`AllocError`] if memory runs out; nothing is kept.
    pub fn as_iso_string(&self, alloc: Global) -> Result<String, AllocError>
        ensures { IfOk result (λ text. string_bytes text ≡ iso_text self.now) }
    {
        let mut text = String::with_capacity(alloc, 40)?;
        push_date(&mut text, &self.date)?;
        push_clock(&mut text, self)?;
        Ok(text)
    }
}
