//! Dates and times as a locale writes them.

ghost use Rattle.std.specs.Prelude.{◌≡◌, ◌≢◌, [], IfErr, IfOk, OnOk, map, pos, int_lt, unsigned_abs};
ghost use Rattle.fluent_date.specs.Options.{no_options};
ghost use Rattle.fluent_c.specs.Arguments.{AreRefusedFor, AreTaken};
ghost use Rattle.fluent_c.specs.Dates.{HoldsDate, WritesDate, dated, moment_given, offset_given, options_given, time_given};
ghost use Rattle.fluent_c.specs.Made.{Holds};
ghost use Rattle.fluent_c.specs.declared.TheConstants.{FLUENT_READ};
ghost use Rattle.fluent_dates.specs.Writing.{date_text};

use crate::arguments::{ArgumentRefusal, arguments_of};
use crate::text::FluentText;
use crate::{
    FLUENT_BAD_ARGUMENT, FLUENT_NO_MEMORY, FLUENT_NOT_UTF8, FLUENT_READ, FLUENT_UNKNOWN_LOCALE,
};
use fluent_date::{CivilDate, DateError, FluentDateTime, FluentDateTimeOptions, Offset, TimeOfDay};
use fluent_dates::LocaleDates;
use fluent_kept::FluentArgument;
use std::alloc::{AllocError, Global};

/// A date of the Gregorian calendar, with its time if it has one, and the offset of its clock from
/// UTC if that is known.
///
/// ```c
/// struct FluentDate date = fluent_date_of_time((time_t)1795893965, 3600);
/// ```
#[repr(C)]
#[derive(Clone, Copy)]
pub struct FluentDate {
    /// How far the clock is ahead of UTC, in seconds, less than a day in either direction. It
    /// counts if `has_offset` is true.
    pub offset: i32,
    /// The part of the second, from 0 to 999,999,999. As the hour, the minute and the second it
    /// counts if `has_time` is true.
    pub nanosecond: u32,
    /// The year, from -9999 to 9999; 0 is 1 BC.
    pub year: i16,
    /// The month, from 1 to 12.
    pub month: u8,
    /// The day of the month, from 1.
    pub day: u8,
    /// The hour, from 0 to 23.
    pub hour: u8,
    /// The minute, from 0 to 59.
    pub minute: u8,
    /// The second, from 0 to 59.
    pub second: u8,
    /// Whether there is a time.
    pub has_time: bool,
    /// Whether the offset is known.
    pub has_offset: bool,
}

/// The time of a date, if it has one.
///
/// # Errors
/// [`DateError`] if its numbers make no time.
fn time_of(date: &FluentDate) -> Result<Option<TimeOfDay>, DateError>
    ensures { result ≡ time_given date.now }
{
    if !date.has_time {
        return Ok(None);
    }
    let time = TimeOfDay::new(date.hour, date.minute, date.second, date.nanosecond)?;
    Ok(Some(time))
}

/// The offset of a date's clock, if it is known.
///
/// # Errors
/// [`DateError`] if it is a day or more.
fn offset_of(date: &FluentDate) -> Result<Option<Offset>, DateError>
    ensures { result ≡ offset_given date.now }
{
    if !date.has_offset {
        return Ok(None);
    }
    let offset = Offset::new(date.offset)?;
    Ok(Some(offset))
}

/// The date and time of these numbers, shown by these options.
///
/// # Errors
/// [`DateError`] if the numbers make no date, no time or no offset.
fn moment_of(date: &FluentDate, options: FluentDateTimeOptions) -> Result<FluentDateTime, DateError>
    ensures { result ≡ moment_given date.now options }
{
    let civil = CivilDate::new(date.year, date.month, date.day)?;
    let time = time_of(date)?;
    let offset = offset_of(date)?;
    Ok(FluentDateTime {
        date: civil,
        time,
        offset,
        options,
    })
}

/// The options that arguments set.
///
/// # Errors
/// [`ArgumentRefusal`] if an argument isn't taken.
fn options_of(
    alloc: Global,
    given: &[FluentArgument<'_>],
) -> Result<FluentDateTimeOptions, ArgumentRefusal>
    ensures set { IfOk result (λ options. options ≡ options_given given.now) }
    ensures taken { OnOk result (AreTaken given.now) }
    ensures refused { IfErr result (AreRefusedFor given.now) }
{
    let arguments = arguments_of(alloc, given)?;
    let mut options = FluentDateTimeOptions::default();
    options.merge(&arguments);
    Ok(options)
}

/// The text of a date.
///
/// # Errors
/// [`AllocError`] if memory runs out; nothing is kept.
fn written(
    alloc: Global,
    dates: &LocaleDates,
    value: &FluentDateTime,
) -> Result<FluentText, AllocError>
    ensures { IfOk result (λ made. Holds made (date_text dates.now.row.now value.now)) }
{
    let text = dates.text_of(alloc, value)?;
    FluentText::of(alloc, text.into_bytes())
}

/// Writes a date as the locale of a tag does, by the options of `DATETIME`: arguments of these
/// names, of which texts count, and a number for `fractionalSecondDigits`. An unknown option does
/// nothing, and neither does a value that an option doesn't have. `docs/reference/dates.md` has the
/// options.
///
/// The call returns [`FLUENT_READ`]: then `made` holds the text, and what it held before is freed.
/// It returns [`FLUENT_UNKNOWN_LOCALE`] if CLDR doesn't know the language of the locale,
/// [`FLUENT_BAD_ARGUMENT`] if the numbers make no date, no time or no offset, or if an option's
/// kind isn't known or its text is no decimal or no date, [`FLUENT_NOT_UTF8`] if an option's name
/// or text isn't UTF-8, or [`FLUENT_NO_MEMORY`], and `made` is unchanged then.
#[unsafe(no_mangle)]
pub extern "C" fn fluent_write_date(
    alloc: Global,
    locale: &[u8],
    date: &FluentDate,
    options: &[FluentArgument<'_>],
    made: &mut FluentText,
) -> u32
    ensures status { WritesDate locale.now date.now options.now result }
    ensures written { result ≡ FLUENT_READ → HoldsDate made.new locale.now date.now options.now }
    ensures unchanged { result ≢ FLUENT_READ → made.new ≡ made.old }
{
    let Some(dates) = LocaleDates::for_tag_bytes(locale) else {
        return FLUENT_UNKNOWN_LOCALE;
    };
    let options = match options_of(alloc, options) {
        Ok(options) => options,
        Err(ArgumentRefusal::NotUtf8) => return FLUENT_NOT_UTF8,
        Err(ArgumentRefusal::NoValue) => return FLUENT_BAD_ARGUMENT,
        Err(ArgumentRefusal::Memory) => return FLUENT_NO_MEMORY,
    };
    let Ok(value) = moment_of(date, options) else {
        return FLUENT_BAD_ARGUMENT;
    };
    match written(alloc, &dates, &value) {
        Ok(text) => {
            made.put(alloc, text);
            FLUENT_READ
        }
        Err(_) => FLUENT_NO_MEMORY,
    }
}
