//! The fields that options ask for.
ghost use Rattle.std.specs.Prelude.{◌≡◌};
ghost use Rattle.fluent_dates.specs.Patterns.{cycle_of, is_bare, month_field, number_field, options_of, text_field, wanted_fields, zone_field};

use crate::fields::{
    DAY, ERA, FRACTION, Field, Fields, HOUR, MINUTE, MONTH, NONE, PERIOD, SECOND, WEEKDAY, YEAR,
    ZONE, complete,
};
use crate::names::hour_letter;
use fluent_date::{
    DateStyle, FluentDateTime, FluentDateTimeOptions, HourCycle, MonthWidth, NumberWidth,
    TextWidth, ZoneName,
};
use fluent_date_tables::Row;

/// A field of this width, which has `short` letters if it is short, or none.
fn text_field(letter: u8, width: Option<TextWidth>, short: u8) -> Field
    ensures { result ≡ text_field letter short width }
{
    match width {
        Some(TextWidth::Narrow) => Field { letter, count: 5 },
        Some(TextWidth::Short) => Field {
            letter,
            count: short,
        },
        Some(TextWidth::Long) => Field { letter, count: 4 },
        None => NONE,
    }
}

/// A field of this width, or none.
pub(crate) fn number_field(letter: u8, width: Option<NumberWidth>) -> Field
    ensures { result ≡ number_field letter width }
{
    match width {
        Some(NumberWidth::Numeric) => Field { letter, count: 1 },
        Some(NumberWidth::TwoDigit) => Field { letter, count: 2 },
        None => NONE,
    }
}

/// The month in this width, or no field.
fn month_field(width: Option<MonthWidth>) -> Field
    ensures { result ≡ month_field width }
{
    match width {
        Some(MonthWidth::Number(width)) => number_field(b'M', Some(width)),
        Some(MonthWidth::Text(width)) => text_field(b'M', Some(width), 3),
        None => NONE,
    }
}

/// The zone by this name, or no field.
fn zone_field(name: Option<ZoneName>) -> Field
    ensures { result ≡ zone_field name }
{
    let (letter, count) = match name {
        Some(ZoneName::Short) => (b'z', 1),
        Some(ZoneName::Long) => (b'z', 4),
        Some(ZoneName::ShortOffset) => (b'O', 1),
        Some(ZoneName::LongOffset) => (b'O', 4),
        Some(ZoneName::ShortGeneric) => (b'v', 1),
        Some(ZoneName::LongGeneric) => (b'v', 4),
        None => (0, 0),
    };
    Field { letter, count }
}

/// How hours are counted: `hour12` counts before `hourCycle`, and both before what the locale does.
pub(crate) fn cycle_of(row: &Row, options: &FluentDateTimeOptions) -> HourCycle
    ensures { result ≡ cycle_of row.now options.now }
{
    match options.hour12 {
        Some(true) => row.twelve,
        Some(false) => HourCycle::H23,
        None => match options.hour_cycle {
            Some(cycle) => cycle,
            None => row.cycle,
        },
    }
}

/// Options without those that a value has nothing for.
pub(crate) fn of_value(value: &FluentDateTime) -> FluentDateTimeOptions
    ensures { result ≡ options_of value.now }
{
    let mut options = value.options;
    if value.time.is_none() {
        options.time_style = None;
        options.day_period = None;
        options.hour = None;
        options.minute = None;
        options.second = None;
        options.fractional_second_digits = None;
        options.time_zone_name = None;
    }
    if value.offset.is_none() {
        options.time_zone_name = None;
        options.time_style = match options.time_style {
            Some(DateStyle::Full) | Some(DateStyle::Long) => Some(DateStyle::Medium),
            style => style,
        };
    }
    options
}

/// Whether year, month and day are meant, since nothing else is asked for.
fn is_bare(options: &FluentDateTimeOptions) -> bool
    ensures { result ≡ is_bare options.now }
{
    options.weekday.is_none()
        && options.year.is_none()
        && options.month.is_none()
        && options.day.is_none()
        && options.day_period.is_none()
        && options.hour.is_none()
        && options.minute.is_none()
        && options.second.is_none()
        && options.fractional_second_digits.is_none()
}

/// The fields that options ask for.
pub(crate) fn wanted_fields(row: &Row, options: &FluentDateTimeOptions) -> Fields
    ensures { result ≡ wanted_fields row.now options.now }
{
    let mut fields = [NONE; 11];
    fields[ERA] = text_field(b'G', options.era, 3);
    fields[YEAR] = number_field(b'y', options.year);
    fields[MONTH] = month_field(options.month);
    fields[WEEKDAY] = text_field(b'E', options.weekday, 3);
    fields[DAY] = number_field(b'd', options.day);
    fields[PERIOD] = text_field(b'B', options.day_period, 1);
    fields[HOUR] = number_field(hour_letter(cycle_of(row, options)), options.hour);
    fields[MINUTE] = number_field(b'm', options.minute);
    fields[SECOND] = number_field(b's', options.second);
    fields[FRACTION] = match options.fractional_second_digits {
        Some(digits) => Field {
            letter: b'S',
            count: digits.min(3),
        },
        None => NONE,
    };
    fields[ZONE] = zone_field(options.time_zone_name);
    if is_bare(options) {
        fields[YEAR] = number_field(b'y', Some(NumberWidth::Numeric));
        fields[MONTH] = number_field(b'M', Some(NumberWidth::Numeric));
        fields[DAY] = number_field(b'd', Some(NumberWidth::Numeric));
    }
    complete(fields)
}
