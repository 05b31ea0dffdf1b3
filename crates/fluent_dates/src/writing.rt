//! Writes the fields of a pattern.
ghost use Rattle.std.specs.Prelude.{◌≡◌, ◌<◌, codes, slice_index_or};
ghost use Rattle.fluent_dates.specs.Fields.{is_any};
ghost use Rattle.fluent_dates.specs.Writing.{clock_text, counted_if, counts, date_name, date_number, era_of, field_text, fraction_text, half_text, hour_digits, hour_shown, is_empty, is_noon, item_text, month_text, offset_text, part_if, part_name, part_text, roman, shows_minutes, side_of, time_field_text, usual_part, utc_name, written, year_text, zone_text};
ghost use Rattle.fluent_dates.specs.Written.{Adds};

use crate::fields::Field;
use crate::items::{Item, shows};
use crate::names::names;
use crate::numbers::push_number;
use fluent_date::{CivilDate, FluentDateTime, Offset, TimeOfDay};
use fluent_date_tables::{Row, part, text_numbered};
use std::alloc::AllocError;

/// An hour as it is counted.
fn hour_shown(letter: u8, hour: u8) -> u8
    ensures { result ≡ hour_shown letter hour }
{
    match letter {
        b'h' => { if hour % 12 == 0 { 12 } else { hour % 12 } }
        b'K' => hour % 12,
        b'k' => { if hour == 0 { 24 } else { hour } }
        _ => hour,
    }
}

/// Writes the half of the day.
fn push_half(text: &mut String, row: &Row, hour: u8, count: u8) -> Result<(), AllocError>
    ensures { Adds result text.old text.new (half_text row.now hour count) }
{
    text.push_str(part(names(&row.halves, count), usize::from(hour / 12)))
}

/// Whether a text is the empty one.
fn is_empty(text: &str) -> bool
    ensures { result ≡ is_empty text.now }
{
    text.len() == 0
}

/// Whether the time as it is shown is 12 sharp.
fn is_noon(time: &TimeOfDay, shows_minute: bool, shows_second: bool) -> bool
    ensures { result ≡ is_noon time.now shows_minute shows_second }
{
    time.hour() == 12
        && (!shows_minute || time.minute() == 0)
        && (!shows_second || time.second() == 0)
}

/// The part of the day of an hour, a digit or `-`, in a text that has one for each hour.
fn part_of_hour(hours: &str, hour: u8) -> u8
    ensures { result ≡ slice_index_or hours.now hour 45 }
{
    match hours.as_bytes().get(usize::from(hour)) {
        Some(part) => *part,
        None => b'-',
    }
}

/// The name of a part of the day, which is a digit or `-`; the empty text if there is none.
fn usual_part(names: &'static str, digit: u8) -> &'static str
    ensures { result.now ≡ usual_part names.now digit }
{
    if digit >= b'0' && digit <= b'9' {
        part(names, usize::from(digit - b'0'))
    } else {
        ""
    }
}

/// The name of the part of the day: noon if the time as it is shown is 12 sharp; the empty text if
/// there is none.
fn part_name(
    row: &Row,
    time: &TimeOfDay,
    count: u8,
    shows_minute: bool,
    shows_second: bool,
) -> &'static str
    ensures { result.now ≡ part_name row.now time.now count shows_minute shows_second }
{
    let hours = text_numbered(row.hours);
    let parts = names(&row.parts, count);
    let noon = part(parts, 1);
    if hours.len() > 24 && is_noon(time, shows_minute, shows_second) && !is_empty(noon) {
        return noon;
    }
    usual_part(parts, part_of_hour(hours, time.hour()))
}

/// Writes the part of the day, or the half if there is no name for it.
fn push_part(
    text: &mut String,
    row: &Row,
    items: &[Item],
    time: &TimeOfDay,
    count: u8,
) -> Result<(), AllocError>
    ensures { Adds result text.old text.new (part_text row.now time.now count items.now) }
{
    let name = part_name(row, time, count, shows(items, b'm'), shows(items, b's'));
    if is_empty(name) {
        push_half(text, row, time.hour(), count)
    } else {
        text.push_str(name)
    }
}

/// Writes a part of a form, if it is shown.
fn push_if(
    text: &mut String,
    form: &'static str,
    number: usize,
    is_shown: bool,
) -> Result<(), AllocError>
    ensures { Adds result text.old text.new (part_if form.now number is_shown) }
{
    if is_shown {
        text.push_str(part(form, number))
    } else {
        Ok(())
    }
}

/// Writes minutes or seconds of an offset after their sign, if they are shown.
fn push_counted(
    text: &mut String,
    row: &Row,
    form: &'static str,
    value: u32,
    is_shown: bool,
) -> Result<(), AllocError>
    ensures { Adds result text.old text.new (counted_if row.now form.now value is_shown) }
{
    if !is_shown {
        return Ok(());
    }
    text.push_str(part(form, 6))?;
    push_number(text, row, value, 2)
}

/// Writes the hours, the minutes and the seconds of an offset: hours in two digits if long; then
/// minutes if they are shown, and seconds if not zero.
fn push_counts(
    text: &mut String,
    row: &Row,
    form: &'static str,
    seconds: u32,
    least: u8,
    shows_minutes: bool,
) -> Result<(), AllocError>
    ensures { Adds result text.old text.new (counts row.now form.now seconds least shows_minutes) }
{
    push_number(text, row, seconds / 3600, least)?;
    push_counted(text, row, form, seconds / 60 % 60, shows_minutes)?;
    push_counted(text, row, form, seconds % 60, seconds % 60 > 0)
}

/// Whether an offset is shown with its minutes: if long, or if it isn't of complete hours.
fn shows_minutes(seconds: u32, is_long: bool) -> bool
    ensures { result ≡ shows_minutes seconds is_long }
{
    is_long || seconds / 60 % 60 > 0 || seconds % 60 > 0
}

/// The place of what is before the hours of an offset, in a form.
fn side_of(is_negative: bool) -> usize
    ensures value { result ≡ side_of is_negative }
    ensures few { result < 5 }
{
    if is_negative { 4 } else { 2 }
}

/// The number of digits that the hours of an offset have at least.
fn hour_digits(is_long: bool) -> u8
    ensures { result ≡ hour_digits is_long }
{
    if is_long { 2 } else { 1 }
}

/// Writes how far a clock is from UTC.
fn push_offset(
    text: &mut String,
    row: &Row,
    offset: Offset,
    is_long: bool,
) -> Result<(), AllocError>
    ensures { Adds result text.old text.new (offset_text row.now offset is_long) }
{
    let form = text_numbered(row.gmt);
    let seconds = offset.seconds();
    let side = side_of(offset.is_negative());
    let has_minutes = shows_minutes(seconds, is_long);
    text.push_str(part(form, 0))?;
    text.push_str(part(form, side))?;
    push_counts(text, row, form, seconds, hour_digits(is_long), has_minutes)?;
    push_if(text, form, side + 1, has_minutes)?;
    text.push_str(part(form, 1))
}

/// The name of UTC that a field asks for, or the empty text if it asks for none.
fn utc_name(row: &Row, offset: Offset, field: Field) -> &'static str
    ensures { result.now ≡ utc_name row.now offset field }
{
    if field.letter == b'z' && offset.seconds() == 0 {
        part(text_numbered(row.utc), usize::from(field.count == 4))
    } else {
        ""
    }
}

/// Writes the zone: UTC by its name if it is asked for and there is one.
fn push_zone(text: &mut String, row: &Row, offset: Offset, field: Field) -> Result<(), AllocError>
    ensures { Adds result text.old text.new (zone_text row.now offset field) }
{
    let name = utc_name(row, offset, field);
    if is_empty(name) {
        push_offset(text, row, offset, field.count == 4)
    } else {
        text.push_str(name)
    }
}

/// A month in small Roman numbers.
fn roman(month: u8) -> &'static str
    ensures { result.now ≡ roman month }
{
    part(
        "i|ii|iii|iv|v|vi|vii|viii|ix|x|xi|xii",
        usize::from(month.saturating_sub(1)),
    )
}

/// Writes a month by its number or its name.
fn push_month(
    text: &mut String,
    row: &Row,
    month: u8,
    lists: &[u16; 3],
    count: u8,
) -> Result<(), AllocError>
    ensures { Adds result text.old text.new (month_text row.now month lists.now count) }
{
    if count < 3 {
        push_number(text, row, u32::from(month), count)
    } else {
        text.push_str(part(names(lists, count), usize::from(month.saturating_sub(1))))
    }
}

/// Writes a year of its time.
fn push_year(text: &mut String, row: &Row, year: u16, count: u8) -> Result<(), AllocError>
    ensures { Adds result text.old text.new (year_text row.now year count) }
{
    let year = u32::from(year);
    if count == 2 {
        push_number(text, row, year % 100, 2)
    } else {
        push_number(text, row, year, count)
    }
}

/// Writes the first digits of the second's parts, of which there are nine.
fn push_fraction(text: &mut String, row: &Row, nanosecond: u32, count: u8) -> Result<(), AllocError>
    ensures { Adds result text.old text.new (fraction_text row.now nanosecond count) }
{
    match count {
        1 => push_number(text, row, nanosecond / 100_000_000, 1),
        2 => push_number(text, row, nanosecond / 10_000_000, 2),
        _ => push_number(text, row, nanosecond / 1_000_000, 3),
    }
}

/// The place of a date's era: that before the year 1, and that since.
fn era_of(date: &CivilDate) -> usize
    ensures { result ≡ era_of date.now.year }
{
    if date.is_before_christ() { 0 } else { 1 }
}

/// The name of the era or the weekday of a date, or its month in small Roman numbers.
fn date_name(row: &Row, date: &CivilDate, field: Field) -> &'static str
    ensures { result.now ≡ date_name row.now date.now field }
{
    let weekday = usize::from(date.weekday().days_from_sunday());
    match field.letter {
        b'G' => part(names(&row.eras, field.count), era_of(date)),
        b'r' => roman(date.month()),
        b'E' => part(names(&row.day, field.count), weekday),
        _ => part(names(&row.own_day, field.count), weekday),
    }
}

/// Writes the year, the month or the day of a date.
fn push_date_number(
    text: &mut String,
    row: &Row,
    date: &CivilDate,
    field: Field,
) -> Result<(), AllocError>
    ensures { Adds result text.old text.new (date_number row.now date.now field) }
{
    let count = field.count;
    match field.letter {
        b'y' => push_year(text, row, date.year_of_era(), count),
        b'M' => push_month(text, row, date.month(), &row.month, count),
        b'L' => push_month(text, row, date.month(), &row.own_month, count),
        _ => push_number(text, row, u32::from(date.day()), count),
    }
}

/// Whether a letter is of a field of dates that is always a name.
fn is_date_name(letter: u8) -> bool
    ensures { result ≡ is_any letter (codes "GrEc") }
{
    match letter {
        b'G' | b'r' | b'E' | b'c' => true,
        _ => false,
    }
}

/// Whether a letter is of a field of dates that may be a number.
fn is_date_number(letter: u8) -> bool
    ensures { result ≡ is_any letter (codes "yMLd") }
{
    match letter {
        b'y' | b'M' | b'L' | b'd' => true,
        _ => false,
    }
}

/// Whether a letter is of a zone.
fn is_zone(letter: u8) -> bool
    ensures { result ≡ is_any letter (codes "zOvZ") }
{
    match letter {
        b'z' | b'O' | b'v' | b'Z' => true,
        _ => false,
    }
}

/// Writes the minute, the second, its fraction or the hour of a time.
fn push_clock(
    text: &mut String,
    row: &Row,
    time: &TimeOfDay,
    field: Field,
) -> Result<(), AllocError>
    ensures { Adds result text.old text.new (clock_text row.now time.now field) }
{
    let count = field.count;
    match field.letter {
        b'm' => push_number(text, row, u32::from(time.minute()), count),
        b's' => push_number(text, row, u32::from(time.second()), count),
        b'S' => push_fraction(text, row, time.nanosecond(), count),
        letter => push_number(text, row, u32::from(hour_shown(letter, time.hour())), count),
    }
}

/// Writes a field of a time.
fn push_of_time(
    text: &mut String,
    row: &Row,
    time: &TimeOfDay,
    field: Field,
    items: &[Item],
) -> Result<(), AllocError>
    ensures { Adds result text.old text.new (time_field_text row.now time.now items.now field) }
{
    match field.letter {
        b'a' => push_half(text, row, time.hour(), field.count),
        b'B' => push_part(text, row, items, time, field.count),
        _ => push_clock(text, row, time, field),
    }
}

/// Writes a field. What a value has nothing for is left out.
pub(crate) fn push_field(
    text: &mut String,
    row: &Row,
    items: &[Item],
    value: &FluentDateTime,
    field: Field,
) -> Result<(), AllocError>
    ensures { Adds result text.old text.new (field_text row.now value.now items.now field) }
{
    if is_date_name(field.letter) {
        text.push_str(date_name(row, &value.date, field))
    } else if is_date_number(field.letter) {
        push_date_number(text, row, &value.date, field)
    } else if is_zone(field.letter) {
        match value.offset {
            Some(offset) => push_zone(text, row, offset, field),
            None => Ok(()),
        }
    } else {
        match &value.time {
            Some(time) => push_of_time(text, row, time, field, items),
            None => Ok(()),
        }
    }
}

/// Writes an item of a pattern of these items.
fn push_item(
    text: &mut String,
    row: &Row,
    items: &[Item],
    value: &FluentDateTime,
    item: Item,
) -> Result<(), AllocError>
    ensures { Adds result text.old text.new (item_text row.now value.now items.now item) }
{
    match item {
        Item::Char(c) => text.push(c),
        Item::Field(field) => push_field(text, row, items, value, field),
    }
}

/// Writes the items of a pattern.
pub(crate) fn push_written(
    text: &mut String,
    row: &Row,
    items: &[Item],
    value: &FluentDateTime,
) -> Result<(), AllocError>
    ensures { Adds result text.old text.new (written row.now value.now items.now items.now) }
{
    for item in items {
        push_item(text, row, items, value, *item)?;
    }
    Ok(())
}
