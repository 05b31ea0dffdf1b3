//! The names and patterns that a row has, and the row that a tag has.
ghost use Rattle.std.specs.Prelude.{◌≡◌, ◌<◌, slice_index_or};
ghost use Rattle.fluent_date_tables.specs.Tables.{found};
ghost use Rattle.fluent_date_tables.specs.Texts.{text_numbered};
ghost use Rattle.fluent_dates.specs.Lookup.{locale_for};
ghost use Rattle.fluent_dates.specs.Patterns.{hour_letter, style_place};
ghost use Rattle.fluent_dates.specs.Writing.{names, width_place};

use fluent_date::{DateStyle, HourCycle};
use fluent_date_tables::{Row, row_for, row_numbered, text_numbered};

/// The row that the locale of a tag has, if CLDR knows its language.
pub(crate) fn locale_for(tag: &[u8]) -> Option<&'static Row>
    ensures { found result ≡ locale_for tag.now }
{
    match row_for(tag) {
        Some(number) => row_numbered(usize::from(number)),
        None => None,
    }
}

/// The place of a style in a row: full, long, medium, short.
fn style_place(style: DateStyle) -> usize
    ensures value { result ≡ style_place style }
    ensures below { result < 4 }
{
    match style {
        DateStyle::Full => 0,
        DateStyle::Long => 1,
        DateStyle::Medium => 2,
        DateStyle::Short => 3,
    }
}

/// The letter of hours that are counted so.
pub(crate) fn hour_letter(cycle: HourCycle) -> u8
    ensures { result ≡ hour_letter cycle }
{
    match cycle {
        HourCycle::H11 => b'K',
        HourCycle::H12 => b'h',
        HourCycle::H23 => b'H',
        HourCycle::H24 => b'k',
    }
}

/// The place of names of a width: abbreviated, wide, narrow.
fn width_place(count: u8) -> usize
    ensures value { result ≡ width_place count }
    ensures below { result < 3 }
{
    match count {
        4 => 1,
        5 => 2,
        _ => 0,
    }
}

/// Names of a width.
pub(crate) fn names(numbers: &[u16; 3], count: u8) -> &'static str
    ensures { result.now ≡ names numbers.now count }
{
    text_numbered(numbers[width_place(count)])
}

/// The pattern of a style of dates.
pub(crate) fn date_style(row: &Row, style: DateStyle) -> &'static str
    ensures { result.now ≡ text_numbered (slice_index_or row.now.dates (style_place style) 0) }
{
    text_numbered(row.dates[style_place(style)])
}

/// The pattern of a style of times.
pub(crate) fn time_style(row: &Row, style: DateStyle) -> &'static str
    ensures { result.now ≡ text_numbered (slice_index_or row.now.times (style_place style) 0) }
{
    text_numbered(row.times[style_place(style)])
}

/// How a date of a style and a time are joined.
pub(crate) fn glue(row: &Row, style: DateStyle) -> &'static str
    ensures { result.now ≡ text_numbered (slice_index_or row.now.glue (style_place style) 0) }
{
    text_numbered(row.glue[style_place(style)])
}
