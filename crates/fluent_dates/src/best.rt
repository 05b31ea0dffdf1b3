//! The best pattern for fields.
ghost use Rattle.std.specs.Prelude.{◌≡◌, IfOk, option_map};
ghost use Rattle.fluent_dates.specs.Matching.{found_view};
ghost use Rattle.fluent_dates.specs.Patterns.{appended, appended_to, best_pattern, both, fitting, glue_place, lacks_fraction, style_place};

use crate::adjusting::adjusted;
use crate::fields::{FRACTION, Fields, MONTH, SECOND, WEEKDAY};
use crate::items::Item;
use crate::joining::{append_form, append_name, joined, with_fraction};
use crate::matching::{Found, nearest};
use crate::names::glue;
use crate::places::{has_any, last_place, of_places};
use fluent_date::DateStyle;
use fluent_date_tables::Row;
use std::alloc::{AllocError, Global};

/// Whether a pattern has seconds and lacks their fraction.
fn lacks_fraction(wanted: &Fields, lacks: u16) -> bool
    ensures { result ≡ lacks_fraction wanted.now lacks }
{
    lacks / 512 % 2 == 1 && lacks / 256 % 2 == 0 && wanted[SECOND].count > 0
}

/// A pattern, with the nearest one for these of its fields put to it, if there is one. What that
/// one lacks is left out, as ICU does.
fn appended_more(
    alloc: Global,
    row: &Row,
    wanted: &Fields,
    items: Vec<Item>,
    lacks: u16,
) -> Result<Vec<Item>, AllocError>
    ensures { IfOk result (λ out. out.items ≡ appended_to row.now wanted.now items.items lacks) }
{
    if lacks == 0 {
        return Ok(items);
    }
    let Some(known) = nearest(row, &of_places(wanted, lacks)) else {
        return Ok(items);
    };
    let more = adjusted(alloc, row, &known, wanted)?;
    let last = last_place(lacks, known.gap.lacks);
    joined(
        alloc,
        append_form(row, last),
        &items,
        &more,
        append_name(row, last),
    )
}

/// The nearest pattern; a fraction that it lacks goes right after the seconds; then for what it
/// still lacks the nearest pattern is put to it, once.
fn appended(alloc: Global, row: &Row, wanted: &Fields) -> Result<Vec<Item>, AllocError>
    ensures { IfOk result (λ out. out.items ≡ appended row.now wanted.now) }
{
    let Some(known) = nearest(row, wanted) else {
        return Ok(Vec::new(alloc));
    };
    let items = adjusted(alloc, row, &known, wanted)?;
    let lacks = known.gap.lacks;
    if lacks_fraction(wanted, lacks) {
        let items = with_fraction(alloc, row, &items, wanted[FRACTION])?;
        return appended_more(alloc, row, wanted, items, lacks.saturating_sub(512));
    }
    appended_more(alloc, row, wanted, items, lacks)
}

/// Date and time are joined as in a full, long, medium or short date, by the width of the month.
fn glue_style(wanted: &Fields) -> DateStyle
    ensures { style_place result ≡ glue_place wanted.now }
{
    match wanted[MONTH].count {
        4 => {
            if wanted[WEEKDAY].count > 0 {
                DateStyle::Full
            } else {
                DateStyle::Long
            }
        }
        3 => DateStyle::Medium,
        _ => DateStyle::Short,
    }
}

/// One pattern of the date and one of the time, joined.
fn both(alloc: Global, row: &Row, date: &Fields, time: &Fields) -> Result<Vec<Item>, AllocError>
    ensures { IfOk result (λ out. out.items ≡ both row.now date.now time.now) }
{
    if !has_any(time) {
        return appended(alloc, row, date);
    }
    if !has_any(date) {
        return appended(alloc, row, time);
    }
    let times = appended(alloc, row, time)?;
    let dates = appended(alloc, row, date)?;
    joined(alloc, glue(row, glue_style(date)), &times, &dates, "")
}

/// The nearest pattern, if it has all fields that are wanted, and no others.
fn fitting(row: &Row, wanted: &Fields) -> Option<Found>
    ensures { option_map found_view result ≡ fitting row.now wanted.now }
{
    match nearest(row, wanted) {
        Some(known) if known.fits() => Some(known),
        _ => None,
    }
}

/// The pattern for the fields that are wanted: one for all of them, or one of the date and one of
/// the time, joined.
pub(crate) fn best_pattern(
    alloc: Global,
    row: &Row,
    wanted: &Fields,
) -> Result<Vec<Item>, AllocError>
    ensures { IfOk result (λ out. out.items ≡ best_pattern row.now wanted.now) }
{
    match fitting(row, wanted) {
        Some(known) => adjusted(alloc, row, &known, wanted),
        None => {
            let date = of_places(wanted, DATE_PLACES);
            let time = of_places(wanted, TIME_PLACES);
            both(alloc, row, &date, &time)
        }
    }
}

/// Era, year, month, weekday and day.
const DATE_PLACES: u16 = 0b000_0001_1111;

/// All other places.
const TIME_PLACES: u16 = 0b111_1110_0000;
