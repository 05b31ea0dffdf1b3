//! A pattern in the widths that are wanted.
ghost use Rattle.std.specs.Prelude.{◌≡◌, ◌<◌, IfOk};
ghost use Rattle.fluent_dates.specs.Fields.{place_of};
ghost use Rattle.fluent_dates.specs.Matching.{found_view};
ghost use Rattle.fluent_dates.specs.Patterns.{adjusted, adjusted_at, adjusted_count, adjusted_hour, adjusted_item, adjusted_letter, asked_count, is_given};

use crate::fields::{
    Field, Fields, HOUR, MINUTE, MONTH, SECOND, WEEKDAY, YEAR, is_number, place_of,
};
use crate::items::{Item, items_of};
use crate::matching::Found;
use crate::names::hour_letter;
use fluent_date_tables::Row;
use std::alloc::{AllocError, Global};

/// The pattern's letter of hours; but if the locale counts as many hours by the other letter, that
/// one.
fn adjusted_hour(found: u8, asked: u8, usual: u8) -> u8
    ensures { result ≡ adjusted_hour found asked usual }
{
    match (asked, usual) {
        (b'h' | b'K', b'h' | b'K') | (b'H' | b'k', b'H' | b'k') => usual,
        _ => found,
    }
}

/// Whether CLDR gave the pattern's field for this count, or the pattern has a text for a number, or
/// a number for a text.
fn is_given(known: &Found, place: usize, found: Field, asked: Field) -> bool
    requires { place < 11 }
    ensures { result ≡ is_given (found_view known.now) place found asked }
{
    known.skeleton.given
        && asked.letter != b'c'
        && (known.skeleton.counts[place] == asked_count(asked)
            || is_number(found) != is_number(asked))
}

/// The count that is asked for; a weekday is never shorter than its abbreviation.
fn asked_count(asked: Field) -> u8
    ensures { result ≡ asked_count asked }
{
    if asked.letter == b'E' {
        asked.count.max(3)
    } else {
        asked.count
    }
}

/// The count that is asked for. But minutes and seconds stay as they are, and so does a field that
/// is given.
fn adjusted_count(found: Field, place: usize, asked: Field, known: &Found) -> u8
    requires { place < 11 }
    ensures { result ≡ adjusted_count (found_view known.now) place found asked }
{
    if place == MINUTE || place == SECOND || is_given(known, place, found, asked) {
        found.count
    } else {
        asked_count(asked)
    }
}

/// The letter of a field: the pattern's for year, month and weekday, and otherwise the one that is
/// asked for.
fn adjusted_letter(row: &Row, place: usize, found: Field, asked: Field) -> u8
    ensures { result ≡ adjusted_letter row.now place found asked }
{
    match place {
        YEAR | MONTH | WEEKDAY => found.letter,
        HOUR => adjusted_hour(found.letter, asked.letter, hour_letter(row.cycle)),
        _ => asked.letter,
    }
}

/// A field in the width that is wanted.
fn adjusted_field(row: &Row, found: Field, known: &Found, wanted: &Fields) -> Field
    ensures { result ≡ adjusted_at row.now (found_view known.now) wanted.now found
        (place_of found.letter) }
{
    let Some(place) = place_of(found.letter) else {
        return found;
    };
    let asked = wanted[place];
    if asked.count == 0 {
        return found;
    }
    Field {
        letter: adjusted_letter(row, place, found, asked),
        count: adjusted_count(found, place, asked, known),
    }
}

/// An item in the width that is wanted.
fn adjusted_item(row: &Row, item: Item, known: &Found, wanted: &Fields) -> Item
    ensures { result ≡ adjusted_item row.now (found_view known.now) wanted.now item }
{
    match item {
        Item::Field(field) => Item::Field(adjusted_field(row, field, known, wanted)),
        Item::Char(c) => Item::Char(c),
    }
}

/// The nearest pattern in the widths that are wanted.
pub(crate) fn adjusted(
    alloc: Global,
    row: &Row,
    known: &Found,
    wanted: &Fields,
) -> Result<Vec<Item>, AllocError>
    ensures { IfOk result (λ items.
        items.items ≡ adjusted row.now (found_view known.now) wanted.now) }
{
    let mut items = items_of(alloc, known.text())?;
    for item in items.iter_mut() {
        *item = adjusted_item(row, *item, known, wanted);
    }
    Ok(items)
}
