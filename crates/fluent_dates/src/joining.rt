//! Patterns put together.
ghost use Rattle.std.specs.Prelude.{◌≡◌, ◌<◌, ◌==◌, ◌||◌, ◌++◌, IfOk, OnOk};
ghost use Rattle.fluent_dates.specs.Patterns.{append_form, append_name, append_place, as_items, filled, fraction_after, joined, joined_items, name_place, with_fraction};

use crate::fields::{DAY, FRACTION, Field, HOUR, MINUTE, MONTH, PERIOD, SECOND, ZONE};
use crate::items::{Item, items_of};
use fluent_date_tables::{Row, part, text_numbered};
use std::alloc::{AllocError, Global};

/// Adds what a fraction adds after a field: the sign before it and its digits, if that field is the
/// seconds.
fn push_fraction(
    items: &mut Vec<Item>,
    row: &Row,
    fraction: Field,
    field: Field,
) -> Result<(), AllocError>
    ensures { OnOk result (items.new.items
        ≡ items.old.items ++ fraction_after row.now fraction field) }
{
    if field.letter != b's' {
        return Ok(());
    }
    push_text(items, text_numbered(row.decimal))?;
    items.push(Item::Field(fraction))?;
    Ok(())
}

/// Items with the digits of a second's fraction right after the seconds.
pub(crate) fn with_fraction(
    alloc: Global,
    row: &Row,
    items: &[Item],
    fraction: Field,
) -> Result<Vec<Item>, AllocError>
    ensures { IfOk result (λ out. out.items ≡ with_fraction row.now fraction items.now) }
{
    let mut out = Vec::with_capacity(alloc, items.len())?;
    for item in items {
        out.push(*item)?;
        if let Item::Field(field) = item {
            push_fraction(&mut out, row, fraction, *field)?;
        }
    }
    Ok(out)
}

/// Adds the characters of a text to items.
fn push_text(items: &mut Vec<Item>, text: &str) -> Result<(), AllocError>
    ensures { OnOk result (items.new.items ≡ items.old.items ++ as_items text.now) }
{
    for c in text.chars() {
        items.push(Item::Char(c))?;
    }
    Ok(())
}

/// Adds items to others.
fn push_all(items: &mut Vec<Item>, more: &[Item]) -> Result<(), AllocError>
    ensures { OnOk result (items.new.items ≡ items.old.items ++ more.now) }
{
    for item in more {
        items.push(*item)?;
    }
    Ok(())
}

/// Adds what a form has in the place of a character: in that of 0 the first part, of 1 the second,
/// of 2 a name.
fn push_filled(
    items: &mut Vec<Item>,
    first: &[Item],
    second: &[Item],
    name: &str,
    c: char,
) -> Result<(), AllocError>
    ensures { OnOk result (items.new.items
        ≡ items.old.items ++ filled first.now second.now name.now c) }
{
    match c {
        '0' => push_all(items, first),
        '1' => push_all(items, second),
        '2' => push_text(items, name),
        _ => {
            items.push(Item::Char(c))?;
            Ok(())
        }
    }
}

/// `1 'at' 0` with the parts in the places of 0 and 1, and a name in that of 2.
pub(crate) fn joined(
    alloc: Global,
    form: &str,
    first: &[Item],
    second: &[Item],
    name: &str,
) -> Result<Vec<Item>, AllocError>
    ensures { IfOk result (λ out.
        out.items ≡ joined form.now first.now second.now name.now) }
{
    let form = items_of(alloc, form)?;
    joined_items(alloc, &form, first, second, name)
}

/// The items of a form with the parts and the name in their places.
fn joined_items(
    alloc: Global,
    form: &[Item],
    first: &[Item],
    second: &[Item],
    name: &str,
) -> Result<Vec<Item>, AllocError>
    ensures { IfOk result (λ out.
        out.items ≡ joined_items first.now second.now name.now form.now) }
{
    let mut out = Vec::with_capacity(alloc, 24)?;
    for item in form {
        match item {
            Item::Char(c) => push_filled(&mut out, first, second, name, *c)?,
            Item::Field(_) => out.push(*item)?,
        }
    }
    Ok(out)
}

/// The place of a field among the forms of a row.
fn append_place(place: usize) -> usize
    requires { place < 11 }
    ensures value { result ≡ append_place place }
    ensures below { result < 9 }
{
    if place == ZONE {
        8
    } else if place > PERIOD {
        place - 1
    } else {
        place
    }
}

/// Whether a row has no form for a field: for the part of the day and for a fraction.
fn is_formless(place: usize) -> bool
    ensures { result ≡ (place == 5 || place == 9) }
{
    place == PERIOD || place == FRACTION
}

/// How a pattern is put to one that lacks it, by the last of its fields.
pub(crate) fn append_form(row: &Row, place: usize) -> &'static str
    requires { place < 11 }
    ensures { result.now ≡ append_form row.now place }
{
    if is_formless(place) {
        "0 ├2: 1┤"
    } else {
        text_numbered(row.append[append_place(place)])
    }
}

/// The place of a field among the names of fields, if it has one there.
fn name_place(place: usize) -> Option<usize>
    ensures { result ≡ name_place place }
{
    match place {
        MONTH => Some(0),
        DAY => Some(1),
        HOUR => Some(2),
        MINUTE => Some(3),
        SECOND => Some(4),
        PERIOD => Some(5),
        _ => None,
    }
}

/// The name of a field. ICU has none for the others.
pub(crate) fn append_name(row: &Row, place: usize) -> &'static str
    ensures { result.now ≡ append_name row.now place }
{
    match name_place(place) {
        Some(number) => part(text_numbered(row.fields), number),
        None => "F14",
    }
}
