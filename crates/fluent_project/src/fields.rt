//! The values of keys, read as what they have to be.
ghost use Rattle.std.specs.Prelude.{◌≡◌, IfErr, IfOk, Ok, option_map};
ghost use Rattle.toml.specs.Data.{get_member};
ghost use Rattle.toml.specs.View.{items_view, table_view, view};
ghost use Rattle.fluent_project.specs.Files.{a_table, first_unknown, one_table, tables};
ghost use Rattle.fluent_project.specs.FileViews.{IsRefusedBy, maybe_text, maybe_texts};
ghost use Rattle.fluent_project.specs.FieldViews.{languages_at, list_at, maybe_table, maybe_text_at, maybe_texts_at, maybe_value, text_at, texts_at};
ghost use Rattle.fluent_project.specs.PlaceViews.{place_view, texts};
ghost use Rattle.fluent_project.specs.Places.{inside};

use crate::faults::{Fault, FaultKind, FileError};
use crate::places::Place;
use crate::values::{is_among, languages_of, list_of, text_of, texts_of};
use std::alloc::Global;
use toml::{Table, Value};

/// The value of a key.
pub(crate) fn get_in<'f>(table: &'f Table, key: &str) -> Option<&'f Value>
    ensures { maybe_value result ≡ get_member key.now (table_view table.now) }
{
    table.get(key)
}

/// The text of a key, if the key is there.
pub(crate) fn optional_text<'f>(
    value: Option<&'f Value>,
    place: Place<'f>,
) -> Result<Option<&'f str>, FileError<'f>>
    ensures text { IfOk result (λ text. maybe_text_at place.entry value.entry ≡ Ok (maybe_text text)) }
    ensures refused { IfErr result (IsRefusedBy (maybe_text_at place.entry value.entry)) }
{
    match value {
        None => Ok(None),
        Some(value) => match text_of(value) {
            Some(text) => Ok(Some(text)),
            None => Err(fault(place, FaultKind::NoText)),
        },
    }
}

/// The text of a key that has to be there.
pub(crate) fn needed_text<'f>(
    value: Option<&'f Value>,
    place: Place<'f>,
) -> Result<&'f str, FileError<'f>>
    ensures text { IfOk result (λ text. text_at place.entry value.entry ≡ Ok text.now) }
    ensures refused { IfErr result (IsRefusedBy (text_at place.entry value.entry)) }
{
    match value {
        None => Err(fault(place, FaultKind::Missing)),
        Some(value) => match text_of(value) {
            Some(text) => Ok(text),
            None => Err(fault(place, FaultKind::NoText)),
        },
    }
}

/// The languages of a key, if the key is there.
pub(crate) fn optional_languages<'f>(
    alloc: Global,
    value: Option<&'f Value>,
    place: Place<'f>,
) -> Result<Option<Vec<&'f str>>, FileError<'f>>
    ensures list { IfOk result (λ list. languages_at place.entry value.entry ≡ Ok (maybe_texts list)) }
    ensures refused { IfErr result (IsRefusedBy (languages_at place.entry value.entry)) }
{
    match value {
        None => Ok(None),
        Some(value) => match languages_of(alloc, value)? {
            Some(list) => Ok(Some(list)),
            None => Err(fault(place, FaultKind::NoLanguages)),
        },
    }
}

/// The list of a key, if the key is there.
pub(crate) fn optional_list<'f>(
    alloc: Global,
    value: Option<&'f Value>,
    place: Place<'f>,
) -> Result<Option<Vec<&'f str>>, FileError<'f>>
    ensures list { IfOk result (λ list. list_at place.entry value.entry ≡ Ok (maybe_texts list)) }
    ensures refused { IfErr result (IsRefusedBy (list_at place.entry value.entry)) }
{
    match value {
        None => Ok(None),
        Some(value) => match list_of(alloc, value)? {
            Some(list) => Ok(Some(list)),
            None => Err(fault(place, FaultKind::NoList)),
        },
    }
}

/// The text or the texts of a key, if the key is there.
pub(crate) fn optional_texts<'f>(
    alloc: Global,
    value: Option<&'f Value>,
    place: Place<'f>,
) -> Result<Option<Vec<&'f str>>, FileError<'f>>
    ensures list { IfOk result (λ list. maybe_texts_at place.entry value.entry ≡ Ok (maybe_texts list)) }
    ensures refused { IfErr result (IsRefusedBy (maybe_texts_at place.entry value.entry)) }
{
    match value {
        None => Ok(None),
        Some(value) => match texts_of(alloc, value)? {
            Some(list) => Ok(Some(list)),
            None => Err(fault(place, FaultKind::NoTexts)),
        },
    }
}

/// The text or the texts of a key that has to be there.
pub(crate) fn needed_texts<'f>(
    alloc: Global,
    value: Option<&'f Value>,
    place: Place<'f>,
) -> Result<Vec<&'f str>, FileError<'f>>
    ensures list { IfOk result (λ list. texts_at place.entry value.entry ≡ Ok (texts list.items)) }
    ensures refused { IfErr result (IsRefusedBy (texts_at place.entry value.entry)) }
{
    match value {
        None => Err(fault(place, FaultKind::Missing)),
        Some(value) => match texts_of(alloc, value)? {
            Some(list) => Ok(list),
            None => Err(fault(place, FaultKind::NoTexts)),
        },
    }
}

/// The error of what is wrong at a place.
pub(crate) fn fault(place: Place<'_>, kind: FaultKind) -> FileError<'_>
    ensures { result ≡ FileError.Fault (record { place = place.entry; kind = kind }) }
{
    FileError::Fault(Fault { place, kind })
}

/// A key of a table.
pub(crate) fn in_table<'f>(name: &'f str, index: usize, key: &'f str) -> Place<'f>
    ensures { place_view result ≡ inside name.now index key.now }
{
    Place::Inside { name, index, key }
}

/// The tables of a name, `[[name]]`. Whether they are tables isn't known.
pub(crate) fn tables<'f>(table: &'f Table, name: &'f str) -> Result<&'f [Value], FileError<'f>>
    ensures tables { IfOk result (λ values. tables name.now (table_view table.now) ≡ Ok (items_view values.now)) }
    ensures refused { IfErr result (IsRefusedBy (tables name.now (table_view table.now))) }
{
    match get_in(table, name) {
        None => Ok(&[]),
        Some(value) => match value.as_array() {
            Some(values) => Ok(values),
            None => Err(fault(Place::Top(name), FaultKind::NoTables)),
        },
    }
}

/// One of the tables of a name.
pub(crate) fn a_table<'f>(name: &'f str, value: &'f Value) -> Result<&'f Table, FileError<'f>>
    ensures table { IfOk result (λ table. a_table name.now (view value.now)
        ≡ Ok (table_view table.now)) }
    ensures refused { IfErr result (IsRefusedBy (a_table name.now (view value.now))) }
{
    match value.as_table() {
        Some(table) => Ok(table),
        None => Err(fault(Place::Top(name), FaultKind::NoTables)),
    }
}

/// The one table of a name, `[name]`.
pub(crate) fn one_table<'f>(
    table: &'f Table,
    name: &'f str,
) -> Result<Option<&'f Table>, FileError<'f>>
    ensures table { IfOk result (λ found. one_table name.now (table_view table.now) ≡ Ok (maybe_table found)) }
    ensures refused { IfErr result (IsRefusedBy (one_table name.now (table_view table.now))) }
{
    match get_in(table, name) {
        None => Ok(None),
        Some(value) => match value.as_table() {
            Some(table) => Ok(Some(table)),
            None => Err(fault(Place::Top(name), FaultKind::NoTable)),
        },
    }
}

/// The first key of a table that is none of these.
pub(crate) fn first_unknown<'f>(table: &'f Table, keys: &[&str]) -> Option<&'f str>
    ensures { maybe_text result ≡ first_unknown (texts keys.now) (table_view table.now) }
{
    for (key, _value) in table.iter() {
        if !is_among(key, keys) {
            return Some(key);
        }
    }
    None
}
