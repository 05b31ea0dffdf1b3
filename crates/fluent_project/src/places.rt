//! Where a key is in the file of a project.
ghost use Rattle.std.specs.Prelude.{◌≡◌, ◌+◌, ◌≤◌, ◌<◌, ◌==◌, IfOk, IfSome, drop, false, true, length, option_map, position};
ghost use Rattle.fluent_project.specs.Places.{behind_bracket, closed_name, header_at, header_name, inside_line, is_assigned, is_header, is_key, is_name, is_name_byte, key_at, line_of, lines_of, starts, top_line, unquoted, place_line};
ghost use Rattle.std.specs.List.{list_all};
ghost use Rattle.fluent_project.specs.PlaceViews.{place_view, texts};

use crate::matching::after;
use crate::reading::{is_same, trimmed};
use std::alloc::{AllocError, Global};

/// Where a key stands in the file of a project.
#[derive(Clone, Copy)]
pub enum Place<'f> {
    /// A key before all tables, or the first table of this name.
    Top(&'f str),
    /// A key of a table.
    Inside {
        /// The name of the table.
        name: &'f str,
        /// How many tables of this name come before it.
        index: usize,
        /// The key.
        key: &'f str,
    },
}

/// The line of a place in the file of a project, from 1. If the key isn't there, it is that of its
/// table, and if that isn't there either, the first one.
///
/// # Errors
/// [`AllocError`] if memory runs out.
pub fn line_of(alloc: Global, text: &str, place: Place<'_>) -> Result<usize, AllocError>
    ensures { IfOk result (λ line. line ≡ line_of text.now (place_view place.entry)) }
{
    let lines = lines_of(alloc, text)?;
    Ok(place_line(&lines, place))
}

/// The lines of a text.
fn lines_of<'f>(alloc: Global, text: &'f str) -> Result<Vec<&'f str>, AllocError>
    ensures { IfOk result (λ lines. texts lines.items ≡ lines_of text.now) }
{
    text.split('\n').collect(alloc)
}

/// The line of a place.
fn place_line(lines: &[&str], place: Place<'_>) -> usize
    ensures { result ≡ place_line (texts lines.now) (place_view place.entry) }
{
    match place {
        Place::Top(key) => top_line(lines, key),
        Place::Inside { name, index, key } => inside_line(
            lines,
            key,
            header_at(lines, name, index),
        ),
    }
}

/// The line of a key before all tables, or of the first table that it names.
fn top_line(lines: &[&str], key: &str) -> usize
    ensures { result ≡ top_line key.now true 0 (texts lines.now) }
{
    let mut at_top = true;
    for n in 0..lines.len() {
        let line = lines[n].as_bytes();
        if (at_top && is_key(key, line)) || is_header(key, line) {
            return n + 1;
        }
        at_top = at_top && header_name(line).is_none();
    }
    1
}

/// Which line begins a table of a name, if so many of them come before it.
fn header_at(lines: &[&str], name: &str, index: usize) -> Option<usize>
    ensures header { result ≡ header_at name.now index 0 0 (texts lines.now) }
    ensures within { IfSome result (λ header. header < length lines.now) }
{
    let mut seen = 0;
    for n in 0..lines.len() {
        if is_header(name, lines[n].as_bytes()) {
            if seen == index {
                return Some(n);
            }
            seen += 1;
        }
    }
    None
}

/// The line of a key of a table, or that of the table.
fn inside_line(lines: &[&str], key: &str, header: Option<usize>) -> usize
    requires { IfSome header (λ header. header < length lines.now) }
    ensures { result ≡ inside_line key.now (texts lines.now) header }
{
    match header {
        None => 1,
        Some(header) => match key_at(lines, header + 1, key) {
            None => header + 1,
            Some(line) => line + 1,
        },
    }
}

/// Which line from this one on, before the next table, gives a key its value.
fn key_at(lines: &[&str], from: usize, key: &str) -> Option<usize>
    requires { from ≤ length lines.now }
    ensures line { result ≡ key_at key.now from (texts (drop from lines.now)) }
    ensures within { IfSome result (λ line. line < length lines.now) }
{
    for n in from..lines.len() {
        let line = lines[n].as_bytes();
        if is_key(key, line) {
            return Some(n);
        }
        if header_name(line).is_some() {
            return None;
        }
    }
    None
}

/// Whether a line begins a table of a name.
fn is_header(name: &str, line: &[u8]) -> bool
    ensures { result ≡ is_header name.now line.now }
{
    match header_name(line) {
        None => false,
        Some(other) => is_same(name.as_bytes(), other),
    }
}

/// The name of the table that a line begins, in one pair of brackets or in two.
fn header_name(line: &[u8]) -> Option<&[u8]>
    ensures { option_map (λ name. name.now) result ≡ header_name line.now }
{
    match after(b"[", trimmed(line)) {
        None => None,
        Some(text) => closed_name(behind_bracket(text)),
    }
}

/// What follows another opening bracket, if one is there.
fn behind_bracket(text: &[u8]) -> &[u8]
    ensures { result.now ≡ behind_bracket text.now }
{
    match after(b"[", text) {
        None => text,
        Some(rest) => rest,
    }
}

/// The name before the first closing bracket.
fn closed_name(text: &[u8]) -> Option<&[u8]>
    ensures { option_map (λ name. name.now) result ≡ closed_name text.now }
{
    let len = bracket_at(text)?;
    let name = trimmed(&text[..len]);
    if is_name(name) { Some(name) } else { None }
}

/// Where the first closing bracket is.
fn bracket_at(text: &[u8]) -> Option<usize>
    ensures place { result ≡ position (λ byte. byte == 93) text.now }
    ensures within { IfSome result (λ place. place < length text.now) }
{
    text.iter().position(|byte| *byte == b']')
}

/// Whether a name needs no quotes.
fn is_name(name: &[u8]) -> bool
    ensures { result ≡ is_name name.now }
{
    match name {
        [] => false,
        [first, others @ ..] => is_name_byte(*first) && are_name_bytes(others),
    }
}

/// Whether names that need no quotes have each of these bytes.
fn are_name_bytes(bytes: &[u8]) -> bool
    ensures { result ≡ list_all is_name_byte bytes.now }
{
    bytes.iter().all(|byte| is_name_byte(*byte))
}

/// Whether names that need no quotes have a byte.
fn is_name_byte(byte: u8) -> bool
    ensures { result ≡ is_name_byte byte }
{
    byte.is_ascii_alphanumeric() || byte == b'-' || byte == b'.' || byte == b'_'
}

/// Whether a line gives a key its value.
fn is_key(key: &str, line: &[u8]) -> bool
    ensures { result ≡ is_key key.now line.now }
{
    match after(key.as_bytes(), unquoted(trimmed(line))) {
        None => false,
        Some(text) => starts(b'=', trimmed(unquoted(text))),
    }
}

/// One quotation mark less, if a text begins with one.
fn unquoted(text: &[u8]) -> &[u8]
    ensures { result.now ≡ unquoted text.now }
{
    match text {
        [b'"' | b'\'', rest @ ..] => rest,
        _ => text,
    }
}

/// Whether a text begins with a byte.
fn starts(byte: u8, text: &[u8]) -> bool
    ensures { result ≡ starts byte text.now }
{
    match text {
        [] => false,
        [first, ..] => *first == byte,
    }
}
