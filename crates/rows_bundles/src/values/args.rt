//! Arguments: values by name, in the order of the names' bytes.
//!
//! They are written as names with the words of their values after `=`, and `;` between. A row says
//! what they are made by: `new`, with `room` for two, or as `pairs`, of two of them with `+`
//! between.

use crate::values::count::{Count, Value};
use crate::values::made::value_of;
use fluent_number::OptionSource;
use fluent_value::FluentArgs;
use rows_common::Row;
use std::alloc::Global;
use std::borrow::CowStr;

pub type Args<'r> = FluentArgs<'r, Count>;

/// Whether the arguments of a row hold what it says, in this order, and no more.
pub fn are_right(alloc: Global, row: Row<'_>) -> Option<bool> {
    let args = made(alloc, row)?;
    if !are_lent(alloc, &args, row.wanted)? {
        return Some(false);
    }
    are_given(alloc, args, row.wanted)
}

fn made<'r>(alloc: Global, row: Row<'r>) -> Option<Args<'r>> {
    match row.by {
        "new" => args_of(alloc, row.subject),
        "room" => set_all(alloc, Args::with_capacity(alloc, 2).ok()?, row.subject),
        _ => chained(alloc, row.subject),
    }
}

/// The arguments of these words.
pub fn args_of<'r>(alloc: Global, words: &'r str) -> Option<Args<'r>> {
    set_all(alloc, Args::new(alloc), words)
}

fn set_all<'r>(alloc: Global, mut args: Args<'r>, words: &'r str) -> Option<Args<'r>> {
    if words.is_empty() {
        return Some(args);
    }
    for pair in words.split(';') {
        let (name, words) = pair.split_once('=')?;
        args.set(CowStr::Borrowed(name), value_of(alloc, words)?)
            .ok()?;
    }
    Some(args)
}

/// Arguments from the pairs of two, one after the other.
fn chained<'r>(alloc: Global, words: &'r str) -> Option<Args<'r>> {
    let (first, second) = words.split_once('+')?;
    let pairs = args_of(alloc, first)?.into_iter();
    let more = args_of(alloc, second)?.into_iter();
    Args::from_pairs(alloc, pairs.chain(more)).ok()
}

/// Whether arguments lend these, in this order, and no more.
fn are_lent<'r>(alloc: Global, args: &Args<'r>, words: &'r str) -> Option<bool> {
    let mut left = args.iter();
    for pair in words.split(';') {
        let (name, words) = pair.split_once('=')?;
        let value = value_of(alloc, words)?;
        if left.next() != Some((name, &value)) || args.get(name) != Some(&value) {
            return Some(false);
        }
    }
    Some(left.next().is_none() && args.get("missing").is_none())
}

/// Whether arguments give these, in this order, and no more.
fn are_given<'r>(alloc: Global, args: Args<'r>, words: &'r str) -> Option<bool> {
    let mut left = args.into_iter();
    for pair in words.split(';') {
        let (name, words) = pair.split_once('=')?;
        if !is_pair(&left.next(), name, &value_of(alloc, words)?) {
            return Some(false);
        }
    }
    Some(left.next().is_none())
}

/// Whether a pair is a name that is borrowed, and a value.
fn is_pair<'r>(pair: &Option<(CowStr<'r>, Value<'r>)>, name: &str, value: &Value<'r>) -> bool {
    match pair {
        Some((CowStr::Borrowed(it), found)) => *it == name && *found == *value,
        _ => false,
    }
}

/// Whether arguments hold an option of this kind: a `text`, a `number` or `none`.
pub fn is_option(alloc: Global, row: Row<'_>) -> Option<bool> {
    let args = args_of(alloc, row.subject)?;
    Some(match (args.text(row.by), args.number(row.by)) {
        (Some(text), None) => row.wanted.strip_prefix("text ") == Some(text),
        (None, Some(_)) => row.wanted == "number",
        (None, None) => row.wanted == "none",
        _ => false,
    })
}
