//! The function `NUMBER`.
//!
//! A row has its values, with `;` between, and its options, as arguments are written. What it gives
//! is a text and the type of number, or `usual` where all options are as they are by themselves; or
//! an `error`.

use crate::values::args::args_of;
use crate::values::count::Value;
use crate::values::made::value_of;
use fluent_number::{FluentNumber, FluentNumberOptions, FluentNumberType};
use fluent_value::FluentValue;
use fluent_value::builtins::NUMBER;
use rows_common::Row;
use std::alloc::Global;

/// Whether the function gives what its row says.
pub fn is_right(alloc: Global, row: Row<'_>) -> Option<bool> {
    let values = values_of(alloc, row.subject)?;
    is_given(alloc, &values, row)
}

fn is_given(alloc: Global, values: &[Value<'_>], row: Row<'_>) -> Option<bool> {
    let options = args_of(alloc, row.by)?;
    match NUMBER(alloc, values, &options).ok()? {
        FluentValue::Number(number) => is_number(alloc, &number, row.wanted),
        FluentValue::Error => Some(row.wanted == "error"),
        _ => Some(false),
    }
}

fn values_of<'r>(alloc: Global, words: &'r str) -> Option<Vec<Value<'r>>> {
    let mut values = Vec::new(alloc);
    if words.is_empty() {
        return Some(values);
    }
    for words in words.split(';') {
        values.push(value_of(alloc, words)?).ok()?;
    }
    Some(values)
}

fn is_number(alloc: Global, number: &FluentNumber, wanted: &str) -> Option<bool> {
    match wanted.strip_suffix(" ordinal") {
        Some(text) => {
            let shown = number.as_string(alloc).ok()?;
            let is_ordinal = number.options.number_type == FluentNumberType::Ordinal;
            Some(is_ordinal && shown.as_str() == text)
        }
        None => Some(wanted == "usual" && number.options == FluentNumberOptions::default()),
    }
}
