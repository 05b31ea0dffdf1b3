//! Rows with what a call must give.

use crate::calls::{
    Outcome, clean_source, export_source, import_export, import_value, join_sources,
    normalize_source,
};
use crate::reports::check_sources;
use crate::runs::texts_in;
use rows_common::{Lines, Tally, try_lines};
use serde_json::Value;
use std::alloc::{AllocError, Global};
use std::io;

/// The lines of `rows.jsonl`.
#[derive(Clone, Copy)]
struct Rows;

impl Lines for Rows {
    /// Whether a call gives what the row of the line says.
    fn is_right(self, alloc: Global, line: &str) -> Result<bool, AllocError> {
        match Value::from_str(alloc, line) {
            Ok(row) => is_row(alloc, &row),
            Err(_) => Err(AllocError),
        }
    }
}

/// Tries each line of `rows.jsonl`.
pub fn try_rows(rt: &HostRuntime) -> io::Result<Tally> {
    try_lines(rt, "tidying/rows.jsonl", Rows)
}

/// Whether a call gives what its row says.
fn is_row(alloc: Global, row: &Value) -> Result<bool, AllocError> {
    let call = row.get("call").and_then(Value::as_str);
    match (call, row.get("value")) {
        (Some("import"), Some(value)) => is_wanted(row, import_value(alloc, value)),
        (Some(call), None) => is_row_of_sources(alloc, row, call),
        _ => Ok(false),
    }
}

/// Whether a call on the sources of a row gives what the row says.
fn is_row_of_sources(alloc: Global, row: &Value, call: &str) -> Result<bool, AllocError> {
    let Some(sources) = texts_in(alloc, row, "sources")? else {
        return Ok(false);
    };
    match (call, sources.as_slice()) {
        ("join", sources) => is_wanted(row, join_sources(alloc, sources)),
        ("check", sources) => is_wanted(row, check_sources(alloc, sources)),
        (_, [source]) => tidies(alloc, row, call, source),
        _ => Ok(false),
    }
}

/// Tries a call on one source. What is normalized must also come through the JSON tree.
fn tidies(alloc: Global, row: &Value, call: &str, source: &str) -> Result<bool, AllocError> {
    match call {
        "clean" => is_wanted(row, clean_source(alloc, source)),
        "export" => is_wanted(row, export_source(alloc, source)),
        "normalize" => Ok(
            is_wanted(row, normalize_source(alloc, source))?
                && is_wanted(row, import_export(alloc, source))?,
        ),
        _ => Ok(false),
    }
}

/// Whether a call gave the row's text, or its refusal.
fn is_wanted(row: &Value, answer: Result<Outcome, AllocError>) -> Result<bool, AllocError> {
    let outcome = answer?;
    let text = row.get("text").and_then(Value::as_str);
    let refusal = row.get("error").and_then(Value::as_str);
    Ok(match (text, refusal) {
        (Some(text), None) => outcome.is_text(text),
        (None, Some(refusal)) => outcome.refusal() == refusal,
        _ => false,
    })
}
