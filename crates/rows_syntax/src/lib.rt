//! Reads the sources of `parse.jsonl`, `rows.jsonl` and `written.jsonl` by both readers, over both
//! kinds of text, and compares with the trees, errors and written texts that stand there. A row may
//! leave some of them out. Then it writes the trees of `trees.jsonl`, most of which no source reads
//! as, reads the values of `values.jsonl`, and resolves the escapes of `escapes.jsonl`.
//!
//! The files stand in `crates/all_rows/data/syntax`.
#![tactic(auto)]

mod errors;
mod escapes;
mod refused;
mod trees;
mod values;

use anyhow::{Context, Result, bail};
use fluent_syntax::ast::Resource;
use fluent_syntax::parser::{self, Error, ParserError, Slice};
use rows_common::tell;
use serde_json::Value;
use std::alloc::Global;
use std::fs;

/// What the rows of a file are.
#[derive(Clone, Copy)]
enum Rows {
    /// Sources, with their trees, errors and written texts.
    Sources,
    /// Trees, with their written texts.
    Trees,
    /// JSON texts, with the trees of their values.
    Values,
    /// Raw texts of string literals, with what they stand for.
    Escapes,
}

/// Tries all rows, and prints of each file how many there were and which were wrong.
pub fn try_all(rt: &HostRuntime) -> Result<()> {
    for (file, rows) in [
        ("syntax/parse.jsonl", Rows::Sources),
        ("syntax/rows.jsonl", Rows::Sources),
        ("syntax/written.jsonl", Rows::Sources),
        ("syntax/trees.jsonl", Rows::Trees),
        ("syntax/values.jsonl", Rows::Values),
        ("syntax/escapes.jsonl", Rows::Escapes),
    ] {
        try_file(rt, file, rows)?;
    }
    Ok(())
}

/// Tries each line of a file, and prints how many there are and which are wrong.
fn try_file(rt: &HostRuntime, file: &str, rows: Rows) -> Result<()> {
    let text = fs::read_to_string(rt, file).context("the vectors")?;
    let mut count = 0u32;
    let mut wrong = 0u32;
    for line in text.as_str().lines() {
        count = count.saturating_add(1);
        if !is_right(rt.alloc(), rows, line)? {
            wrong = wrong.saturating_add(1);
            println!(rt; "wrong: {line}")?;
        }
    }
    println!(rt; "{file}: {count} rows, {wrong} wrong")?;
    Ok(())
}

/// Reads, copies and writes where memory may be refused, and prints how many trials there were and
/// how many of them were wrong.
pub fn try_refused(rt: &HostRuntime) -> Result<()> {
    tell(rt, "refused", "trials", refused::try_refused(rt.alloc()))?;
    Ok(())
}

/// Whether what a row says is so.
fn is_right(alloc: Global, rows: Rows, line: &str) -> Result<bool> {
    let vector = Value::from_str(alloc, line).context("a line")?;
    match rows {
        Rows::Sources => agrees(alloc, &vector),
        Rows::Trees => trees::agrees(alloc, &vector),
        Rows::Values => values::agrees(alloc, &vector),
        Rows::Escapes => escapes::agrees(alloc, &vector),
    }
}

/// The text under a key of a row.
fn text_of<'a>(vector: &'a Value, key: &str) -> Result<&'a str> {
    let text = vector
        .get(key)
        .and_then(Value::as_str)
        .context("a text of a row")?;
    Ok(text)
}

/// Whether both readers give what a vector says, of its source and of a copy of it.
fn agrees(alloc: Global, vector: &Value) -> Result<bool> {
    Ok(
        has_tree(alloc, vector)?
            && has_runtime_tree(alloc, vector)?
            && is_written(alloc, vector)?
            && has_runtime_errors(alloc, vector)?,
    )
}

/// Whether a copy of the source has the tree and the errors that are wanted.
fn has_tree(alloc: Global, vector: &Value) -> Result<bool> {
    let copy = String::from_str(alloc, text_of(vector, "source")?)?;
    let (tree, errors) = (vector.get("tree"), vector.get("errors"));
    is_answer(alloc, tree, errors, parser::parse(alloc, copy))
}

/// The same at run time.
fn has_runtime_tree(alloc: Global, vector: &Value) -> Result<bool> {
    let copy = String::from_str(alloc, text_of(vector, "source")?)?;
    let (tree, errors) = (vector.get("runtime_tree"), vector.get("runtime_errors"));
    is_answer(alloc, tree, errors, parser::parse_runtime(alloc, copy))
}

/// Whether an answer is the tree and the errors that are wanted.
fn is_answer(
    alloc: Global,
    tree: Option<&Value>,
    errors: Option<&Value>,
    answer: parser::Result<String>,
) -> Result<bool> {
    let (resource, found) = parts(alloc, answer)?;
    Ok(has_errors(alloc, errors, &found)? && trees::has_value(alloc, resource, tree)?)
}

/// Whether the tree of a source is written as it is wanted, and its errors are.
fn is_written(alloc: Global, vector: &Value) -> Result<bool> {
    let source = text_of(vector, "source")?;
    let (resource, found) = parts(alloc, parser::parse(alloc, source))?;
    Ok(
        trees::is_written(alloc, vector, &resource)?
            && has_errors(alloc, vector.get("errors"), &found)?,
    )
}

fn has_runtime_errors(alloc: Global, vector: &Value) -> Result<bool> {
    let source = text_of(vector, "source")?;
    let (_resource, found) = parts(alloc, parser::parse_runtime(alloc, source))?;
    has_errors(alloc, vector.get("runtime_errors"), &found)
}

/// Whether errors are the wanted ones, if any are, and each equals its copy.
fn has_errors(alloc: Global, wanted: Option<&Value>, errors: &[ParserError]) -> Result<bool> {
    match wanted {
        Some(Value::Array(wanted)) => Ok(errors::are_told(alloc, errors, wanted)?),
        Some(_) => Ok(false),
        None => Ok(errors::are_copied(alloc, errors)?),
    }
}

/// Whether a value is the wanted one, if one is.
fn is_wanted(wanted: Option<&Value>, found: &Value) -> bool {
    wanted.is_none_or(|wanted| wanted == found)
}

/// The tree and the errors of an answer.
pub fn parts<'s, S: Slice<'s>>(
    alloc: Global,
    answer: parser::Result<S>,
) -> Result<(Resource<S>, Vec<ParserError>)> {
    match answer {
        Ok(resource) => Ok((resource, Vec::new(alloc))),
        Err(Error::Broken(resource, found)) => Ok((resource, found)),
        Err(Error::Memory) => bail!("no memory"),
    }
}
