//! Sources that nest as deep as a budget of the stack lets them, and one level deeper.
//!
//! A row has what is `before` and `after` all levels, what a level `opens` and `closes`, what is
//! `inner`most, and a `budget` in bytes. Of its `messages` each is nested `levels` deep, and all
//! but the last have a reference to the next innermost. With the first numbers of `messages` and
//! `levels` the first message is answered, and with the second ones memory runs out.

use crate::json::{count_of, list_in};
use anyhow::{Context, Result};
use fluent_run::Settings;
use fluent_text::stack::StackBudget;
use fluent_value::EnglishPlurals;
use rows_common::Tally;
use serde_json::Value;
use std::alloc::Global;
use std::fs;

/// What a message of a row is made of.
#[derive(Clone, Copy)]
struct Level<'row> {
    before: &'row str,
    opens: &'row str,
    inner: &'row str,
    closes: &'row str,
    after: &'row str,
}

/// Tries the rows of `nested.jsonl`.
pub fn try_nested(rt: &HostRuntime) -> Result<Tally> {
    let text = fs::read_to_string(rt, "requests/nested.jsonl").context("the rows")?;
    let mut tally = Tally::new();
    for line in text.as_str().lines() {
        let row = Value::from_str(rt.alloc(), line).context("a row")?;
        tally.add_all(try_row(rt.alloc(), &row)?);
    }
    Ok(tally)
}

fn try_row(alloc: Global, row: &Value) -> Result<Tally> {
    let level = Level {
        before: text_in(row, "before")?,
        opens: text_in(row, "opens")?,
        inner: text_in(row, "inner")?,
        closes: text_in(row, "closes")?,
        after: text_in(row, "after")?,
    };
    let budget = row.get("budget").context("a budget")?;
    let budget = StackBudget::of_bytes(count_of(budget)?);
    let messages = list_in(row, "messages")?;
    let levels = list_in(row, "levels")?;
    let mut tally = Tally::new();
    for (place, is_answered) in [(0, true), (1, false)] {
        let messages = count_of(messages.get(place).context("two numbers")?)?;
        let levels = count_of(levels.get(place).context("two numbers")?)?;
        let source = source_of(alloc, level, messages, levels)?;
        tally.add(answers(alloc, &source, budget) == is_answered);
    }
    Ok(tally)
}

fn text_in<'row>(row: &'row Value, name: &str) -> Result<&'row str> {
    row.get(name).and_then(Value::as_str).context("a text")
}

/// A source of so many messages, each nested so deep.
fn source_of(alloc: Global, level: Level<'_>, messages: usize, levels: usize) -> Result<String> {
    let mut source = String::new(alloc);
    for number in 1..=messages {
        write!(source, "m{number} = {}", level.before)?;
        for _ in 0..levels {
            source.push_str(level.opens)?;
        }
        if number == messages {
            source.push_str(level.inner)?;
        } else {
            write!(source, "m{}", number + 1)?;
        }
        for _ in 0..levels {
            source.push_str(level.closes)?;
        }
        writeln!(source, "{}", level.after)?;
    }
    Ok(source)
}

/// Whether the first message of a source is answered within a budget.
fn answers(alloc: Global, source: &str, budget: StackBudget) -> bool {
    fluent_run::answers(
        alloc,
        &[source],
        Settings {
            isolating: true,
            overriding: false,
            numerals: None,
        },
        &EnglishPlurals,
        b"m1\n",
        budget,
    )
    .is_ok()
}
