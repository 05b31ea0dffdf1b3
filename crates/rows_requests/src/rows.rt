//! The rows of the files.
//!
//! A row has its `sources`, its `lines`, and maybe settings: `isolating`, which is usually on, and
//! `overriding`, which is off. It is `too_large` where memory runs out at its last line.

use crate::case::Case;
use crate::cuts::try_cuts;
use crate::devices::{Reading, Writing};
use crate::json::{is_set, texts_in};
use crate::memory::is_right;
use crate::pieces::try_pieces;
use crate::script::Script;
use crate::writes::try_writes;
use anyhow::{Context, Result};
use fluent_run::Settings;
use rows_common::Tally;
use serde_json::Value;
use std::alloc::Global;
use std::fs;

/// What rows are tried for.
#[derive(Clone, Copy)]
enum Trial {
    /// Devices of all kinds.
    Devices,
    /// Memory ran out.
    Memory,
}

/// What was tried of rows.
#[derive(Clone, Copy)]
pub struct Tallies {
    /// Devices that give and take all that they can.
    pub rows: Tally,
    /// Devices that give and take little at a time.
    pub pieces: Tally,
    /// Readers that fail.
    pub cuts: Tally,
    /// Writers that fail.
    pub writes: Tally,
    /// The buffers that readers are handed.
    pub buffers: Tally,
}

impl Tallies {
    /// Nothing yet.
    fn new() -> Tallies {
        let none = Tally::new();
        Tallies {
            rows: none,
            pieces: none,
            cuts: none,
            writes: none,
            buffers: none,
        }
    }

    /// Counts what was tried of further rows.
    fn add_all(&mut self, other: Tallies) {
        self.rows.add_all(other.rows);
        self.pieces.add_all(other.pieces);
        self.cuts.add_all(other.cuts);
        self.writes.add_all(other.writes);
        self.buffers.add_all(other.buffers);
    }
}

/// Tries the rows of `rows.jsonl` over devices of all kinds.
pub fn try_rows(rt: &HostRuntime) -> Result<Tallies> {
    try_file(rt, "requests/rows.jsonl", Trial::Devices)
}

/// Tries the rows of `memory.jsonl`. Where memory is refused to this crate, they are all tried once
/// more.
pub fn try_memory(rt: &HostRuntime) -> Result<Tally> {
    let tallies = try_file(rt, "requests/memory.jsonl", Trial::Memory).or_else(|_| try_file(
        rt,
        "requests/memory.jsonl",
        Trial::Memory,
    ))?;
    Ok(tallies.rows)
}

fn try_file(rt: &HostRuntime, name: &str, trial: Trial) -> Result<Tallies> {
    let text = fs::read_to_string(rt, name).context("the rows")?;
    let mut tallies = Tallies::new();
    for line in text.as_str().lines() {
        tallies.add_all(try_line(rt.alloc(), line, trial)?);
    }
    Ok(tallies)
}

fn try_line(alloc: Global, line: &str, trial: Trial) -> Result<Tallies> {
    let row = Value::from_str(alloc, line).context("a row")?;
    try_row(alloc, &row, trial)
}

fn try_row(alloc: Global, row: &Value, trial: Trial) -> Result<Tallies> {
    let sources = texts_in(alloc, row, "sources")?;
    try_sources(alloc, row, sources.as_slice(), trial)
}

fn try_sources(alloc: Global, row: &Value, sources: &[&str], trial: Trial) -> Result<Tallies> {
    let script = Script::of(alloc, row)?;
    let case = Case {
        sources,
        settings: Settings {
            isolating: is_set(row, "isolating", true),
            overriding: is_set(row, "overriding", false),
            numerals: None,
        },
        script: &script,
    };
    Ok(match trial {
        Trial::Devices => try_devices(alloc, case),
        Trial::Memory => try_want(alloc, case),
    })
}

fn try_devices(alloc: Global, case: Case<'_, '_>) -> Tallies {
    let mut tallies = Tallies::new();
    let run = case.run(alloc, Reading::WHOLE, Writing::WHOLE);
    tallies.rows.add(case.is_answered(run));
    tallies.buffers.add(run.asks_for_blocks());
    tallies.pieces = try_pieces(alloc, case);
    tallies.cuts = try_cuts(alloc, case);
    tallies.writes = try_writes(alloc, case);
    tallies
}

fn try_want(alloc: Global, case: Case<'_, '_>) -> Tallies {
    let mut tallies = Tallies::new();
    tallies.rows.add(is_right(alloc, case));
    tallies
}
