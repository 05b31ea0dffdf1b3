//! Answers the request lines of `rows.jsonl` by `fluent_run::run`, over devices in memory that give
//! and take little at a time or fail, and prints of each kind how many runs there were and how many
//! of them ended in another way than they must. Readers that don't end are tried with few calls of
//! `read`, and sources that nest deep within a budget of the stack.
//!
//! The rows of `memory.jsonl` are tried also where an allocation is refused. The files stand in
//! `crates/all_rows/data/requests`.
//!
//! The command `ftl` is run by its words over files, and what tidies and checks is called, as the
//! rows of `ftl/runs.jsonl` and `tidying/rows.jsonl` say, which stand in `crates/all_rows/data`,
//! too, with the files that the words name. What is refused memory has to say so, after whole
//! answers, and is tried once more. So the same counts are printed with any one allocation refused:
//! see `docs/inside/validation.md`.
#![tactic(auto)]

pub mod calls;
mod case;
mod cuts;
mod devices;
mod endless;
mod json;
mod memory;
mod nested;
mod pieces;
mod reports;
mod rows;
mod runs;
mod script;
mod tidying;
mod writes;

use anyhow::Result;
use endless::try_endless;
use nested::try_nested;
use rows::Tallies;
use rows_common::tell;

/// Tries the rows of `memory.jsonl`, also where an allocation is refused.
pub fn try_memory(rt: &HostRuntime) -> Result<()> {
    tell(rt, "memory", "runs", rows::try_memory(rt)?)?;
    Ok(())
}

/// Tries all other rows of requests.
pub fn try_all(rt: &HostRuntime) -> Result<()> {
    tell_all(rt, rows::try_rows(rt)?)?;
    tell(
        rt,
        "readers without an end",
        "runs",
        try_endless(rt.alloc()),
    )?;
    tell(rt, "nested sources", "runs", try_nested(rt)?)?;
    Ok(())
}

/// Runs the command, and prints how many runs were wrong.
pub fn try_commands(rt: &HostRuntime) -> Result<()> {
    tell(rt, "runs", "runs", runs::try_runs(rt)?)?;
    Ok(())
}

/// Calls what tidies and checks, and prints how many calls were wrong.
pub fn try_tidying(rt: &HostRuntime) -> Result<()> {
    tell(rt, "rows", "tried", tidying::try_rows(rt)?)?;
    Ok(())
}

fn tell_all(rt: &HostRuntime, tallies: Tallies) -> Result<()> {
    tell(rt, "rows", "runs", tallies.rows)?;
    tell(rt, "pieces", "runs", tallies.pieces)?;
    tell(rt, "failed reads", "runs", tallies.cuts)?;
    tell(rt, "failed writes", "runs", tallies.writes)?;
    tell(rt, "buffers", "runs", tallies.buffers)?;
    Ok(())
}
