//! Tries numbers, values and arguments, and bundles that are built from small resources, step by
//! step. It prints of each file and of each kind of step how many there are, and those that answer,
//! or leave after, something else than they must. Errors are copied.
//!
//! The rows on values were written by hand, and stand in `crates/all_rows/data/values`. A row is
//! what is tried, by what, and what must come of it, with bars between.
//!
//! A row that is refused memory is tried once more, and so is a call, which has to leave its bundle
//! as it was. So the same counts are printed with any one allocation refused: see
//! `docs/inside/validation.md`.
#![tactic(auto)]

mod attributes;
mod bundle;
mod copies;
mod files;
mod found;
pub mod numbers;
mod reading;
mod rows;
mod steps;
mod values;

use anyhow::Result;
use rows_common::tell;

/// Tries the rows on numbers, values and arguments.
pub fn try_values(rt: &HostRuntime) -> Result<()> {
    files::try_files(rt)
}

/// Takes all steps, and prints how many of them were wrong.
pub fn try_all(rt: &HostRuntime) -> Result<()> {
    let alloc = rt.alloc();
    tell(rt, "reading", "steps", reading::try_reading(alloc))?;
    tell(rt, "adding", "steps", steps::try_rows(alloc))?;
    tell(rt, "attributes", "steps", attributes::try_attributes(alloc))?;
    tell(rt, "errors", "steps", copies::try_copies(alloc))?;
    Ok(())
}
