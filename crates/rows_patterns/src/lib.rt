//! Asks bundles for what their patterns give, as the rows of `crates/all_rows/data/patterns` say,
//! and calls a scope. It prints of each file how many rows there were and how many of them gave
//! something else than they must.
#![tactic(auto)]

pub mod asking;
pub mod bundle;
pub mod json;
mod made;
pub mod own;
pub mod patterns;
pub mod pieces;
mod rows;
mod scopes;
pub mod settings;
pub mod told;
pub mod values;
pub mod wanted;

use anyhow::Result;
use rows::Rows;
use rows_common::{tell, try_lines};

/// The files of rows.
const FILES: [&str; 2] = ["patterns/rows.jsonl", "patterns/own.jsonl"];

/// Tries the rows of all files, and the calls of a scope.
pub fn try_all(rt: &HostRuntime) -> Result<()> {
    for file in FILES {
        let tally = try_lines(rt, file, Rows)?;
        tell(rt, file, "rows", tally)?;
    }
    tell(rt, "made", "patterns", made::try_made(rt.alloc()))?;
    tell(rt, "scopes", "calls", scopes::try_scopes(rt.alloc()))?;
    Ok(())
}
