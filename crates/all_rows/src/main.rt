//! Tries the rows of all crates, and prints of each kind how many there were and how many were
//! wrong.
//!
//!     all_rows             tries all of them
//!     all_rows GROUP..     those of these groups
//!
//! The rows stand in `data`, in a folder for each group that has any. What tries them are
//! libraries, one for each branch of the stack, so that they are proved side by side, and only this
//! program is built.
#![tactic(auto)]

use anyhow::{Result, bail};
use std::env;

/// What there are rows of.
const GROUPS: [&str; 9] = [
    "syntax", "refused", "values", "bundles", "patterns", "memory", "requests", "tidying", "ftl",
];

fn main(rt: HostRuntime) -> Result<()> {
    let mut words = env::args(&rt)
        .or_else(|_| env::args(&rt))?
        .skip(1)
        .peekable();
    if words.peek().is_none() {
        return try_groups(&rt);
    }
    for word in words {
        try_group(&rt, &word)?;
    }
    Ok(())
}

/// Tries all groups.
fn try_groups(rt: &HostRuntime) -> Result<()> {
    for name in GROUPS {
        try_group(rt, name)?;
    }
    Ok(())
}

/// Tries the rows of a group, and prints its name before.
fn try_group(rt: &HostRuntime, name: &str) -> Result<()> {
    println!(rt; "-- {name}")?;
    match name {
        "syntax" => rows_syntax::try_all(rt),
        "refused" => rows_syntax::try_refused(rt),
        "values" => rows_bundles::try_values(rt),
        "bundles" => rows_bundles::try_all(rt),
        "patterns" => rows_patterns::try_all(rt),
        "memory" => rows_requests::try_memory(rt),
        "requests" => rows_requests::try_all(rt),
        "tidying" => rows_requests::try_tidying(rt),
        "ftl" => rows_requests::try_commands(rt),
        _ => bail!("there are no rows of this name"),
    }
}
