//! The rows on numbers, values and arguments, file by file.

use crate::{numbers, values};
use anyhow::Result;
use rows_common::{Lines, Row, tell, try_lines};
use std::alloc::{AllocError, Global};

/// The subject of a file of rows.
#[derive(Clone, Copy)]
enum Rows {
    Numbers(numbers::Rows),
    Values(values::Rows),
}

impl Lines for Rows {
    fn is_right(self, alloc: Global, line: &str) -> Result<bool, AllocError> {
        let Some(row) = Row::of(line) else {
            return Ok(false);
        };
        let answer = match self {
            Rows::Numbers(rows) => rows.is_right(alloc, row),
            Rows::Values(rows) => rows.is_right(alloc, row),
        };
        answer.ok_or(AllocError)
    }
}

/// Tries the rows of all files.
pub fn try_files(rt: &HostRuntime) -> Result<()> {
    for (file, rows) in numbers::FILES {
        try_file(rt, file, Rows::Numbers(rows))?;
    }
    for (file, rows) in values::FILES {
        try_file(rt, file, Rows::Values(rows))?;
    }
    Ok(())
}

fn try_file(rt: &HostRuntime, file: &str, rows: Rows) -> Result<()> {
    let tally = try_lines(rt, file, rows)?;
    tell(rt, file, "rows", tally)?;
    Ok(())
}
