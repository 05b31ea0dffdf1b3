//! Runs of the program by its words, over the files of `crates/all_rows/data`.

use ftl_command::program;
use rows_common::{Lines, Tally, Trial, try_lines};
use serde_json::Value;
use std::alloc::{AllocError, Global};
use std::io;

/// What is told where memory runs out.
const OUT_OF_MEMORY: &str = "ftl: out of memory\n";

/// How a run of the program must end: its status, its output and what it tells of a fault.
#[derive(Clone, Copy)]
struct End<'row> {
    status: u64,
    answers: &'row str,
    fault: &'row str,
}

impl<'row> End<'row> {
    /// How a row says that its run must end.
    fn of(row: &'row Value) -> Option<End<'row>> {
        Some(End {
            status: row.get("status").and_then(Value::as_u64)?,
            answers: text_in(row, "answers")?,
            fault: text_in(row, "fault")?,
        })
    }

    /// Room for what is told of a fault, or of memory that ran out, in bytes.
    fn room(self) -> usize {
        self.fault.len().max(OUT_OF_MEMORY.len())
    }

    /// Whether a run ended so. The only error is that it told that memory ran out, with nothing but
    /// whole lines of its answers written.
    fn is_met(self, status: u8, given: &[u8], told: &[u8]) -> Result<bool, AllocError> {
        let (answers, fault) = (self.answers.as_bytes(), self.fault.as_bytes());
        if u64::from(status) == self.status && given == answers && told == fault {
            return Ok(true);
        }
        let is_refused = status == 4 && told == OUT_OF_MEMORY.as_bytes();
        if is_refused
            && answers.starts_with(given)
            && (given.is_empty() || given.ends_with(b"\n"))
        {
            return Err(AllocError);
        }
        Ok(false)
    }
}

/// Words, requests, and how the program must end that runs on them.
#[derive(Clone, Copy)]
struct Words<'a> {
    rt: &'a HostRuntime,
    words: &'a [&'a str],
    requests: &'a [u8],
    wanted: End<'a>,
}

impl Trial for Words<'_> {
    fn is_right(self, alloc: Global) -> Result<bool, AllocError> {
        let wanted = self.wanted;
        let mut given = Vec::with_capacity(alloc, wanted.answers.len())?;
        let mut told = Vec::with_capacity(alloc, wanted.room())?;
        let status = program(
            self.rt,
            alloc,
            self.words,
            self.requests,
            &mut given,
            &mut told,
        );
        wanted.is_met(status, &given, &told)
    }
}

/// The lines of `runs.jsonl`.
#[derive(Clone, Copy)]
struct Runs<'a>(&'a HostRuntime);

impl Lines for Runs<'_> {
    fn is_right(self, alloc: Global, line: &str) -> Result<bool, AllocError> {
        match Value::from_str(alloc, line) {
            Ok(row) => self.is_row(alloc, &row),
            Err(_) => Err(AllocError),
        }
    }
}

impl Runs<'_> {
    /// Whether the words of a row end as it says.
    fn is_row(self, alloc: Global, row: &Value) -> Result<bool, AllocError> {
        match texts_in(alloc, row, "words")? {
            Some(words) => self.ends(alloc, row, &words),
            None => Ok(false),
        }
    }

    /// The same, of these words.
    fn ends(self, alloc: Global, row: &Value, words: &[&str]) -> Result<bool, AllocError> {
        let (Some(requests), Some(wanted)) = (text_in(row, "requests"), End::of(row)) else {
            return Ok(false);
        };
        let run = Words {
            rt: self.0,
            words,
            requests: requests.as_bytes(),
            wanted,
        };
        run.is_right(alloc)
    }
}

/// Tries each line of `runs.jsonl`.
pub fn try_runs(rt: &HostRuntime) -> io::Result<Tally> {
    try_lines(rt, "ftl/runs.jsonl", Runs(rt))
}

/// The text under a name.
fn text_in<'row>(row: &'row Value, name: &str) -> Option<&'row str> {
    row.get(name).and_then(Value::as_str)
}

/// The texts under a name.
pub fn texts_in<'row>(
    alloc: Global,
    row: &'row Value,
    name: &str,
) -> Result<Option<Vec<&'row str>>, AllocError> {
    let Some(values) = row.get(name).and_then(Value::as_array) else {
        return Ok(None);
    };
    let mut texts = Vec::with_capacity(alloc, values.len())?;
    for value in values {
        match value.as_str() {
            Some(text) => texts.push(text)?,
            None => return Ok(None),
        }
    }
    Ok(Some(texts))
}
