//! Runs of a row.

use crate::devices::{Answers, BLOCK, Reader, Reading, Requests, Writer, Writing};
use crate::script::Script;
use fluent_run::{RunError, Settings, run};
use fluent_value::EnglishPlurals;
use std::alloc::Global;
use std::cell::Cell;

/// A row: its sources, its settings, and its requests with their answers.
#[derive(Clone, Copy)]
pub struct Case<'c, 's> {
    pub sources: &'c [&'s str],
    pub settings: Settings,
    pub script: &'c Script,
}

/// How a run ended.
#[derive(Clone, Copy)]
pub struct Run {
    pub outcome: Result<(), RunError>,
    /// How many bytes the reader gave, and how many calls of it failed.
    pub given: usize,
    pub failed_reads: u64,
    /// How many bytes the writer took, and how many calls of it failed.
    pub written: usize,
    pub failed_writes: u64,
    /// The most bytes that the reader was asked for in a call.
    pub most: usize,
    /// Whether a front of the answers was written, each before the next call of the reader.
    is_in_order: bool,
}

impl Case<'_, '_> {
    /// Answers the requests over devices of these manners.
    pub fn run(self, alloc: Global, reading: Reading, writing: Writing) -> Run {
        let written = Cell::new(0);
        let mut reader = Reader::new(self.script, &written, reading);
        let mut writer = Writer::new(self.script, &written, writing);
        let outcome = run(
            alloc,
            self.sources,
            self.settings,
            &EnglishPlurals,
            &mut reader,
            &mut writer,
        );
        Run {
            outcome,
            given: reader.requests.given,
            failed_reads: reader.failures,
            written: written.get(),
            failed_writes: writer.failures,
            most: reader.requests.most,
            is_in_order: is_in_order(&reader.requests, &writer.answers),
        }
    }

    /// How the row ends over devices that work.
    pub fn end(self) -> Result<(), RunError> {
        if self.script.is_too_large {
            return Err(RunError::Memory);
        }
        Ok(())
    }

    /// Whether a run over devices that work ended as it must.
    pub fn is_answered(self, run: Run) -> bool {
        run.is_as_it_must(self.end(), self.script.answers.len())
            && run.failed_reads == 0
            && run.failed_writes == 0
    }
}

impl Run {
    /// Whether it ended so, with so many bytes of the answers written and no other.
    pub fn is_as_it_must(&self, outcome: Result<(), RunError>, written: usize) -> bool {
        self.outcome == outcome
            && self.written == written
            && self.is_in_order
            && self.asks_for_blocks()
    }

    /// Whether no call of the reader was for more than a block.
    pub fn asks_for_blocks(&self) -> bool {
        self.most <= BLOCK
    }
}

/// Whether a front of the answers was written, each before the next call of the reader, and the end
/// was read once at most.
fn is_in_order(requests: &Requests<'_>, answers: &Answers<'_>) -> bool {
    !requests.is_wrong && !answers.is_wrong && requests.ends <= 1
}
