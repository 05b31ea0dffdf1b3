//! Readers that don't end within the calls of `read` that a run is given.
ghost use Rattle.std.specs.Prelude.{◌≤◌, None, length};

use fluent_run::RunError;
use fluent_serve::serve::{Engine, serve};
use fluent_serve::stream::{FromWrite, ReadFailed, Source};
use rows_common::Tally;
use std::alloc::{AllocError, Global};

/// The calls of `read` that each run is given.
const READS: u64 = 3;

/// A reader of single bytes `a`.
#[derive(Clone, Copy)]
struct Letters {
    /// Which call tells the end, where there is one.
    end: Option<u64>,
    /// How many calls came.
    calls: u64,
    /// How many bytes were given.
    given: u64,
}

impl Source for Letters {
    ghost remaining = { λ _. None };

    ghost failures = { λ _. 0 };

    ghost given = { λ letters. letters.given };

    fn read(&mut self, buffer: &mut [u8]) -> Result<usize, ReadFailed> {
        self.calls = self.calls.saturating_add(1);
        let count = self.fill(buffer);
        self.given = self.given.saturating_add(count as u64);
        Ok(count)
    }
}

impl Letters {
    /// Gives a letter to the front of `buffer`, and the count of it: 0 at the end, or if `buffer`
    /// is empty.
    fn fill(&self, buffer: &mut [u8]) -> usize
        ensures { result ≤ length buffer.new }
    {
        if buffer.is_empty() || self.end == Some(self.calls) {
            return 0;
        }
        buffer[0] = b'a';
        1
    }
}

/// Answers each line with the line itself.
#[derive(Clone, Copy)]
struct Echo;

impl Engine for Echo {
    ghost reply = { λ _ line. line };

    fn reply(&self, _alloc: Global, line: &[u8], out: &mut Vec<u8>) -> Result<(), AllocError> {
        out.extend_from_slice(line)
    }
}

/// Runs over a reader without an end, over one that tells it too late, and over one that tells it
/// at the last call.
pub fn try_endless(alloc: Global) -> Tally {
    let mut tally = Tally::new();
    tally.add(ends_so(alloc, None, Err(RunError::Read), b""));
    tally.add(ends_so(alloc, Some(READS + 1), Err(RunError::Read), b""));
    tally.add(ends_so(alloc, Some(READS), Ok(()), b"aa"));
    tally
}

/// Whether a run ends so, with these bytes written, once it made all the calls that it was given
/// and no other.
fn ends_so(alloc: Global, end: Option<u64>, outcome: Result<(), RunError>, written: &[u8]) -> bool {
    let mut reader = Letters {
        end,
        calls: 0,
        given: 0,
    };
    let mut writer = FromWrite::new(Vec::new(alloc));
    let given = serve(alloc, &Echo, &mut reader, &mut writer, READS);
    given == outcome && reader.calls == READS && writer.into_inner().as_slice() == written
}
