//! Readers that fail.

use crate::case::Case;
use crate::devices::{BLOCK, Reading, Writing};
use fluent_run::RunError;
use rows_common::Tally;
use std::alloc::Global;

/// How many bytes a call gives where it gives few.
const PIECE: usize = 3;

/// Requests of up to so many bytes are cut after each of them.
const MOST_CUTS: usize = 300;

/// Longer requests are cut in about so many places, and near the ends of blocks and of few lines.
const FEW_CUTS: usize = 20;

/// Runs whose reader fails after each byte of the requests: the whole lines before are answered,
/// and nothing else is written. It changes nothing that the reader would work again.
pub fn try_cuts(alloc: Global, case: Case<'_, '_>) -> Tally {
    let mut tally = Tally::new();
    for count in 0..=case.script.requests.len() {
        if is_tried(case, count) {
            tally.add(is_cut(alloc, case, usize::MAX, count, true));
            tally.add(is_cut(alloc, case, PIECE, count, false));
        }
    }
    tally
}

fn is_tried(case: Case<'_, '_>, count: usize) -> bool {
    let len = case.script.requests.len();
    len <= MOST_CUTS
        || count % (len / FEW_CUTS) == 0
        || (count % BLOCK + 1) % BLOCK <= 2
        || case.script.is_near_end(count)
}

/// Whether a run ends as it must whose reader fails after so many bytes.
fn is_cut(alloc: Global, case: Case<'_, '_>, piece: usize, count: usize, heals: bool) -> bool {
    let reading = Reading {
        piece,
        fails_behind: Some(count),
        heals,
    };
    let run = case.run(alloc, reading, Writing::WHOLE);
    if case.script.is_too_large && case.script.requests.len() <= count {
        return case.is_answered(run);
    }
    run.is_as_it_must(Err(RunError::Read), case.script.answered(count))
        && run.given == count
        && run.failed_reads == 1
        && run.failed_writes == 0
}
