//! Memory that runs out: `rt try --fail-alloc N` refuses an allocation.

use crate::case::{Case, Run};
use crate::devices::{Reading, Writing};
use fluent_run::RunError;
use std::alloc::Global;

/// Requests that come by so few bytes a call wait in the run until their line is whole.
const PIECE: usize = 5;

/// Whether a run gives the answers of a row. Where memory is refused, the answers to its first
/// lines are to be written, and the row is to be answered when it is asked for once more.
pub fn is_right(alloc: Global, case: Case<'_, '_>) -> bool {
    let run = answer(alloc, case);
    if case.is_answered(run) {
        return true;
    }
    let is_whole = case.script.is_whole(run.written);
    run.is_as_it_must(Err(RunError::Memory), run.written)
        && is_whole
        && run.failed_reads == 0
        && run.failed_writes == 0
        && case.is_answered(answer(alloc, case))
}

fn answer(alloc: Global, case: Case<'_, '_>) -> Run {
    let reading = Reading {
        piece: PIECE,
        ..Reading::WHOLE
    };
    case.run(alloc, reading, Writing::WHOLE)
}
