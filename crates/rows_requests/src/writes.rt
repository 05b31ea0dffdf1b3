//! Writers that fail.

use crate::case::{Case, Run};
use crate::devices::{Reading, Writing};
use fluent_run::RunError;
use rows_common::Tally;
use std::alloc::Global;

/// Answers of up to so many bytes are cut after each of them.
const MOST_CUTS: usize = 300;

/// Longer answers are cut in about so many places.
const FEW_CUTS: usize = 20;

/// More calls than the answers of a row take, where each call takes all that there is.
const CALLS: usize = 1_000;

/// Runs whose writer fails at each of its calls, or takes nothing: a front of the answers is
/// written. It changes nothing that the writer would work again.
pub fn try_writes(alloc: Global, case: Case<'_, '_>) -> Tally {
    let mut tally = Tally::new();
    tally.add(takes_nothing(alloc, case));
    tally.add_all(try_cuts(alloc, case));
    tally.add(fails_at_calls(alloc, case, Reading::WHOLE));
    if case.script.requests.len() <= MOST_CUTS {
        let bytes = Reading {
            piece: 1,
            ..Reading::WHOLE
        };
        tally.add(fails_at_calls(alloc, case, bytes));
    }
    tally
}

/// Runs whose writer takes one byte a call, and then fails.
fn try_cuts(alloc: Global, case: Case<'_, '_>) -> Tally {
    let count = case.script.answers.len();
    let step = if count <= MOST_CUTS {
        1
    } else {
        (count / FEW_CUTS).max(1)
    };
    let mut tally = Tally::new();
    for place in (0..count).step_by(step) {
        tally.add(is_cut(alloc, case, place, false));
        tally.add(is_cut(alloc, case, place, true));
    }
    tally
}

/// Whether a run ends as it must whose writer takes no byte.
fn takes_nothing(alloc: Global, case: Case<'_, '_>) -> bool {
    let writing = Writing {
        piece: 0,
        ..Writing::WHOLE
    };
    let run = case.run(alloc, Reading::WHOLE, writing);
    if case.script.answers.is_empty() {
        return case.is_answered(run);
    }
    is_front(&run) && run.written == 0
}

/// Whether a run ends as it must whose writer takes so many bytes, one a call, and then fails.
fn is_cut(alloc: Global, case: Case<'_, '_>, count: usize, heals: bool) -> bool {
    let writing = Writing {
        piece: 1,
        calls: count,
        heals,
    };
    let run = case.run(alloc, Reading::WHOLE, writing);
    is_front(&run) && run.written == count
}

/// Whether runs end as they must whose writer takes all that there is in so many calls, and then
/// fails: until one of them comes to its end.
fn fails_at_calls(alloc: Global, case: Case<'_, '_>, reading: Reading) -> bool {
    for calls in 0..CALLS {
        let lasting = case.run(alloc, reading, failing(calls, false));
        let healing = case.run(alloc, reading, failing(calls, true));
        if lasting.failed_writes == 0 {
            return case.is_answered(lasting) && case.is_answered(healing);
        }
        let is_like = lasting.written == healing.written;
        if !is_like || !is_front(&lasting) || !is_front(&healing) {
            return false;
        }
    }
    false
}

/// A writer of so many calls that take all that there is.
fn failing(calls: usize, heals: bool) -> Writing {
    Writing {
        calls,
        heals,
        ..Writing::WHOLE
    }
}

/// Whether the writer failed in a run, once, and a front of the answers was written.
fn is_front(run: &Run) -> bool {
    run.is_as_it_must(Err(RunError::Write), run.written)
        && run.failed_reads == 0
        && run.failed_writes == 1
}
