//! Devices that give and take little at a time.

use crate::case::Case;
use crate::devices::{Reading, Writing};
use rows_common::Tally;
use std::alloc::Global;

/// Requests of up to so many bytes come in pieces of each length that is tried.
const SHORT: usize = 300;

/// The longest of those pieces.
const LONGEST: usize = 12;

/// Longer requests come in pieces of these lengths.
const PIECES: [usize; 8] = [1, 2, 3, 64, 1_000, 8_191, 8_192, 8_193];

/// Runs over devices that give and take so many bytes a call: what is written is the same.
pub fn try_pieces(alloc: Global, case: Case<'_, '_>) -> Tally {
    let mut tally = Tally::new();
    if case.script.requests.len() <= SHORT {
        for piece in 1..=LONGEST {
            tally.add_all(try_piece(alloc, case, piece));
        }
    }
    for piece in PIECES {
        tally.add_all(try_piece(alloc, case, piece));
    }
    tally
}

fn try_piece(alloc: Global, case: Case<'_, '_>, piece: usize) -> Tally {
    let reading = Reading {
        piece,
        ..Reading::WHOLE
    };
    let mut tally = Tally::new();
    tally.add(is_answered(alloc, case, reading, 1));
    tally.add(is_answered(alloc, case, Reading::WHOLE, piece));
    tally
}

/// Whether a row is answered whose writer takes so many bytes a call.
fn is_answered(alloc: Global, case: Case<'_, '_>, reading: Reading, piece: usize) -> bool {
    let writing = Writing {
        piece,
        ..Writing::WHOLE
    };
    case.is_answered(case.run(alloc, reading, writing))
}
