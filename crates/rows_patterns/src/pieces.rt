//! Patterns that are written to a writer that refuses a piece.

ghost use Rattle.std.specs.Prelude.{string_bytes};

use crate::asking::Asked;
use crate::wanted::Wanted;
use fluent_bundle::FluentError;
use fluent_text::{TextWrite, WriteError};
use std::alloc::{AllocError, Global};
use std::fmt;

/// More pieces than any pattern of the rows is written in.
const MOST_PIECES: u32 = 500;

/// A writer that takes so many pieces and refuses those after them.
#[derive(Drop)]
pub struct Pieces {
    pub text: String,
    pub left: u32,
}

impl Pieces {
    /// A writer that takes so many pieces.
    pub fn new(alloc: Global, left: u32) -> Pieces {
        Pieces {
            text: String::new(alloc),
            left,
        }
    }
}

impl TextWrite for Pieces {
    ghost text = { λ pieces. string_bytes pieces.text };

    fn write_str(&mut self, piece: &str) -> fmt::Result {
        if self.left == 0 {
            return Err(fmt::Error);
        }
        self.text.push_str(piece)?;
        self.left -= 1;
        Ok(())
    }
}

/// How writing a pattern ended.
#[derive(Clone, Copy)]
enum Ended {
    /// All of it is written.
    Whole,
    /// The writer refused a piece; those before it are written.
    Refused,
    /// What is written or told is something else.
    Wrong,
}

impl Asked<'_, '_, '_, '_> {
    /// Whether `write_pattern` writes what it must, and whether it is refused where the first piece
    /// is, the second and so on, with the pieces before written and the first of the errors told.
    /// The only error is that memory runs out.
    pub fn is_written(self, alloc: Global, wanted: Wanted<'_>) -> Result<bool, AllocError> {
        for left in 0..MOST_PIECES {
            match self.write(alloc, wanted, left)? {
                Ended::Whole => return Ok(true),
                Ended::Refused => {}
                Ended::Wrong => return Ok(false),
            }
        }
        Ok(false)
    }

    /// Writes the pattern to a writer that takes so many pieces.
    fn write(self, alloc: Global, wanted: Wanted<'_>, left: u32) -> Result<Ended, AllocError> {
        let mut errors = Vec::new(alloc);
        let mut pieces = Pieces::new(alloc, left);
        let written = self
            .bundle
            .write_pattern(&mut pieces, self.pattern, self.arguments, &mut errors);
        judge(alloc, wanted, written, &pieces, &errors)
    }
}

/// How writing ended, by what it answered and left after. The only error is that memory runs out,
/// also that of the writer's text.
fn judge(
    alloc: Global,
    wanted: Wanted<'_>,
    written: Result<(), WriteError>,
    pieces: &Pieces,
    errors: &[FluentError],
) -> Result<Ended, AllocError> {
    let text = pieces.text.as_str();
    if !wanted.written.starts_with(text) || !wanted.are_first(alloc, errors)? {
        return Ok(Ended::Wrong);
    }
    match written {
        Ok(()) if text == wanted.written && errors.len() == wanted.errors.len() => Ok(Ended::Whole),
        Ok(()) => Ok(Ended::Wrong),
        Err(WriteError::Writer) if pieces.left == 0 => Ok(Ended::Refused),
        Err(_) => Err(AllocError),
    }
}
