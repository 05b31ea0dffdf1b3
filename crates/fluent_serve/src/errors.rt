//! The texts of what stops a run.

ghost use Rattle.std.specs.Prelude.{Some, codes};
ghost use Rattle.fluent_serve.specs.ErrorTexts.{run_text};

use crate::serve::RunError;
use crate::stream::{ReadFailed, WriteFailed};
use std::error::Error;
use std::fmt;

impl fmt::Display for RunError {
    ghost output = { λ error. Some (run_text error) };

    fn fmt<W: fmt::Write>(&self, f: &mut fmt::Formatter<W>) -> fmt::Result {
        f.write_str(match self {
            RunError::Memory => "out of memory",
            RunError::Read => "reading failed",
            RunError::Write => "writing failed",
        })
    }
}

impl Error for RunError {}

impl fmt::Display for ReadFailed {
    ghost output = { λ _. Some (codes "reading failed") };

    fn fmt<W: fmt::Write>(&self, f: &mut fmt::Formatter<W>) -> fmt::Result {
        f.write_str("reading failed")
    }
}

impl Error for ReadFailed {}

impl fmt::Display for WriteFailed {
    ghost output = { λ _. Some (codes "writing failed") };

    fn fmt<W: fmt::Write>(&self, f: &mut fmt::Formatter<W>) -> fmt::Result {
        f.write_str("writing failed")
    }
}

impl Error for WriteFailed {}
