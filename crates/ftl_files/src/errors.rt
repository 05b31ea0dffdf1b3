//! The texts of why a file was not read, or not replaced.

ghost use Rattle.std.specs.Prelude.{Some};
ghost use Rattle.ftl_files.specs.ErrorTexts.{file_text, replace_text};

use crate::folder::{FileError, ReplaceError};
use std::error::Error;
use std::fmt;

impl fmt::Display for FileError {
    ghost output = { λ error. Some (file_text error) };

    fn fmt<W: fmt::Write>(&self, f: &mut fmt::Formatter<W>) -> fmt::Result {
        f.write_str(match self {
            FileError::Memory => "out of memory",
            FileError::Unreadable => "cannot read",
        })
    }
}

impl Error for FileError {}

impl fmt::Display for ReplaceError {
    ghost output = { λ error. Some (replace_text error) };

    fn fmt<W: fmt::Write>(&self, f: &mut fmt::Formatter<W>) -> fmt::Result {
        f.write_str(match self {
            ReplaceError::Memory => "out of memory",
            ReplaceError::Unwritable => "cannot write",
        })
    }
}

impl Error for ReplaceError {}
