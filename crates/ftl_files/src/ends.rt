//! The outcome of tidying a file.
ghost use Rattle.std.specs.Prelude.{◌≡◌, ◌++◌, OnOk, Some, string_bytes};
ghost use Rattle.ftl_files.specs.TidyView.{failure_line_of, failure_view};
ghost use Rattle.ftl_files.specs.Tidying.{failure_words};

use std::alloc::AllocError;
use std::fmt;

/// Why a file couldn't be tidied, whatever its source is.
#[derive(Clone, Copy, Debug, PartialEq, Eq)]
pub enum Failure {
    /// The file could not be read.
    Unreadable,
    /// Its bytes aren't UTF-8.
    NotUtf8,
    /// It could not be written.
    Unwritable,
}

impl fmt::Display for Failure {
    ghost output = { λ failure. Some (failure_words (failure_view failure)) };

    fn fmt<W: fmt::Write>(&self, f: &mut fmt::Formatter<W>) -> fmt::Result {
        f.write_str(match self {
            Failure::Unreadable => "cannot read",
            Failure::NotUtf8 => "not UTF-8",
            Failure::Unwritable => "cannot write",
        })
    }
}

/// The outcome of tidying a file.
#[derive(Debug, PartialEq, Eq, Drop)]
pub enum FileEnd {
    /// It is tidy.
    Kept,
    /// It isn't, and this is its tidy text.
    Changed(String),
    /// It could not be read or written, and maybe why.
    Failed(Failure, Option<&'static str>),
    /// It has no tidy text, and this is reported.
    Refused(String),
    /// Memory ran out for its source, or it nests too deep, and this is reported.
    OutOfMemory(String),
}

/// Appends the line of a failure.
pub(crate) fn push_failure(
    lines: &mut String,
    name: &str,
    failure: Failure,
    why: Option<&'static str>,
) -> Result<(), AllocError>
    ensures { OnOk result (string_bytes lines.new
        ≡ string_bytes lines.old ++ failure_line_of name.now failure why.entry) }
{
    match why {
        Some(why) => writeln!(lines, "ftl: {name}: {failure}: {why}"),
        None => writeln!(lines, "ftl: {name}: {failure}"),
    }
}
