//! Why a source has no tidy text.

ghost use Rattle.std.specs.Prelude.{◌≡◌, Some};
ghost use Rattle.fluent_tidy.specs.Messages.{tidy_message};
ghost use Rattle.fluent_tidy.specs.declared.tidy_error.TidyError.TheVariants.{Memory};

use fluent_parser::ParserError;
use std::alloc::AllocError;
use std::fmt;

/// Why [`tidy`](crate::tidy) gave no text.
///
/// ```no_run
/// match tidy(alloc, "a = { b \n") {
///     Ok(text) => print!(rt; "{text}")?,
///     Err(TidyError::Damaged(errors)) => println!(rt; "mistakes: {}", errors.len())?,
///     Err(error) => bail!("{error}"),
/// }
/// ```
#[derive(Debug, PartialEq, Eq, Drop)]
pub enum TidyError {
    /// Memory ran out, and the same call may succeed later; or what is read nests deeper than the
    /// budget of the stack.
    Memory,
    /// The source holds a carriage return that isn't part of CR LF.
    CarriageReturn,
    /// The source has junk: its errors, with offsets in the source as it is read, without a byte
    /// order mark and with LF line ends.
    Damaged(Vec<ParserError>),
    /// The source has no tidy text: what is written of its tree isn't read back as that tree. The
    /// offset, in the source as it is read, is where the first entry begins that has no tidy text
    /// by itself. It is 0 if each has one.
    NotTidy(usize),
}

impl fmt::Display for TidyError {
    ghost output = { λ error. Some (tidy_message error) };

    fn fmt<W: fmt::Write>(&self, f: &mut fmt::Formatter<W>) -> fmt::Result {
        f.write_str(match self {
            TidyError::Memory => "out of memory",
            TidyError::CarriageReturn => "a carriage return that ends no line",
            TidyError::Damaged(_) => "damaged",
            TidyError::NotTidy(_) => "no tidy text",
        })
    }
}

impl From<AllocError> for TidyError {
    ghost from_gives = { λ _ e. e ≡ Memory };

    fn from(_error: AllocError) -> Self {
        TidyError::Memory
    }
}

impl std::error::Error for TidyError {}
