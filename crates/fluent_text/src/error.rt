//! Why a text could not be written.

ghost use Rattle.std.specs.Prelude.{◌≡◌, Some, codes};
ghost use Rattle.fluent_text.specs.Error.{error_text};
ghost use Rattle.fluent_text.specs.declared.error.WriteError.TheVariants.{Writer, Memory};

use std::alloc::AllocError;
use std::fmt;

/// Why a text could not be written whole.
///
/// ```no_run
/// match bundle.write_pattern(&mut text, pattern, Some(&args), &mut errors) {
///     Ok(()) => println!(rt; "{text}")?,
///     Err(WriteError::Writer) => bail!("the writer takes no more"),
///     Err(WriteError::Memory) => bail!("out of memory"),
/// }
/// ```
#[derive(Clone, Copy, Debug, PartialEq, Eq)]
pub enum WriteError {
    /// The writer refused a piece.
    Writer,
    /// Memory ran out.
    Memory,
}

impl fmt::Display for WriteError {
    ghost output = { λ error. Some (error_text error) };

    fn fmt<W: fmt::Write>(&self, f: &mut fmt::Formatter<W>) -> fmt::Result {
        f.write_str(match self {
            WriteError::Writer => "writing was refused",
            WriteError::Memory => "out of memory",
        })
    }
}

/// A refusal of memory.
impl From<AllocError> for WriteError {
    ghost from_gives = { λ _ error. error ≡ Memory };

    fn from(_: AllocError) -> Self {
        WriteError::Memory
    }
}

/// A refusal of the writer.
impl From<fmt::Error> for WriteError {
    ghost from_gives = { λ _ error. error ≡ Writer };

    fn from(_: fmt::Error) -> Self {
        WriteError::Writer
    }
}

impl std::error::Error for WriteError {}
