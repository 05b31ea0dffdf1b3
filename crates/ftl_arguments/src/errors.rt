//! Why command-line arguments ask for nothing.

ghost use Rattle.std.specs.Prelude.{◌≡◌, Some};
ghost use Rattle.ftl_arguments.specs.ErrorTexts.{words_text};
ghost use Rattle.ftl_arguments.specs.declared.errors.CommandError.TheVariants.{Memory};

use std::alloc::AllocError;
use std::error::Error;
use std::fmt;

/// Why command-line arguments ask for nothing.
#[derive(Debug, Drop)]
pub enum CommandError {
    /// Memory ran out.
    Memory,
    /// They are no command of the program, and no request for help or for the version.
    Bad {
        /// A line that says what is wrong with them, and where help is. There is none if memory
        /// ran out for it.
        advice: Option<String>,
    },
}

impl From<AllocError> for CommandError {
    ghost from_gives = { λ _ error. error ≡ Memory };

    fn from(_error: AllocError) -> Self {
        CommandError::Memory
    }
}

impl fmt::Display for CommandError {
    ghost output = { λ error. Some (words_text error) };

    fn fmt<W: fmt::Write>(&self, f: &mut fmt::Formatter<W>) -> fmt::Result {
        f.write_str(match self {
            CommandError::Memory => "out of memory",
            CommandError::Bad { .. } => "bad command line",
        })
    }
}

impl Error for CommandError {}
