//! Why nothing is written of a JSON text.

ghost use Rattle.std.specs.Prelude.{◌≡◌, Some};
ghost use Rattle.fluent_kept.specs.TreeMessage.{message};
ghost use Rattle.fluent_kept.specs.declared.tree.error.TreeError.TheVariants.{Memory};

use std::alloc::AllocError;
use std::fmt;

/// Why [`write_tree`](crate::tree::write_tree) gave no text.
///
/// ```no_run
/// match write_tree(alloc, json, true) {
///     Ok(source) => print!(rt; "{source}")?,
///     Err(error) => bail!("{error}"), // not JSON
/// }
/// ```
#[derive(Clone, Copy, Debug, PartialEq, Eq)]
pub enum TreeError {
    /// Memory ran out. The same call may succeed later.
    Memory = 1,
    /// The text isn't JSON, is nested more than 127 deep, or has a number that no float holds.
    NotJson = 2,
    /// No tree has the value of the text.
    NotTree = 3,
}

impl fmt::Display for TreeError {
    ghost output = { λ error. Some (message error) };

    fn fmt<W: fmt::Write>(&self, f: &mut fmt::Formatter<W>) -> fmt::Result {
        f.write_str(match self {
            TreeError::Memory => "out of memory",
            TreeError::NotJson => "not JSON",
            TreeError::NotTree => "not the value of a tree",
        })
    }
}

impl From<AllocError> for TreeError {
    ghost from_gives = { λ _ e. e ≡ Memory };

    fn from(_error: AllocError) -> Self {
        Self::Memory
    }
}

impl std::error::Error for TreeError {}
