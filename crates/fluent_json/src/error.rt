//! Why a JSON value could not be read as a tree.

ghost use Rattle.std.specs.Prelude.{◌≡◌};
ghost use Rattle.fluent_json.specs.declared.error.FromValueError.TheVariants.{Memory};

use std::alloc::{AllocError, AllocFailed};
use std::fmt;

/// Why [`from_value`](crate::from_value) gave no tree.
///
/// ```
/// match from_value(alloc, &value) {
///     Ok(back) => Ok(back),
///     Err(FromValueError::Shape) => unreachable!(),
///     Err(FromValueError::Memory) => Err(AllocError),
/// }
/// ```
#[derive(Clone, Copy, Debug, PartialEq, Eq)]
pub enum FromValueError {
    /// Memory ran out. The same call may succeed later.
    Memory = 1,
    /// No tree has the value, so that no later call succeeds either.
    Shape = 2,
}

impl fmt::Display for FromValueError {
    ghost use Rattle.std.specs.Prelude.{Some};
    ghost use Rattle.fluent_json.specs.Message.{message};

    ghost output = { λ error. Some (message error) };

    fn fmt<W: fmt::Write>(&self, f: &mut fmt::Formatter<W>) -> fmt::Result {
        f.write_str(match self {
            FromValueError::Memory => "out of memory",
            FromValueError::Shape => "not the value of a tree",
        })
    }
}

impl From<AllocError> for FromValueError {
    ghost from_gives = { λ _ e. e ≡ Memory };

    fn from(_error: AllocError) -> Self {
        Self::Memory
    }
}

impl<T: Drop> From<AllocFailed<T>> for FromValueError {
    ghost from_gives = { λ _ e. e ≡ Memory };

    fn from(error: AllocFailed<T>) -> Self {
        FromValueError::from(AllocError::from(error))
    }
}

impl std::error::Error for FromValueError {}
