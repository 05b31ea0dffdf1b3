//! Why a reader gave up.

ghost use Rattle.std.specs.Prelude.{◌≡◌};
ghost use Rattle.fluent_parser.specs.declared.fault.Fault.TheVariants.{Memory};
ghost use Rattle.fluent_parser.specs.declared.fault.Halt.TheVariants as halt;

use fluent_parsed::ErrorKind;
use std::alloc::{AllocError, AllocFailed};

/// Why nothing was read. After a refusal the parser stands where reading stopped.
#[derive(Debug, Drop)]
pub enum Fault {
    /// Memory ran out.
    Memory,
    /// What is there nests past the budget of the stack.
    TooDeep,
    /// What is there is no such construct.
    Refused(ErrorKind),
}

impl From<AllocError> for Fault {
    ghost from_gives = { λ _ e. e ≡ Memory };

    fn from(_error: AllocError) -> Fault {
        Fault::Memory
    }
}

impl<T: Drop> From<AllocFailed<T>> for Fault {
    ghost from_gives = { λ _ e. e ≡ Memory };

    fn from(_error: AllocFailed<T>) -> Fault {
        Fault::Memory
    }
}

/// Why a source isn't read to its end, whatever is wrong with it.
#[derive(Debug, Drop)]
pub enum Halt {
    /// Memory ran out.
    Memory,
    /// A message or a term nests past the budget of the stack.
    TooDeep,
}

impl From<AllocError> for Halt {
    ghost from_gives = { λ _ e. e ≡ halt.Memory };

    fn from(_error: AllocError) -> Halt {
        Halt::Memory
    }
}

impl<T: Drop> From<AllocFailed<T>> for Halt {
    ghost from_gives = { λ _ e. e ≡ halt.Memory };

    fn from(_error: AllocFailed<T>) -> Halt {
        Halt::Memory
    }
}
