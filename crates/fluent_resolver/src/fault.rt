//! Why a pattern gave no text.

ghost use Rattle.std.specs.Prelude.{◌≡◌};
ghost use Rattle.fluent_resolver.specs.declared.fault.Fault.TheVariants.{Memory};

use std::alloc::AllocError;

/// Why a pattern gave no text: see [`answer_within`](crate::answer::answer_within).
#[derive(Clone, Copy, Debug, PartialEq, Eq)]
pub enum Fault {
    /// Memory ran out.
    Memory,
    /// Values nest past the budget of the machine's stack.
    TooDeep,
}

impl From<AllocError> for Fault {
    ghost from_gives = { λ _ fault. fault ≡ Memory };

    fn from(_: AllocError) -> Self {
        Fault::Memory
    }
}
