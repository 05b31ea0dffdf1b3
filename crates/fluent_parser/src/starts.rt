//! Where the entries and the junk of a source begin.

ghost use Rattle.std.specs.Prelude.{◌≡◌, ◌∷◌, [], true, false, OnOk};

use std::alloc::{AllocError, Global};

/// The offsets at which the parts of a source begin, if they are kept.
#[derive(Drop)]
pub struct Starts {
    pub all: Vec<usize>,
    is_keeping: bool,
}

impl Starts {
    ghost use Rattle.fluent_parser.specs.Placed.{Adds};

    /// None yet, and each is kept.
    pub fn kept(alloc: Global) -> Self
        ensures all { result.all.items ≡ [] }
        ensures keeping { result.is_keeping ≡ true }
    {
        Starts {
            all: Vec::new(alloc),
            is_keeping: true,
        }
    }

    /// None, and none is kept.
    pub fn passed_over(alloc: Global) -> Self
        ensures { result.is_keeping ≡ false }
    {
        Starts {
            all: Vec::new(alloc),
            is_keeping: false,
        }
    }

    /// A part begins here.
    ///
    /// # Errors
    /// [`AllocError`] if memory runs out.
    pub fn push(&mut self, start: usize) -> Result<(), AllocError>
        ensures kept { OnOk result (Adds self.old self.new (start ∷ [])) }
        ensures keeping { self.new.is_keeping ≡ self.old.is_keeping }
    {
        if self.is_keeping {
            self.all.push(start)?;
        }
        Ok(())
    }
}
