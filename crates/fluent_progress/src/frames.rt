//! What resolving takes of the machine's stack.

ghost use Rattle.std.specs.Prelude.{◌≡◌, ◌+◌, ◌<◌, false, true, OnErr, OnOk};
ghost use Rattle.fluent_progress.specs.Depth.{open_in, with_closed, with_opened};

use fluent_text::stack::{Stack, StackBudget};
use std::alloc::AllocError;

/// What is open of the machine's stack, and whether more was asked for.
#[derive(Clone, Copy)]
pub struct Frames {
    /// What is open.
    pub counted: Stack,
    /// Whether more was asked for than the budget has.
    pub is_past: bool,
}

impl Frames {
    /// Nothing is open yet, and this budget may be.
    pub fn new(budget: StackBudget) -> Self
        ensures { open_in result ≡ record { taken = 0; budget = budget.bytes; is_past = false } }
    {
        Frames {
            counted: Stack::new(budget),
            is_past: false,
        }
    }

    /// Opens what takes so many bytes.
    ///
    /// # Errors
    /// [`AllocError`] if more bytes would be open than the budget has, which is noted; nothing is
    /// opened.
    pub fn open(&mut self, bytes: usize) -> Result<(), AllocError>
        ensures opened { OnOk result (open_in self.new ≡ with_opened bytes (open_in self.old)) }
        ensures past { OnErr result ((open_in self.old).budget < (open_in self.old).taken + bytes) }
        ensures noted { OnErr result (self.new.is_past ≡ true) }
    {
        match self.counted.open(bytes) {
            Ok(()) => Ok(()),
            Err(AllocError) => {
                self.is_past = true;
                Err(AllocError)
            }
        }
    }

    /// Closes what took so many bytes.
    pub fn close(&mut self, bytes: usize)
        ensures { open_in self.new ≡ with_closed bytes (open_in self.old) }
    {
        self.counted.close(bytes);
    }
}
