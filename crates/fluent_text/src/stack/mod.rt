//! A bound on the machine's stack that nested expressions take.
//!
//! The functions that read and resolve call themselves for each placeable, call and select inside
//! another, so a small source can nest deep enough to use up the machine's stack. A [`Stack`]
//! counts the bytes that are open, and refuses what would go past its [`StackBudget`]. Costs are
//! named in [`reading`] and [`resolving`]: sums of what the functions take of the stack as compiled
//! for x86-64, rounded up.
#![tactic(auto)]

ghost use Rattle.std.specs.Prelude.{◌≡◌, ◌+◌, ◌-◌, ◌<◌, ◌≤◌, OnErr, OnOk};

pub mod reading;
pub mod resolving;

use std::alloc::AllocError;

/// How many bytes of the machine's stack may be open at once.
///
/// The bytes are those that [`Stack::open`] is called with, not measured ones. A program leaves
/// room beside them, for its own functions and for those that don't nest.
#[derive(Clone, Copy)]
pub struct StackBudget {
    bytes: usize,
}

impl StackBudget {
    /// The budget on a stack of 8 MB, as the main thread of a program usually has: 6 MB.
    pub const PROGRAM: StackBudget = StackBudget {
        bytes: 6 * 1024 * 1024,
    };

    /// The budget on a stack of 2 MB, as other threads often have: 1.5 MB.
    pub const THREAD: StackBudget = StackBudget { bytes: 1536 * 1024 };

    /// A budget of so many bytes.
    pub const fn of_bytes(bytes: usize) -> StackBudget
        ensures { result.bytes ≡ bytes }
    {
        StackBudget { bytes }
    }

    /// How many bytes may be open at once.
    pub const fn bytes(self) -> usize
        ensures { result ≡ self.bytes }
    {
        self.bytes
    }
}

/// A count of what is open, within a budget.
///
/// ```no_run
/// stack.open(reading::PLACEABLE)?;
/// let expression = get_expression(stack)?;
/// stack.close(reading::PLACEABLE);
/// ```
#[derive(Clone, Copy)]
pub struct Stack {
    budget: StackBudget,
    /// How many bytes are open.
    taken: usize,
    ghost within: { taken ≤ budget.bytes },
}

impl Stack {
    /// A count with nothing open.
    pub fn new(budget: StackBudget) -> Stack
        ensures budget { result.budget ≡ budget }
        ensures empty { result.taken ≡ 0 }
    {
        Stack { budget, taken: 0 }
    }

    /// Opens what takes so many bytes.
    ///
    /// # Errors
    /// [`AllocError`] if more bytes would be open than the budget has; the count is unchanged.
    pub fn open(&mut self, bytes: usize) -> Result<(), AllocError>
        ensures opened { OnOk result (self.new.taken ≡ self.old.taken + bytes) }
        ensures fits { OnOk result (self.old.taken + bytes ≤ self.old.budget.bytes) }
        ensures refused { OnErr result (self.new ≡ self.old) }
        ensures past { OnErr result (self.old.budget.bytes < self.old.taken + bytes) }
        ensures budget { self.new.budget ≡ self.old.budget }
    {
        if self.budget.bytes - self.taken < bytes {
            return Err(AllocError);
        }
        self.taken += bytes;
        Ok(())
    }

    /// Closes what took so many bytes: all that is open, if that is less.
    pub fn close(&mut self, bytes: usize)
        ensures closed { self.new.taken ≡ self.old.taken - bytes }
        ensures budget { self.new.budget ≡ self.old.budget }
    {
        self.taken = self.taken.saturating_sub(bytes);
    }
}
