//! The names of attributes.
#![tactic(auto)]

ghost use Rattle.std.specs.Prelude.{[], IfOk, OnOk};
ghost use Rattle.lint_entries.specs.HasNames.{GetsName, HasNames, IsNewName};

use std::alloc::{AllocError, Global};
use std::collections::BTreeSet;

/// A set of names.
#[derive(Drop)]
pub struct Names<'s> {
    names: BTreeSet<&'s str>,
}

impl<'s> Names<'s> {
    /// No names.
    pub fn new(alloc: Global) -> Self
        ensures { HasNames result [] }
    {
        Names {
            names: BTreeSet::new(alloc),
        }
    }

    /// Adds a name. Returns whether it is new.
    ///
    /// # Errors
    /// [`AllocError`] if memory runs out; the names are unchanged.
    pub fn insert(&mut self, name: &'s str) -> Result<bool, AllocError>
        ensures is_new { IfOk result (IsNewName self.old name.now) }
        ensures added { OnOk result (GetsName self.old name.now self.new) }
    {
        Ok(self.names.insert(name)?)
    }
}
