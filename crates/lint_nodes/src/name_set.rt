//! Names, each once.
#![tactic(auto)]

ghost use Rattle.std.specs.Prelude.{◌≡◌, [], OnOk};
ghost use Rattle.lint_nodes.specs.HasNames.{GetsName, HasNames, IsListed, is_in_set};

use std::alloc::{AllocError, Global};
use std::collections::HashSet;

/// Names, each once, in the order in which they were added.
#[derive(Drop)]
pub struct Names<'s> {
    /// The names.
    pub list: Vec<&'s str>,
    /// The names as a set, to look them up.
    set: HashSet<&'s str>,
}

impl<'s> Names<'s> {
    /// No names. It doesn't allocate.
    pub fn new(alloc: Global) -> Self
        ensures { HasNames result [] }
    {
        Names {
            list: Vec::new(alloc),
            set: HashSet::new(alloc),
        }
    }

    /// Adds a name, if it is new.
    ///
    /// # Errors
    /// [`AllocError`] if memory runs out; the name may be known then and not be listed.
    pub fn add(&mut self, name: &'s str) -> Result<(), AllocError>
        ensures { OnOk result (GetsName self.old name.now self.new) }
    {
        if self.set.insert(name)? {
            self.list.push(name)?;
        }
        Ok(())
    }

    /// Whether a name is one of these.
    pub fn has(&self, name: &str) -> bool
        ensures listed { IsListed self.now name.now result }
        ensures found { result ≡ is_in_set self.now name.now }
    {
        self.set.contains(name)
    }
}
