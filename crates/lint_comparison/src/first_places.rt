//! The first places of names.
#![tactic(auto)]

ghost use Rattle.std.specs.Prelude.{◌≡◌, [], OnOk, option_map};
ghost use Rattle.lint_comparison.specs.HasFirstPlaces.{GetsFirstPlace, HasFirstPlaces, first_place_of};

use std::alloc::{AllocError, Global};
use std::collections::HashMap;

/// The first place of each of some names: the source from there on.
#[derive(Drop)]
pub struct FirstPlaces<'s, 't> {
    first: HashMap<&'s str, &'t [u8]>,
}

impl<'s, 't> FirstPlaces<'s, 't> {
    /// No places. It doesn't allocate.
    pub fn new(alloc: Global) -> Self
        ensures { HasFirstPlaces result [] }
    {
        FirstPlaces {
            first: HashMap::new(alloc),
        }
    }

    /// Adds a place of a name. If the name has an earlier one, that one stays.
    ///
    /// # Errors
    /// [`AllocError`] if memory runs out; the places are unchanged.
    pub fn add(&mut self, name: &'s str, at: &'t [u8]) -> Result<(), AllocError>
        ensures { OnOk result (GetsFirstPlace self.old name.now at.now self.new) }
    {
        self.first.entry(name)?.or_insert(at);
        Ok(())
    }

    /// The first place of a name.
    pub fn get(&self, name: &str) -> Option<&'t [u8]>
        ensures { option_map (λ s. s.now) result ≡ first_place_of self.now name.now }
    {
        self.first.get(name).copied()
    }
}
