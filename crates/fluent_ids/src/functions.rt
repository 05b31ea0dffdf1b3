//! Adding functions.

ghost use Rattle.std.specs.Prelude.{◌≡◌, codes, OnErr, OnOk, Result};
ghost use Rattle.fluent_ids.specs.Adding.{AddsFunction, PutsFunction};
ghost use Rattle.fluent_ids.specs.EntryView.{meaning_of};
ghost use Rattle.fluent_ids.specs.IdsView.{ids_view};
ghost use Rattle.fluent_meaning.specs.Ids as ids;
ghost use Rattle.fluent_meaning.specs.Ids.{number_pair};

use crate::entry::Entry;
use crate::error::AddFunctionError;
use crate::ids::FluentIds;
use crate::notices::overriding;
use std::alloc::AllocError;
use std::borrow::CowStr;

impl<'r, 's, F: Drop> FluentIds<'r, 's, F> {
    /// Adds a function under an id that stands for nothing yet.
    ///
    /// # Errors
    /// After each of them nothing has changed, and the function was dropped.
    /// - [`AddFunctionError::Overriding`] if the id stands for something.
    /// - [`AddFunctionError::Memory`] if memory runs out.
    pub fn add_function(&mut self, id: &str, function: F) -> Result<(), AddFunctionError>
        ensures { AddsFunction F result self.old self.new (id.now, ids.function function) }
    {
        self.add_own(id, Entry::Function(function))
    }

    /// Adds the function `NUMBER`.
    ///
    /// # Errors
    /// After each of them nothing has changed.
    /// - [`AddFunctionError::Overriding`] if `NUMBER` stands for something.
    /// - [`AddFunctionError::Memory`] if memory runs out.
    pub fn add_builtins(&mut self) -> Result<(), AddFunctionError>
        ensures { AddsFunction F result self.old self.new number_pair }
    {
        self.add_own("NUMBER", Entry::Number)
    }

    /// Adds a function under an id, unless the id stands for something: then the function is
    /// dropped, and no notice is made.
    ///
    /// # Errors
    /// [`AllocError`] if memory runs out; the ids are unchanged, and the function was dropped.
    pub fn add_function_silently(&mut self, id: &str, function: F) -> Result<(), AllocError>
        ensures added { OnOk result (PutsFunction F self.old self.new (id.now, ids.function function)) }
        ensures refused { OnErr result (ids_view F self.new ≡ ids_view F self.old) }
    {
        self.add_own_silently(id, Entry::Function(function))
    }

    /// Adds the function `NUMBER`, unless `NUMBER` stands for something, and makes no notice.
    ///
    /// # Errors
    /// [`AllocError`] if memory runs out; the ids are unchanged.
    pub fn add_builtins_silently(&mut self) -> Result<(), AllocError>
        ensures added { OnOk result (PutsFunction F self.old self.new number_pair) }
        ensures refused { OnErr result (ids_view F self.new ≡ ids_view F self.old) }
    {
        self.add_own_silently("NUMBER", Entry::Number)
    }

    fn add_own(&mut self, id: &str, entry: Entry<'r, 's, F>) -> Result<(), AddFunctionError>
        ensures { AddsFunction F result self.old self.new (id.now, meaning_of F entry.entry) }
    {
        if self.contains(id) {
            let notice = overriding(self.alloc, entry.kind(), id)?;
            return Err(AddFunctionError::Overriding(notice));
        }
        self.add_own_silently(id, entry)?;
        Ok(())
    }

    /// Adds a function, whose id is copied, unless the id stands for something.
    fn add_own_silently(&mut self, id: &str, entry: Entry<'r, 's, F>) -> Result<(), AllocError>
        ensures added { OnOk result (PutsFunction F self.old self.new (id.now, meaning_of F entry.entry)) }
        ensures refused { OnErr result (ids_view F self.new ≡ ids_view F self.old) }
    {
        if self.contains(id) {
            return Ok(());
        }
        let key = CowStr::Owned(String::from_str(self.alloc, id)?);
        match self.entries.insert(key, entry) {
            Ok(_) => Ok(()),
            Err(_) => Err(AllocError),
        }
    }
}
