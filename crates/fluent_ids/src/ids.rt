//! The map of ids.

ghost use Rattle.std.specs.Prelude.{◌≡◌, [], is_some, option_map, option_copied};
ghost use Rattle.fluent_ids.specs.EntryView.{meaning_of};
ghost use Rattle.fluent_ids.specs.IdsView.{ids_view};
ghost use Rattle.fluent_meaning.specs.Ids.{find};

use crate::entry::Entry;
use std::alloc::Global;
use std::borrow::CowStr;
use std::collections::HashMap;

/// What ids stand for. Messages, terms and functions share the ids.
///
/// ```no_run
/// let mut ids: FluentIds<'_, '_, NoFunction> = FluentIds::new(rt.alloc());
/// println!(rt; "{}", ids.get("checkout").is_some())?; // false
/// ```
#[derive(Drop)]
pub struct FluentIds<'r, 's, F> {
    pub(crate) entries: HashMap<CowStr<'s>, Entry<'r, 's, F>>,
    pub(crate) alloc: Global,
}

impl<'r, 's, F> FluentIds<'r, 's, F> {
    /// No ids. It doesn't allocate.
    pub fn new(alloc: Global) -> Self
        ensures { ids_view F result ≡ [] }
    {
        FluentIds {
            entries: HashMap::new(alloc),
            alloc,
        }
    }

    /// What an id stands for.
    pub fn get(&self, id: &str) -> Option<&Entry<'r, 's, F>>
        ensures { option_map (meaning_of F) (option_copied result)
            ≡ find (ids_view F self.now) id.now }
    {
        self.entries.get(id)
    }

    /// Whether an id stands for anything.
    pub(crate) fn contains(&self, id: &str) -> bool
        ensures { result ≡ is_some (find (ids_view F self.now) id.now) }
    {
        self.get(id).is_some()
    }
}
