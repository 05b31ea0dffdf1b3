//! Going over the entries of a resource.

ghost use Rattle.std.specs.Prelude.{◌≡◌, length, map};
ghost use Rattle.std.specs.Iterator.{YieldsFirstBy, item_count};
ghost use Rattle.fluent_ast.specs.View.{entry_view};
ghost use Rattle.fluent_resource.specs.EntriesLeft.{entries_left};

use fluent_ast::Entry;
use std::slice;

/// The entries of a resource, in the order of their places.
///
/// ```no_run
/// for entry in resource.entries() {
///     if let ast::Entry::Message(message) = entry {
///         println!(rt; "{}", message.id.name)?; // checkout
///     }
/// }
/// ```
#[derive(Drop)]
pub struct Entries<'r, 's> {
    left: slice::Iter<'r, Entry<&'s str>>,
}

impl<'r, 's> Entries<'r, 's> {
    pub(crate) fn new(entries: &'r [Entry<&'s str>]) -> Self
        ensures { entries_left result ≡ map (entry_view _ (λ s. s.now)) entries.now }
    {
        Entries {
            left: entries.iter(),
        }
    }
}

impl<'r, 's> Iterator for Entries<'r, 's> {
    type Item = &'r Entry<&'s str>;

    ghost next_gives = { YieldsFirstBy (λ entry. entry_view _ (λ s. s.now) entry.now)
        entries_left };

    ghost remaining = { item_count entries_left };

    fn next(&mut self) -> Option<&'r Entry<&'s str>> {
        self.left.next()
    }
}
