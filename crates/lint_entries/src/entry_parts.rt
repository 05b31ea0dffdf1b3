//! The parts of a message or a term.
#![tactic(auto)]

ghost use Rattle.std.specs.Prelude.{◌≡◌, option_map};
ghost use Rattle.fluent_ast.specs.Borrowed.{entry_of};
ghost use Rattle.lint_entries.specs.EntryParts.{parts_of};
ghost use Rattle.lint_entries.specs.PartsView.{parts_view};

use fluent_ast::{Attribute, Entry, Pattern};

/// A message or a term, by its parts. Only a message may have no value.
#[derive(Clone, Copy)]
pub struct EntryParts<'r, 's> {
    /// A minus for a term.
    pub sign: &'static str,
    pub id: &'s str,
    pub value: Option<&'r Pattern<&'s str>>,
    pub attributes: &'r [Attribute<&'s str>],
}

impl<'r, 's> EntryParts<'r, 's> {
    /// The parts of an entry, if it is a message or a term.
    pub fn of(entry: &'r Entry<&'s str>) -> Option<Self>
        ensures { option_map parts_view result ≡ parts_of (entry_of entry.now) }
    {
        match entry {
            Entry::Message(message) => Some(EntryParts {
                sign: "",
                id: message.id.name,
                value: message.value.as_ref(),
                attributes: &message.attributes,
            }),
            Entry::Term(term) => Some(EntryParts {
                sign: "-",
                id: term.id.name,
                value: Some(&term.value),
                attributes: &term.attributes,
            }),
            _ => None,
        }
    }
}
