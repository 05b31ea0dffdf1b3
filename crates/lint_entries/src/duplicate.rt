//! The entry or function that has the id of a later entry, in words.
#![tactic(auto)]

ghost use Rattle.std.specs.Prelude.{Some};
ghost use Rattle.lint_entries.specs.DuplicateText.{duplicate_text};

use crate::location::Location;
use std::fmt;

/// The entry or function that has the id of a later entry.
#[derive(Clone, Copy)]
pub enum Duplicate<'a> {
    /// A function of this id.
    Function(&'a str),
    /// An entry that begins here.
    Entry(Location<'a>),
}

impl fmt::Display for Duplicate<'_> {
    ghost output = { λ duplicate. Some (duplicate_text duplicate) };

    fn fmt<W: fmt::Write>(&self, f: &mut fmt::Formatter<W>) -> fmt::Result {
        match self {
            Duplicate::Function(id) => {
                write!(f, "`{id}` is a function, so this entry is never shown")
            }
            Duplicate::Entry(location) => write!(
                f,
                "the entry at {location} has the same id, so this one is never shown"
            ),
        }
    }
}
