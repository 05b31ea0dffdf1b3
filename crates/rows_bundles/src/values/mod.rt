//! Rows of values: what they are made of, which are equal, which match and what they are shown as,
//! what arguments hold, and what the function `NUMBER` gives. [`made`] says how values are written.

mod args;
mod builtins;
mod count;
mod equality;
mod forms;
mod made;
mod matching;
mod scope;
mod showing;
mod texts;

use rows_common::Row;
use std::alloc::Global;

/// What the rows of a file say of values.
#[derive(Clone, Copy)]
pub enum Rows {
    /// How values hold what they hold.
    Forms,
    /// Which values are equal.
    Equal,
    /// Which values equal their copies.
    Copies,
    /// Which keys match which values.
    Matching,
    /// What values are shown as.
    Shown,
    /// What a value of the program's own does.
    Own,
    /// Which texts are read as numbers.
    Texts,
    /// What arguments hold.
    Arguments,
    /// What arguments hold as options.
    Options,
    /// What `NUMBER` gives.
    Builtins,
}

pub const FILES: [(&str, Rows); 10] = [
    ("values/forms.txt", Rows::Forms),
    ("values/equal.txt", Rows::Equal),
    ("values/copies.txt", Rows::Copies),
    ("values/matching.txt", Rows::Matching),
    ("values/shown.txt", Rows::Shown),
    ("values/own.txt", Rows::Own),
    ("values/texts.txt", Rows::Texts),
    ("values/arguments.txt", Rows::Arguments),
    ("values/options.txt", Rows::Options),
    ("values/builtins.txt", Rows::Builtins),
];

impl Rows {
    /// Whether what a row says is so; none where it is no such row, or memory ran out.
    pub fn is_right(self, alloc: Global, row: Row<'_>) -> Option<bool> {
        match self {
            Rows::Forms => forms::is_right(alloc, row),
            Rows::Equal => equality::is_right(alloc, row),
            Rows::Copies => equality::is_copied(alloc, row),
            Rows::Matching => matching::is_right(alloc, row),
            Rows::Shown => showing::is_right(alloc, row),
            Rows::Own => showing::is_own(alloc, row),
            Rows::Texts => texts::is_right(alloc, row),
            Rows::Arguments => args::are_right(alloc, row),
            Rows::Options => args::is_option(alloc, row),
            Rows::Builtins => builtins::is_right(alloc, row),
        }
    }
}
