//! What an id of a bundle stands for.

ghost use Rattle.std.specs.Prelude.{Some};
ghost use Rattle.fluent_errors.specs.Texts.{entry_text};
ghost use Rattle.fluent_errors.specs.View.{entry_view};

use std::fmt;

/// What an id of a bundle stands for. Its text is `message`, `term` or `function`.
///
/// ```no_run
/// if let FluentError::Overriding {
///     kind: EntryKind::Message,
///     id,
/// } = notice
/// {
///     println!(rt; "{id} is there twice")?; // checkout is there twice
/// }
/// ```
#[derive(Clone, Copy, Debug, PartialEq, Eq)]
pub enum EntryKind {
    Message,
    Term,
    Function,
}

impl fmt::Display for EntryKind {
    ghost output = { λ kind. Some (entry_text (entry_view kind)) };

    fn fmt<W: fmt::Write>(&self, f: &mut fmt::Formatter<W>) -> fmt::Result {
        f.write_str(match self {
            EntryKind::Message => "message",
            EntryKind::Term => "term",
            EntryKind::Function => "function",
        })
    }
}
