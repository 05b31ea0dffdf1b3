//! What an id stands for.

ghost use Rattle.std.specs.Prelude.{◌≡◌, [], ◌∷◌, option_map, option_to_list};
ghost use Rattle.fluent_ast.specs.View.{entry_view};
ghost use Rattle.fluent_errors.specs.View as e;
ghost use Rattle.fluent_ids.specs.EntryView.{meaning_of, pair_of};
ghost use Rattle.fluent_meaning.specs.Ids.{entries_by_id, kind_of};

use fluent_ast::{self as ast, Message, Resource, Term};
use fluent_errors::EntryKind;

/// What an id stands for. A message and a term are next to the tree of the resource that they come
/// from.
///
/// ```no_run
/// if let Some(Entry::Term((_, term))) = ids.get("brand") {
///     println!(rt; "{}", term.id.name)?;
/// }
/// ```
#[derive(Drop)]
pub enum Entry<'r, 's, F> {
    Message((&'r Resource<&'s str>, &'r Message<&'s str>)),
    Term((&'r Resource<&'s str>, &'r Term<&'s str>)),
    /// A function of the program's own.
    Function(F),
    /// The function `NUMBER`.
    Number,
}

/// A function that an id stands for.
///
/// ```no_run
/// match bundle.get_entry_function(id) {
///     Some(FunctionRef::Number) => "NUMBER",
///     Some(FunctionRef::Own(_)) => "a function of the program",
///     None => "no function",
/// }
/// ```
#[derive(Drop)]
pub enum FunctionRef<'b, F> {
    /// A function of the program's own.
    Own(&'b F),
    /// The function `NUMBER`.
    Number,
}

impl<'r, 's, F> Entry<'r, 's, F> {
    /// The id of a message or term of a resource, and the entry that it becomes. Other entries have
    /// none.
    pub(crate) fn of(
        resource: &'r Resource<&'s str>,
        entry: &'r ast::Entry<&'s str>,
    ) -> Option<(&'s str, Self)>
        ensures { option_to_list (option_map (pair_of F) result)
            ≡ entries_by_id (entry_view _ (λ s. s.now) entry.now ∷ []) }
    {
        match entry {
            ast::Entry::Message(message) => Some((
                message.id.name,
                Entry::Message((resource, message)),
            )),
            ast::Entry::Term(term) => Some((term.id.name, Entry::Term((resource, term)))),
            _ => None,
        }
    }

    /// The kind of the entry.
    pub(crate) fn kind(&self) -> EntryKind
        ensures { e.entry_view result ≡ kind_of (meaning_of F self.now) }
    {
        match self {
            Entry::Message(_) => EntryKind::Message,
            Entry::Term(_) => EntryKind::Term,
            Entry::Function(_) => EntryKind::Function,
            Entry::Number => EntryKind::Function,
        }
    }
}
