//! Asking for messages, terms and functions by their ids.

ghost use Rattle.std.specs.Prelude.{◌≡◌, is_some, option_map};
ghost use Rattle.fluent_ids.specs.EntryView.{function_meaning};
ghost use Rattle.fluent_ids.specs.Found.{message_in, term_in, function_in, lent_message, lent_term};
ghost use Rattle.fluent_ids.specs.IdsView.{ids_view};
ghost use Rattle.fluent_meaning.specs.Ids.{Ids, find};
ghost use Rattle.fluent_ids.specs.MessageView.{message_of};

use crate::entry::{Entry, FunctionRef};
use crate::ids::FluentIds;
use crate::message::FluentMessage;
use fluent_ast::{Message, Term};

/// What has messages, terms and functions by their ids. No call allocates.
///
/// ```no_run
/// if let Some(term) = bundle.get_entry_term("brand") {
///     println!(rt; "-{}", term.id.name)?; // -brand
/// }
/// ```
pub trait GetEntry<'s, F> {
    ghost ids: { Self → Ids F };

    /// The message of an id.
    fn get_entry_message(&self, id: &str) -> Option<&Message<&'s str>>
        ensures { lent_message result ≡ message_in (find (ids self.now) id.now) };

    /// The term of an id, which is its name without the minus.
    fn get_entry_term(&self, id: &str) -> Option<&Term<&'s str>>
        ensures { lent_term result ≡ term_in (find (ids self.now) id.now) };

    /// The function of an id.
    fn get_entry_function(&self, id: &str) -> Option<FunctionRef<'_, F>>
        ensures { option_map (function_meaning F) result
            ≡ function_in (find (ids self.now) id.now) };
}

impl<'r, 's, F> GetEntry<'s, F> for FluentIds<'r, 's, F> {
    ghost ids = { ids_view F };

    fn get_entry_message(&self, id: &str) -> Option<&Message<&'s str>> {
        self.message(id)
    }

    fn get_entry_term(&self, id: &str) -> Option<&Term<&'s str>> {
        match self.get(id) {
            Some(Entry::Term((_, term))) => Some(term),
            _ => None,
        }
    }

    fn get_entry_function(&self, id: &str) -> Option<FunctionRef<'_, F>> {
        match self.get(id) {
            Some(Entry::Function(function)) => Some(FunctionRef::Own(function)),
            Some(Entry::Number) => Some(FunctionRef::Number),
            _ => None,
        }
    }
}

impl<'r, 's, F> FluentIds<'r, 's, F> {
    /// Whether an id stands for a message.
    pub fn has_message(&self, id: &str) -> bool
        ensures { result ≡ is_some (message_in (find (ids_view F self.now) id.now)) }
    {
        self.message(id).is_some()
    }

    /// The message of an id.
    pub fn get_message(&self, id: &str) -> Option<FluentMessage<'r, 's>>
        ensures { option_map message_of result ≡ message_in (find (ids_view F self.now) id.now) }
    {
        let message = self.message(id)?;
        Some(FluentMessage::from(message))
    }

    /// The message of an id, lent as long as its resource is.
    fn message(&self, id: &str) -> Option<&'r Message<&'s str>>
        ensures { lent_message result ≡ message_in (find (ids_view F self.now) id.now) }
    {
        match self.get(id) {
            Some(Entry::Message((_, message))) => Some(message),
            _ => None,
        }
    }
}
