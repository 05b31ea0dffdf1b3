//! Asking a bundle for its messages, terms and functions. No call allocates.

ghost use Rattle.std.specs.Prelude.{◌≡◌, is_some, option_map};
ghost use Rattle.fluent_bundle.specs.BundleView.{bundle_of};
ghost use Rattle.fluent_ids.specs.Found.{message_in};
ghost use Rattle.fluent_meaning.specs.Ids.{find};
ghost use Rattle.fluent_ids.specs.MessageView.{message_of};

use super::FluentBundle;
use fluent_ast::{Message, Term};
use fluent_ids::{FluentMessage, FunctionRef, GetEntry};
use fluent_value::{FluentFunction, FluentType, MemoizerKind, ValueFormatter};

impl<'r, 's, M, C, F, G, T> GetEntry<'s, F> for FluentBundle<'r, 's, M, C, F, G, T>
where
    M: MemoizerKind,
    C: FluentType,
    F: FluentFunction<C>,
    G: ValueFormatter<C, M>,
{
    ghost ids = { λ bundle. (bundle_of bundle).ids };

    fn get_entry_message(&self, id: &str) -> Option<&Message<&'s str>> {
        self.ids.get_entry_message(id)
    }

    fn get_entry_term(&self, id: &str) -> Option<&Term<&'s str>> {
        self.ids.get_entry_term(id)
    }

    fn get_entry_function(&self, id: &str) -> Option<FunctionRef<'_, F>> {
        self.ids.get_entry_function(id)
    }
}

impl<'r, 's, M, C, F, G, T> FluentBundle<'r, 's, M, C, F, G, T>
where
    M: MemoizerKind,
    C: FluentType,
    F: FluentFunction<C>,
    G: ValueFormatter<C, M>,
{
    /// Whether an id stands for a message.
    pub fn has_message(&self, id: &str) -> bool
        ensures { result ≡ is_some (message_in (find (bundle_of self.now).ids id.now)) }
    {
        self.ids.has_message(id)
    }

    /// The message of an id.
    ///
    /// ```
    /// let message = bundle.get_message("intro").context("no such message")?;
    /// let pattern = message.value().context("the message has no value")?;
    /// ```
    pub fn get_message(&self, id: &str) -> Option<FluentMessage<'r, 's>>
        ensures { option_map message_of result ≡ message_in (find (bundle_of self.now).ids id.now) }
    {
        self.ids.get_message(id)
    }
}
