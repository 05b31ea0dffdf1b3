//! Patterns of messages that are looked up once.

ghost use Rattle.std.specs.Prelude.{◌≡◌, option_copied};
ghost use Rattle.fluent_ids.specs.Found.{lent_message, message_in};
ghost use Rattle.fluent_meaning.specs.Ids.{find};
ghost use Rattle.fluent_run.specs.DeskView.{elements_found, plain_ids};
ghost use Rattle.fluent_kept.specs.Catalogs.{ForIts, catalog_environment, plain_environment};
ghost use Rattle.fluent_kept.specs.Found.{message_told, pattern_of};
ghost use Rattle.fluent_kept.specs.Writing.{Finds, IsGivenBy, IsWrittenOf, KeepsFound};

use crate::desk::{Desks, KeptDesk, called};
use crate::given::Given;
use crate::question::Answer;
use fluent_ast::{Message, Pattern};
use fluent_calls::{FunctionDesk, Unanswered};
use fluent_ids::laws::attributes_agree;
use fluent_ids::{Entry, FluentIds, FluentMessage};
use fluent_plurals::LanguagePlurals;
use fluent_value::FluentArgs;
use std::alloc::Global;
use std::cell::Cell;

/// The place of no message.
const NOWHERE: usize = usize::MAX;

impl<'r, 's> KeptDesk<'r, 's> {
    /// The message of an id, by its id.
    fn named(&self, id: &str) -> Option<&'r Message<&'s str>>
        ensures { ForIts self.now (λ catalog. lent_message result
            ≡ message_in ((catalog_environment catalog).find id.now)) }
    {
        match &self.desks {
            Desks::Plain(made) => message_named(made.desk.ids(), id),
            Desks::Calling(made, _) => message_named(made.desk.ids(), id),
        }
    }

    /// The message of an id, at its place if it is there, and else by its id.
    fn message(&self, place: usize, id: &str) -> Option<&'r Message<&'s str>>
        ensures { ForIts self.now (λ catalog. lent_message result
            ≡ message_in ((catalog_environment catalog).find id.now)) }
    {
        match self.found.at(place, id) {
            Some(message) => Some(message),
            None => self.named(id),
        }
    }

    /// The place of the message of an id from then on; if memory runs out, that of no message.
    fn place_of(&mut self, message: &'r Message<&'s str>, id: &str) -> usize
        ensures { KeepsFound self.old self.new id.now message.entry }
    {
        // No contract says that a message is found by its own id alone.
        if message.id.name != id {
            return NOWHERE;
        }
        self.found.keep(message).unwrap_or(NOWHERE)
    }

    /// Whether a message has a value, or an attribute of a name, and its place from then on.
    pub(crate) fn find(&mut self, id: &str, attribute: Option<&str>, place: &Cell<usize>) -> Answer
        ensures { Finds self.old self.new id.now attribute.entry result }
    {
        let Some(message) = self.named(id) else {
            return Answer::NoMessage;
        };
        if pattern_in(message, attribute).is_none() {
            return Answer::NoPattern;
        }
        place.set(self.place_of(message, id));
        Answer::Found
    }

    /// What a message gives for these arguments, without answers to calls of functions.
    ///
    /// Where messages call functions, the message is looked up by its id.
    pub(crate) fn write(
        &self,
        alloc: Global,
        place: usize,
        id: &str,
        attribute: Option<&str>,
        arguments: &Given<'_>,
    ) -> Answer
        ensures { IsWrittenOf self.now id.now attribute.entry arguments.now result }
    {
        match &self.desks {
            Desks::Plain(desk) => match self.message(place, id) {
                Some(message) => replied(desk, alloc, message, attribute, arguments),
                None => Answer::NoMessage,
            },
            Desks::Calling(made, _) => {
                let answers = FluentArgs::new(alloc);
                let text = String::new(alloc);
                called(made, alloc, id, attribute, arguments, &answers, text)
            }
        }
    }
}

/// The message of an id, lent as long as its resource is.
fn message_named<'r, 's, F>(ids: &FluentIds<'r, 's, F>, id: &str) -> Option<&'r Message<&'s str>>
    ensures { lent_message result ≡ message_in (find (plain_ids ids.now) id.now) }
{
    match ids.get(id) {
        Some(Entry::Message((_, message))) => Some(*message),
        _ => None,
    }
}

/// The pattern of a message's value, or of its first attribute of a name.
fn pattern_in<'r, 's>(
    message: &'r Message<&'s str>,
    attribute: Option<&str>,
) -> Option<&'r Pattern<&'s str>>
    ensures { elements_found result
        ≡ pattern_of (option_copied attribute.entry) (message_told message.entry) }
{
    attributes_agree();
    match attribute {
        None => message.value.as_ref(),
        Some(name) => {
            let named = FluentMessage::from(message).get_attribute(name)?;
            Some(named.value())
        }
    }
}

/// What a message of a desk gives for these arguments.
fn replied<'r, 's>(
    made: &FunctionDesk<'s, 'r, 's, LanguagePlurals>,
    alloc: Global,
    message: &'r Message<&'s str>,
    attribute: Option<&str>,
    arguments: &Given<'_>,
) -> Answer
    ensures { IsGivenBy (plain_environment made.now) (message_told message.entry) attribute.entry
        arguments.now result }
{
    let Some(pattern) = pattern_in(message, attribute) else {
        return Answer::NoPattern;
    };
    match made.write::<Unanswered, Given<'_>>(alloc, pattern, arguments, String::new(alloc)) {
        Ok(reply) => Answer::Reply(reply),
        Err(_) => Answer::Memory,
    }
}
