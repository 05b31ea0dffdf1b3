//! Messages that were looked up once, each at a place of its own.

ghost use Rattle.std.specs.Prelude.{◌≡◌, [], IfOk, IfSome, IsSome};
ghost use Rattle.fluent_kept.specs.Found.{IsThereBy, Keeps, place_in};

use fluent_ast::Message;
use std::alloc::{AllocError, Global};
use std::collections::HashMap;

/// Messages that were looked up, in the order in which they were, and the place of each by its id.
#[derive(Drop)]
pub(crate) struct Found<'r, 's> {
    messages: Vec<&'r Message<&'s str>>,
    places: HashMap<&'s str, usize>,
}

impl<'r, 's> Found<'r, 's> {
    /// No messages. It doesn't allocate.
    pub(crate) fn new(alloc: Global) -> Self
        ensures { result.messages.items ≡ [] }
    {
        Found {
            messages: Vec::new(alloc),
            places: HashMap::new(alloc),
        }
    }

    /// The message at a place, if it has this id.
    pub(crate) fn at(&self, place: usize, id: &str) -> Option<&'r Message<&'s str>>
        ensures { IfSome result (IsThereBy self.now id.now) }
    {
        if place >= self.messages.len() {
            return None;
        }
        let message: &'r Message<&'s str> = self.messages[place];
        if message.id.name == id {
            Some(message)
        } else {
            None
        }
    }

    /// The place of a message, which is put after those that are there unless one of its id is.
    ///
    /// # Errors
    /// [`AllocError`] if memory runs out; each message that was there still is.
    pub(crate) fn keep(&mut self, message: &'r Message<&'s str>) -> Result<usize, AllocError>
        ensures kept { Keeps self.old self.new message.entry }
        ensures once { IsSome (place_in self.old message.entry) → self.new ≡ self.old }
        ensures there { IfOk result (λ place. place_in self.new message.entry ≡ Some place) }
    {
        let id = message.id.name;
        if let Some(place) = self.places.get(id) {
            return Ok(*place);
        }
        let place = self.messages.len();
        self.messages.reserve(1)?;
        if self.places.insert(id, place).is_err() {
            return Err(AllocError);
        }
        self.messages.push(message)?;
        Ok(place)
    }
}
