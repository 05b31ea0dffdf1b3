//! What a bundle is asked, and what it answers.

use crate::given::Given;
use fluent_dates::DateTimeValue;
use fluent_run::Reply;
use fluent_value::FluentArgs;
use std::cell::Cell;

/// What a bundle is asked.
#[derive(Drop)]
pub enum Question<'a> {
    /// What a message gives for these arguments: its value, or its first attribute of a name. The
    /// text is written into the memory of `spare`, which is taken.
    Format {
        id: &'a str,
        attribute: Option<&'a str>,
        arguments: FluentArgs<'a, DateTimeValue>,
        spare: Cell<String>,
    },
    /// The same for a message that may call the program's functions, with answers to calls by the
    /// calls' texts.
    Call {
        id: &'a str,
        attribute: Option<&'a str>,
        arguments: FluentArgs<'a, DateTimeValue>,
        answers: FluentArgs<'a, DateTimeValue>,
        spare: Cell<String>,
    },
    /// Which calls without an answer a message meets whatever any of them gives, with answers to
    /// calls by the calls' texts.
    Calls {
        id: &'a str,
        attribute: Option<&'a str>,
        arguments: FluentArgs<'a, DateTimeValue>,
        answers: FluentArgs<'a, DateTimeValue>,
    },
    /// Whether a message has a value, or an attribute of a name.
    Has {
        id: &'a str,
        attribute: Option<&'a str>,
    },
    /// The same, and at which place [`Question::Write`] finds the message from then on. If memory
    /// runs out, it is the place of none.
    Find {
        id: &'a str,
        attribute: Option<&'a str>,
        place: &'a Cell<usize>,
    },
    /// What a message gives for these arguments, without answers to calls of functions. It is found
    /// at its place, and by its id if another message or none is there.
    Write {
        place: usize,
        id: &'a str,
        attribute: Option<&'a str>,
        arguments: Given<'a>,
    },
    /// The ids of the messages.
    Messages,
    /// The names of a message's attributes.
    Attributes {
        id: &'a str,
    },
    /// The variables that a message is shown with.
    Variables {
        id: &'a str,
    },
    /// What a check of the sources reports.
    Report,
}

/// What a bundle answers.
#[derive(Drop)]
pub enum Answer {
    /// Memory ran out.
    Memory,
    /// There is no message of the id.
    NoMessage,
    /// The message has no value, or no attribute of the name.
    NoPattern,
    /// There is what was asked for.
    Found,
    /// What the message gives.
    Reply(Reply),
    /// The first call that has no answer.
    Call(String),
    /// A line for each id, in the order of the first entries; for each name of an attribute, in the
    /// order of the message; or for each variable or call, in the order in which they are met.
    Names(String),
    /// A line for each error and for each entry whose id was there before it.
    Report(String),
}
