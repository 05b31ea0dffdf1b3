#![tactic(auto)]

//! Answers from Fluent sources, checks them and tidies them. Tidying changes no text that
//! they show.
//!
//! A translation file gets damaged, is put together from others, or has been written by another
//! tool. The calls that tidy give it back in order: with the messages and terms that it had, or not
//! at all.
//!
//! | Call | Gives |
//! |---|---|
//! | [`run`] | the answers to a stream of request lines |
//! | [`answers`] | the same, for request lines in memory |
//! | [`check`] | the syntax errors of sources, and the duplicate ids |
//! | [`clean`] | the source without its junk |
//! | [`join`] | several sources as one, each cleaned |
//! | [`normalize`] | the source as the serializer writes it, if that is read back as the same tree |
//! | [`export`] | the JSON tree of the cleaned source |
//! | [`import`] | the text of a JSON tree, if that is read back as the same tree |
//!
//! ```
//! let cleaned = clean(alloc, SOURCE)?; // key1 = Value 1, an empty line, key2={ $x }
//! let normal = normalize(alloc, &cleaned)?; // key1 = Value 1, key2 = { $x }
//! ```
//!
//! The calls that tidy refuse sources with a carriage return, since written text ends its lines in
//! a line feed alone. No call changes what is passed to it. [`laws`] says what stays when sources
//! are tidied, over plain data.
//!
//! The calls stand in three crates: `fluent_run` answers, `fluent_check` checks, and `fluent_tidy`
//! tidies.

pub use fluent_check::{Report, check};
pub use fluent_run::{
    FromRead, FromWrite, RunError, Settings, Sink, Source, StackBudget, answers, run,
};
pub use fluent_tidy::{
    CleanError, ImportError, NormalizeError, clean, export, import, join, laws, normalize,
};
