#![tactic(auto)]

//! Tidying Fluent sources, which changes no text that they show.
//!
//! A translation file gets damaged, is put together from others, or has been written by another
//! tool. These calls give it back in order: with the messages and terms that it had, or not at all.
//!
//! | Call | Gives |
//! |---|---|
//! | [`clean`] | the source without its junk |
//! | [`join`] | several sources as one, each cleaned |
//! | [`normalize`] | the source as the serializer writes it, if that is read back as the same tree |
//! | [`tidy`] | the source as a formatter writes it, with its blank lines one at a time, if it has no junk |
//! | [`export`] | the JSON tree of the cleaned source |
//! | [`import`] | the text of a JSON tree, if that is read back as the same tree |
//!
//! They refuse sources with a carriage return, since written text ends its lines in a line feed
//! alone. No call changes what it is passed. [`laws`] says what stays when sources are tidied, over
//! plain data.

mod apart;
mod cleaning;
mod cutting;
mod error;
mod joining;
pub mod laws;
mod normalizing;
mod plain;
mod reading;
mod returns;
mod shapes;
mod tidy_error;
mod tidying;
mod trees;

pub use cleaning::clean;
pub use error::{CleanError, ImportError, NormalizeError};
pub use joining::join;
pub use normalizing::normalize;
pub use plain::{with_line_feeds, without_mark};
pub use tidy_error::TidyError;
pub use tidying::{tidy, tidy_within};
pub use trees::{export, import};
