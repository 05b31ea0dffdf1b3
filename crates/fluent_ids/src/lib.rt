#![tactic(auto)]

//! The map of ids: the messages, terms and functions of a bundle share it.
//!
//! [`FluentIds`] holds what each id stands for. Its keys are slices of the sources; only functions,
//! which come from no source, have copies of theirs. Contracts speak of it through its plain map,
//! the pairs of ids and meanings of `fluent_meaning`. A [`FluentMessage`] and a [`FluentAttribute`]
//! are a message and an attribute as programs get them.

mod add;
mod attribute;
mod entry;
mod error;
mod functions;
mod ids;
pub mod laws;
mod lookup;
mod message;
mod notices;

pub use attribute::{Attributes, FluentAttribute};
pub use entry::{Entry, FunctionRef};
pub use error::{AddFunctionError, AddResourceError};
pub use ids::FluentIds;
pub use lookup::GetEntry;
pub use message::FluentMessage;
