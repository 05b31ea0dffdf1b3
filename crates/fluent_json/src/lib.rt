//! The JSON value of a Fluent tree, and the tree of a JSON value.
//!
//! [`to_value`] gives the value of a tree, object by object as `docs/reference/json.md` has it.
//! [`from_value`] gives the tree that has a value, and refuses a value that no tree has. Each value
//! belongs to at most one tree ([`laws`]).
//!
//! The way to the value is `fluent_json_write`, with the one definition of the value; the way back
//! is this crate.
#![tactic(auto)]

mod error;
mod read;
mod selects;

pub use error::FromValueError;
pub use fluent_json_write::{laws, to_value};
pub use read::from_value;
