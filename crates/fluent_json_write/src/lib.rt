//! From a Fluent tree to its JSON value: [`to_value`]; and what both directions share.
//!
//! An [`Object`] is made key by key. [`parts`] has a function for each row of
//! `docs/reference/json.md`, which gives the values at the keys of that object. `specs/Json.antt`
//! says which object each part of a plain tree is, and `specs/Parts.antt` the same of the nodes of
//! `fluent_ast`. `proofs/` has what is shared by both directions, and by their callers.
#![tactic(auto)]

pub mod laws;
mod members;
mod object;
pub mod parts;
mod write;

pub use object::Object;
pub use write::to_value;
