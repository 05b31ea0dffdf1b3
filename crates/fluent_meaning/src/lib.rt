//! What the ids of a bundle stand for and what a pattern gives, as definitions and laws over plain
//! data: no code runs here.
//!
//! The crates above, the bundle and the resolver, state their contracts by these definitions:
//! `specs/` has the map of ids, the steps of resolving with their budget of placeables, the same
//! without a limit, and what of it is counted. `proofs/` has the lemmas that code of a resolver
//! stands on, as modules that other crates can name.
#![tactic(auto)]

pub mod laws;
