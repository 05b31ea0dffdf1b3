//! The grammar of Fluent sources, as definitions and laws over plain data: no code runs here.
//!
//! `specs/` has the plain tree, the words, the lines of patterns, spelling, reading and tiling. The
//! crates above state their contracts by these definitions. `docs/reference/grammar.md` has the
//! same rules in plain words.
#![tactic(auto)]

pub mod laws;
