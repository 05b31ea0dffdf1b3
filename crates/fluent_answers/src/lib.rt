//! What a catalog answers: from the bytes of sources and of request lines to the bytes of the
//! answers. Definitions and laws over plain data; no code runs here.
//!
//! `specs/Answers.antt` joins what the crates below define: `fluent_grammar` says which messages
//! and terms a source has, `fluent_meaning` what an id stands for and what a pattern gives, and
//! `fluent_serve` what a line asks for and what its frame is.
//!
//! - Two lists of sources with the same messages and terms, one source after the other, have the
//!   same answers (`laws::lists_decide`).
//! - So tidying changes no shown text: a source may be replaced by its cut text or by its normal
//!   text, and neighbours by their joined text, as often as one likes
//!   (`laws::tidied_sources_keep_answers`).
//! - A joined text has the notices of its sources (`laws::joined_sources_keep_notices`).
//! - How many patterns a request enters is bounded by the bytes of the longest source
//!   (`laws::references_fit`).
#![tactic(auto)]

pub mod laws;
