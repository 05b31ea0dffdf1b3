//! Mistakes in the nodes of a pattern, in a catalog.
//!
//! [`node_remarks`] says all that is wrong with a node: what a reference lacks, with a name that it
//! looks like ([`near_hint`]) or what else may be meant, the plural categories that a translator
//! may have forgotten, the escapes of string literals that stand for no character, as half of a
//! pair, `\uD83D`, or `\U110000`, which is too large, the named arguments that a function of the
//! library makes nothing of (`builtins.rt` has the table of what is known of such a function), and
//! in `facts.rt` what is wrong although no answer has an error. [`letter_remarks`] says what is
//! wrong with the characters of a text: which stand for lost ones, which are control characters,
//! which aren't seen, and which marks of direction end nothing, or aren't ended. [`word_remarks`]
//! says which words have letters of two scripts, and what comes of a wrong encoding.
//! `docs/reference/lint.md` has the rules in plain words.
#![tactic(auto)]

mod adding;
mod attribute_texts;
mod builtins;
mod characters;
mod common;
mod encodings;
mod escape;
mod escape_nodes;
mod facts;
mod flaw;
mod hint;
mod letters;
mod literal;
mod marks;
mod missing;
mod misuses;
mod near;
mod nodes;
mod plural_keys;
mod quoted;
mod remarks;
mod rules;
mod scripts;
mod selectors;
mod shown;
mod term_uses;
mod words;

pub use attribute_texts::{attribute_text, only_text};
pub use builtins::returns_number;
pub use common::CommonCategories;
pub use hint::near_hint;
pub use letters::letter_remarks;
pub use near::KnownNames;
pub use plural_keys::category_named;
pub use quoted::first_quoted;
pub use remarks::node_remarks;
pub use rules::{has_forms, selector_rule};
pub use selectors::counted;
pub use shown::{arguments_show, pattern_shows};
pub use term_uses::{push_attributes, push_nodes};
pub use words::word_remarks;
