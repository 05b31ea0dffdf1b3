//! What is said of the texts of a message beside those of the message of the reference.
//!
//! [`value_doubts`] and [`attribute_doubts`] compare a text with that of the reference: its tags
//! (`markup.rt`), entities, access keys, keys and styles, and, as notes that are only made if they
//! are asked for, its addresses, placeholders of other formats, numbers, spaces, signs at its end,
//! quotes, and its length. Nothing is said of a text that is that of the reference. Each pattern is
//! read once, as its own text and those of the variants in it (`runs.rt`), in which a sign stands
//! for a placeable. A remark has the piece of the text that it is at.
//!
//! `Pairs.antt` of `lint_findings` says what is found, and `docs/reference/lint.md` has the rules
//! in plain words. No HTML and no language is known: a tag is `<`, a name and what follows it up to
//! `>`.
#![tactic(auto)]

mod addresses;
mod doubled;
mod ends;
mod lengths;
mod numbers;
mod own;
mod parts;
mod placeholders;
mod quotes;
mod spaces;
mod spotting;
mod texts;

pub use texts::{attribute_doubts, value_doubts};
