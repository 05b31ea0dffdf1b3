//! The findings of the files of a catalog, one file after the other.
//!
//! [`file_findings`] lists those of a file, in the order of its tiles: of junk its syntax finding,
//! and of a message or a term whether its id is taken, what is wrong with it, and, if there is a
//! reference, how it differs from that. [`syntax_findings`] makes one of each stretch of a source
//! that isn't an entry: where it is, whose it is, what is wrong, and what may be the cause. A byte
//! order mark at the front has its own. `Findings.antt` of `lint_findings` says which findings
//! these are, and `docs/reference/lint.md` shows some.
#![tactic(auto)]

mod cursor;
mod entry;
mod findings;
mod front;
mod hints;
mod mark;
mod names;
mod rules;
mod words;

pub use cursor::file_findings;
pub use findings::syntax_findings;
pub use rules::Rules;
