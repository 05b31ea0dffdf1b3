//! What is found of a catalog by its reference, the catalog that it translates.
//!
//! [`Reference`] compares the messages of the catalog with those of the reference: how each differs
//! from that with the same id, with the place of each difference, and an unknown variable with the
//! known one that may be meant; what it loses: a variable in one variant, plural variants, and
//! terms; and what `lint_texts` says of its texts, each at its place. [`missing_findings`] lists
//! the messages of the reference that the catalog hasn't, and [`called_functions`] the functions
//! that the reference calls: these are known. [`referred_terms`] lists the terms that a catalog
//! refers to. `Findings.antt`, `ComparisonFindings.antt`, `Losses.antt` and `Pairs.antt` of
//! `lint_findings` say which findings they are and how they go together; `docs/reference/lint.md`
//! has the rules in plain words.
//!
//! The variables of a message are its own and those of all messages that it refers to, at any
//! remove: `lint_nodes` lists them. Only a message of which something is found is gone through
//! for places.
#![tactic(auto)]

mod always;
mod attributes;
mod compared;
mod counted;
mod dropped;
mod findings;
mod first_places;
mod hints;
mod lack;
mod lacking;
mod loss;
mod losses;
mod missing;
mod places;
mod reference;
mod referred;
mod same;
mod shown;
mod texts;
mod words;
mod written;

pub use findings::missing_finding;
pub use losses::has_quoted;
pub use missing::missing_findings;
pub use reference::Reference;
pub use referred::{called_functions, referred_terms};
pub use same::is_same_message;
