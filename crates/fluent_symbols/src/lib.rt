//! The symbols of a source, where each message, term, attribute, variable and function is defined
//! or referred to; and the nodes of its tree, each at its place.
//!
//! [`occurrence_lines`] is what an editor asks for: a line of JSON for each occurrence, in the
//! order of their offsets. It goes through the tree and the source together, as the findings of
//! `lint` do, so it takes linear time. Junk has no occurrences. `specs/Occurrences.antt` says which
//! occurrences a pattern has, `Entries.antt` and `Sources.antt` which an entry and a source have,
//! and `Lines.antt` how they are written.
//!
//! [`node_lines`] is what a program makes a tree of: a line for each node with its place. In
//! `specs/`, `PatternNodes.antt` and `EntryNodes.antt` say which nodes a source has and where, and
//! `NodeLines.antt` how they are written.
#![tactic(auto)]

mod entries;
mod entry_nodes;
pub mod laws;
mod lines;
mod listing;
mod names;
mod node;
mod occurrence;
mod pattern_nodes;
mod places;
mod source;
mod walk;

pub use source::{node_lines, occurrence_lines};
