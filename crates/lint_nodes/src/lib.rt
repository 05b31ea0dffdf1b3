//! The nodes of a pattern, which its findings are about, where they stand in its source, and what
//! the references of a catalog reach.
//!
//! [`pattern_nodes`] lists the references, literals and selects of a pattern, and the keys that a
//! select has twice, in the order in which they are written. [`pattern_occurrences`] goes through
//! the tree of a pattern and its source together: the tree says which part is next, and the source
//! where it ends. So each byte is looked at once, and nothing is read again. [`declared_id`],
//! [`name_of`] and [`key_text`] are the names in a tree.
//!
//! [`EnteredPatterns`] lists the patterns that references enter, each once, with their [`Indices`].
//! The indices are the nodes of a graph, with an edge for each reference, and the patterns that
//! lead into a circle of it ([`lead_into_circles`]) are those whose references never end.
//! [`EndlessPatterns`] marks them, in linear time, and looks references up. [`variables_of`] lists
//! the variables of a message and of all messages that it refers to, at any remove.
//!
//! In `lint_findings`, `Nodes.antt` and `Occurrences.antt` say which nodes and occurrences a
//! pattern has, `Endless.antt` which references never end, and `Comparison.antt` which variables
//! these are.
#![tactic(auto)]

mod circles;
mod endless;
mod entered;
mod graph;
mod indices;
mod keys;
mod name_set;
mod names;
mod nodes;
mod occurrence;
mod reached;
mod states;
pub mod texts;
mod variables;
mod walk;
pub mod words;

pub use circles::lead_into_circles;
pub use endless::EndlessPatterns;
pub use entered::{EnteredPattern, EnteredPatterns};
pub use indices::Indices;
pub use keys::Keys;
pub use name_set::Names;
pub use names::{declared_id, key_text, name_of};
pub use nodes::{Node, pattern_nodes};
pub use occurrence::{Found, Occurrence, empty_pattern_rest, pattern_occurrences};
pub use variables::{variables_of, variables_of_message};
pub use words::skip;
