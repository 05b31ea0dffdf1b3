//! The entries of a source, each where it is, and the findings of an entry by itself, in a catalog.
//!
//! [`source_tiles`] goes through a source and its tree together, and lists the messages, the terms
//! and the junk of the source: the tree says what is next, and the source where that ends.
//! [`entry_findings`] lists what is wrong with a message or a term: its attributes, and each of the
//! references, selects and strings of its patterns, in the order in which they are written, with
//! its place. [`Declarations`] has the first entry of each id, with its [`Location`], and looks an
//! id up once for each entry. So a catalog takes linear time. [`ReferredTerms`] knows the terms
//! that a catalog refers to, and so those that it doesn't.
//!
//! A [`Catalog`] is what is known of the catalog. The entry is one of a tree, and the text is the
//! source from the entry on: how much of the source is left at a finding says where it is. [`text`]
//! has the rests after the tokens of an entry, for crates that go through one. `Tiles.antt` and
//! `EntryFindings.antt` of `lint_findings` say which tiles and findings there are, and
//! `docs/reference/lint.md` has the rules in plain words.
#![tactic(auto)]

mod catalog;
mod declarations;
mod duplicate;
mod endless;
mod entries;
mod entry;
mod entry_parts;
mod finding;
mod label;
mod location;
mod names;
mod nodes;
mod pattern;
mod rest;
mod start;
mod terms;
pub mod text;
mod tile;
mod walk;

pub use catalog::Catalog;
pub use declarations::Declarations;
pub use entry::entry_findings;
pub use finding::push_found;
pub use location::Location;
pub use terms::ReferredTerms;
pub use tile::{Tile, entry_count, message_count, source_tiles};
