#![tactic(auto)]

//! What goes wrong while Fluent messages are put into a bundle and resolved, as values that a
//! program can look at.
//!
//! A [`FluentError`] is what a bundle reports, a [`ResolverError`] what resolving a pattern reports
//! next to its text, and a [`ReferenceKind`] says what could not be found. The text of each is the
//! one of `docs/reference/errors.md`.

mod bundle;
mod entry;
pub mod laws;
mod reference;
mod resolver;

pub use bundle::FluentError;
pub use entry::EntryKind;
pub use reference::ReferenceKind;
pub use resolver::ResolverError;
