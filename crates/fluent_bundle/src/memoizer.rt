//! Plural sources. The module and [`MemoizerKind`] have the names of the Rust crate; nothing is
//! cached.

pub use fluent_value::MemoizerKind;
