//! Escapes of string literals, and what texts are written to.
#![tactic(auto)]

pub use crate::unescape::{unescape_unicode, unescape_unicode_to_string};
pub use fluent_text::TextWrite;
