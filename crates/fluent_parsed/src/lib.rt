//! What reading a source gives: its tree or its errors, and how they are collected part by part.
//!
//! [`ParserError`] is one error of a source, with its place. [`Error`] is what stands in the place
//! of a tree that has errors, and [`Collected`] is what a reader has put together so far. The
//! reader itself is `fluent_parser`, above this crate.
//!
//! [`IndentedElements`] takes the elements of a pattern one by one, each text at the start of a
//! line with its indent, and gives the pattern once the common indent is known.
//! [`DedentedElements`] takes them without it, if it is known beforehand.
#![tactic(auto)]

pub mod collected;
mod dedent;
mod dedented;
pub mod error;
pub mod errors;
mod gathered;
mod kept;
pub mod laws;
mod room;

pub use collected::Collected;
pub use dedented::DedentedElements;
pub use error::{Error, Result};
pub use errors::{ErrorKind, ParserError};
pub use gathered::IndentedElements;
pub use kept::is_blank_text;
pub use room::push_tight;
