//! The texts of Fluent: those that a tree is made of, and those that a call writes; and a bound on
//! the machine's stack.
//!
//! A [`Slice`] is a text of a source; its bytes are what contracts see. A [`TextWrite`] takes a
//! text piece by piece, and contracts see what it holds. A [`WriteError`] says why a text could not
//! be written whole. A [`stack::Stack`] counts how much of the machine's stack nested expressions
//! take.
#![tactic(auto)]

mod error;
mod slice;
pub mod stack;
mod write;

pub use error::WriteError;
pub use slice::{Slice, Slices, Texts};
pub use write::TextWrite;
