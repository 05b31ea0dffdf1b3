//! The syntax of Fluent: the tree of a source, its reader and its writer, each a crate of its own.
//!
//! [`ast`] has the tree over any text type, [`parser`] reads a source into it, [`serializer`]
//! writes it back, and [`unicode`] resolves the escapes of string literals. Contracts speak of a
//! tree through its plain tree, the data of the crate `fluent_grammar`. Offsets and lengths are in
//! bytes throughout.
#![tactic(auto)]

pub mod laws;

pub use fluent_ast as ast;
pub use fluent_parser as parser;
pub use fluent_serializer as serializer;
pub use fluent_tokens::unicode;
