//! A bundle that lasts: sources, what is read of them, and what answers from that, kept together by
//! pointers.
//!
//! A [`FluentBundle`] owns all of it and borrows nothing, so a program in C can keep one from call
//! to call. Its arguments come as [`FluentArgument`]s, and [`Given`] finds one by its name where
//! the program has it, so that a pattern that was looked up once is written without a copy of them.
//! [`tree`] writes the source of a tree that such a program gives as a JSON text.
#![tactic(auto)]

mod bundle;
mod desk;
mod found;
mod given;
mod handle;
mod loose;
mod patterns;
mod question;
mod resources;
mod shelf;
mod sources;
mod threads;
pub mod tree;
mod variables;

pub use bundle::Bundle;
pub use given::{FluentArgument, Given, value_of};
pub use handle::FluentBundle;
pub use loose::RawBox;
pub use question::{Answer, Question};
pub use sources::Sources;
pub use threads::bundles_are_send;

/// The kind of an argument that is a text.
pub const FLUENT_TEXT: u32 = 0;
/// The kind of an argument that is a number, written as a decimal.
pub const FLUENT_DECIMAL: u32 = 1;
/// The kind of an argument that is a signed integer.
pub const FLUENT_INTEGER: u32 = 2;
/// The kind of an argument that is an unsigned integer.
pub const FLUENT_UNSIGNED: u32 = 3;
/// The kind of an argument that has no value, as a variable that is missing; of an answer to a
/// call, that there is none.
pub const FLUENT_NO_VALUE: u32 = 4;
/// The kind of an argument that is a float: a decimal whose digits don't say how many are shown.
pub const FLUENT_FLOAT: u32 = 5;
/// The kind of an argument that is a date, with its time and the offset of its clock if it has
/// them: a text as ISO 8601 has it, such as `2026-11-28` or `2026-11-28T20:15:00+01:00`.
pub const FLUENT_DATETIME: u32 = 6;
