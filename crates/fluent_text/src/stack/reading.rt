//! What reading takes of the machine's stack, in bytes: the sum of the parser's functions that one
//! level enters, for texts that are `String`s. For `&str` each takes less.
#![tactic(auto)]

/// A placeable, in an expression (992) or in a pattern (1,088).
pub const PLACEABLE: usize = 1_100;

/// The arguments of a call: an expression (992), its reference (288) and the arguments (1,344).
pub const CALL: usize = 2_900;

/// The variants of a select (384), and a pattern in one of them (416).
pub const SELECT: usize = 800;
