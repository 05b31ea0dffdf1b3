//! What resolving takes of the machine's stack, in bytes: the functions of the resolver that are
//! entered for each.
//!
//! Calls that are values and values that are texts are counted. All other ways in which the
//! resolver calls itself go through a placeable of a pattern, and an answer opens at most 100 of
//! these: an expression, once more without its braces (816 each), a call and its arguments (576 and
//! 480) or a select (784), and the pattern in it (352 and 192). So they take less than 350 KB
//! together, beside the budget.
#![tactic(auto)]

/// A call that is a value: the value (1,264), the call (576), and its positional or named arguments
/// (480).
pub const CALL: usize = 2_400;

/// A value that is the text of an expression: the value (1,264), the expression, once more without
/// its braces (816 each), and a select (784), or a call and its arguments (576 and 480).
pub const TEXT: usize = 4_000;
