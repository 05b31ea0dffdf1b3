//! The function that a call in a message calls.

/// A function among the ids of messages, but for `NUMBER`.
#[derive(Clone, Copy, Debug)]
pub enum Callee {
    /// A function of the program, by its index among their names.
    Program(usize),
    /// `DATETIME`.
    DateTime,
}
