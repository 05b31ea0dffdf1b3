//! The functions that every bundle may have.

pub use fluent_value::builtins::NUMBER;
