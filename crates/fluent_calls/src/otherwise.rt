//! The values that functions return for calls that have no answer.

ghost use Rattle.std.specs.Prelude.{List, ℕ};
ghost use Rattle.fluent_calls.specs.Functions.{Functions, unknown_answer};

/// The values that functions return for calls that have no answer yet: a definition that no program
/// calls. What holds for each type of this trait holds whatever the functions return.
pub trait Otherwise {
    ghost otherwise: { Functions };
}

/// An unknown value for each call that has no answer. For a caller that can't be generic.
#[derive(Clone, Copy, Debug)]
pub struct Unanswered;

impl Otherwise for Unanswered {
    ghost otherwise = { unknown_answer };
}
