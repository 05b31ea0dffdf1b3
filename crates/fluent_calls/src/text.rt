//! The text of a call, with the name of its function, as a value that is nothing else.

ghost use Rattle.std.specs.Prelude.{◌≡◌, IfOk, string_bytes};
ghost use Rattle.fluent_calls.specs.Calls.{IsCallOf};

use std::alloc::{AllocError, Global};
use std::marker::Model;

/// The text of a call. Contracts don't say what a cell holds, but one of these holds no other text.
#[derive(Drop)]
pub(crate) struct CallText {
    name: String,
    text: String,
}

impl Model for CallText {
    ghost use Rattle.std.specs.Prelude.{List, ℕ, string_bytes};
    ghost use Rattle.fluent_calls.specs.Calls.{IsCallOf};

    ghost Value = { List ℕ × List ℕ };

    ghost view = { λ call. (string_bytes call.name, string_bytes call.text) };

    ghost invariant = { λ call. IsCallOf (string_bytes call.name) (string_bytes call.text) };
}

impl CallText {
    /// A text that is that of a call of a function of this name.
    ///
    /// # Errors
    /// [`AllocError`] if memory runs out; nothing is kept.
    pub(crate) fn of(alloc: Global, name: &str, text: String) -> Result<CallText, AllocError>
        requires { IsCallOf name.now (string_bytes text) }
        ensures { IfOk result (λ call. call ≡ (name.now, string_bytes text)) }
    {
        let name = String::from_str(alloc, name)?;
        Ok(CallText { name, text })
    }

    /// The name of the function.
    pub(crate) fn name(&self) -> &str
        ensures { result.now ≡ self.now.0 }
    {
        self.name.as_str()
    }

    /// The text.
    pub(crate) fn as_str(&self) -> &str
        ensures { result.now ≡ self.now.1 }
    {
        self.text.as_str()
    }

    /// The text, as a value of its own.
    pub(crate) fn into_string(self) -> String
        ensures text { string_bytes result ≡ self.1 }
        ensures call { IsCallOf self.0 (string_bytes result) }
    {
        self.text
    }
}
