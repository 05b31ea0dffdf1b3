//! Arguments whose names and texts are promised to be UTF-8.

ghost use Rattle.std.specs.Prelude.{◌≡◌, All, IfErr, OnOk, is_some};
ghost use Rattle.fluent_c.specs.Arguments.{AreRefusedFor, AreTaken};
ghost use Rattle.fluent_kept.specs.Given.{HasTexts, value_given};

use crate::arguments::ArgumentRefusal;
use crate::{FLUENT_INTEGER, FLUENT_TEXT};
use fluent_kept::{FluentArgument, value_of};
use std::str::from_utf8_unchecked;

/// Whether an argument whose text is UTF-8 has a value.
fn has_value(argument: &FluentArgument<'_>) -> bool
    requires { HasTexts argument.now }
    ensures { result ≡ is_some (value_given argument.now) }
{
    if argument.kind == FLUENT_TEXT || argument.kind == FLUENT_INTEGER {
        return true;
    }
    value_of(argument, unsafe { from_utf8_unchecked(argument.text) }).is_some()
}

/// Looks whether each of these arguments, whose names and texts are UTF-8, has a value.
///
/// # Errors
/// [`ArgumentRefusal::NoValue`] if one has none.
pub(crate) fn check_values(given: &[FluentArgument<'_>]) -> Result<(), ArgumentRefusal>
    requires { All HasTexts given.now }
    ensures taken { OnOk result (AreTaken given.now) }
    ensures refused { IfErr result (AreRefusedFor given.now) }
{
    for argument in given {
        if !has_value(argument) {
            return Err(ArgumentRefusal::NoValue);
        }
    }
    Ok(())
}
