//! A function of the program's own.

ghost use Rattle.std.specs.Prelude.{◌≡◌, if◌then◌else◌, ◌==◌, codes};
ghost use Rattle.examples.specs.Days.{is_open};

use super::day::Day;
use fluent_bundle::{FluentArgs, FluentFunction, FluentValue};
use std::alloc::{AllocError, Global};
use std::borrow::CowStr;

/// `IS_OPEN($day)`: `no` on Sundays, and otherwise `yes`.
#[derive(Clone, Copy, Debug, PartialEq, Eq)]
pub struct IsOpen;

impl FluentFunction<Day> for IsOpen {
    ghost gives = { λ _ values _. is_open values };

    fn call<'a, 'n>(
        &self,
        _alloc: Global,
        positional: &[FluentValue<'a, Day>],
        _named: &FluentArgs<'n, Day>,
    ) -> Result<FluentValue<'a, Day>, AllocError> {
        let Some(FluentValue::Custom(day)) = positional.first() else {
            return Ok(FluentValue::Error);
        };
        Ok(FluentValue::String(CowStr::Borrowed(answer(*day))))
    }
}

/// What there is to say of a day.
fn answer(day: Day) -> &'static str
    ensures { result.now ≡ (if day.0 == 7 then codes "no" else codes "yes") }
{
    if day.0 == 7 { "no" } else { "yes" }
}
