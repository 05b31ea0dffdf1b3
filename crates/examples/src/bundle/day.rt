//! A type of values of the program's own: days.

ghost use Rattle.std.specs.Prelude.{◌≡◌, ◌==◌};
ghost use Rattle.std.proofs.Common.{rules};
ghost use Rattle.examples.specs.Days.{name_of};

use fluent_bundle::types::FluentType;
use std::alloc::{AllocError, Global};
use std::borrow::CowStr;

/// A day of the week, by its number: Monday is 1, and Sunday 7.
#[derive(Clone, Copy, Debug, PartialEq, Eq)]
pub struct Day(pub u8);

impl FluentType for Day {
    type Meaning = u8;

    ghost meaning = { λ day. day.0 };

    ghost text = { name_of };

    ghost same = { λ a b. a == b };

    ghost laws = { Prim.search rules };

    fn duplicate(&self, _alloc: Global) -> Result<Self, AllocError> {
        Ok(*self)
    }

    fn equals(&self, other: &Self) -> bool {
        self.0 == other.0
    }

    fn as_string(&self, _alloc: Global) -> Result<CowStr<'static>, AllocError> {
        Ok(CowStr::Borrowed(name(self.0)))
    }
}

/// The name of a day.
fn name(number: u8) -> &'static str
    ensures { result.now ≡ name_of number }
{
    if number == 7 {
        "Sunday"
    } else if number == 6 {
        "Saturday"
    } else {
        "a weekday"
    }
}
