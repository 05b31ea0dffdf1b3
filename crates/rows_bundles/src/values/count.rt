//! The values of these rows.

ghost use Rattle.std.specs.Prelude.{ℕ, ◌==◌, codes};
ghost use Rattle.std.proofs.Common.{rules};

use fluent_value::{FluentType, FluentValue};
use std::alloc::{AllocError, Global};
use std::borrow::CowStr;

/// A value of a program with counts of its own.
pub type Value<'r> = FluentValue<'r, Count>;

/// A value of a program's own type, whose text is `c`.
#[derive(Clone, Copy, Debug, PartialEq, Eq)]
pub struct Count(pub u32);

impl FluentType for Count {
    type Meaning = u32;

    ghost meaning = { λ count. count.0 };

    ghost text = { λ _. codes "c" };

    ghost same = { λ a b. a == b };

    ghost laws = { Prim.search rules };

    fn duplicate(&self, _alloc: Global) -> Result<Self, AllocError> {
        Ok(*self)
    }

    fn equals(&self, other: &Self) -> bool {
        self.0 == other.0
    }

    fn as_string(&self, _alloc: Global) -> Result<CowStr<'static>, AllocError> {
        Ok(CowStr::Borrowed("c"))
    }
}
