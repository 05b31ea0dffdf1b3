//! Dates as values of a program's own.

ghost use Rattle.std.proofs.Common.{refl};
ghost use Rattle.fluent_date.specs.Iso.{iso_text};
ghost use Rattle.fluent_date.proofs.Equal.{values_decide};
ghost use Rattle.fluent_dates.specs.Equivalent.{decided};

use fluent_date::FluentDateTime;
use fluent_value::FluentType;
use std::alloc::{AllocError, Global};
use std::borrow::CowStr;

/// A date and time as a value of a program's own. Its own text is that of ISO 8601; a
/// [`LocaleFormatter`](crate::LocaleFormatter) shows it as a locale writes dates.
///
/// ```no_run
/// let date: FluentDateTime = "2026-11-28T20:26:05+01:00".parse()?;
/// args.set("date", FluentValue::Custom(DateTimeValue(date)))?;
/// ```
#[derive(Clone, Copy, Debug, PartialEq, Eq)]
pub struct DateTimeValue(pub FluentDateTime);

impl FluentType for DateTimeValue {
    type Meaning = FluentDateTime;

    ghost meaning = { λ value. value.0 };

    ghost text = { iso_text };

    ghost same = { ⟦<FluentDateTime as PartialEq>⟧.eq };

    ghost laws = { decided _ (λ x y. values_decide _ (record {
      numbers = λ a b. refl;
      texts = λ a b. refl;
      number_text = λ a b. refl;
      text_number = λ a b. refl;
    }) x y) };

    fn duplicate(&self, _alloc: Global) -> Result<Self, AllocError> {
        Ok(*self)
    }

    fn equals(&self, other: &Self) -> bool {
        self.0 == other.0
    }

    fn as_string(&self, alloc: Global) -> Result<CowStr<'static>, AllocError> {
        Ok(CowStr::Owned(self.0.as_iso_string(alloc)?))
    }
}
