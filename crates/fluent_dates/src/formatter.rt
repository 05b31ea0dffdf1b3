//! What shows dates and numbers as a locale writes them.

ghost use Rattle.std.specs.Prelude.{◌≡◌, option_map};
ghost use Rattle.fluent_dates.specs.Shown.{shown_by};
ghost use Rattle.fluent_dates.specs.Lookup.{locale_for as dates_for, row_of};
ghost use Rattle.fluent_numerals.specs.Lookup.{locale_for as numerals_for};
ghost use Rattle.fluent_numerals.specs.Views.{locale_view};

use crate::LocaleDates;
use crate::value::DateTimeValue;
use fluent_numerals::LocaleNumerals;
use fluent_value::{FluentValue, ValueFormatter};
use std::alloc::{AllocError, Global};

/// Shows dates and numbers as a locale writes them, and leaves all other values to the rules of
/// Fluent. Without dates a date is shown as ISO 8601 has it, and without numerals a number plainly.
///
/// ```no_run
/// let formatter = LocaleFormatter::for_tag("de");
/// ```
#[derive(Clone, Copy)]
pub struct LocaleFormatter {
    /// How numbers are written.
    pub numerals: Option<LocaleNumerals>,
    /// How dates are written.
    pub dates: Option<LocaleDates>,
}

impl LocaleFormatter {
    /// What shows dates and numbers as the locale of a tag does; plainly, if CLDR doesn't know its
    /// language.
    pub fn for_tag(tag: &str) -> Self
        ensures numerals { option_map locale_view result.numerals ≡ numerals_for tag.now }
        ensures dates { row_of result.dates ≡ dates_for tag.now }
    {
        LocaleFormatter {
            numerals: LocaleNumerals::for_tag(tag),
            dates: LocaleDates::for_tag(tag),
        }
    }
}

impl<M> ValueFormatter<DateTimeValue, M> for LocaleFormatter {
    ghost formats = { λ formatter _ value. shown_by formatter value };

    fn format(
        &self,
        alloc: Global,
        value: &FluentValue<'_, DateTimeValue>,
        plurals: &M,
    ) -> Result<Option<String>, AllocError> {
        if let FluentValue::Custom(date) = value {
            return match &self.dates {
                Some(dates) => Ok(Some(dates.text_of(alloc, &date.0)?)),
                None => Ok(None),
            };
        }
        match &self.numerals {
            Some(numerals) => numerals.format(alloc, value, plurals),
            None => Ok(None),
        }
    }
}
