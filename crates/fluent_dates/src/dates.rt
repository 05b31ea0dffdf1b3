//! The text of a date in a locale.
ghost use Rattle.std.specs.Prelude.{◌≡◌};
ghost use Rattle.fluent_dates.specs.Lookup.{locale_for, row_of};
ghost use Rattle.fluent_dates.specs.Writing.{date_text};
ghost use Rattle.fluent_dates.specs.Written.{Adds, IsText};

use crate::names::locale_for;
use crate::patterns::{date_pattern, pattern_of};
use crate::streaming::push_pattern;
use crate::writing::push_written;
use fluent_date::FluentDateTime;
use fluent_date_tables::Row;
use std::alloc::{AllocError, Global};

/// How a locale writes dates and times.
///
/// ```no_run
/// let dates = LocaleDates::for_tag("de").context("unknown locale")?;
/// let text = dates.text_of(alloc, &value)?; // 28. November 2026
/// ```
#[derive(Clone, Copy)]
pub struct LocaleDates {
    row: &'static Row,
}

impl LocaleDates {
    /// How the locale of a tag writes dates, such as `de`, `pt-PT` or `pt_PT.UTF-8`; `None` if CLDR
    /// doesn't know its language.
    pub fn for_tag(tag: &str) -> Option<Self>
        ensures { row_of result ≡ locale_for tag.now }
    {
        Self::for_tag_bytes(tag.as_bytes())
    }

    /// How the locale of a tag writes dates, for the bytes of the tag, which may be no UTF-8 after
    /// the part that counts.
    pub fn for_tag_bytes(tag: &[u8]) -> Option<Self>
        ensures { row_of result ≡ locale_for tag.now }
    {
        match locale_for(tag) {
            Some(row) => Some(LocaleDates { row }),
            None => None,
        }
    }

    /// The text of a date and time, by its options.
    ///
    /// # Errors
    /// [`AllocError`] if memory runs out; nothing is kept.
    pub fn text_of(&self, alloc: Global, value: &FluentDateTime) -> Result<String, AllocError>
        ensures { IsText result (date_text self.now.row.now value.now) }
    {
        let mut text = String::with_capacity(alloc, 48)?;
        self.push_text(alloc, &mut text, value)?;
        Ok(text)
    }

    /// Writes the text of a date and time after a text, as [`text_of`](LocaleDates::text_of) makes
    /// it.
    ///
    /// # Errors
    /// [`AllocError`] if memory runs out; `text` may hold a part of it then.
    #[tactic(auto, using(crate::proofs::Streamed::pattern_written))]
    pub fn push_text(
        &self,
        alloc: Global,
        text: &mut String,
        value: &FluentDateTime,
    ) -> Result<(), AllocError>
        ensures { Adds result text.old text.new (date_text self.now.row.now value.now) }
    {
        if let Some(pattern) = date_pattern(self.row, value) {
            return push_pattern(alloc, text, self.row, pattern, value);
        }
        let items = pattern_of(alloc, self.row, value)?;
        push_written(text, self.row, &items, value)
    }
}
