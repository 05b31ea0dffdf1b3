//! The sources that a bundle keeps, and how they are asked.

ghost use Rattle.std.specs.Prelude.{◌≡◌, IfOk, map, option_map, string_bytes};
ghost use Rattle.fluent_numerals.specs.Views.{locale_view};
ghost use Rattle.fluent_run.specs.RunView.{settings_view};
ghost use Rattle.fluent_serve.specs.Texts.{texts};
ghost use Rattle.fluent_dates.specs.Lookup.{row_of};
ghost use Rattle.fluent_kept.specs.Catalogs.{catalog_of, dates_of, numerals_of};

use fluent_dates::LocaleDates;
use fluent_numerals::LocaleNumerals;
use fluent_plurals::LanguagePlurals;
use fluent_run::Settings;
use fluent_text::stack::StackBudget;
use std::alloc::{AllocError, Global};

/// The texts of sources, in their order, and how they are read and asked.
#[derive(Drop)]
pub struct Sources {
    /// The texts of the sources.
    pub texts: Vec<String>,
    /// Whether the values of placeables stand between isolation marks.
    pub isolating: bool,
    /// Whether the last entry of an id counts, and not the first.
    pub overriding: bool,
    /// The tag of the locale whose numbers and dates are written; `None` if numbers are written
    /// plainly, and dates as ISO 8601 has them.
    pub numerals: Option<Vec<u8>>,
    /// The names of the program's functions; `None` if messages call none.
    pub functions: Option<Vec<String>>,
    /// The rules by which variants are chosen.
    pub plurals: LanguagePlurals,
    /// How much of the machine's stack a message or a term takes when it is read, and an answer.
    pub stack: StackBudget,
}

impl Sources {
    /// How answers are made.
    pub(crate) fn settings(&self) -> Settings
        ensures { settings_view result ≡ (catalog_of self.now).settings }
    {
        Settings {
            isolating: self.isolating,
            overriding: self.overriding,
            numerals: self.locale_numerals(),
        }
    }

    /// How numbers are written, if a locale is named and CLDR says how it writes them.
    fn locale_numerals(&self) -> Option<LocaleNumerals>
        ensures { option_map locale_view result ≡ numerals_of self.now }
    {
        match &self.numerals {
            Some(tag) => LocaleNumerals::for_tag_bytes(tag),
            None => None,
        }
    }

    /// How dates are written, if a locale is named and CLDR says how it writes them.
    pub(crate) fn dates(&self) -> Option<LocaleDates>
        ensures { row_of result ≡ dates_of self.now }
    {
        let tag = self.numerals.as_ref()?;
        LocaleDates::for_tag_bytes(tag)
    }
}

/// The texts, borrowed, in their order.
///
/// # Errors
/// [`AllocError`] if memory runs out; nothing is kept.
pub(crate) fn borrow_texts(alloc: Global, owned: &[String]) -> Result<Vec<&str>, AllocError>
    ensures { IfOk result (λ borrowed. texts borrowed.items ≡ map string_bytes owned.now) }
{
    let mut borrowed = Vec::with_capacity(alloc, owned.len())?;
    for text in owned {
        borrowed.push(text.as_str())?;
    }
    Ok(borrowed)
}
