//! The plural source of a language.
ghost use Rattle.std.specs.Prelude.{◌≡◌, map, string_bytes};
ghost use Rattle.fluent_plurals.specs.Plurals.{english_rules, has_own_rules, plurals_by, plurals_for, plurals_of, root};

use crate::language::first_fitting;
use crate::sets::{Cardinal, Ordinal};
use crate::table::LANGUAGES;
use crate::tag::is_tag;
use fluent_number::{PluralCategory, PluralOperands, PluralRuleType};
use fluent_value::{FluentType, MemoizerKind};
use std::alloc::{AllocError, Global};
use std::borrow::CowStr;

/// The plural rules of a language. Values of a program's own type are shown by their own text.
///
/// ```
/// let mut bundle = LanguageBundle::for_tag(alloc, "pl").context("no rules")?;
/// ```
#[derive(Clone, Copy, Debug, PartialEq, Eq)]
pub struct LanguagePlurals {
    pub(crate) cardinal: Cardinal,
    pub(crate) ordinal: Ordinal,
}

impl LanguagePlurals {
    /// The rules of no language, those of the tag `und`: every number is `other`.
    pub fn root() -> Self
        ensures { result ≡ root }
    {
        LanguagePlurals {
            cardinal: Cardinal::Root,
            ordinal: Ordinal::Root,
        }
    }

    /// The rules of English, those of the tag `en`. They give each number the category that
    /// `EnglishPlurals` gives it.
    pub fn english() -> Self
        ensures { result ≡ english_rules }
    {
        LanguagePlurals {
            cardinal: Cardinal::En,
            ordinal: Ordinal::En,
        }
    }

    /// The rules of the language that a tag names, such as `pl`, `pt-PT` or `zh_Hant_TW`, or `None`
    /// if the text isn't [a tag](crate::is_tag).
    ///
    /// Of the tags with rules, the longest one that the text begins with counts, part by part and
    /// in letters of either case. So `pt_PT.UTF-8` has the rules of `pt-PT`, and `pt-AO` those of
    /// `pt`. A language without rules of its own, such as `oc`, has those of the root: every number
    /// is `other`. [`has_own_rules`](Self::has_own_rules) says which it is.
    ///
    /// ```
    /// let Some(polish) = LanguagePlurals::for_tag("pl") else {
    ///     unreachable!()
    /// };
    /// polish.category(PluralRuleType::CARDINAL, &PluralOperands::from(count))
    /// ```
    pub fn for_tag(tag: &str) -> Option<Self>
        ensures { result ≡ plurals_for tag.now }
    {
        Self::for_tag_bytes(tag.as_bytes())
    }

    /// The same for the bytes of a tag. A codeset or a modifier of POSIX may be no UTF-8.
    pub fn for_tag_bytes(tag: &[u8]) -> Option<Self>
        ensures { result ≡ plurals_for tag.now }
    {
        if !is_tag(tag) {
            return None;
        }
        match first_fitting(&LANGUAGES, tag) {
            Some(language) => Some(LanguagePlurals {
                cardinal: language.1,
                ordinal: language.2,
            }),
            None => Some(Self::root()),
        }
    }

    /// Whether CLDR has plural rules for the language that a tag names.
    ///
    /// For `oc`, Occitan, it has none, so [`for_tag`](Self::for_tag) gives those of the root.
    pub fn has_own_rules(tag: &[u8]) -> bool
        ensures { result ≡ has_own_rules tag.now }
    {
        first_fitting(&LANGUAGES, tag).is_some()
    }

    /// The rules of the first of some locales that is a tag, or `None` if none is.
    ///
    /// A locale is looked up as [`for_tag`](Self::for_tag) does, so the locales of a bundle stand
    /// in the order in which a user prefers them.
    pub fn of_locales(locales: &[String]) -> Option<Self>
        ensures { result ≡ plurals_of (map string_bytes locales.now) }
    {
        for locale in locales {
            if let Some(plurals) = Self::for_tag(locale.as_str()) {
                return Some(plurals);
            }
        }
        None
    }
}

impl MemoizerKind for LanguagePlurals {
    ghost category_of = { plurals_by };

    ghost stringified = { λ _ S text. text };

    fn category(&self, rule: PluralRuleType, operands: &PluralOperands) -> PluralCategory {
        match rule {
            PluralRuleType::CARDINAL => self.cardinal.category(operands),
            PluralRuleType::ORDINAL => self.ordinal.category(operands),
        }
    }

    fn stringify_value<C: FluentType>(
        &self,
        alloc: Global,
        custom: &C,
    ) -> Result<CowStr<'static>, AllocError> {
        custom.as_string(alloc)
    }
}
