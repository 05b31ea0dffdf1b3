//! The rules that the locale of a run decides: the plural rules that choose variants, and how
//! numbers are written.
ghost use Rattle.std.specs.Prelude.{◌≡◌, IfOk, IfErr, Some, option_map};
ghost use Rattle.ftl_command.specs.Faults.{IsOfLocale, SaysUnknown};
ghost use Rattle.fluent_numerals.specs.Views.{locale_view};
ghost use Rattle.ftl_command.specs.Plurals.{category_in, language_asked, numerals_asked, plurals_asked, rules_asked, rules_view};

use crate::fault::Fault;
use fluent_number::{PluralCategory, PluralOperands, PluralRuleType};
use fluent_numerals::LocaleNumerals;
use fluent_plurals::LanguagePlurals;
use fluent_value::{EnglishPlurals, FluentType, MemoizerKind};
use std::alloc::{AllocError, Global};
use std::borrow::CowStr;

/// The plural rules of a run.
#[derive(Clone, Copy, Debug, PartialEq, Eq)]
pub enum RunPlurals {
    /// The rules of English, if no locale is named.
    English,
    /// The rules of the locale's language.
    Language(LanguagePlurals),
}

impl RunPlurals {
    /// The rules of the locale with this tag, and those of English without one.
    ///
    /// # Errors
    /// [`Fault::UnknownLocale`] if the locale is no tag.
    pub fn of_locale<'words>(locale: Option<&'words str>) -> Result<Self, Fault<'words>>
        ensures known { IfOk result (λ plurals.
            plurals_asked (option_map (λ tag. tag.now) locale.entry) ≡ Some plurals) }
        ensures unknown { IfErr result (SaysUnknown (option_map (λ tag. tag.now) locale.entry)) }
        ensures fault { IfErr result IsOfLocale }
    {
        let Some(tag) = locale else {
            return Ok(RunPlurals::English);
        };
        match LanguagePlurals::for_tag(tag) {
            Some(plurals) => Ok(RunPlurals::Language(plurals)),
            None => Err(Fault::UnknownLocale { tag }),
        }
    }
}

/// The rules that the locale of a run decides.
#[derive(Clone, Copy)]
pub struct RunRules {
    /// The plural rules.
    pub plurals: RunPlurals,
    /// How numbers are written; `None` if they are written plainly.
    pub numerals: Option<LocaleNumerals>,
}

impl RunRules {
    /// The rules of the locale with this tag. Without one the plural rules are those of English,
    /// and numbers are written plainly; so they are, too, if that is asked for, or if CLDR doesn't
    /// say how the locale writes them.
    ///
    /// # Errors
    /// [`Fault::UnknownLocale`] if the locale is no tag.
    pub fn of_locale<'words>(
        locale: Option<&'words str>,
        plain: bool,
    ) -> Result<Self, Fault<'words>>
        ensures known { IfOk result (λ r.
            rules_asked plain (option_map (λ tag. tag.now) locale.entry) ≡ Some (rules_view r)) }
        ensures unknown { IfErr result (SaysUnknown (option_map (λ tag. tag.now) locale.entry)) }
        ensures fault { IfErr result IsOfLocale }
    {
        let plurals = RunPlurals::of_locale(locale)?;
        Ok(RunRules {
            plurals,
            numerals: numerals_of(locale, plain),
        })
    }
}

/// How the locale with this tag writes numbers, if there is one and CLDR knows, and if they aren't
/// to be plain.
fn numerals_of(locale: Option<&str>, plain: bool) -> Option<LocaleNumerals>
    ensures { option_map locale_view result ≡ numerals_asked plain (option_map (λ tag. tag.now) locale.entry) }
{
    match locale {
        Some(tag) if !plain => LocaleNumerals::for_tag(tag),
        _ => None,
    }
}

/// The rules of the locale with this tag, if there is one.
///
/// # Errors
/// [`Fault::UnknownLocale`] if the locale is no tag.
pub fn language_plurals<'words>(
    locale: Option<&'words str>,
) -> Result<Option<LanguagePlurals>, Fault<'words>>
    ensures known { IfOk result (λ plurals.
        language_asked (option_map (λ tag. tag.now) locale.entry) ≡ Some plurals) }
    ensures unknown { IfErr result (SaysUnknown (option_map (λ tag. tag.now) locale.entry)) }
    ensures fault { IfErr result IsOfLocale }
{
    let Some(tag) = locale else {
        return Ok(None);
    };
    match LanguagePlurals::for_tag(tag) {
        Some(plurals) => Ok(Some(plurals)),
        None => Err(Fault::UnknownLocale { tag }),
    }
}

impl MemoizerKind for RunPlurals {
    ghost category_of = { category_in };

    ghost stringified = { λ _ S text. text };

    fn category(&self, rule: PluralRuleType, operands: &PluralOperands) -> PluralCategory {
        match self {
            RunPlurals::English => EnglishPlurals.category(rule, operands),
            RunPlurals::Language(plurals) => plurals.category(rule, operands),
        }
    }

    fn stringify_value<C: FluentType>(
        &self,
        alloc: Global,
        custom: &C,
    ) -> Result<CowStr<'static>, AllocError> {
        custom.as_string(alloc)
    }
}
