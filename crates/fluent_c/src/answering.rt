//! Answers to request lines, from sources.

ghost use Rattle.std.specs.Prelude.{◌≡◌, ◌≢◌, ◌++◌, ◌∷◌, [], false, IfOk, IfErr, IsTrue, OnOk, IsUtf8, None};
ghost use Rattle.fluent_serve.specs.Texts.{texts};
ghost use Rattle.fluent_c.specs.Answering.{texts_of, AreUtf8, HoldsOther, IsAnswer, IsAnswerBy, IsPlain, plurals_in};
ghost use Rattle.fluent_run.specs.RunView.{settings_view};
ghost use Rattle.fluent_c.specs.Statuses.{ReadsSources};
ghost use Rattle.fluent_c.specs.declared.TheConstants.{FLUENT_READ};
ghost use Rattle.fluent_c.specs.declared.answering.Refusal.TheVariants.{Memory, NotUtf8, UnknownLocale};

use crate::locales::names_posix;
use crate::text::FluentText;
use crate::{FLUENT_NO_MEMORY, FLUENT_NOT_UTF8, FLUENT_READ, FLUENT_UNKNOWN_LOCALE};
use fluent_numerals::LocaleNumerals;
use fluent_plurals::LanguagePlurals;
use fluent_run::{Settings, answers};
use fluent_text::stack::StackBudget;
use simdutf8::basic::from_utf8;
use std::alloc::{AllocError, Global};

/// A source: its first byte, and its length in bytes.
///
/// ```c
/// const struct FluentSource sources[] = {{bytes_of(source), strlen(source)}};
/// ```
#[repr(C)]
#[derive(Clone, Copy)]
pub struct FluentSource<'s> {
    pub text: &'s [u8],
}

/// Why request lines aren't answered.
#[derive(Clone, Copy)]
pub(crate) enum Refusal {
    /// Memory ran out.
    Memory = 1,
    /// A source isn't UTF-8.
    NotUtf8 = 2,
    /// The locale is no tag of a language.
    UnknownLocale = 3,
}

impl From<AllocError> for Refusal {
    ghost from_gives = { λ _ refusal. refusal ≡ Memory };

    fn from(_error: AllocError) -> Refusal {
        Refusal::Memory
    }
}

/// Whether each source is UTF-8.
pub(crate) fn are_utf8(sources: &[FluentSource<'_>]) -> bool
    ensures utf8 { IsTrue result → AreUtf8 sources.now }
    ensures not_utf8 { result ≡ false → HoldsOther sources.now }
{
    for source in sources {
        if !is_utf8(source) {
            return false;
        }
    }
    true
}

/// Whether a source is UTF-8.
fn is_utf8(source: &FluentSource<'_>) -> bool
    ensures utf8 { IsTrue result → IsUtf8 source.now.text.now }
    ensures not_utf8 { result ≡ false → ¬ IsUtf8 source.now.text.now }
{
    match from_utf8(source.text) {
        Ok(_) => true,
        Err(_) => false,
    }
}

/// The texts of sources, if each is UTF-8.
pub(crate) fn checked_texts<'s>(
    alloc: Global,
    sources: &[FluentSource<'s>],
) -> Result<Vec<&'s str>, Refusal>
    ensures read { IfOk result (λ read. texts read.items ≡ texts_of sources.now) }
    ensures utf8 { OnOk result (AreUtf8 sources.now) }
    ensures not_utf8 { IfErr result (λ refusal. refusal ≡ NotUtf8 → HoldsOther sources.now) }
    ensures no_locale { IfErr result (λ refusal. refusal ≢ UnknownLocale) }
{
    let mut read = Vec::new(alloc);
    for source in sources {
        read_source(source, &mut read)?;
    }
    Ok(read)
}

/// Puts a source's text after `read`, if it is UTF-8.
fn read_source<'s>(source: &FluentSource<'s>, read: &mut Vec<&'s str>) -> Result<(), Refusal>
    ensures read { OnOk result (texts read.new.items
        ≡ texts read.old.items ++ source.now.text.now ∷ []) }
    ensures utf8 { OnOk result (IsUtf8 source.now.text.now) }
    ensures not_utf8 { IfErr result (λ refusal. refusal ≡ NotUtf8
        → ¬ IsUtf8 source.now.text.now) }
    ensures no_locale { IfErr result (λ refusal. refusal ≢ UnknownLocale) }
{
    let Ok(text) = from_utf8(source.text) else {
        return Err(Refusal::NotUtf8);
    };
    match read.push(text) {
        Ok(()) => Ok(()),
        Err(_) => Err(Refusal::Memory),
    }
}

/// The plural rules that the tag of a locale names: those of English for the empty tag, and none
/// but `other` for `C` and `POSIX`.
pub(crate) fn plurals_of(locale: &[u8]) -> Option<LanguagePlurals>
    ensures { result ≡ plurals_in locale.now }
{
    if locale.is_empty() {
        Some(LanguagePlurals::english())
    } else if names_posix(locale) {
        Some(LanguagePlurals::root())
    } else {
        LanguagePlurals::for_tag_bytes(locale)
    }
}

/// The answers to request lines, in memory that the caller frees.
fn answered(
    alloc: Global,
    sources: &[FluentSource<'_>],
    locale: &[u8],
    settings: Settings,
    requests: &[u8],
) -> Result<FluentText, Refusal>
    ensures answered { IfOk result (IsAnswerBy (settings_view settings) locale.now
        sources.now requests.now) }
    ensures utf8 { OnOk result (AreUtf8 sources.now) }
    ensures not_utf8 { IfErr result (λ refusal. refusal ≡ NotUtf8 → HoldsOther sources.now) }
    ensures unknown { IfErr result (λ refusal. refusal ≡ UnknownLocale
        → plurals_in locale.now ≡ None) }
{
    let sources = checked_texts(alloc, sources)?;
    let Some(plurals) = plurals_of(locale) else {
        return Err(Refusal::UnknownLocale);
    };
    let stack = StackBudget::THREAD;
    let answers = answers(alloc, &sources, settings, &plurals, requests, stack)?;
    Ok(FluentText::of(alloc, answers)?)
}

/// Puts the answers to request lines into `made`.
fn answer(
    alloc: Global,
    sources: &[FluentSource<'_>],
    locale: &[u8],
    settings: Settings,
    requests: &[u8],
    made: &mut FluentText,
) -> u32
    ensures status { ReadsSources sources.now locale.now result }
    ensures made { result ≡ FLUENT_READ
        → IsAnswerBy (settings_view settings) locale.now sources.now requests.now made.new }
    ensures unchanged { result ≢ FLUENT_READ → made.new ≡ made.old }
{
    if !are_utf8(sources) {
        return FLUENT_NOT_UTF8;
    }
    match answered(alloc, sources, locale, settings, requests) {
        Ok(text) => {
            made.put(alloc, text);
            FLUENT_READ
        }
        Err(Refusal::NotUtf8) => FLUENT_NOT_UTF8,
        Err(Refusal::UnknownLocale) => FLUENT_UNKNOWN_LOCALE,
        Err(Refusal::Memory) => FLUENT_NO_MEMORY,
    }
}

/// Answers request lines from the messages and terms of sources, as the command `ftl run` does.
///
/// The function `NUMBER` is there. Variants are chosen by the plural rules of the locale, a tag
/// such as `pl` or `pt-PT`, and numbers are written as it writes them. The empty locale has the
/// rules of English, and plain numbers. Placeables are between marks if `isolating` is true. Of
/// duplicate ids the last entry counts if `overriding` is true, and otherwise the first.
/// `docs/reference/protocol.md` says what a request line and its answer are,
/// `docs/reference/plurals.md` which locales have plural rules, and `docs/reference/numerals.md`
/// how numbers are written.
///
/// The call returns [`FLUENT_READ`], also if a source has errors or a request is bad: then `made`
/// holds the answers, and what it held before is freed. It returns [`FLUENT_NOT_UTF8`] if a source
/// isn't UTF-8, which is seen before anything is allocated, [`FLUENT_UNKNOWN_LOCALE`] if the locale
/// is no tag, or [`FLUENT_NO_MEMORY`] otherwise, and `made` is unchanged then. All other
/// memory is freed when it returns.
#[unsafe(no_mangle)]
pub extern "C" fn fluent_answer(
    alloc: Global,
    sources: &[FluentSource<'_>],
    locale: &[u8],
    isolating: bool,
    overriding: bool,
    requests: &[u8],
    made: &mut FluentText,
) -> u32
    ensures status { ReadsSources sources.now locale.now result }
    ensures answered { result ≡ FLUENT_READ
        → IsAnswer locale.now isolating overriding sources.now requests.now made.new }
    ensures unchanged { result ≢ FLUENT_READ → made.new ≡ made.old }
{
    let settings = Settings {
        isolating,
        overriding,
        numerals: LocaleNumerals::for_tag_bytes(locale),
    };
    answer(alloc, sources, locale, settings, requests, made)
}

/// As [`fluent_answer`], but numbers are written plainly, whatever the locale.
#[unsafe(no_mangle)]
pub extern "C" fn fluent_answer_plain(
    alloc: Global,
    sources: &[FluentSource<'_>],
    locale: &[u8],
    isolating: bool,
    overriding: bool,
    requests: &[u8],
    made: &mut FluentText,
) -> u32
    ensures status { ReadsSources sources.now locale.now result }
    ensures answered { result ≡ FLUENT_READ
        → IsPlain locale.now isolating overriding sources.now requests.now made.new }
    ensures unchanged { result ≢ FLUENT_READ → made.new ≡ made.old }
{
    let settings = Settings {
        isolating,
        overriding,
        numerals: None,
    };
    answer(alloc, sources, locale, settings, requests, made)
}
