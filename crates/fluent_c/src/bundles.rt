//! Bundles that a caller which isn't Rattle keeps from call to call: how they are made, asked and
//! freed.

ghost use Rattle.std.specs.Prelude.{◌≡◌, ◌≢◌, ◌∷◌, [], true, IfErr, IfOk, None, map, option_copied, option_map, string_bytes, vec_items};
ghost use Rattle.fluent_serve.specs.Texts.{texts};
ghost use Rattle.fluent_check.specs.Report.{report_text};
ghost use Rattle.fluent_c.specs.Answering.{HoldsOther, plurals_in};
ghost use Rattle.fluent_c.specs.Bundles.{KeepsAsked, KeepsNone, KeepsPlain, KeepsSame, KeepsSources, thread_stack};
ghost use Rattle.fluent_c.specs.Made.{Holds, HoldsSame};
ghost use Rattle.fluent_c.specs.Statuses.{IsOneOf, LooksFor, ReadsSources};
ghost use Rattle.fluent_c.specs.declared.TheConstants.{FLUENT_READ, FLUENT_NO_MEMORY, FLUENT_NO_BUNDLE};
ghost use Rattle.fluent_c.specs.declared.answering.Refusal.TheVariants.{NotUtf8, UnknownLocale};

use crate::answering::{FluentSource, Refusal, are_utf8, checked_texts, plurals_of};
use crate::filling::fill;
use crate::names::names_of;
use crate::text::FluentText;
use crate::{
    FLUENT_NO_BUNDLE, FLUENT_NO_MEMORY, FLUENT_NO_MESSAGE, FLUENT_NO_PATTERN, FLUENT_NOT_UTF8,
    FLUENT_READ, FLUENT_UNKNOWN_LOCALE,
};
use fluent_kept::{Answer, FluentBundle, Question, Sources};
use fluent_text::stack::StackBudget;
use std::alloc::{AllocError, Global};

/// Copies of texts, in their order.
///
/// # Errors
/// [`AllocError`] if memory runs out; nothing is kept.
pub(crate) fn copied(alloc: Global, borrowed: &[&str]) -> Result<Vec<String>, AllocError>
    ensures { IfOk result (λ owned. map string_bytes owned.items ≡ texts borrowed.now) }
{
    let mut owned = Vec::with_capacity(alloc, borrowed.len())?;
    for text in borrowed {
        owned.push(String::from_str(alloc, text)?)?;
    }
    Ok(owned)
}

/// A copy of a tag, if there is one.
///
/// # Errors
/// [`AllocError`] if memory runs out; nothing is kept.
fn copied_tag(alloc: Global, tag: Option<&[u8]>) -> Result<Option<Vec<u8>>, AllocError>
    ensures { IfOk result (λ owned. option_map vec_items owned ≡ option_copied tag.entry) }
{
    match tag {
        Some(tag) => {
            let mut owned = Vec::new(alloc);
            owned.extend_from_slice(tag)?;
            Ok(Some(owned))
        }
        None => Ok(None),
    }
}

/// How a bundle is asked.
#[derive(Clone, Copy)]
pub(crate) struct Asking {
    /// Whether placeables are between isolation marks.
    pub(crate) isolating: bool,
    /// Whether the last entry of an id counts, and not the first.
    pub(crate) overriding: bool,
    /// What reading and an answer may take of the machine's stack.
    pub(crate) stack: StackBudget,
}

/// A bundle of copies of sources, which reads and answers within a budget of the machine's stack.
/// Numbers are written as the locale of the tag `numerals` writes them, and plainly without one.
/// Messages may call functions of these names, if there are any.
///
/// # Errors
/// [`Refusal::UnknownLocale`] if the locale is no tag, [`Refusal::NotUtf8`] if a source
/// isn't UTF-8, and [`Refusal::Memory`] if memory or the budget runs out; nothing is kept.
fn kept(
    alloc: Global,
    sources: &[FluentSource<'_>],
    locale: &[u8],
    numerals: Option<&[u8]>,
    functions: Option<Vec<String>>,
    asking: Asking,
) -> Result<FluentBundle, Refusal>
    ensures kept { IfOk result (KeepsAsked functions numerals.entry asking locale.now sources.now) }
    ensures not_utf8 { IfErr result (λ refusal. refusal ≡ NotUtf8 → HoldsOther sources.now) }
    ensures unknown { IfErr result (λ refusal. refusal ≡ UnknownLocale
        → plurals_in locale.now ≡ None) }
{
    let Some(plurals) = plurals_of(locale) else {
        return Err(Refusal::UnknownLocale);
    };
    let borrowed = checked_texts(alloc, sources)?;
    let texts = copied(alloc, &borrowed)?;
    let numerals = copied_tag(alloc, numerals)?;
    let sources = Sources {
        texts,
        isolating: asking.isolating,
        overriding: asking.overriding,
        numerals,
        functions,
        plurals,
        stack: asking.stack,
    };
    Ok(FluentBundle::new(alloc, sources)?)
}

/// Puts such a bundle into `made`.
pub(crate) fn keep(
    alloc: Global,
    sources: &[FluentSource<'_>],
    locale: &[u8],
    numerals: Option<&[u8]>,
    functions: Option<Vec<String>>,
    asking: Asking,
    made: &mut FluentBundle,
) -> u32
    ensures status { ReadsSources sources.now locale.now result }
    ensures made { result ≡ FLUENT_READ
        → KeepsAsked functions numerals.entry asking locale.now sources.now made.new }
    ensures unchanged { result ≢ FLUENT_READ → made.new ≡ made.old }
{
    if !are_utf8(sources) {
        return FLUENT_NOT_UTF8;
    }
    match kept(alloc, sources, locale, numerals, functions, asking) {
        Ok(bundle) => {
            made.put(alloc, bundle);
            FLUENT_READ
        }
        Err(Refusal::NotUtf8) => FLUENT_NOT_UTF8,
        Err(Refusal::UnknownLocale) => FLUENT_UNKNOWN_LOCALE,
        Err(Refusal::Memory) => FLUENT_NO_MEMORY,
    }
}

/// Reads sources, and keeps a bundle of them, which answers as
/// [`fluent_answer`](crate::fluent_answer) does.
///
/// The sources are copied. The settings and the locale are those of
/// [`fluent_answer`](crate::fluent_answer). The call returns [`FLUENT_READ`], also if a source has
/// errors: then `made` keeps the bundle, and what it kept before is freed. It returns
/// [`FLUENT_NOT_UTF8`] if a source isn't UTF-8, which is seen before anything is allocated,
/// [`FLUENT_UNKNOWN_LOCALE`] if the locale is no tag, or [`FLUENT_NO_MEMORY`] otherwise,
/// and `made` is unchanged then.
///
/// It is [`fluent_bundle_new_within`] the budget of a thread, [`StackBudget::THREAD`].
#[unsafe(no_mangle)]
pub extern "C" fn fluent_bundle_new(
    alloc: Global,
    sources: &[FluentSource<'_>],
    locale: &[u8],
    isolating: bool,
    overriding: bool,
    made: &mut FluentBundle,
) -> u32
    ensures status { ReadsSources sources.now locale.now result }
    ensures made { result ≡ FLUENT_READ
        → KeepsSources locale.now isolating overriding thread_stack sources.now made.new }
    ensures unchanged { result ≢ FLUENT_READ → made.new ≡ made.old }
{
    let stack = StackBudget::THREAD.bytes();
    fluent_bundle_new_within(alloc, sources, locale, isolating, overriding, stack, made)
}

/// As [`fluent_bundle_new`], with a budget of `stack` bytes of the machine's stack in the place of
/// 1.5 MB: for a message or a term that is read, and for an answer of the bundle.
///
/// The call returns [`FLUENT_NO_MEMORY`], too, if a message or a term nests too deep for that.
#[unsafe(no_mangle)]
pub extern "C" fn fluent_bundle_new_within(
    alloc: Global,
    sources: &[FluentSource<'_>],
    locale: &[u8],
    isolating: bool,
    overriding: bool,
    stack: usize,
    made: &mut FluentBundle,
) -> u32
    ensures status { ReadsSources sources.now locale.now result }
    ensures made { result ≡ FLUENT_READ
        → KeepsSources locale.now isolating overriding stack sources.now made.new }
    ensures unchanged { result ≢ FLUENT_READ → made.new ≡ made.old }
{
    let asking = Asking {
        isolating,
        overriding,
        stack: StackBudget::of_bytes(stack),
    };
    keep(alloc, sources, locale, Some(locale), None, asking, made)
}

/// As [`fluent_bundle_new_within`], but numbers are written plainly, whatever the locale.
#[unsafe(no_mangle)]
pub extern "C" fn fluent_bundle_new_plain(
    alloc: Global,
    sources: &[FluentSource<'_>],
    locale: &[u8],
    isolating: bool,
    overriding: bool,
    stack: usize,
    made: &mut FluentBundle,
) -> u32
    ensures status { ReadsSources sources.now locale.now result }
    ensures made { result ≡ FLUENT_READ
        → KeepsPlain locale.now isolating overriding stack sources.now made.new }
    ensures unchanged { result ≢ FLUENT_READ → made.new ≡ made.old }
{
    let asking = Asking {
        isolating,
        overriding,
        stack: StackBudget::of_bytes(stack),
    };
    keep(alloc, sources, locale, None, None, asking, made)
}

/// Whether a bundle has what is asked for: a message's value, or its first attribute of a name, and
/// the value for the empty name.
///
/// The call returns [`FLUENT_READ`] if it has, [`FLUENT_NO_MESSAGE`] if there is no message of the
/// id, [`FLUENT_NO_PATTERN`] if the message lacks the value or the attribute, [`FLUENT_NOT_UTF8`]
/// if the id or the name isn't UTF-8, and [`FLUENT_NO_BUNDLE`] if there is no bundle. It doesn't
/// allocate.
#[unsafe(no_mangle)]
pub extern "C" fn fluent_bundle_has<'a>(
    alloc: Global,
    bundle: &mut FluentBundle,
    id: &'a [u8],
    attribute: &'a [u8],
) -> u32
    ensures status { LooksFor bundle.old id.now attribute.now result }
    ensures kept { KeepsSame bundle.new bundle.old }
{
    let Some((id, attribute)) = names_of(id, attribute) else {
        return FLUENT_NOT_UTF8;
    };
    match bundle.ask(alloc, &Question::Has { id, attribute }) {
        Some(Answer::Found) => FLUENT_READ,
        Some(Answer::NoMessage) => FLUENT_NO_MESSAGE,
        Some(Answer::NoPattern) => FLUENT_NO_PATTERN,
        Some(
            Answer::Memory
            | Answer::Reply(_)
            | Answer::Call(_)
            | Answer::Names(_)
            | Answer::Report(_),
        ) => unreachable!(),
        None => FLUENT_NO_BUNDLE,
    }
}

/// Reports what a check of a bundle's sources finds, as the command `ftl check` does: a line for
/// each error and for each message or term whose id was there before it, or the empty text.
///
/// The call returns [`FLUENT_READ`], [`FLUENT_NO_BUNDLE`] if there is no bundle, or
/// [`FLUENT_NO_MEMORY`]. If it isn't [`FLUENT_READ`], `report` holds what it held, at the same
/// address.
#[unsafe(no_mangle)]
pub extern "C" fn fluent_bundle_errors(
    alloc: Global,
    bundle: &mut FluentBundle,
    report: &mut FluentText,
) -> u32
    ensures decided { IsOneOf result (FLUENT_READ ∷ FLUENT_NO_MEMORY ∷ FLUENT_NO_BUNDLE ∷ []) }
    ensures reported { result ≡ FLUENT_READ
        → Holds report.new (report_text bundle.old.catalog.sources) }
    ensures bundle { result ≢ FLUENT_NO_BUNDLE → bundle.old.held ≡ true }
    ensures no_bundle { result ≡ FLUENT_NO_BUNDLE → KeepsNone bundle.old }
    ensures kept { KeepsSame bundle.new bundle.old }
    ensures unchanged { result ≢ FLUENT_READ → HoldsSame report.new report.old }
{
    let text = match bundle.ask(alloc, &Question::Report) {
        Some(Answer::Report(text)) => text,
        Some(_) => return FLUENT_NO_MEMORY,
        None => return FLUENT_NO_BUNDLE,
    };
    match fill(report, alloc, text.into_bytes()) {
        Ok(()) => FLUENT_READ,
        Err(_) => FLUENT_NO_MEMORY,
    }
}

/// Frees a bundle, if there is one. There is none then.
#[unsafe(no_mangle)]
pub extern "C" fn fluent_bundle_free(alloc: Global, bundle: &mut FluentBundle)
    ensures { KeepsNone bundle.new }
{
    bundle.clear(alloc);
}
