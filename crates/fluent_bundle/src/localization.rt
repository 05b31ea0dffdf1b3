//! Bundles of several languages, asked one after the other: a message that the first lacks comes
//! from the next one that has it.
//!
//! The bundles are any slice of them, the one to ask first at its front. `negotiate_languages` of
//! the crate `fluent_languages` says in which order a program makes them.

ghost use Rattle.std.specs.Prelude.{◌≡◌, ◌<◌, IfSome, None, Some, length, option_map};
ghost use Rattle.fluent_ast.specs.Borrowed.{elements_found};
ghost use Rattle.fluent_bundle.specs.Localization.{Answers, first_pattern, found_of, named, pattern_there, reply};

use crate::bundle::FluentBundle;
use fluent_ast::Pattern;
use fluent_errors::FluentError;
use fluent_value::{
    FluentArgs, FluentFunction, FluentType, MemoizerKind, TextTransform, ValueFormatter,
};
use std::alloc::AllocError;
use std::borrow::CowStr;

/// A text, and the position of the bundle that it is of.
///
/// ```no_run
/// match localization::format_value(bundles, id, Some(&args), &mut errors)? {
///     Some(found) => println!(rt; "{}", found.text)?,
///     None => println!(rt; "{id} is missing")?,
/// }
/// ```
#[derive(Debug, Drop)]
pub struct LocalizedText<'s> {
    /// The text.
    pub text: CowStr<'s>,
    /// The position of the bundle in the slice.
    pub position: usize,
}

/// A pattern, and the position of the bundle that it is of.
///
/// ```no_run
/// let found = localization::find_value(bundles, "welcome").context("no language has it")?;
/// bundles[found.position].write_pattern(&mut text, found.pattern, None, &mut errors)?;
/// ```
#[derive(Clone, Copy)]
pub struct FoundPattern<'r, 's> {
    /// The pattern.
    pub pattern: &'r Pattern<&'s str>,
    /// The position of the bundle in the slice.
    pub position: usize,
}

/// The text of a message's value, by the first bundle whose message of this id has one. `None` if
/// no bundle has one.
///
/// The text and its errors, which are appended to the list, are those of that bundle's
/// [`format_pattern`](FluentBundle::format_pattern). The bundles before it append nothing.
///
/// ```no_run
/// match localization::format_value(bundles, id, Some(&args), &mut errors)? {
///     Some(found) => println!(rt; "{}", found.text)?,
///     None => println!(rt; "{id} is missing")?,
/// }
/// ```
///
/// # Errors
/// [`AllocError`] if memory runs out in `format_pattern`. The list then holds the old errors, and
/// after them the first of the pattern's.
pub fn format_value<'r, 's, M, C, F, G, T>(
    bundles: &[FluentBundle<'r, 's, M, C, F, G, T>],
    id: &str,
    args: Option<&FluentArgs<'_, C>>,
    errors: &mut Vec<FluentError>,
) -> Result<Option<LocalizedText<'s>>, AllocError>
where
    M: MemoizerKind,
    C: FluentType + Drop,
    F: FluentFunction<C>,
    G: ValueFormatter<C, M>,
    T: TextTransform,
    ensures { Answers result errors.old errors.new (reply T.transformed args.entry None bundles.now id.now) }
{
    format_first(bundles, id, None, args, errors)
}

/// The text of a message's attribute of this name, by the first bundle whose message of this id has
/// one. `None` if no bundle has one.
///
/// If the message has several of the name, the first counts. The rest is as for [`format_value`].
///
/// # Errors
/// [`AllocError`] if memory runs out, as for [`format_value`].
pub fn format_attribute<'r, 's, M, C, F, G, T>(
    bundles: &[FluentBundle<'r, 's, M, C, F, G, T>],
    id: &str,
    name: &str,
    args: Option<&FluentArgs<'_, C>>,
    errors: &mut Vec<FluentError>,
) -> Result<Option<LocalizedText<'s>>, AllocError>
where
    M: MemoizerKind,
    C: FluentType + Drop,
    F: FluentFunction<C>,
    G: ValueFormatter<C, M>,
    T: TextTransform,
    ensures { Answers result errors.old errors.new (reply T.transformed args.entry (Some name.now) bundles.now id.now) }
{
    format_first(bundles, id, Some(name), args, errors)
}

/// The pattern of a message's value, of the first bundle whose message of this id has one. `None`
/// if no bundle has one. It doesn't allocate.
pub fn find_value<'r, 's, M, C, F, G, T>(
    bundles: &[FluentBundle<'r, 's, M, C, F, G, T>],
    id: &str,
) -> Option<FoundPattern<'r, 's>>
where
    M: MemoizerKind,
    C: FluentType,
    F: FluentFunction<C>,
    G: ValueFormatter<C, M>,
    ensures found { option_map found_of result ≡ first_pattern None bundles.now id.now }
    ensures within { IfSome result (λ found. found.position < length bundles.now) }
{
    find_first(bundles, id, None)
}

/// The pattern of a message's attribute of this name, of the first bundle whose message of this id
/// has one. `None` if no bundle has one. It doesn't allocate.
pub fn find_attribute<'r, 's, M, C, F, G, T>(
    bundles: &[FluentBundle<'r, 's, M, C, F, G, T>],
    id: &str,
    name: &str,
) -> Option<FoundPattern<'r, 's>>
where
    M: MemoizerKind,
    C: FluentType,
    F: FluentFunction<C>,
    G: ValueFormatter<C, M>,
    ensures found { option_map found_of result ≡ first_pattern (Some name.now) bundles.now id.now }
    ensures within { IfSome result (λ found. found.position < length bundles.now) }
{
    find_first(bundles, id, Some(name))
}

/// What the first bundle gives that has the value of a message, or its attribute of a name.
fn format_first<'r, 's, M, C, F, G, T>(
    bundles: &[FluentBundle<'r, 's, M, C, F, G, T>],
    id: &str,
    name: Option<&str>,
    args: Option<&FluentArgs<'_, C>>,
    errors: &mut Vec<FluentError>,
) -> Result<Option<LocalizedText<'s>>, AllocError>
where
    M: MemoizerKind,
    C: FluentType + Drop,
    F: FluentFunction<C>,
    G: ValueFormatter<C, M>,
    T: TextTransform,
    ensures { Answers result errors.old errors.new (reply T.transformed args.entry (named name.entry) bundles.now id.now) }
{
    for (position, bundle) in bundles.iter().enumerate() {
        if let Some(pattern) = pattern_in(bundle, id, name) {
            let text = bundle.format_pattern(pattern, args, errors)?;
            return Ok(Some(LocalizedText { text, position }));
        }
    }
    Ok(None)
}

/// The pattern that the first bundle has for the value of a message, or for its attribute of a
/// name.
fn find_first<'r, 's, M, C, F, G, T>(
    bundles: &[FluentBundle<'r, 's, M, C, F, G, T>],
    id: &str,
    name: Option<&str>,
) -> Option<FoundPattern<'r, 's>>
where
    M: MemoizerKind,
    C: FluentType,
    F: FluentFunction<C>,
    G: ValueFormatter<C, M>,
    ensures found { option_map found_of result ≡ first_pattern (named name.entry) bundles.now id.now }
    ensures within { IfSome result (λ found. found.position < length bundles.now) }
{
    for (position, bundle) in bundles.iter().enumerate() {
        if let Some(pattern) = pattern_in(bundle, id, name) {
            return Some(FoundPattern { pattern, position });
        }
    }
    None
}

/// The pattern that a bundle has for the value of a message, or for its first attribute of a name.
fn pattern_in<'r, 's, M, C, F, G, T>(
    bundle: &FluentBundle<'r, 's, M, C, F, G, T>,
    id: &str,
    name: Option<&str>,
) -> Option<&'r Pattern<&'s str>>
where
    M: MemoizerKind,
    C: FluentType,
    F: FluentFunction<C>,
    G: ValueFormatter<C, M>,
    ensures { elements_found result ≡ pattern_there (named name.entry) id.now bundle.now }
{
    let message = bundle.get_message(id)?;
    match name {
        None => message.value(),
        Some(name) => match message.get_attribute(name) {
            None => None,
            Some(attribute) => Some(attribute.value()),
        },
    }
}
