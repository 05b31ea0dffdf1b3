//! The bundle.

ghost use Rattle.std.specs.Prelude.{◌≡◌};

mod adding;
mod formatting;
mod lookup;
mod making;
mod scope;
mod settings;

use fluent_ids::FluentIds;
use fluent_numerals::LocaleNumerals;
use fluent_plurals::LanguagePlurals;
use fluent_value::{
    EnglishPlurals, FluentFunction, FluentType, MemoizerKind, NoCustom, NoFormatter, NoFunction,
    NoTransform, TextTransform, ValueFormatter,
};
use std::alloc::Global;
use std::marker::PhantomData;

/// The messages and terms of resources and the functions of a program, with what patterns are
/// resolved by.
///
/// `M` is the plural source, `C` the program's own type of values, `F` the type of its functions,
/// `G` that of its formatter and `T` that of its transform. The resources are borrowed for `'r`,
/// and their sources for `'s`: both have to outlive the bundle.
///
/// A program that brings no types of its own uses [`EnglishBundle`], [`LanguageBundle`] or
/// [`LocalizedBundle`]. A function can return these, and a struct can hold them. If `T` isn't
/// named, the transform is boxed; such a bundle stays in the function that makes it, and in those
/// that it is lent to as `&`.
///
/// ```
/// let mut bundle = LanguageBundle::for_tag(alloc, "en-US").context("unknown locale")?;
/// ..
/// bundle.add_resource(&resource)?;
/// ```
#[derive(Drop)]
pub struct FluentBundle<'r, 's, M, C, F, G, T = Box<dyn TextTransform>>
where
    M: MemoizerKind,
    C: FluentType,
    F: FluentFunction<C>,
    G: ValueFormatter<C, M>,
{
    /// The locales, as texts that nothing here interprets.
    pub locales: Vec<String>,
    pub(crate) ids: FluentIds<'r, 's, F>,
    pub(crate) plurals: M,
    pub(crate) isolating: bool,
    pub(crate) transform: Option<T>,
    pub(crate) formatter: Option<G>,
    pub(crate) alloc: Global,
    custom: PhantomData<C>,
    // With it what the types mean is part of the bundle's own type, and contracts need not name it.
    // A boxed transform has no such meaning of its type alone, so `T` has no bound here.
    ghost categories: { M.category_of ≡ M.category_of },
}

/// A bundle by English plural rules, for a program that brings no values, functions, formatter or
/// transform of its own.
///
/// ```
/// let mut bundle = EnglishBundle::english(rt.alloc());
/// bundle.set_use_isolating(false);
/// bundle.add_builtins()?;
/// bundle.add_resource(&resource)?;
/// ```
pub type EnglishBundle<'r, 's> = FluentBundle<
    'r,
    's,
    EnglishPlurals,
    NoCustom,
    NoFunction,
    NoFormatter,
    NoTransform,
>;

/// A bundle by the plural rules of any language, for a program that brings no values, functions,
/// formatter or transform of its own.
///
/// ```
/// let mut bundle = LanguageBundle::for_tag(alloc, "pl").context("no rules")?;
/// bundle.set_use_isolating(false);
/// bundle.add_resource(&resource)?;
/// ```
pub type LanguageBundle<'r, 's> = FluentBundle<
    'r,
    's,
    LanguagePlurals,
    NoCustom,
    NoFunction,
    NoFormatter,
    NoTransform,
>;

/// A bundle by the plural rules of any language that writes numbers as its locale does, for a
/// program that brings no values, functions, formatter or transform of its own.
///
/// ```no_run
/// let mut bundle = LocalizedBundle::for_tag(alloc, "de").context("unknown locale")?;
/// ```
pub type LocalizedBundle<'r, 's> = FluentBundle<
    'r,
    's,
    LanguagePlurals,
    NoCustom,
    NoFunction,
    LocaleNumerals,
    NoTransform,
>;
