//! New bundles, which hold nothing yet.

ghost use Rattle.std.specs.Prelude.{◌≡◌, [], option_map};
ghost use Rattle.fluent_bundle.specs.BundleView.{bundle_of, localized_view};
ghost use Rattle.fluent_bundle.specs.Contents.{empty, english_plurals, localized, texts_of};
ghost use Rattle.fluent_numerals.specs.Lookup.{locale_for};
ghost use Rattle.fluent_plurals.specs.Plurals.{plurals_for, plurals_of};

use super::FluentBundle;
use fluent_ids::FluentIds;
use fluent_numerals::LocaleNumerals;
use fluent_plurals::LanguagePlurals;
use fluent_value::{
    EnglishPlurals, FluentFunction, FluentType, MemoizerKind, NoFormatter, ValueFormatter,
};
use std::alloc::Global;
use std::marker::PhantomData;

impl<'r, 's, M, C, F, G, T> FluentBundle<'r, 's, M, C, F, G, T>
where
    M: MemoizerKind,
    C: FluentType,
    F: FluentFunction<C>,
    G: ValueFormatter<C, M>,
{
    /// A bundle without messages, terms and functions, with isolation, and without a transform and
    /// a formatter. It takes no memory.
    pub fn new(alloc: Global, locales: Vec<String>, plurals: M) -> Self
        ensures { bundle_of result ≡ empty (texts_of locales) plurals }
    {
        FluentBundle {
            locales,
            ids: FluentIds::new(alloc),
            plurals,
            isolating: true,
            transform: None,
            formatter: None,
            alloc,
            custom: PhantomData,
        }
    }
}

impl<'r, 's, C, F, G, T> FluentBundle<'r, 's, EnglishPlurals, C, F, G, T>
where
    C: FluentType,
    F: FluentFunction<C>,
    G: ValueFormatter<C, EnglishPlurals>,
{
    /// A new bundle with English plural rules and without locales. It doesn't allocate.
    pub fn english(alloc: Global) -> Self
        ensures { bundle_of result ≡ empty [] english_plurals }
    {
        FluentBundle::new(alloc, Vec::new(alloc), EnglishPlurals)
    }
}

impl<'r, 's, C, F, T> FluentBundle<'r, 's, LanguagePlurals, C, F, NoFormatter, T>
where
    C: FluentType,
    F: FluentFunction<C>,
{
    /// A new bundle without locales, with the plural rules of the language that a tag such as `pl`
    /// or `pt-PT` names, or `None` if the text is no tag. It doesn't allocate.
    ///
    /// A program with a formatter of its own calls [`new`](Self::new) with the rules of
    /// [`LanguagePlurals::for_tag`].
    ///
    /// ```
    /// let mut bundle = LanguageBundle::for_tag(alloc, "en-US").context("unknown locale")?;
    /// ```
    pub fn for_tag(alloc: Global, tag: &str) -> Option<Self>
        ensures { option_map bundle_of result ≡ option_map (empty []) (plurals_for tag.now) }
    {
        let plurals = LanguagePlurals::for_tag(tag)?;
        Some(FluentBundle::new(alloc, Vec::new(alloc), plurals))
    }

    /// A new bundle with the plural rules of the first of its locales that is a tag, or `None` if
    /// none is.
    ///
    /// Otherwise it is that of [`new`](Self::new). A language without rules of its own has those of
    /// [`LanguagePlurals::root`].
    pub fn for_locales(alloc: Global, locales: Vec<String>) -> Option<Self>
        ensures { option_map bundle_of result ≡ option_map (empty (texts_of locales)) (plurals_of (texts_of locales)) }
    {
        let plurals = LanguagePlurals::of_locales(&locales)?;
        Some(FluentBundle::new(alloc, locales, plurals))
    }
}

impl<'r, 's, C, F, T> FluentBundle<'r, 's, LanguagePlurals, C, F, LocaleNumerals, T>
where
    C: FluentType,
    F: FluentFunction<C>,
{
    /// A new bundle without locales, with the plural rules of the language that a tag such as `de`
    /// or `pt-PT` names, and with numbers as its locale writes them; `None` if the text is no tag.
    /// If CLDR doesn't say how the locale writes numbers, they are written plainly. It doesn't
    /// allocate.
    ///
    /// ```no_run
    /// let mut bundle = LocalizedBundle::for_tag(alloc, "de").context("unknown locale")?;
    /// ```
    pub fn for_tag(alloc: Global, tag: &str) -> Option<Self>
        ensures { option_map localized_view result
            ≡ option_map (localized (locale_for tag.now) []) (plurals_for tag.now) }
    {
        let plurals = LanguagePlurals::for_tag(tag)?;
        let mut bundle = FluentBundle::new(alloc, Vec::new(alloc), plurals);
        bundle.formatter = LocaleNumerals::for_tag(tag);
        Some(bundle)
    }
}
