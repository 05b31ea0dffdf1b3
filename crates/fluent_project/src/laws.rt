//! The laws of patterns of paths.
ghost use Rattle.fluent_project.specs.Laws.{LanguagesAreApart, OneLanguageStands, TextsCarryOver};

/// What [`path_of`](crate::path_of) puts into another pattern with the same wildcards is a path of
/// that pattern, by the same texts.
pub fn texts_carry_over()
    ensures { TextsCarryOver }
{}

/// A path is one of a pattern for a language exactly if it is one of the pattern in which the
/// language stands for `{locale}`.
pub fn one_language_stands()
    ensures { OneLanguageStands }
{}

/// Two languages share no path of a pattern in which `{locale}` is a folder's name after no
/// wildcard.
pub fn languages_are_apart()
    ensures { LanguagesAreApart }
{}
