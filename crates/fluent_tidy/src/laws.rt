//! Laws of tidying and of answers: each function only carries a law, as its contract.

ghost use Rattle.fluent_tidy.specs.DeskLaws.{ExportsAreImported, VersionsAreImportedAlike};
ghost use Rattle.fluent_tidy.specs.Replaced.{ReplacedSourcesKeepAnswers, UnshapedHasNormalText};
ghost use Rattle.fluent_tidy.specs.TidyLaws.{TidyTextsAreFixed, TidyTextsKeepAnswers, TidyTextsKeepEntries};

pub use fluent_answers::laws::{
    joined_sources_keep_notices, lists_decide, tidied_sources_keep_answers,
};
use fluent_json::laws::value_decides_tree;
pub use fluent_serve::laws::streams_join;
pub use fluent_tidy_laws::laws::{
    canonical_trees_are_told_apart, cut_texts_are_texts, damage_is_local, joined_texts_keep_lists,
    normal_texts_stay, reading_is_unique, tidied_sources_keep_lists,
    well_formed_trees_are_canonical,
};
use fluent_value::FluentType;

/// What tidying keeps. Sources answer as they did, to all requests and with all settings and plural
/// sources, whichever of them are replaced by their cut text, by their normal text, or by what the
/// JSON value of their tree is imported as, and whichever neighbours are replaced by their joined
/// text. And each source of UTF-8 without carriage returns whose cut text has none of the five
/// shapes has a normal text.
pub fn replaced_sources_keep_answers<C: FluentType, F>()
    ensures answers { ReplacedSourcesKeepAnswers C.Meaning F }
    ensures normal { UnshapedHasNormalText }
{
    exports_are_imported();
    tidied_sources_keep_answers::<C, F>();
    reading_is_unique();
}

/// A tidy text has the messages, the terms and the comments of the source, as it is read without a
/// byte order mark and with LF line ends. So all requests have the same answers, with all settings
/// and plural sources. It is its own tidy text, and the only one of the source.
pub fn tidy_texts_stay<C: FluentType, F>()
    ensures entries { TidyTextsKeepEntries }
    ensures fixed { TidyTextsAreFixed }
    ensures answers { TidyTextsKeepAnswers C.Meaning F }
{
    lists_decide::<C, F>();
}

/// The JSON tree of a source is imported as the source's normal text, and isn't imported exactly if
/// the source has none. It is never refused as a value that no tree has.
pub fn exports_are_imported()
    ensures { ExportsAreImported }
{
    value_decides_tree();
}

/// A tree's value without a version is imported as its value with one is. It is never refused as a
/// value that no tree has.
pub fn versions_are_imported_alike()
    ensures { VersionsAreImportedAlike }
{
    value_decides_tree();
}
