//! Laws of cutting, joining, damage and normal texts: each function only carries a law, as its
//! contract.

ghost use Rattle.fluent_tidy_laws.specs.CutLaws.{CutKeepsParts, CutTextsAreUtf8, CutTextsHaveNoReturn, DamageIsLocal, DamageStays, JoinedTextsKeepLists, SlicesStandBetweenCharacters};
ghost use Rattle.fluent_tidy_laws.specs.NormalLaws.{CanonicalTreesAreToldApart, NoNormalTextMeansShaped, NormalTextsAreFixed, NormalTextsKeepTheList, TidiedSourcesKeepLists, UnshapedIsCanonical, WellFormedIsCanonical};

/// The cut text has no errors, and the messages and terms of the source. A source without errors is
/// its cut text. What the slices of the errors leave is what the tiling keeps.
pub fn damage_is_local()
    ensures local { DamageIsLocal }
    ensures parts { CutKeepsParts }
{}

/// The cut text of UTF-8 is UTF-8, and that of a text without carriage returns has none.
pub fn cut_texts_are_texts()
    ensures utf8 { CutTextsAreUtf8 }
    ensures no_return { CutTextsHaveNoReturn }
{}

/// The slices of the errors of a source that is UTF-8 begin and end where its characters do, so
/// that it can be cut there.
pub fn slices_stand_between_characters()
    ensures { SlicesStandBetweenCharacters }
{}

/// The joined text of sources without carriage returns has no errors, and the messages and terms of
/// the sources, one source after the other.
pub fn joined_texts_keep_lists()
    ensures { JoinedTextsKeepLists }
{}

/// After lines of any kind a text without errors keeps its messages and terms, or loses the first.
/// It keeps all if it begins with `#`, or if those lines have no errors.
pub fn damage_stays()
    ensures { DamageStays }
{}

/// The tree of a cut text without a shape is canonical, for sources of UTF-8 without carriage
/// returns. So if such a source has no normal text, its cut text has a shape.
pub fn reading_is_unique()
    ensures unshaped { UnshapedIsCanonical }
    ensures shaped { NoNormalTextMeansShaped }
{}

/// A tree of well-formed entries is canonical: its written text has no junk, and is read back as
/// the tree.
pub fn well_formed_trees_are_canonical()
    ensures { WellFormedIsCanonical }
{}

/// A normal text is its own normal text, and has the messages and terms of the source.
pub fn normal_texts_stay()
    ensures fixed { NormalTextsAreFixed }
    ensures same_list { NormalTextsKeepTheList }
{}

/// Canonical trees with the same written text are the same.
pub fn canonical_trees_are_told_apart()
    ensures { CanonicalTreesAreToldApart }
{}

/// Sources have the messages and terms that they had, one source after the other, when one is
/// replaced by its cut text or by its normal text, or neighbours by their joined text.
pub fn tidied_sources_keep_lists()
    ensures { TidiedSourcesKeepLists }
{}
