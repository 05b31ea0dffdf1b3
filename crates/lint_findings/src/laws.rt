//! Laws of findings: each function only carries a law, as its contract.

ghost use Rattle.lint_findings.specs.FactLaws.{FactsAreTrue, MissingVariablesAreShown};
ghost use Rattle.lint_findings.specs.FindingLaws.{HasErrors, HasLoneTerms, HasLostVariants, HasReferences, OfCatalogs, OfTranslations};
ghost use Rattle.lint_findings.specs.HintLaws.{DifferenceHintsAreSo, FactHintsAreSo, FlawHintsAreSo};
ghost use Rattle.lint_findings.specs.MisuseLaws.{MisuseHintsAreSo, MisusesAreTrue};
ghost use Rattle.lint_findings.specs.NearLaws.{NearestIsThere};
ghost use Rattle.lint_findings.specs.PlaceLaws.{OccurrencesAreRead, OccurrencesAreTheNodes, PatternsHavePlaces, PositionsDetermineOffsets, TilesAreTheList, TilesHaveTheErrors};
ghost use Rattle.lint_findings.specs.QuotedLaws.{QuotedAreSpelled};
ghost use Rattle.lint_findings.specs.ReportLaws.{CatalogsOverrideNothing, CleanCatalogsAreFlawless, CleanTranslationsAreFlawless, FlawlessCatalogsAnswer, NothingMissingAnswersAll, TranslationsAnswerAll, TranslationsOverrideNothing};

use fluent_value::FluentType;

/// No two offsets between characters of a source have the same line and column.
pub fn positions_determine_offsets()
    ensures { PositionsDetermineOffsets }
{}

/// The messages and terms among the tiles of a source are those of its tree, in the same order. The
/// errors of its junk are those that the parser reports.
pub fn tiles_are_the_source()
    ensures entries { TilesAreTheList }
    ensures errors { TilesHaveTheErrors }
{}

/// Among the findings of a catalog, with or without a reference, each file has as many of the codes
/// `syntax` and `byte-order-mark` as the parser reports errors of it.
pub fn syntax_findings_are_errors()
    ensures catalogs { OfCatalogs HasErrors }
    ensures translations { OfTranslations HasErrors }
{}

/// The walk through the text of a pattern lists the nodes of the pattern, in their order. Each
/// expression and each key that it lists is read at its place, which is an end of the text.
pub fn occurrences_are_the_nodes()
    ensures nodes { OccurrencesAreTheNodes }
    ensures read { OccurrencesAreRead }
{}

/// An entry has a place for each of its patterns, the value's and those of its attributes, and the
/// pattern is read there.
pub fn patterns_have_places()
    ensures { PatternsHavePlaces }
{}

/// A placeable that is found in a string literal is one by the grammar, where it is: of a variable,
/// or of a term without attribute and arguments.
pub fn quoted_placeables_are_spelled()
    ensures { QuotedAreSpelled }
{}

/// Each fact that is found of a node besides its errors is so: a literal has the placeable, a term
/// has no such variable in any of its texts, no select on the variable has a variant with this key,
/// no whole number below 1,000 is of the category, and a key that is nearly a category is none, but
/// a slip of the keyboard away from the name of one.
pub fn facts_are_true<F>()
    ensures { FactsAreTrue F }
{}

/// Each mistake that is found in an argument of `NUMBER` or `DATETIME` is there: the function has
/// no such option, the option doesn't take such a value, or the call has the style next to which it
/// doesn't count.
pub fn misuses_are_true()
    ensures { MisusesAreTrue }
{}

/// A name that is found as the nearest one is known, and a slip of the keyboard away: two
/// neighbouring bytes are swapped, or one is left out, replaced or added.
pub fn near_names_are_there()
    ensures { NearestIsThere }
{}

/// Each name in a hint is there: that of a message, a term, an attribute, a variable, a variant, a
/// category, an option, or a value that the option takes. A name that may be meant is a slip away.
pub fn hints_are_so<F>()
    ensures flaws { FlawHintsAreSo F }
    ensures facts { FactHintsAreSo F }
    ensures misuses { MisuseHintsAreSo }
    ensures differences { DifferenceHintsAreSo }
{}

/// For each finding with the code `unused-term`, no text of the catalog refers to the term that it
/// is of, which is read in the source of its file.
pub fn unused_terms_are_unused()
    ensures catalogs { OfCatalogs HasLoneTerms }
    ensures translations { OfTranslations HasLoneTerms }
{}

/// The message of the reference shows each variable that is reported as missing, in some variant
/// of a text, and the message of the catalog is shown with no variable of this name.
pub fn missing_variables_are_shown<F>()
    ensures { MissingVariablesAreShown F }
{}

/// For each finding with one of the codes `unknown-message`, `unknown-term`, `unknown-attribute`,
/// `unknown-function` and `no-value`, the source is read from the finding's offset on as a
/// reference, and the finding says the error that this reference has.
pub fn reference_findings_are_read()
    ensures catalogs { OfCatalogs HasReferences }
    ensures translations { OfTranslations HasReferences }
{}

/// For each finding with the code `duplicate-variant`, a key is read from the finding's offset on.
/// It is that of a variant, of a select of the source, that never matches: without it, each value
/// has the same match.
pub fn repeated_variants_never_match<C: FluentType>()
    ensures catalogs { OfCatalogs (HasLostVariants C.Meaning) }
    ensures translations { OfTranslations (HasLostVariants C.Meaning) }
{}

/// If no finding has one of the codes `unknown-message`, `unknown-term`, `unknown-attribute`,
/// `unknown-function`, `no-value`, `no-default` and `cyclic-reference`, the catalog is flawless,
/// with or without a reference: in each program that has the functions that are known, whatever
/// they do, if the first entry of an id counts.
pub fn clean_reports_are_flawless<F>()
    ensures catalogs { CleanCatalogsAreFlawless F }
    ensures translations { CleanTranslationsAreFlawless F }
{}

/// If no finding has the code `duplicate-id`, an id stands for the same, whether its first or its
/// last entry counts.
pub fn own_ids_override_nothing<F>()
    ensures catalogs { CatalogsOverrideNothing F }
    ensures translations { TranslationsOverrideNothing F }
{}

/// In a flawless catalog each answer has only errors that depend on the request: variables that are
/// none of its arguments, and too many placeables.
pub fn flawless_catalogs_answer<C: FluentType, F>()
    ensures { FlawlessCatalogsAnswer C.Meaning F }
{}

/// A catalog that lacks no message, value or attribute of its reference has a pattern for each
/// request that the reference has one for.
pub fn nothing_missing_answers_all<F>()
    ensures { NothingMissingAnswersAll F }
{}

/// If no finding has one of the codes `missing-message`, `missing-value` and `missing-attribute`,
/// that is so in each program that has the functions that are known, if the first entry of an id
/// counts.
pub fn translations_answer_all<F>()
    ensures { TranslationsAnswerAll F }
{}
