//! Laws of answers: each function only carries a law, as its contract.

ghost use Rattle.fluent_answers.specs.AnswersLaws.{IdsGoOn, JoinedSourcesKeepNotices, ListsDecide, NoticesGoOn, RuntimeHasTheSameIds, TidiedSourcesKeepAnswers};
ghost use Rattle.fluent_answers.specs.FitLaws.{ReferencesFit, RequestsFit};

use fluent_value::FluentType;

/// Two lists of sources whose messages and terms, one source after the other, are the same have the
/// same answers, to all request bytes and with all settings and plural sources.
pub fn lists_decide<C: FluentType, F>()
    ensures { ListsDecide C.Meaning F }
{}

/// Sources without carriage returns answer as they did, whichever are replaced by their cut text or
/// by their normal text, or neighbours by their joined text.
pub fn tidied_sources_keep_answers<C: FluentType, F>()
    ensures { TidiedSourcesKeepAnswers C.Meaning F }
{}

/// The joined text of sources without carriage returns has the notices of the sources, if the first
/// entry of an id counts.
pub fn joined_sources_keep_notices<F>()
    ensures { JoinedSourcesKeepNotices F }
{}

/// Sources that are read for use at run time, and added one after the other, give the ids and the
/// notices of them all.
pub fn sources_in_turn<F>()
    ensures same { RuntimeHasTheSameIds F }
    ensures ids { IdsGoOn F }
    ensures notices { NoticesGoOn F }
{}

/// No placeable of the messages and terms of sources has more references and selects than the
/// longest source has bytes. So a request for a pattern of theirs enters at most 1 + 100 * n
/// patterns, if that source has n bytes.
pub fn references_fit<C: FluentType, F>()
    ensures references { ReferencesFit F }
    ensures entered { RequestsFit C.Meaning F }
{}
