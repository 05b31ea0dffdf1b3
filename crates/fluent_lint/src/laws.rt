//! Laws of reports: each function only carries a law, as its contract.

ghost use Rattle.fluent_lint.specs.LanguageLaws.{CleanLanguagesReplyWell};
ghost use Rattle.fluent_lint.specs.RunLaws.{CleanReportsReplyWell, OwnIdsReplyWell, ReportsAreFindings, TranslationsReply};

use fluent_value::FluentType;

/// If no comment of the files leaves a finding out, what is reported is what is found, without the
/// findings whose code is ignored.
pub fn reports_are_findings()
    ensures { ReportsAreFindings }
{}

/// If no finding that is reported has one of the codes `unknown-message`, `unknown-term`,
/// `unknown-attribute`, `unknown-function`, `no-value`, `no-default` and `cyclic-reference`, none
/// of these codes is ignored, no comment of the files leaves a finding out, and no function is
/// known but `NUMBER`, each reply of `ftl run` from the files has only errors that depend on the
/// request: variables that are none of its arguments, and too many placeables. If the same holds of
/// the code `duplicate-id`, that is so of `ftl run --overriding`, too.
pub fn clean_reports_reply_well<C: FluentType, F>()
    ensures first { CleanReportsReplyWell C.Meaning F }
    ensures last { OwnIdsReplyWell C.Meaning F }
{}

/// If no finding that is reported has one of the codes `missing-message`, `missing-value` and
/// `missing-attribute`, none of these codes is ignored, no comment of the files leaves a finding
/// out, and no function is known but `NUMBER`, `ftl run` has a reply from the files to each request
/// that it has a reply to from the reference.
pub fn translations_reply<C: FluentType, F>()
    ensures { TranslationsReply C.Meaning F }
{}

/// If no finding of a reference and none of a language, each file with the one that it is
/// translated from, has one of those codes, before comments leave some out, and no function is
/// known but `NUMBER`, each reply of `ftl run` from the files of the language has only errors that
/// depend on the request.
pub fn clean_languages_reply_well<C: FluentType, F>()
    ensures { CleanLanguagesReplyWell C.Meaning F }
{}
