//! What is found in a catalog.

ghost use Rattle.std.specs.Prelude.{◌≡◌, ◌≢◌, false, IfErr, IfOk, IsTrue, None, Some};
ghost use Rattle.fluent_lint.specs.LintView.{output_view, report_view};
ghost use Rattle.fluent_c.specs.Linting.{AreAllUtf8, HasOtherFile, HasReport, HoldOther, IsReport, IsReported, Lints, lint_status, output_asked, plurals_looked_for, report_by, report_in};
ghost use Rattle.fluent_c.specs.declared.answering.Refusal.TheVariants.{NotUtf8, UnknownLocale};

use crate::answering::{FluentSource, Refusal, are_utf8, checked_texts};
use crate::files::{FluentFile, are_files_utf8, checked_files};
use crate::locales::names_posix;
use crate::text::FluentText;
use crate::{
    FLUENT_HAS_ERRORS, FLUENT_NO_MEMORY, FLUENT_NOT_UTF8, FLUENT_READ, FLUENT_UNKNOWN_LOCALE,
};
use fluent_lint::{Options, Output, Report, report_files};
use fluent_plurals::LanguagePlurals;
use fluent_text::stack::StackBudget;
use lint_report::{Format, text_codes};
use std::alloc::Global;

/// What is looked for in a catalog, and what of it is reported.
///
/// ```c
/// struct FluentLintOptions strict = {0};
/// strict.strict = true;
/// ```
#[repr(C)]
#[derive(Clone, Copy)]
pub struct FluentLintOptions<'o> {
    /// The names of the functions that the program adds.
    pub functions: &'o [FluentSource<'o>],
    /// The tag of the locale whose plural categories are looked for, and none if it is empty.
    pub locale: &'o [u8],
    /// Whether notes are reported, too, but for those of the group `texts`.
    pub notes: bool,
    /// Whether warnings count for the status.
    pub strict: bool,
}

/// Whether the names and the texts of files and the names of functions are UTF-8.
fn are_all_utf8(
    options: &FluentLintOptions<'_>,
    files: &[FluentFile<'_>],
    references: &[FluentFile<'_>],
) -> bool
    ensures utf8 { IsTrue result → AreAllUtf8 options.now files.now references.now }
    ensures not_utf8 { result ≡ false → HasOtherFile options.now files.now references.now }
{
    if !are_files_utf8(files) {
        return false;
    }
    if !are_files_utf8(references) {
        return false;
    }
    are_utf8(options.functions)
}

/// The plural rules that the tag of a locale names, and none for the empty tag.
///
/// # Errors
/// [`Refusal::UnknownLocale`] if the locale is no tag.
fn plurals_looked_for(locale: &[u8]) -> Result<Option<LanguagePlurals>, Refusal>
    ensures known { IfOk result (λ plurals. plurals_looked_for locale.now ≡ Some plurals) }
    ensures unknown { IfErr result (λ refusal. refusal ≡ UnknownLocale
        → plurals_looked_for locale.now ≡ None) }
    ensures no_text { IfErr result (λ refusal. refusal ≢ NotUtf8) }
{
    if locale.is_empty() {
        return Ok(None);
    }
    if names_posix(locale) {
        return Ok(Some(LanguagePlurals::root()));
    }
    match LanguagePlurals::for_tag_bytes(locale) {
        Some(plurals) => Ok(Some(plurals)),
        None => Err(Refusal::UnknownLocale),
    }
}

/// What is written: each finding as a line of JSON.
fn output_of(options: &FluentLintOptions<'_>) -> Output<'static>
    ensures { output_view result ≡ output_asked options.now }
{
    Output {
        format: Format::Json,
        ignored: text_codes(),
        notes: options.notes,
        counts: false,
        strict: options.strict,
    }
}

/// The report on files, by what is known of the program and of the language.
///
/// # Errors
/// [`Refusal::NotUtf8`] if a name or a text isn't UTF-8, and [`Refusal::Memory`] if memory runs
/// out, or a file nests too deep; nothing is kept.
fn report_by(
    alloc: Global,
    options: &Options<'_>,
    output: Output<'_>,
    files: &[FluentFile<'_>],
    references: &[FluentFile<'_>],
) -> Result<Report, Refusal>
    ensures report { IfOk result (λ r. report_view r
        ≡ report_by options.now output.entry files.now references.now) }
    ensures not_utf8 { IfErr result (λ refusal. refusal ≡ NotUtf8
        → HoldOther files.now references.now) }
    ensures no_locale { IfErr result (λ refusal. refusal ≢ UnknownLocale) }
{
    let files = checked_files(alloc, files)?;
    let references = checked_files(alloc, references)?;
    let stack = StackBudget::THREAD;
    Ok(report_files(alloc, options, output, &references, &files, stack)?)
}

/// The report on files.
///
/// # Errors
/// [`Refusal::UnknownLocale`] if the locale is no tag, [`Refusal::NotUtf8`] if a name or
/// a text isn't UTF-8, and [`Refusal::Memory`] if memory runs out, or a file nests too deep;
/// nothing is kept.
fn report_on(
    alloc: Global,
    options: &FluentLintOptions<'_>,
    files: &[FluentFile<'_>],
    references: &[FluentFile<'_>],
) -> Result<Report, Refusal>
    ensures report { IfOk result (λ report. report_in options.now files.now references.now
        ≡ Some (report_view report)) }
    ensures not_utf8 { IfErr result (λ refusal. refusal ≡ NotUtf8
        → HasOtherFile options.now files.now references.now) }
    ensures unknown { IfErr result (λ refusal. refusal ≡ UnknownLocale
        → plurals_looked_for options.now.locale.now ≡ None) }
{
    let plurals = plurals_looked_for(options.locale)?;
    let functions = checked_texts(alloc, options.functions)?;
    let known = Options {
        functions: &functions,
        plurals,
    };
    report_by(alloc, &known, output_of(options), files, references)
}

/// The report on files, in memory that the caller frees, and whether the catalog fails.
///
/// # Errors
/// Those of [`report_on`].
fn reported(
    alloc: Global,
    options: &FluentLintOptions<'_>,
    files: &[FluentFile<'_>],
    references: &[FluentFile<'_>],
) -> Result<(FluentText, bool), Refusal>
    ensures report { IfOk result (IsReported options.now files.now references.now) }
    ensures not_utf8 { IfErr result (λ refusal. refusal ≡ NotUtf8
        → HasOtherFile options.now files.now references.now) }
    ensures unknown { IfErr result (λ refusal. refusal ≡ UnknownLocale
        → plurals_looked_for options.now.locale.now ≡ None) }
{
    let report = report_on(alloc, options, files, references)?;
    let text = FluentText::of(alloc, report.text.into_bytes())?;
    Ok((text, report.has_failed))
}

/// What the call returns whose report is made.
fn status_of(has_failed: bool) -> u32
    ensures { result ≡ lint_status has_failed }
{
    if has_failed {
        FLUENT_HAS_ERRORS
    } else {
        FLUENT_READ
    }
}

/// Reports what is found in a catalog of files, as the command `ftl lint --format json` does: a
/// line of JSON for each finding.
///
/// The files of `references` are those that the catalog is translated from, if there are any.
/// `docs/reference/lint.md` has the rules. The call returns [`FLUENT_READ`] if the catalog has no
/// error, and with `strict` no warning, and otherwise [`FLUENT_HAS_ERRORS`]: in both cases `report`
/// holds the lines, and what it held before is freed. It returns [`FLUENT_NOT_UTF8`] if a name or a
/// text isn't UTF-8, which is seen before anything is allocated, [`FLUENT_UNKNOWN_LOCALE`] if the
/// locale is no tag, or [`FLUENT_NO_MEMORY`] otherwise, and `report` is unchanged then.
/// All other memory is freed when it returns.
#[unsafe(no_mangle)]
pub extern "C" fn fluent_lint(
    alloc: Global,
    files: &[FluentFile<'_>],
    references: &[FluentFile<'_>],
    options: &FluentLintOptions<'_>,
    report: &mut FluentText,
) -> u32
    ensures status { Lints options.now files.now references.now result }
    ensures report { HasReport result → IsReport options.now files.now references.now result report.new }
    ensures unchanged { ¬ HasReport result → report.new ≡ report.old }
{
    if !are_all_utf8(options, files, references) {
        return FLUENT_NOT_UTF8;
    }
    match reported(alloc, options, files, references) {
        Ok((text, has_failed)) => {
            report.put(alloc, text);
            status_of(has_failed)
        }
        Err(Refusal::NotUtf8) => FLUENT_NOT_UTF8,
        Err(Refusal::UnknownLocale) => FLUENT_UNKNOWN_LOCALE,
        Err(Refusal::Memory) => FLUENT_NO_MEMORY,
    }
}
