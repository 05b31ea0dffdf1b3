//! The command `lint`, from what `clap` found for it.
ghost use Rattle.std.specs.Prelude.{◌≡◌, ◌||◌, ◌++◌, ◌∷◌, [], IfErr, IfOk, Some, None, codes, false, not, option_map, true};
ghost use Rattle.std.specs.List.{list_all};
ghost use Rattle.ftl_arguments.specs.Linting.{colours_in, colours_named, format_by, format_in, format_named, lint_in, report_format_in};
ghost use Rattle.ftl_arguments.specs.Linting.{functions_in, has_what_it_counts, is_any, is_code, is_finding_code, is_function_name, is_selecting, known_functions, references_in};
ghost use Rattle.ftl_arguments.specs.Found.{is_given};
ghost use Rattle.fluent_grammar.specs.Words.{begins, is_callee_byte, is_capital};
ghost use Rattle.ftl_arguments.specs.Meaning.{texts};
ghost use Rattle.ftl_arguments.specs.CommandView.{found_rows, lint_view, IfRefused};
ghost use Rattle.lint_report.specs.Formats.{format_view};

use crate::codes::{all_codes, ignored_in, is_among, is_any};
use crate::commands::Lint;
use crate::explaining::asks_explanation;
use crate::reading::{WordsError, is_given, locale_in, values_in};
use clap::ArgMatches;
use lint_report::Format as ReportFormat;
use std::alloc::{AllocError, Global};

/// The function for dates. Bundles of the packages have it, and so has `format`; `run` has not.
pub const DATETIME: &str = "DATETIME";

/// The codes that findings have.
pub(crate) const CODES: [&str; 67] = [
    "syntax",
    "byte-order-mark",
    "duplicate-id",
    "unknown-message",
    "unknown-term",
    "unknown-attribute",
    "no-value",
    "no-default",
    "cyclic-reference",
    "unknown-function",
    "duplicate-attribute",
    "duplicate-variant",
    "invalid-escape",
    "unknown-option",
    "missing-category",
    "placeable-in-literal",
    "unknown-term-argument",
    "unknown-term-variant",
    "unknown-category",
    "unused-category",
    "replacement-character",
    "control-character",
    "zero-width",
    "unbalanced-direction",
    "mixed-scripts",
    "wrong-encoding",
    "unused-term",
    "missing-message",
    "missing-value",
    "missing-attribute",
    "obsolete-value",
    "obsolete-attribute",
    "unknown-variable",
    "missing-variable",
    "unused-variable",
    "obsolete-message",
    "untranslated",
    "variant-lacks-variable",
    "plural-dropped",
    "term-as-text",
    "broken-tag",
    "unbalanced-element",
    "unknown-element",
    "missing-element",
    "missing-l10n-name",
    "unknown-l10n-name",
    "broken-entity",
    "long-access-key",
    "long-key",
    "changed-style",
    "access-key-not-in-label",
    "changed-url",
    "changed-placeholder",
    "changed-number",
    "edge-space",
    "double-space",
    "doubled-word",
    "final-punctuation",
    "three-dots",
    "unpaired-quote",
    "straight-quote",
    "empty-text",
    "long-text",
    "missing-file",
    "missing-locale",
    "obsolete-file",
    "unused-ignore",
];

/// Reads what was found for `lint`.
///
/// # Errors
/// [`WordsError::Bad`]: an explanation is asked for; there is no such format or choice of colours;
/// or no finding has such a code, no message can call such a function, or counts are asked for
/// without a reference. [`WordsError::Memory`]: memory ran out.
pub(crate) fn lint_in<'words>(
    alloc: Global,
    found: &ArgMatches<'words>,
) -> Result<Lint<'words>, WordsError>
    ensures lint { IfOk result (λ lint.
        lint_in (found_rows found.now) ≡ Some (lint_view lint)) }
    ensures nothing { IfRefused result (lint_in (found_rows found.now) ≡ None) }
{
    if asks_explanation(found) {
        return Err(WordsError::Bad);
    }
    let Some(format) = report_format_in(found) else {
        return Err(WordsError::Bad);
    };
    let ignored = ignored_in(alloc, found)?;
    let functions = known_functions(alloc, found)?;
    let references = references_in(alloc, found)?;
    Ok(Lint {
        references,
        functions,
        ignored,
        locale: locale_in(found),
        notes: is_given(found, "notes") || is_selecting(found),
        counts: is_given(found, "counts"),
        strict: is_given(found, "strict"),
        format,
        files: values_in(alloc, found, "PATH")?,
    })
}

/// The functions that are known beside `NUMBER`: those of the program, if messages can call them,
/// and `DATETIME`.
fn known_functions<'words>(
    alloc: Global,
    found: &ArgMatches<'words>,
) -> Result<Vec<&'words str>, WordsError>
    ensures values { IfOk result (λ values. texts values.items ≡ known_functions (found_rows found.now)) }
    ensures callable { IfOk result (λ _.
        list_all is_function_name (functions_in (found_rows found.now)) ≡ true) }
    ensures uncallable { IfRefused result
        (list_all is_function_name (functions_in (found_rows found.now)) ≡ false) }
{
    let named = functions_in(alloc, found)?;
    Ok(with_dates(named)?)
}

/// These functions and `DATETIME`.
///
/// # Errors
/// [`AllocError`] if memory runs out; nothing is kept.
fn with_dates<'words>(functions: Vec<&'words str>) -> Result<Vec<&'words str>, AllocError>
    ensures { IfOk result (λ known. texts known.items ≡ texts functions.entry.items ++ codes "DATETIME" ∷ []) }
{
    let mut known = functions;
    known.push(DATETIME)?;
    Ok(known)
}

/// The functions of the program, if messages can call them.
fn functions_in<'words>(
    alloc: Global,
    found: &ArgMatches<'words>,
) -> Result<Vec<&'words str>, WordsError>
    ensures values { IfOk result (λ values. texts values.items ≡ functions_in (found_rows found.now)) }
    ensures callable { IfOk result (λ _.
        list_all is_function_name (functions_in (found_rows found.now)) ≡ true) }
    ensures uncallable { IfRefused result
        (list_all is_function_name (functions_in (found_rows found.now)) ≡ false) }
{
    let values = values_in(alloc, found, "function")?;
    if are_function_names(&values) {
        Ok(values)
    } else {
        Err(WordsError::Bad)
    }
}

/// The files and folders that are translated from. If counts are asked for, there is one.
fn references_in<'words>(
    alloc: Global,
    found: &ArgMatches<'words>,
) -> Result<Vec<&'words str>, WordsError>
    ensures values { IfOk result (λ values. texts values.items ≡ references_in (found_rows found.now)) }
    ensures counted { IfOk result (λ _. has_what_it_counts (found_rows found.now) ≡ true) }
    ensures uncounted { IfRefused result (has_what_it_counts (found_rows found.now) ≡ false) }
{
    let values = values_in(alloc, found, "reference")?;
    if has_what_it_counts(found, &values) {
        Ok(values)
    } else {
        Err(WordsError::Bad)
    }
}

/// Whether codes are selected.
fn is_selecting(found: &ArgMatches<'_>) -> bool
    ensures { result ≡ is_selecting (found_rows found.now) }
{
    is_any(found.get_raw("select").unwrap_or(&[]))
}

/// Whether there is a reference, if counts are asked for.
fn has_what_it_counts(found: &ArgMatches<'_>, references: &[&str]) -> bool
    ensures { result ≡ (not (is_given (codes "counts") (found_rows found.now))
        || is_any (texts references.now)) }
{
    !is_given(found, "counts") || matches!(references, [_, ..])
}

/// Whether this is a code of findings, or the name of a group.
pub(crate) fn is_code(name: &str) -> bool
    ensures { result ≡ is_code name.now }
{
    name == "texts" || is_finding_code(name)
}

/// Whether findings have this code.
pub(crate) fn is_finding_code(name: &str) -> bool
    ensures { result ≡ is_finding_code name.now }
{
    is_among(all_codes(), name)
}

/// Whether messages can call a function by each of these names.
fn are_function_names(names: &[&str]) -> bool
    ensures { result ≡ list_all (λ name. is_function_name name.now) names.now }
{
    names.iter().all(|name| is_function_name(name))
}

/// Whether messages can call a function by this name.
pub(crate) fn is_function_name(name: &str) -> bool
    ensures { result ≡ is_function_name name.now }
{
    begins_with_capital(name) && has_callee_bytes(name)
}

/// Whether a name begins with a capital letter.
fn begins_with_capital(name: &str) -> bool
    ensures { result ≡ begins is_capital name.now }
{
    matches!(name.as_bytes().first(), Some(b'A'..=b'Z'))
}

/// Whether each byte of a name is a capital letter, a digit, `-` or `_`.
fn has_callee_bytes(name: &str) -> bool
    ensures { result ≡ list_all is_callee_byte name.now }
{
    name.as_bytes().iter().all(|byte| matches!(*byte, b'A'..=b'Z' | b'0'..=b'9' | b'-' | b'_'))
}

/// How findings are to be written, if there is such a format and such a choice of colours.
fn report_format_in(found: &ArgMatches<'_>) -> Option<ReportFormat>
    ensures { option_map format_view result ≡ report_format_in (found_rows found.now) }
{
    let format = format_in(found)?;
    let colours = colours_in(found)?;
    Some(format_by(format, colours))
}

/// The format that is named, if there is such a format.
fn format_in(found: &ArgMatches<'_>) -> Option<ReportFormat>
    ensures { option_map format_view result ≡ format_in (found_rows found.now) }
{
    format_named(found.get_str("format")?)
}

/// Whether colours are asked for, if there is such a choice.
fn colours_in(found: &ArgMatches<'_>) -> Option<bool>
    ensures { result ≡ colours_in (found_rows found.now) }
{
    colours_named(found.get_str("color")?)
}

/// Whether this choice asks for colours, if there is such a choice.
pub(crate) fn colours_named(name: &str) -> Option<bool>
    ensures { result ≡ colours_named name.now }
{
    match name {
        "auto" | "never" => Some(false),
        "always" => Some(true),
        _ => None,
    }
}

/// A format with colours, if it is for people and they are asked for.
fn format_by(format: ReportFormat, colours: bool) -> ReportFormat
    ensures { format_view result ≡ format_by (format_view format) colours }
{
    match format {
        ReportFormat::Text if colours => ReportFormat::Terminal,
        _ => format,
    }
}

/// The format of this name, if there is one.
pub(crate) fn format_named(name: &str) -> Option<ReportFormat>
    ensures { option_map format_view result ≡ format_named name.now }
{
    match name {
        "text" => Some(ReportFormat::Text),
        "line" => Some(ReportFormat::Line),
        "json" => Some(ReportFormat::Json),
        "github" => Some(ReportFormat::Github),
        "sarif" => Some(ReportFormat::Sarif),
        "gitlab" => Some(ReportFormat::Gitlab),
        _ => None,
    }
}
