//! Files that only the reference has, or only a language.
#![tactic(auto)]

ghost use Rattle.std.specs.Prelude.{◌≡◌, IfOk, string_bytes};
ghost use Rattle.lint_findings.specs.View.{file_view, finding_view, severity_view};
ghost use Rattle.fluent_lint.specs.Lone.{IsAlone, empty_file, missing_file_finding, missing_locale_finding, obsolete_file_finding, of_file, plural_of};

use lint_findings::{File, FileFindings, Finding, Severity};
use std::alloc::{AllocError, Global};

/// A file that a language lacks: it is reported by the name that it would have, with the number of
/// messages of the file that it would be translated from.
///
/// # Errors
/// [`AllocError`] if memory runs out; nothing is kept.
pub fn missing_file<'s>(
    alloc: Global,
    name: &'s str,
    messages: usize,
) -> Result<FileFindings<'s>, AllocError>
    ensures { IfOk result (IsAlone (empty_file name.now) (missing_file_finding messages)) }
{
    let plural = plural_of(messages);
    let text = format!(in alloc; "the file is missing, with {messages} message{plural}")?;
    let finding = finding(Severity::Warning, "missing-file", 0, text);
    alone(alloc, File { name, source: "" }, finding)
}

/// A language that has no file: it is reported once, at this offset of the file that names it, with
/// the number of messages of the reference.
///
/// # Errors
/// [`AllocError`] if memory runs out; nothing is kept.
pub fn missing_locale<'s>(
    alloc: Global,
    file: File<'s>,
    offset: usize,
    locale: &str,
    messages: usize,
) -> Result<FileFindings<'s>, AllocError>
    ensures { IfOk result
        (IsAlone (file_view file.entry) (missing_locale_finding offset locale.now messages)) }
{
    let plural = plural_of(messages);
    let text = format!(in alloc; "`{locale}` has no file, and lacks {messages} message{plural}")?;
    let finding = finding(Severity::Warning, "missing-locale", offset, text);
    alone(alloc, file, finding)
}

/// That the reference has no such file as this one with so many messages, at its start.
///
/// # Errors
/// [`AllocError`] if memory runs out; nothing is kept.
pub fn obsolete_file(alloc: Global, messages: usize) -> Result<Finding, AllocError>
    ensures { IfOk result (λ found. finding_view found ≡ obsolete_file_finding messages) }
{
    let plural = plural_of(messages);
    let text = format!(in alloc;
        "the reference has no such file, with {messages} message{plural}"
    )?;
    Ok(finding(Severity::Note, "obsolete-file", 0, text))
}

/// A finding that is of no entry.
pub fn finding(severity: Severity, code: &'static str, offset: usize, text: String) -> Finding
    ensures { finding_view result ≡ of_file (severity_view severity) code.now offset (string_bytes text) }
{
    Finding {
        offset,
        code,
        severity,
        entry: None,
        text,
        hint: None,
    }
}

/// The one finding of a file.
fn alone<'s>(
    alloc: Global,
    file: File<'s>,
    finding: Finding,
) -> Result<FileFindings<'s>, AllocError>
    ensures { IfOk result (IsAlone (file_view file.entry) (finding_view finding)) }
{
    let mut findings = Vec::new(alloc);
    findings.push(finding)?;
    Ok(FileFindings { file, findings })
}

/// What follows the word for so many things.
fn plural_of(count: usize) -> &'static str
    ensures { result.now ≡ plural_of count }
{
    if count == 1 { "" } else { "s" }
}
