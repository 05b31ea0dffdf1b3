//! A report: all findings in one format.

ghost use Rattle.lint_report.specs.Changes.{Appends};
ghost use Rattle.std.specs.Prelude.{◌≡◌, IfOk, OnOk, map, string_bytes};
ghost use Rattle.std.specs.List.{list_any};
ghost use Rattle.lint_findings.specs.View.{findings_view, severity_view};
ghost use Rattle.lint_findings.specs.Report.{has_failed as fails, is_failure as severity_fails, is_shown as severity_is_shown};
ghost use Rattle.lint_report.specs.View.{IsAt, IsOnLine, in_file};
ghost use Rattle.lint_report.specs.ReportView.{summary_view};
ghost use Rattle.lint_report.specs.Formats.{document_output, file_output, finding_output, report_output, shown_piece, summaries_output};

use crate::commands::push_command;
use crate::gitlab::push_issue;
use crate::json::push_json_line;
use crate::listed::document;
use crate::sarif::{self, push_result};
use crate::summary::{Summary, push_json_summaries, push_summary_lines};
use crate::{push_finding_line, push_finding_text};
use lint_findings::{File, FileFindings, Finding, Severity, SourcePosition};
use std::alloc::{AllocError, Global};

/// How findings are written.
#[derive(Clone, Copy, Debug, PartialEq, Eq)]
pub enum Format {
    /// For people: for each finding its line as in [`Format::Line`], the line of the source with a
    /// caret below the finding, and the hint, and then a line for each summary.
    Text,
    /// As [`Format::Text`], in the colours of a terminal.
    Terminal,
    /// A line for each finding: `FILE:LINE:COLUMN: SEVERITY: ENTRY: TEXT [CODE]`.
    Line,
    /// An object of JSON on a line of its own for each finding, with its texts as they are.
    Json,
    /// A command for each finding, with which a workflow of GitHub shows it at its line.
    Github,
    /// A document of SARIF 2.1.0, with a result for each finding on a line of its own.
    Sarif,
    /// A list of JSON for GitLab, with an issue for each finding on a line of its own.
    Gitlab,
}

/// All findings in this format, and as text and in JSON the summaries after them. Notes are left
/// out unless `notes` is true.
///
/// # Errors
/// [`AllocError`] if memory runs out; nothing is kept.
pub fn report(
    alloc: Global,
    format: Format,
    notes: bool,
    findings: &[FileFindings],
    summaries: &[Summary],
) -> Result<String, AllocError>
    ensures { IfOk result (λ text. string_bytes text
        ≡ report_output format notes findings.now summaries.now) }
{
    let mut text = String::new(alloc);
    for file in findings {
        push_file_findings(&mut text, alloc, format, notes, file)?;
    }
    push_summaries(&mut text, alloc, format, summaries)?;
    in_document(alloc, format, text)
}

/// Appends the summaries, if this format has them.
fn push_summaries(
    text: &mut String,
    alloc: Global,
    format: Format,
    summaries: &[Summary],
) -> Result<(), AllocError>
    ensures { OnOk result (Appends text.old text.new (summaries_output format (map summary_view summaries.now))) }
{
    match format {
        Format::Text | Format::Terminal => push_summary_lines(text, summaries),
        Format::Json => push_json_summaries(text, alloc, summaries),
        Format::Line | Format::Github | Format::Sarif | Format::Gitlab => Ok(()),
    }
}

/// The report: what was written of findings and summaries, in a document if this format has one.
fn in_document(alloc: Global, format: Format, written: String) -> Result<String, AllocError>
    ensures { IfOk result (λ text. string_bytes text ≡ document_output format (string_bytes written)) }
{
    match format {
        Format::Text | Format::Terminal | Format::Line | Format::Json | Format::Github => Ok(
            written,
        ),
        Format::Sarif => document(alloc, sarif::HEAD, &written, sarif::TAIL),
        Format::Gitlab => document(alloc, "[", &written, "\n]\n"),
    }
}

/// Appends the findings of a file.
fn push_file_findings(
    text: &mut String,
    alloc: Global,
    format: Format,
    notes: bool,
    findings: &FileFindings,
) -> Result<(), AllocError>
    ensures { OnOk result (Appends text.old text.new (file_output format notes findings.now)) }
{
    let file = &findings.file;
    let mut place = SourcePosition::start();
    for finding in &findings.findings {
        place = place.moved_to(file.source, finding.offset);
        push_if_shown(text, alloc, format, notes, file, finding, place)?;
    }
    Ok(())
}

/// Appends a finding that is at this place, unless it is a note and notes are left out.
fn push_if_shown(
    text: &mut String,
    alloc: Global,
    format: Format,
    notes: bool,
    file: &File,
    finding: &Finding,
    place: SourcePosition,
) -> Result<(), AllocError>
    requires at { IsAt file.now finding.now place }
    requires line { IsOnLine file.now finding.now place }
    ensures { OnOk result (Appends text.old text.new (shown_piece format notes (in_file file.now finding.now))) }
{
    if is_shown(finding.severity, notes) {
        push_finding(text, alloc, format, file, finding, place)
    } else {
        Ok(())
    }
}

/// Appends a finding that is at this place.
fn push_finding(
    text: &mut String,
    alloc: Global,
    format: Format,
    file: &File,
    finding: &Finding,
    place: SourcePosition,
) -> Result<(), AllocError>
    requires at { IsAt file.now finding.now place }
    requires line { IsOnLine file.now finding.now place }
    ensures { OnOk result (Appends text.old text.new (finding_output format (in_file file.now finding.now))) }
{
    match format {
        Format::Text => push_finding_text(text, file, finding, place, false),
        Format::Terminal => push_finding_text(text, file, finding, place, true),
        Format::Line => push_finding_line(text, file, finding, place, false),
        Format::Json => push_json_line(text, alloc, file, finding, place),
        Format::Github => push_command(text, file, finding, place),
        Format::Sarif => push_result(text, alloc, file, finding, place),
        Format::Gitlab => push_issue(text, alloc, file, finding, place),
    }
}

/// Whether a finding of this severity is shown.
fn is_shown(severity: Severity, notes: bool) -> bool
    ensures { result ≡ severity_is_shown notes (severity_view severity) }
{
    match severity {
        Severity::Error | Severity::Warning => true,
        Severity::Note => notes,
    }
}

/// Whether the files fail: there is an error, or with `strict` a warning.
pub fn has_failed(strict: bool, findings: &[FileFindings]) -> bool
    ensures { result ≡ fails strict (findings_view findings.now) }
{
    findings
        .iter()
        .any(|file| has_failure(strict, &file.findings))
}

/// Whether one of these findings makes its file fail.
fn has_failure(strict: bool, findings: &[Finding]) -> bool
    ensures { result ≡ list_any (λ f. severity_fails strict (severity_view f.severity)) findings.now }
{
    findings
        .iter()
        .any(|finding| is_failure(finding.severity, strict))
}

/// Whether a finding of this severity makes its file fail.
fn is_failure(severity: Severity, strict: bool) -> bool
    ensures { result ≡ severity_fails strict (severity_view severity) }
{
    match severity {
        Severity::Error => true,
        Severity::Warning => strict,
        Severity::Note => false,
    }
}
