//! The last lines of a report for people.

ghost use Rattle.lint_report.specs.Changes.{Appends};
ghost use Rattle.std.specs.Prelude.{◌≡◌, ◌++◌, [], IfOk, OnOk, codes, count_by, if◌then◌else◌};
ghost use Rattle.lint_findings.specs.View.{finding_view, findings_view, severity_view};
ghost use Rattle.fluent_lint.specs.Counting.{is_counted};
ghost use Rattle.fluent_lint.specs.Totals.{are_most_taken, code_count, counted, found_count, notes_total, same_severity, severity_count, taken_line, totals_line};

use lint_findings::{FileFindings, Finding, Severity};
use std::alloc::AllocError;

/// Appends how many findings there are in this many files: `2 errors, 9 warnings in 227 files`.
/// Notes are counted if `notes` is true.
///
/// # Errors
/// [`AllocError`] if memory runs out; a part of it may have been appended.
pub fn push_totals(
    text: &mut String,
    notes: bool,
    files: usize,
    findings: &[FileFindings],
) -> Result<(), AllocError>
    ensures { OnOk result (Appends text.old text.new (totals_line notes files (findings_view findings.now))) }
{
    push_counted(text, severity_count(findings, Severity::Error)?, "error")?;
    text.push_str(", ")?;
    push_counted(
        text,
        severity_count(findings, Severity::Warning)?,
        "warning",
    )?;
    push_notes(text, notes, findings)?;
    text.push_str(" in ")?;
    push_counted(text, files, "file")?;
    text.push_str("\n")
}

/// Appends the number of notes, if they are shown.
fn push_notes(text: &mut String, notes: bool, findings: &[FileFindings]) -> Result<(), AllocError>
    ensures { OnOk result (Appends text.old text.new (notes_total notes (findings_view findings.now))) }
{
    if !notes {
        return Ok(());
    }
    text.push_str(", ")?;
    push_counted(text, severity_count(findings, Severity::Note)?, "note")
}

/// Appends a number and what it counts.
fn push_counted(text: &mut String, count: usize, what: &str) -> Result<(), AllocError>
    ensures { OnOk result (Appends text.old text.new (counted count what.now)) }
{
    let plural = if count == 1 { "" } else { "s" };
    write!(text, "{count} {what}{plural}")
}

/// Appends a question if most ids of this many entries are taken.
///
/// # Errors
/// [`AllocError`] if memory runs out; a part of it may have been appended.
pub fn push_taken(
    text: &mut String,
    entries: usize,
    findings: &[FileFindings],
) -> Result<(), AllocError>
    ensures { OnOk result (Appends text.old text.new (taken_line entries (findings_view findings.now))) }
{
    let taken = count(findings, Counted::TakenIds)?;
    let errors = severity_count(findings, Severity::Error)?;
    if !are_most_taken(entries, taken, errors) {
        return Ok(());
    }
    text.push_str("most ids are taken: are these files of two languages?\n")
}

/// Whether most ids of this many entries are taken, and most of the errors are of that.
fn are_most_taken(entries: usize, taken: usize, errors: usize) -> bool
    ensures { result ≡ are_most_taken entries taken errors }
{
    10 <= taken && entries.saturating_sub(taken) / 2 < taken && errors.saturating_sub(taken) < taken
}

/// How many findings have this severity.
///
/// # Errors
/// [`AllocError`] if there are more than `usize` can count, which fit in no memory.
pub fn severity_count(findings: &[FileFindings], severity: Severity) -> Result<usize, AllocError>
    ensures { IfOk result (λ count. count ≡ severity_count (severity_view severity) (findings_view findings.now)) }
{
    count(findings, Counted::Severity(severity))
}

/// How many findings have this code.
///
/// # Errors
/// [`AllocError`] if there are more than `usize` can count, which fit in no memory.
pub fn code_count(findings: &[FileFindings], code: &str) -> Result<usize, AllocError>
    ensures { IfOk result (λ count. count ≡ code_count code.now (findings_view findings.now)) }
{
    count(findings, Counted::Code(code))
}

/// Which findings are counted.
#[derive(Clone, Copy)]
enum Counted<'a> {
    /// Those of a severity.
    Severity(Severity),
    /// Those of a code.
    Code(&'a str),
    /// Those of entries whose id is taken.
    TakenIds,
}

impl Counted<'_> {
    /// Whether a finding is counted.
    fn has(self, finding: &Finding) -> bool
        ensures { result ≡ is_counted self.entry (finding_view finding.now) }
    {
        match self {
            Counted::Severity(severity) => same_severity(severity, finding.severity),
            Counted::Code(code) => *finding.code == *code,
            Counted::TakenIds => finding.code == "duplicate-id",
        }
    }
}

/// How many findings are counted. More than `usize` can count don't fit in memory.
fn count(findings: &[FileFindings], counted: Counted<'_>) -> Result<usize, AllocError>
    ensures { IfOk result (λ count. count ≡ found_count (is_counted counted.entry) (findings_view findings.now)) }
{
    let mut total: usize = 0;
    for file in findings {
        let Some(sum) = total.checked_add(count_in(&file.findings, counted)) else {
            return Err(AllocError);
        };
        total = sum;
    }
    Ok(total)
}

/// How many of some findings are counted.
fn count_in(findings: &[Finding], counted: Counted<'_>) -> usize
    ensures { result ≡ count_by (λ f. is_counted counted.entry (finding_view f)) findings.now }
{
    findings
        .iter()
        .filter(|finding| counted.has(finding))
        .count()
}

/// Whether two severities are the same.
fn same_severity(one: Severity, other: Severity) -> bool
    ensures { result ≡ same_severity (severity_view one) (severity_view other) }
{
    matches!(
        (one, other),
        (Severity::Error, Severity::Error)
            | (Severity::Warning, Severity::Warning)
            | (Severity::Note, Severity::Note)
    )
}
