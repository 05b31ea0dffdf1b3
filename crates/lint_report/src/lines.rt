//! The first line of a finding: `FILE:LINE:COLUMN: SEVERITY: ENTRY: TEXT [CODE]`, and its colours.

ghost use Rattle.lint_report.specs.Changes.{Appends};
ghost use Rattle.std.specs.Prelude.{◌≡◌, OnOk, false, true};
ghost use Rattle.lint_findings.specs.View.{finding_view, severity_view};
ghost use Rattle.lint_findings.specs.Colours.{coloured, severity_colour};
ghost use Rattle.lint_findings.specs.Report.{labelled_text, severity_text};
ghost use Rattle.lint_findings.specs.ShownLine.{masked_text};
ghost use Rattle.lint_report.specs.ByColours.{caret_by, head_by, line_by};
ghost use Rattle.lint_report.specs.View.{IsAt, entry_label, in_file, optional_text};

use crate::masked::push_masked;
use lint_findings::{File, Finding, Severity, SourcePosition};
use std::alloc::AllocError;

/// Appends the first line of a finding that is at this place, with the place and the severity in
/// colours if `coloured` is true.
///
/// # Errors
/// [`AllocError`] if memory runs out; a part of it may have been appended.
pub fn push_finding_line(
    text: &mut String,
    file: &File,
    finding: &Finding,
    place: SourcePosition,
    coloured: bool,
) -> Result<(), AllocError>
    requires { IsAt file.now finding.now place }
    ensures { OnOk result (Appends text.old text.new (line_by coloured (in_file file.now finding.now))) }
{
    push_head(text, file, finding, place, coloured)?;
    text.push_str(": ")?;
    push_masked_label(text, finding)?;
    let code = finding.code;
    writeln!(text, " [{code}]")
}

/// Appends where a finding is, and its severity.
fn push_head(
    text: &mut String,
    file: &File,
    finding: &Finding,
    place: SourcePosition,
    coloured: bool,
) -> Result<(), AllocError>
    requires { IsAt file.now finding.now place }
    ensures { OnOk result (Appends text.old text.new (head_by coloured (in_file file.now finding.now))) }
{
    if coloured {
        push_coloured_head(text, file, finding, place)
    } else {
        push_plain_head(text, file, finding, place)
    }
}

/// Appends where a finding is, and its severity, without colours.
fn push_plain_head(
    text: &mut String,
    file: &File,
    finding: &Finding,
    place: SourcePosition,
) -> Result<(), AllocError>
    requires { IsAt file.now finding.now place }
    ensures { OnOk result (Appends text.old text.new (head_by false (in_file file.now finding.now))) }
{
    push_masked(text, file.name)?;
    let severity = severity_name(finding.severity);
    write!(text, ":{place}: {severity}")
}

/// Appends where a finding is, and its severity, each in its colour.
fn push_coloured_head(
    text: &mut String,
    file: &File,
    finding: &Finding,
    place: SourcePosition,
) -> Result<(), AllocError>
    requires { IsAt file.now finding.now place }
    ensures { OnOk result (Appends text.old text.new (head_by true (in_file file.now finding.now))) }
{
    text.push_str("\x1b[1m")?;
    push_masked(text, file.name)?;
    let severity = coloured_severity(finding.severity);
    write!(text, ":{place}\x1b[0m: {severity}")
}

/// Appends what is wrong, after the entry that it is wrong with.
fn push_masked_label(text: &mut String, finding: &Finding) -> Result<(), AllocError>
    ensures { OnOk result (Appends text.old text.new (masked_text (labelled_text (finding_view finding.now)))) }
{
    push_masked_entry(text, &finding.entry)?;
    push_masked(text, &finding.text)
}

/// Appends an entry and a colon, if there is an entry.
fn push_masked_entry(text: &mut String, entry: &Option<String>) -> Result<(), AllocError>
    ensures { OnOk result (Appends text.old text.new (masked_text (entry_label (optional_text entry.now)))) }
{
    match entry {
        Some(entry) => {
            push_masked(text, entry)?;
            text.push_str(": ")
        }
        None => Ok(()),
    }
}

/// The word for a severity in its colour.
fn coloured_severity(severity: Severity) -> &'static str
    ensures { result.now ≡ coloured (severity_colour (severity_view severity)) (severity_text (severity_view severity)) }
{
    match severity {
        Severity::Error => "\x1b[1;31merror\x1b[0m",
        Severity::Warning => "\x1b[1;33mwarning\x1b[0m",
        Severity::Note => "\x1b[1;36mnote\x1b[0m",
    }
}

/// The caret below a finding, in the colour of its severity if `coloured` is true.
pub(crate) fn caret(coloured: bool, severity: Severity) -> &'static str
    ensures { result.now ≡ caret_by coloured (severity_view severity) }
{
    if !coloured {
        return "^";
    }
    match severity {
        Severity::Error => "\x1b[1;31m^\x1b[0m",
        Severity::Warning => "\x1b[1;33m^\x1b[0m",
        Severity::Note => "\x1b[1;36m^\x1b[0m",
    }
}

/// The word for a severity.
pub fn severity_name(severity: Severity) -> &'static str
    ensures { result.now ≡ severity_text (severity_view severity) }
{
    match severity {
        Severity::Error => "error",
        Severity::Warning => "warning",
        Severity::Note => "note",
    }
}
