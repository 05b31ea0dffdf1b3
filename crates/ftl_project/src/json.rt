//! Findings of a project as lines of JSON.
ghost use Rattle.std.specs.Prelude.{◌≡◌, IfOk, OnOk, option_copied, string_bytes};
ghost use Rattle.lint_findings.specs.View.{severity_view};
ghost use Rattle.lint_findings.specs.JsonReport.{text_or_null};
ghost use Rattle.lint_findings.specs.Report.{is_shown};
ghost use Rattle.lint_report.specs.Changes.{Appends};
ghost use Rattle.lint_report.specs.ReportChanges.{Puts};
ghost use Rattle.lint_report.specs.View.{IsAt, in_file, optional_text};
ghost use Rattle.serde_json.specs.Data.{number, string, unsigned};
ghost use Rattle.serde_json.specs.View.{view};
ghost use Rattle.ftl_project.specs.JsonLines.{file_json, lines_of, piece_of, project_data, text_of};

use lint_findings::{File, FileFindings, Finding, Severity, SourcePosition};
use lint_report::severity_name;
use serde_json::{Map, Value};
use std::alloc::{AllocError, Global};

/// Appends a line for each finding of files: an object with the keys of `lint` and the language,
/// which is null for the reference. Notes are left out unless `notes` is true.
///
/// # Errors
/// [`AllocError`] if memory runs out; a part of them may have been appended.
pub fn push_json_findings(
    text: &mut String,
    alloc: Global,
    notes: bool,
    locale: Option<&str>,
    found: &[FileFindings<'_>],
) -> Result<(), AllocError>
    ensures { OnOk result (Appends text.old text.new
        (lines_of locale.entry notes found.now)) }
{
    for file in found {
        push_file(text, alloc, notes, locale, file)?;
    }
    Ok(())
}

/// Appends a line for each finding of a file.
fn push_file(
    text: &mut String,
    alloc: Global,
    notes: bool,
    locale: Option<&str>,
    found: &FileFindings<'_>,
) -> Result<(), AllocError>
    ensures { OnOk result (Appends text.old text.new
        (file_json (option_copied locale.entry) notes found.now)) }
{
    let file = &found.file;
    let mut place = SourcePosition::start();
    for finding in &found.findings {
        place = place.moved_to(file.source, finding.offset);
        push_if_shown(text, alloc, notes, locale, file, finding, place)?;
    }
    Ok(())
}

/// Appends the line of a finding that is at this place, unless it is a note and notes are left out.
fn push_if_shown(
    text: &mut String,
    alloc: Global,
    notes: bool,
    locale: Option<&str>,
    file: &File<'_>,
    finding: &Finding,
    place: SourcePosition,
) -> Result<(), AllocError>
    requires { IsAt file.now finding.now place }
    ensures { OnOk result (Appends text.old text.new
        (piece_of locale.entry notes file.now finding.now)) }
{
    if is_shown(finding.severity, notes) {
        let json = finding_json(alloc, locale, file, finding, place)?;
        writeln!(text, "{json}")
    } else {
        Ok(())
    }
}

/// Whether a finding of this severity is shown.
pub(crate) fn is_shown(severity: Severity, notes: bool) -> bool
    ensures { result ≡ is_shown notes (severity_view severity) }
{
    match severity {
        Severity::Error | Severity::Warning => true,
        Severity::Note => notes,
    }
}

/// The object of a finding that is at this place, as text.
fn finding_json(
    alloc: Global,
    locale: Option<&str>,
    file: &File<'_>,
    finding: &Finding,
    place: SourcePosition,
) -> Result<String, AllocError>
    requires { IsAt file.now finding.now place }
    ensures { IfOk result (λ json. string_bytes json
        ≡ text_of locale.entry file.now finding.now) }
{
    finding_value(alloc, locale, file, finding, place)?.to_string(alloc)
}

/// The object of a finding that is at this place. The keys are in the order of their bytes.
fn finding_value(
    alloc: Global,
    locale: Option<&str>,
    file: &File<'_>,
    finding: &Finding,
    place: SourcePosition,
) -> Result<Value, AllocError>
    requires { IsAt file.now finding.now place }
    ensures { IfOk result (λ value. view value
        ≡ project_data (option_copied locale.entry) (in_file file.now finding.now)) }
{
    let mut members = Map::new(alloc);
    put_text(&mut members, alloc, "code", finding.code)?;
    put_number(&mut members, alloc, "column", place.column())?;
    put_owned(&mut members, alloc, "entry", &finding.entry)?;
    put_text(&mut members, alloc, "file", file.name)?;
    put_owned(&mut members, alloc, "hint", &finding.hint)?;
    put_number(&mut members, alloc, "line", place.line())?;
    put_optional(&mut members, alloc, "locale", locale)?;
    put_number(&mut members, alloc, "offset", finding.offset)?;
    let severity = severity_name(finding.severity);
    put_text(&mut members, alloc, "severity", severity)?;
    put_text(&mut members, alloc, "text", &finding.text)?;
    Ok(Value::Object(members))
}

/// Puts a text at a key.
pub(crate) fn put_text(
    members: &mut Map<String, Value>,
    alloc: Global,
    key: &str,
    text: &str,
) -> Result<(), AllocError>
    ensures { OnOk result (Puts members.old.entries members.new.entries key.now (string text.now)) }
{
    let value = Value::try_from_str(alloc, text)?;
    serde_json::put(members, alloc, key, value)
}

/// Puts a text at a key, or null if there is none.
pub(crate) fn put_optional(
    members: &mut Map<String, Value>,
    alloc: Global,
    key: &str,
    text: Option<&str>,
) -> Result<(), AllocError>
    ensures { OnOk result (Puts members.old.entries members.new.entries key.now (text_or_null (option_copied text.entry))) }
{
    match text {
        Some(text) => put_text(members, alloc, key, text),
        None => serde_json::put(members, alloc, key, Value::Null),
    }
}

/// Puts a text that may be there at a key, or null.
fn put_owned(
    members: &mut Map<String, Value>,
    alloc: Global,
    key: &str,
    text: &Option<String>,
) -> Result<(), AllocError>
    ensures { OnOk result (Puts members.old.entries members.new.entries key.now (text_or_null (optional_text text.now))) }
{
    match text {
        Some(text) => put_text(members, alloc, key, text),
        None => serde_json::put(members, alloc, key, Value::Null),
    }
}

/// Puts a number at a key.
fn put_number(
    members: &mut Map<String, Value>,
    alloc: Global,
    key: &str,
    count: usize,
) -> Result<(), AllocError>
    ensures { OnOk result (Puts members.old.entries members.new.entries key.now (number (unsigned count))) }
{
    serde_json::put(members, alloc, key, Value::from(count))
}
