//! Findings as issues of a code quality report of GitLab.

ghost use Rattle.lint_report.specs.Changes.{Appends};
ghost use Rattle.std.specs.Prelude.{◌≡◌, IfOk, OnOk, codes, string_bytes};
ghost use Rattle.std.specs.Option.{unwrap_or};
ghost use Rattle.lint_findings.specs.View.{severity_view};
ghost use Rattle.lint_findings.specs.GitlabReport.{fingerprint as fingerprint_text, gitlab_issue, gitlab_severity};
ghost use Rattle.lint_findings.specs.Listed.{listed_item};
ghost use Rattle.lint_report.specs.View.{IsAt, in_file, optional_text};
ghost use Rattle.serde_json.specs.View.{view};

use crate::listed::push_item;
use crate::sarif::message;
use lint_findings::{File, Finding, Severity, SourcePosition};
use serde_json::{Value, json};
use std::alloc::{AllocError, Global};

/// Appends the issue of a finding that is at this place.
pub(crate) fn push_issue(
    text: &mut String,
    alloc: Global,
    file: &File,
    finding: &Finding,
    place: SourcePosition,
) -> Result<(), AllocError>
    requires { IsAt file.now finding.now place }
    ensures { OnOk result (Appends text.old text.new (listed_item (gitlab_issue (in_file file.now finding.now)))) }
{
    let issue = issue_value(alloc, file, finding, place)?;
    push_item(text, alloc, &issue)
}

/// The issue of a finding that is at this place.
fn issue_value(
    alloc: Global,
    file: &File,
    finding: &Finding,
    place: SourcePosition,
) -> Result<Value, AllocError>
    requires { IsAt file.now finding.now place }
    ensures { IfOk result (λ value. view value ≡ gitlab_issue (in_file file.now finding.now)) }
{
    let description = message(alloc, finding)?;
    let fingerprint = fingerprint(alloc, file, finding)?;
    json!(in alloc; {
        "check_name": finding.code,
        "description": description.as_str(),
        "fingerprint": fingerprint.as_str(),
        "severity": severity_word(finding.severity),
        "location": {"path": file.name, "lines": {"begin": place.line()}}
    })
}

/// A text by which GitLab knows the finding in another version of the file. It has no line.
fn fingerprint(alloc: Global, file: &File, finding: &Finding) -> Result<String, AllocError>
    ensures { IfOk result (λ text. string_bytes text ≡ fingerprint_text (in_file file.now finding.now)) }
{
    let entry = entry_or_nothing(&finding.entry);
    let code = finding.code;
    let name = file.name;
    let text = finding.text.as_str();
    format!(in alloc; "{code}:{name}:{entry}:{text}")
}

/// The entry of a finding, or an empty text.
fn entry_or_nothing(entry: &Option<String>) -> &str
    ensures { result.now ≡ unwrap_or (optional_text entry.now) (codes "") }
{
    match entry {
        Some(entry) => entry.as_str(),
        None => "",
    }
}

/// GitLab's word for a severity.
fn severity_word(severity: Severity) -> &'static str
    ensures { result.now ≡ gitlab_severity (severity_view severity) }
{
    match severity {
        Severity::Error => "major",
        Severity::Warning => "minor",
        Severity::Note => "info",
    }
}
