//! Findings as lines of JSON.

ghost use Rattle.lint_report.specs.Changes.{Appends};
ghost use Rattle.lint_report.specs.ReportChanges.{Puts};
ghost use Rattle.std.specs.Prelude.{◌≡◌, IfOk, OnOk, string_bytes};
ghost use Rattle.lint_findings.specs.JsonReport.{finding_data, json_line, text_or_null};
ghost use Rattle.lint_report.specs.View.{IsAt, in_file, optional_text};
ghost use Rattle.serde_json.specs.Data.{number, string, unsigned};
ghost use Rattle.serde_json.specs.View.{view};
ghost use Rattle.serde_json.specs.Written.{compact_text};

use crate::severity_name;
use lint_findings::{File, Finding, SourcePosition};
use serde_json::{Map, Value};
use std::alloc::{AllocError, Global};

/// Appends the line of a finding that is at this place: an object with all keys.
pub(crate) fn push_json_line(
    text: &mut String,
    alloc: Global,
    file: &File,
    finding: &Finding,
    place: SourcePosition,
) -> Result<(), AllocError>
    requires { IsAt file.now finding.now place }
    ensures { OnOk result (Appends text.old text.new (json_line (finding_data (in_file file.now finding.now)))) }
{
    let json = finding_json(alloc, file, finding, place)?;
    writeln!(text, "{json}")
}

/// The object of a finding that is at this place, as text.
fn finding_json(
    alloc: Global,
    file: &File,
    finding: &Finding,
    place: SourcePosition,
) -> Result<String, AllocError>
    requires { IsAt file.now finding.now place }
    ensures { IfOk result (λ json. string_bytes json
        ≡ compact_text (finding_data (in_file file.now finding.now))) }
{
    finding_value(alloc, file, finding, place)?.to_string(alloc)
}

/// The object of a finding that is at this place. The keys are in the order of their bytes.
fn finding_value(
    alloc: Global,
    file: &File,
    finding: &Finding,
    place: SourcePosition,
) -> Result<Value, AllocError>
    requires { IsAt file.now finding.now place }
    ensures { IfOk result (λ value. view value ≡ finding_data (in_file file.now finding.now)) }
{
    let mut members = Map::new(alloc);
    put_text(&mut members, alloc, "code", finding.code)?;
    put_number(&mut members, alloc, "column", place.column())?;
    put_optional_text(&mut members, alloc, "entry", &finding.entry)?;
    put_text(&mut members, alloc, "file", file.name)?;
    put_optional_text(&mut members, alloc, "hint", &finding.hint)?;
    put_number(&mut members, alloc, "line", place.line())?;
    put_number(&mut members, alloc, "offset", finding.offset)?;
    put_text(
        &mut members,
        alloc,
        "severity",
        severity_name(finding.severity),
    )?;
    put_text(&mut members, alloc, "text", &finding.text)?;
    Ok(Value::Object(members))
}

/// Puts a text at a key.
pub(crate) fn put_text(
    members: &mut Map<String, Value>,
    alloc: Global,
    key: &str,
    text: &str,
) -> Result<(), AllocError>
    ensures { OnOk result (Puts members.old.entries members.new.entries key.now (string text.now)) }
{
    let value = Value::try_from_str(alloc, text)?;
    serde_json::put(members, alloc, key, value)
}

/// Puts a text at a key, or null if there is none.
fn put_optional_text(
    members: &mut Map<String, Value>,
    alloc: Global,
    key: &str,
    text: &Option<String>,
) -> Result<(), AllocError>
    ensures { OnOk result (Puts members.old.entries members.new.entries key.now (text_or_null (optional_text text.now))) }
{
    match text {
        Some(text) => put_text(members, alloc, key, text),
        None => serde_json::put(members, alloc, key, Value::Null),
    }
}

/// Puts a number at a key.
pub(crate) fn put_number(
    members: &mut Map<String, Value>,
    alloc: Global,
    key: &str,
    count: usize,
) -> Result<(), AllocError>
    ensures { OnOk result (Puts members.old.entries members.new.entries key.now (number (unsigned count))) }
{
    serde_json::put(members, alloc, key, Value::from(count))
}
