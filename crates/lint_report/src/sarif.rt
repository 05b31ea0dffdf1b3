//! Findings as results of SARIF 2.1.0.

ghost use Rattle.lint_report.specs.Changes.{Appends};
ghost use Rattle.std.specs.Prelude.{◌≡◌, IfOk, OnOk, string_bytes};
ghost use Rattle.std.specs.List.{flat_map};
ghost use Rattle.lint_findings.specs.PlaceView.{place_position};
ghost use Rattle.lint_findings.specs.View.{finding_view};
ghost use Rattle.lint_findings.specs.Listed.{listed_item};
ghost use Rattle.lint_findings.specs.SarifReport.{message_text, sarif_location, sarif_place, sarif_region, sarif_result, uri_byte};
ghost use Rattle.lint_report.specs.View.{IsAt, in_file};
ghost use Rattle.serde_json.specs.View.{view};

use crate::listed::push_item;
use crate::severity_name;
use lint_findings::{File, Finding, SourcePosition};
use percent_encoding::{AsciiSet, NON_ALPHANUMERIC, ascii_set, percent_encode};
use serde_json::{Value, json};
use std::alloc::{AllocError, Global};

/// The bytes of a path that a URI can't have as they are.
const ESCAPED: AsciiSet = ascii_set!(
    NON_ALPHANUMERIC
        .remove(b'-')
        .remove(b'.')
        .remove(b'_')
        .remove(b'~')
        .remove(b'/')
);

/// The document before its results.
pub(crate) const HEAD: &str =
    "{\"$schema\":\"https://json.schemastore.org/sarif-2.1.0.json\",\"version\":\"2.1.0\",\"runs\":[{\"tool\":{\"driver\":{\"name\":\"ftl\"}},\"columnKind\":\"unicodeCodePoints\",\"results\":[";

/// The document after them.
pub(crate) const TAIL: &str = "\n]}]}\n";

/// Appends the result of a finding that is at this place.
pub(crate) fn push_result(
    text: &mut String,
    alloc: Global,
    file: &File,
    finding: &Finding,
    place: SourcePosition,
) -> Result<(), AllocError>
    requires { IsAt file.now finding.now place }
    ensures { OnOk result (Appends text.old text.new (listed_item (sarif_result (in_file file.now finding.now)))) }
{
    let result = result_value(alloc, file, finding, place)?;
    push_item(text, alloc, &result)
}

/// The result of a finding that is at this place.
fn result_value(
    alloc: Global,
    file: &File,
    finding: &Finding,
    place: SourcePosition,
) -> Result<Value, AllocError>
    requires { IsAt file.now finding.now place }
    ensures { IfOk result (λ value. view value ≡ sarif_result (in_file file.now finding.now)) }
{
    let message = message(alloc, finding)?;
    let location = location_value(alloc, file, finding, place)?;
    json!(in alloc; {
        "ruleId": finding.code,
        "level": severity_name(finding.severity),
        "message": {"text": message.as_str()},
        "locations": [&location]
    })
}

/// The location of a finding that is at this place.
fn location_value(
    alloc: Global,
    file: &File,
    finding: &Finding,
    place: SourcePosition,
) -> Result<Value, AllocError>
    requires { IsAt file.now finding.now place }
    ensures { IfOk result (λ value. view value ≡ sarif_location (in_file file.now finding.now)) }
{
    let physical = place_value(alloc, file.name, place)?;
    json!(in alloc; {"physicalLocation": &physical})
}

/// A place in the file of this path.
fn place_value(alloc: Global, path: &str, place: SourcePosition) -> Result<Value, AllocError>
    ensures { IfOk result (λ value. view value ≡ sarif_place path.now (place_position place)) }
{
    let uri = uri(alloc, path)?;
    let region = region_value(alloc, place)?;
    json!(in alloc; {"artifactLocation": {"uri": uri.as_str()}, "region": &region})
}

/// The region that begins at a place.
fn region_value(alloc: Global, place: SourcePosition) -> Result<Value, AllocError>
    ensures { IfOk result (λ value. view value ≡ sarif_region (place_position place)) }
{
    json!(in alloc; {"startLine": place.line(), "startColumn": place.column()})
}

/// A path as a URI.
fn uri(alloc: Global, path: &str) -> Result<String, AllocError>
    ensures { IfOk result (λ uri. string_bytes uri ≡ flat_map uri_byte path.now) }
{
    let mut uri = String::new(alloc);
    percent_encode(path.as_bytes(), ESCAPED).append_to(&mut uri)?;
    Ok(uri)
}

/// A finding in words: its entry, what is wrong, and its hint in brackets.
pub(crate) fn message(alloc: Global, finding: &Finding) -> Result<String, AllocError>
    ensures { IfOk result (λ text. string_bytes text ≡ message_text (finding_view finding.now)) }
{
    let mut text = String::new(alloc);
    if let Some(entry) = &finding.entry {
        write!(text, "{entry}: ")?;
    }
    text.push_str(&finding.text)?;
    if let Some(hint) = &finding.hint {
        write!(text, " ({hint})")?;
    }
    Ok(text)
}
