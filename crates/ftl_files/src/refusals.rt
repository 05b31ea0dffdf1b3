//! The reports on sources that have no tidy text.
ghost use Rattle.std.specs.Prelude.{◌≡◌, IfOk, IfSome, drop, map, option_map, string_bytes};
ghost use Rattle.std.specs.Option.{option_map_or};
ghost use Rattle.fluent_grammar.specs.Tiling as tiling;
ghost use Rattle.fluent_parsed.specs.ErrorView.{error_told, error_view};
ghost use Rattle.fluent_tidy.specs.Reasons.{IsReason};
ghost use Rattle.fluent_tidy.specs.TidyText.{plain};
ghost use Rattle.lint_findings.specs.View.{finding_view};
ghost use Rattle.ftl_files.specs.TidyView.{end_view};
ghost use Rattle.ftl_files.specs.Tidying.{HasItsErrors, IsIdOf, IsRefusedFor, IsReport, IsReturn, IsShapeAt, damage_report, end_for, finding_report, findings_report};

use crate::depth::depth_report;
use crate::ends::FileEnd;
use fluent_parser::ParserError;
use fluent_tidy::{TidyError, with_line_feeds, without_mark};
use lint_files::syntax_findings;
use lint_findings::{File, FileFindings, Finding, Severity};
use lint_report::{Format, report};
use memchr::{memchr, memchr3};
use std::alloc::{AllocError, Global};

/// A hint at how to change an entry that would be read otherwise.
const SHAPES: &str =
    "write `.`, `[`, `*` or `{` at the start of a line of text as `{\"[\"}`, give each variant a name, and each comment a text";

/// The outcome for the source of a file that has no tidy text for this reason.
///
/// # Errors
/// [`AllocError`] if memory runs out; nothing is kept.
pub(crate) fn refused_source(
    alloc: Global,
    name: &str,
    source: &str,
    reason: TidyError,
) -> Result<FileEnd, AllocError>
    requires right { IsReason source.now reason }
    ensures { IfOk result (λ end. IsRefusedFor name.now source.now reason (end_view end)) }
{
    let plain = with_line_feeds(alloc, without_mark(source))?;
    let report = refusal_report(alloc, name, plain.as_str(), &reason)?;
    Ok(end_for(&reason, report))
}

/// The outcome for a source with this reason and this report.
fn end_for(reason: &TidyError, report: String) -> FileEnd
    ensures { end_view result ≡ end_for reason.now (string_bytes report) }
{
    match reason {
        TidyError::Memory => FileEnd::OutOfMemory(report),
        TidyError::CarriageReturn | TidyError::Damaged(_) | TidyError::NotTidy(_) => {
            FileEnd::Refused(report)
        }
    }
}

/// The report on the source of a file, without a mark and with LF line ends, which has no tidy text
/// for this reason.
fn refusal_report(
    alloc: Global,
    name: &str,
    source: &str,
    reason: &TidyError,
) -> Result<String, AllocError>
    requires { HasItsErrors source.now reason.now }
    ensures { IfOk result (λ report.
        IsReport name.now source.now reason.now (string_bytes report)) }
{
    match reason {
        TidyError::Memory => memory_report(alloc, name, source),
        TidyError::CarriageReturn => report_on(alloc, name, source, return_finding(alloc, source)?),
        TidyError::Damaged(errors) => damage_report(alloc, name, source, errors),
        TidyError::NotTidy(offset) => {
            report_on(alloc, name, source, shape_finding(alloc, source, *offset)?)
        }
    }
}

/// The report on a source for which memory ran out, or which nests too deep.
fn memory_report(alloc: Global, name: &str, source: &str) -> Result<String, AllocError>
    ensures { IfOk result (λ report. IsReport name.now source.now TidyError.Memory (string_bytes report)) }
{
    match depth_report(alloc, name, source)? {
        Some(report) => Ok(report),
        None => format!(in alloc; "ftl: {name}: memory ran out\n"),
    }
}

/// The report on a finding of a file.
fn report_on(
    alloc: Global,
    name: &str,
    source: &str,
    finding: Finding,
) -> Result<String, AllocError>
    ensures { IfOk result (λ report. string_bytes report
        ≡ finding_report name.now source.now (finding_view finding)) }
{
    let mut findings = Vec::with_capacity(alloc, 1)?;
    findings.push(finding)?;
    report_all(alloc, name, source, findings)
}

/// The report on findings of a file.
fn report_all(
    alloc: Global,
    name: &str,
    source: &str,
    findings: Vec<Finding>,
) -> Result<String, AllocError>
    ensures { IfOk result (λ r. string_bytes r
        ≡ findings_report name.now source.now (map finding_view findings.items)) }
{
    let file = File { name, source };
    report(
        alloc,
        Format::Text,
        true,
        &[FileFindings { file, findings }],
        &[],
    )
}

/// The report on a source with junk, which has these errors: its first finding.
fn damage_report(
    alloc: Global,
    name: &str,
    source: &str,
    errors: &[ParserError],
) -> Result<String, AllocError>
    requires { map error_view errors.now ≡ map error_told (tiling.errors source.now) }
    ensures { IfOk result (λ report. string_bytes report ≡ damage_report name.now source.now) }
{
    let mut findings = syntax_findings(alloc, source, errors)?;
    findings.truncate(1);
    report_all(alloc, name, source, findings)
}

/// The first carriage return of a source.
fn return_finding(alloc: Global, source: &str) -> Result<Finding, AllocError>
    ensures { IfOk result (λ finding. IsReturn source.now (finding_view finding)) }
{
    Ok(Finding {
        offset: memchr(b'\r', source.as_bytes()).unwrap_or(source.len()),
        code: "carriage-return",
        severity: Severity::Error,
        entry: None,
        text: String::from_str(alloc, "a carriage return that ends no line")?,
        hint: None,
    })
}

/// The entry of a source that begins at an offset, and has no tidy text by itself.
fn shape_finding(alloc: Global, source: &str, offset: usize) -> Result<Finding, AllocError>
    ensures { IfOk result (λ finding. IsShapeAt source.now offset (finding_view finding)) }
{
    Ok(Finding {
        offset,
        code: "no-tidy-text",
        severity: Severity::Error,
        entry: entry_at(alloc, source, offset)?,
        text: String::from_str(alloc, "written anew, this would be read otherwise")?,
        hint: Some(String::from_str(alloc, SHAPES)?),
    })
}

/// The id of the entry at an offset, if it has one.
fn entry_at(alloc: Global, source: &str, offset: usize) -> Result<Option<String>, AllocError>
    ensures { IfOk result (λ entry. IfSome entry (λ id.
        IsIdOf (drop offset source.now) (string_bytes id))) }
{
    let Some(entry) = source.get(offset..) else {
        return Ok(None);
    };
    match id_of(entry) {
        Some(id) if !id.is_empty() && !id.starts_with('#') => {
            Ok(Some(String::from_str(alloc, id)?))
        }
        _ => Ok(None),
    }
}

/// The id at the front of an entry. Of a comment it is the sign, or empty.
fn id_of(entry: &str) -> Option<&str>
    ensures { IfSome result (λ id. IsIdOf entry.now id.now) }
{
    let end = memchr3(b' ', b'=', b'\n', entry.as_bytes()).unwrap_or(entry.len());
    entry.get(..end)
}
