//! The findings of junk.
#![tactic(auto, using(fluent_tokens::proofs::Counted::cuts))]

ghost use Rattle.std.specs.Prelude.{◌≡◌, IfOk, map, option_map, string_bytes};
ghost use Rattle.fluent_grammar.specs.Tiling as grammar;
ghost use Rattle.fluent_parsed.specs.ErrorView.{error_told, error_view, kind_view};
ghost use Rattle.fluent_parser.specs.Refusals.{AreBetweenCharacters, IsBetweenCharacters};
ghost use Rattle.lint_findings.specs.View.{finding_view};
ghost use Rattle.lint_findings.specs.Hints as hints;
ghost use Rattle.lint_findings.specs.SyntaxErrors as errors;
ghost use Rattle.lint_findings.specs.SyntaxFindings as syntax;
ghost use Rattle.lint_findings.specs.Tiles.{tiles};
ghost use Rattle.lint_files.specs.Kinds.{refusal_by};
ghost use Rattle.lint_files.specs.SourceFindings as source_findings;

use crate::hints::hint;
use crate::mark::{has_mark, mark_finding};
use crate::names::name_at_front;
use crate::words::Sentence;
use fluent_parser::{ErrorKind, ParserError, Refusal, refusals_at};
use lint_findings::{Finding, Severity};
use std::alloc::{AllocError, Global};

/// The finding of each junk of a source, in their order. The errors are those that
/// [`parse`](fluent_parser::parse) reports of the source.
///
/// A finding is where its error is. But if an attribute can't be read, its line is junk: then the
/// finding is where reading the attribute stopped, and says why. If the source begins with a byte
/// order mark, the finding of its first line says that.
///
/// ```no_run
/// let findings = match parse(alloc, source) {
///     Err(Error::Broken(_, errors)) => syntax_findings(alloc, source, &errors)?,
///     _ => Vec::new(alloc),
/// };
/// ```
///
/// # Errors
/// [`AllocError`] if memory runs out; nothing is kept.
pub fn syntax_findings(
    alloc: Global,
    source: &str,
    errors: &[ParserError],
) -> Result<Vec<Finding>, AllocError>
    requires { map error_view errors.now ≡ map error_told (grammar.errors source.now) }
    ensures { IfOk result (λ found. map finding_view found.items
        ≡ syntax.syntax_findings (tiles source.now)) }
{
    if errors.is_empty() {
        return Ok(Vec::new(alloc));
    }
    let starts = junk_starts(alloc, errors)?;
    let refusals = refusals_at(alloc, source, &starts)?;
    findings_of(alloc, source, &refusals)
}

/// Where the junk of each error begins.
fn junk_starts(alloc: Global, errors: &[ParserError]) -> Result<Vec<usize>, AllocError>
    ensures { IfOk result (λ starts. starts.items
        ≡ source_findings.starts_of (map error_view errors.now)) }
{
    let mut starts = Vec::with_capacity(alloc, errors.len())?;
    for error in errors {
        if let Some(junk) = &error.slice {
            starts.push(junk.start)?;
        }
    }
    Ok(starts)
}

/// The findings of refusals of a source.
fn findings_of(
    alloc: Global,
    source: &str,
    refusals: &[Refusal],
) -> Result<Vec<Finding>, AllocError>
    requires { AreBetweenCharacters source.now refusals.now }
    ensures { IfOk result (λ found. map finding_view found.items
        ≡ source_findings.findings_by source.now refusals.now) }
{
    let mut findings = Vec::with_capacity(alloc, refusals.len())?;
    for refusal in refusals {
        findings.push(finding_of(alloc, source, refusal)?)?;
    }
    Ok(findings)
}

/// The finding of a refusal of a source: of the byte order mark, if that is what is refused at its
/// front.
fn finding_of(alloc: Global, source: &str, refusal: &Refusal) -> Result<Finding, AllocError>
    requires { IsBetweenCharacters source.now refusal.now }
    ensures { IfOk result (λ found. finding_view found
        ≡ source_findings.finding_by source.now refusal.now) }
{
    let junk = &source[refusal.start..];
    if refusal.start == 0 && has_mark(junk) {
        mark_finding(alloc)
    } else {
        refusal_finding(alloc, source, refusal)
    }
}

/// The finding that says what is refused.
fn refusal_finding(alloc: Global, source: &str, refusal: &Refusal) -> Result<Finding, AllocError>
    requires { IsBetweenCharacters source.now refusal.now }
    ensures { IfOk result (λ found. finding_view found
        ≡ source_findings.refusal_finding_by source.now refusal.now) }
{
    let junk = &source[refusal.start..];
    let at = &source[refusal.place..];
    let entry = entry_of(alloc, junk)?;
    let text = Sentence::new(&refusal.kind, junk, at).to_string(alloc)?;
    let hint = hint_of(alloc, &refusal.kind, junk, at)?;
    Ok(Finding {
        offset: offset_of(refusal),
        code: "syntax",
        severity: Severity::Error,
        entry,
        text,
        hint,
    })
}

/// The entry whose junk it is, or its attribute, if the junk begins with a name.
fn entry_of(alloc: Global, junk: &str) -> Result<Option<String>, AllocError>
    ensures { IfOk result (λ entry. option_map string_bytes entry ≡ errors.name_at_front junk.now) }
{
    match name_at_front(junk) {
        Some(name) => Ok(Some(name.to_string(alloc)?)),
        None => Ok(None),
    }
}

/// The hint at the cause of an error of this kind in junk, if there is one. `at` is the text from
/// the error on.
fn hint_of(
    alloc: Global,
    kind: &ErrorKind,
    junk: &str,
    at: &str,
) -> Result<Option<String>, AllocError>
    ensures { IfOk result (λ found. option_map string_bytes found
        ≡ hints.hint junk.now (refusal_by kind.now at.now)) }
{
    match hint(kind, junk, at) {
        Some(words) => Ok(Some(String::from_str(alloc, words)?)),
        None => Ok(None),
    }
}

/// Where the finding of a refusal is: an entry with nothing to hold is reported at its start.
fn offset_of(refusal: &Refusal) -> usize
    ensures { result ≡ source_findings.offset_of refusal.now.start refusal.now.place
        (kind_view refusal.now.kind) }
{
    match &refusal.kind {
        ErrorKind::ExpectedMessageField { .. } | ErrorKind::ExpectedTermField { .. } => {
            refusal.start
        }
        _ => refusal.place,
    }
}
