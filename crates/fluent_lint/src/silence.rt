//! Comments that leave findings out.
#![tactic(auto)]

ghost use Rattle.std.specs.Prelude.{◌≡◌, ◌++◌, IfOk, OnOk, map};
ghost use Rattle.lint_findings.specs.View.{finding_view};
ghost use Rattle.fluent_lint.specs.Silence.{between_commas, is_inside, is_silenced, is_unused, silences, silences_any, silences_finding, silences_from, unused_finding};
ghost use Rattle.fluent_resource.specs.Sources.{texts};
ghost use Rattle.fluent_lint.specs.SilenceView.{AddsCodes, AddsLine, AreUnsilenced, AreUnused, Hears, LeavesOut, silence_view, silences_view};

use crate::lone::finding;
use crate::looked::{Looked, is_silenced_code};
use crate::reported::order;
use crate::scopes::{after_line, lines_of, silencing};
use crate::table::sum;
use lint_findings::{Finding, Severity};
use memchr::memmem;
use std::alloc::{AllocError, Global};

/// Leaves out the findings of a source that its comments leave out, and adds those of comments that
/// leave nothing out. If it isn't known what is looked for, comments don't count.
///
/// # Errors
/// [`AllocError`] if memory runs out; some may be left out then.
pub fn hear(
    alloc: Global,
    looked: Option<Looked>,
    source: &str,
    findings: &mut Vec<Finding>,
) -> Result<(), AllocError>
    ensures { OnOk result (Hears looked source.now findings.old findings.new) }
{
    let Some(looked) = looked else {
        return Ok(());
    };
    let silences = silences_of(alloc, source)?;
    match silences.as_slice() {
        [] => Ok(()),
        [_, ..] => leave_out(alloc, looked, &silences, findings),
    }
}

/// The findings of a code that a comment leaves out, if they are from an offset on, and before
/// another one.
#[derive(Drop)]
struct Silence<'s> {
    /// The offset of the comment's line.
    at: usize,
    from: usize,
    to: usize,
    code: &'s str,
}

impl Silence<'_> {
    /// Whether it leaves a finding out.
    fn has(&self, finding: &Finding) -> bool
        ensures { result ≡ silences_finding (silence_view self.now) (finding_view finding.now) }
    {
        *finding.code == *self.code
            && self.is_around(finding.offset)
            && is_silenced_code(finding.code)
    }

    /// Whether an offset is inside.
    fn is_around(&self, offset: usize) -> bool
        ensures { result ≡ is_inside (silence_view self.now) offset }
    {
        self.from <= offset && offset < self.to
    }

    /// Whether its code is looked for, and it leaves out none of these findings.
    fn is_unused(&self, looked: Looked, findings: &[Finding]) -> bool
        ensures { result ≡ is_unused looked (map finding_view findings.now) (silence_view self.now) }
    {
        looked.has(self.code) && !self.has_any(findings)
    }

    /// Whether it leaves one of these findings out.
    fn has_any(&self, findings: &[Finding]) -> bool
        ensures { result ≡ silences_any (silence_view self.now) (map finding_view findings.now) }
    {
        findings.iter().any(|finding| self.has(finding))
    }

    /// That it leaves nothing out.
    fn unused_finding(&self, alloc: Global) -> Result<Finding, AllocError>
        ensures { IfOk result (λ made. finding_view made ≡ unused_finding (silence_view self.now)) }
    {
        let code = self.code;
        let text = format!(in alloc; "`{code}` has nothing to ignore here")?;
        Ok(finding(Severity::Warning, "unused-ignore", self.at, text))
    }
}

/// What the comments of a source leave out, in their order. Most sources have no such comment.
fn silences_of<'s>(alloc: Global, source: &'s str) -> Result<Vec<Silence<'s>>, AllocError>
    ensures { IfOk result (λ made. silences_view made.items ≡ silences source.now) }
{
    match memmem::find(source.as_bytes(), b"lint-ignore:") {
        None => Ok(Vec::new(alloc)),
        Some(_) => {
            let lines = lines_of(alloc, source)?;
            let end = sum(source.len(), 1)?;
            silences_in(alloc, end, &lines)
        }
    }
}

/// What the comments of a file's lines leave out, which ends at an offset.
fn silences_in<'s>(
    alloc: Global,
    end: usize,
    lines: &[&'s str],
) -> Result<Vec<Silence<'s>>, AllocError>
    ensures { IfOk result (λ made. silences_view made.items ≡ silences_from end 0 (texts lines.now)) }
{
    let mut silences = Vec::new(alloc);
    let mut at = 0;
    for (index, line) in lines.iter().enumerate() {
        push_line(alloc, end, at, line, &lines[index + 1..], &mut silences)?;
        at = after_line(at, line)?;
    }
    Ok(silences)
}

/// Adds what a line leaves out that begins at an offset, and is before others, in a file that ends
/// at an offset.
fn push_line<'s>(
    alloc: Global,
    end: usize,
    at: usize,
    line: &'s str,
    rest: &[&str],
    silences: &mut Vec<Silence<'s>>,
) -> Result<(), AllocError>
    ensures { OnOk result (AddsLine end at line.now rest.now silences.old silences.new) }
{
    match silencing(line) {
        Some((scope, list)) => {
            let next = after_line(at, line)?;
            let to = scope.end(next, rest, end)?;
            let codes = codes_of(alloc, list)?;
            push_codes(at, scope.start(at), to, &codes, silences)
        }
        None => Ok(()),
    }
}

/// Adds what a line leaves out with these codes, which may have spaces around them.
fn push_codes<'s>(
    at: usize,
    from: usize,
    to: usize,
    codes: &[&'s str],
    silences: &mut Vec<Silence<'s>>,
) -> Result<(), AllocError>
    ensures { OnOk result (AddsCodes at from to codes.now silences.old silences.new) }
{
    for code in codes {
        silences.push(Silence {
            at,
            from,
            to,
            code: code.trim(),
        })?;
    }
    Ok(())
}

/// The codes of a list, with the spaces around them.
fn codes_of<'s>(alloc: Global, list: &'s str) -> Result<Vec<&'s str>, AllocError>
    ensures { IfOk result (λ codes. texts codes.items ≡ between_commas list.now) }
{
    list.split(',').collect(alloc)
}

/// Leaves out what these comments leave out, and adds the findings of those that leave nothing out.
fn leave_out(
    alloc: Global,
    looked: Looked,
    silences: &[Silence<'_>],
    findings: &mut Vec<Finding>,
) -> Result<(), AllocError>
    ensures { OnOk result (LeavesOut looked silences.now findings.old findings.new) }
{
    let mut unused = unused_findings(alloc, looked, silences, findings)?;
    keep_unsilenced(silences, findings);
    findings.append(&mut unused)?;
    order(findings)?;
    Ok(())
}

/// Keeps the findings that none of these comments leaves out.
fn keep_unsilenced(silences: &[Silence<'_>], findings: &mut Vec<Finding>)
    ensures { AreUnsilenced silences.now findings.old findings.new }
{
    findings.retain(|finding| !is_silenced(silences, finding));
}

/// Whether one of these comments leaves a finding out.
fn is_silenced(silences: &[Silence<'_>], finding: &Finding) -> bool
    ensures { result ≡ is_silenced (silences_view silences.now) (finding_view finding.now) }
{
    silences.iter().any(|silence| silence.has(finding))
}

/// The findings of the comments that leave none of these findings out.
fn unused_findings(
    alloc: Global,
    looked: Looked,
    silences: &[Silence<'_>],
    findings: &[Finding],
) -> Result<Vec<Finding>, AllocError>
    ensures { IfOk result (AreUnused looked silences.now findings.now) }
{
    let mut unused = Vec::new(alloc);
    for silence in silences {
        if silence.is_unused(looked, findings) {
            unused.push(silence.unused_finding(alloc)?)?;
        }
    }
    Ok(unused)
}
