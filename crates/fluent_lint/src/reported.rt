//! Which findings of a file are reported, and in which order.
#![tactic(auto)]

ghost use Rattle.std.specs.Prelude.{◌≡◌, OnOk};
ghost use Rattle.fluent_grammar.specs.Words.{is_among};
ghost use Rattle.fluent_lint.specs.Found.{AreKept, AreKeptOf};
ghost use Rattle.fluent_lint.specs.InOrder.{in_order};
ghost use Rattle.fluent_resource.specs.Sources.{texts};

use lint_findings::{FileFindings, Finding};
use std::alloc::AllocError;

/// Leaves out the findings of files whose code is ignored.
pub fn keep_reported(found: &mut [FileFindings], ignored: &[&str])
    ensures { AreKept ignored.now found.old found.new }
{
    for file in found.iter_mut() {
        keep_of_file(file, ignored);
    }
}

/// Leaves out the findings of a file whose code is ignored.
fn keep_of_file(file: &mut FileFindings, ignored: &[&str])
    ensures { AreKeptOf ignored.now file.old file.new }
{
    file.findings
        .retain(|finding| !is_among(finding.code, ignored));
}

/// Puts findings in the order of their offsets. Those at one offset stay in theirs.
///
/// # Errors
/// [`AllocError`] if memory runs out; then they may be in another order.
pub fn order(findings: &mut Vec<Finding>) -> Result<(), AllocError>
    ensures { OnOk result (findings.new.items ≡ in_order (λ f. f.offset) findings.old.items) }
{
    findings.sort_by_key(|finding| finding.offset)
}

/// Whether a code is among these.
pub fn is_among(code: &str, codes: &[&str]) -> bool
    ensures { result ≡ is_among code.now (texts codes.now) }
{
    codes.iter().any(|other| *other == code)
}
