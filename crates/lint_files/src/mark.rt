//! The byte order mark.
#![tactic(auto)]

ghost use Rattle.std.specs.Prelude.{◌≡◌, IfOk};
ghost use Rattle.lint_findings.specs.View.{finding_view};
ghost use Rattle.lint_findings.specs.Hints.{byte_order_mark, has_prefix};
ghost use Rattle.lint_findings.specs.SyntaxFindings as syntax;

use lint_findings::{Finding, Severity};
use std::alloc::{AllocError, Global};

const TEXT: &str = "the file begins with a byte order mark, so its first line can't be read";

/// Whether a text begins with a byte order mark.
pub fn has_mark(text: &str) -> bool
    ensures { result ≡ has_prefix byte_order_mark text.now }
{
    text.as_bytes().starts_with(b"\xEF\xBB\xBF")
}

/// The finding of the mark at the front of a file.
///
/// # Errors
/// [`AllocError`] if memory runs out; nothing is kept.
pub fn mark_finding(alloc: Global) -> Result<Finding, AllocError>
    ensures { IfOk result (λ found. finding_view found ≡ syntax.mark_finding) }
{
    let text = String::from_str(alloc, TEXT)?;
    let hint = String::from_str(alloc, "`ftl tidy` removes it")?;
    Ok(Finding {
        offset: 0,
        code: "byte-order-mark",
        severity: Severity::Error,
        entry: None,
        text,
        hint: Some(hint),
    })
}
