//! Remarks: what findings say.
#![tactic(auto)]

ghost use Rattle.std.specs.Prelude.{◌≡◌, option_map, string_bytes};
ghost use Rattle.lint_findings.specs.View.{finding_view, remark_view, severity_view};
ghost use Rattle.lint_findings.specs.Finding as f;

use crate::records::{Finding, Severity};

/// A finding without its place: its code, how bad it is, a sentence, and perhaps a hint.
#[derive(Debug, Drop)]
pub struct Remark {
    /// The name of its kind, as `unknown-term`.
    pub code: &'static str,
    pub severity: Severity,
    /// The mistake, as a sentence without a full stop.
    pub text: String,
    /// A likely cause, or the text to write instead.
    pub hint: Option<String>,
    /// How many bytes stand before it in what it is about.
    pub inside: usize,
}

impl Remark {
    /// A remark without a hint, on what is missing, or shown as its fallback.
    pub fn error(code: &'static str, text: String) -> Remark
        ensures { remark_view result ≡ f.remark f.error code.now (string_bytes text) }
    {
        Remark::new(Severity::Error, code, text)
    }

    /// A remark without a hint, on what is most likely not what was meant.
    pub fn warning(code: &'static str, text: String) -> Remark
        ensures { remark_view result ≡ f.remark f.warning code.now (string_bytes text) }
    {
        Remark::new(Severity::Warning, code, text)
    }

    /// A remark without a hint, on what is worth a look.
    pub fn note(code: &'static str, text: String) -> Remark
        ensures { remark_view result ≡ f.remark f.note code.now (string_bytes text) }
    {
        Remark::new(Severity::Note, code, text)
    }

    /// A remark without a hint, of this severity.
    pub fn new(severity: Severity, code: &'static str, text: String) -> Remark
        ensures { remark_view result ≡ f.remark (severity_view severity) code.now (string_bytes text) }
    {
        Remark {
            code,
            severity,
            text,
            hint: None,
            inside: 0,
        }
    }

    /// The remark with this hint in place of its own.
    pub fn with_hint(self, hint: Option<String>) -> Remark
        ensures { remark_view result
            ≡ record (remark_view self) { hint = option_map string_bytes hint } }
    {
        Remark { hint, ..self }
    }

    /// The remark on what stands after this many bytes, in place of its own.
    pub fn within(self, inside: usize) -> Remark
        ensures { remark_view result ≡ record (remark_view self) { inside = inside } }
    {
        Remark { inside, ..self }
    }

    /// The finding of the remark, at an offset. `entry` is the entry or the attribute that it is
    /// about.
    pub fn at(self, offset: usize, entry: String) -> Finding
        ensures { finding_view result ≡ f.finding_at offset (string_bytes entry) (remark_view self) }
    {
        Finding {
            offset,
            code: self.code,
            severity: self.severity,
            entry: Some(entry),
            text: self.text,
            hint: self.hint,
        }
    }
}
