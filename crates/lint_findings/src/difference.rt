//! Differences, in words.
#![tactic(auto)]

ghost use Rattle.std.specs.Prelude.{◌≡◌, IfOk};
ghost use Rattle.lint_findings.specs.DifferenceView.{IsFindingAt, difference_view};
ghost use Rattle.lint_findings.specs.View.{remark_view};
ghost use Rattle.lint_findings.specs.ComparisonFindings.{difference_words};

use crate::records::Finding;
use crate::remark::Remark;
use std::alloc::{AllocError, Global};

/// How a message of a catalog differs from the message of the reference with the same id. Its text
/// is that of `docs/reference/lint.md`.
#[derive(Clone, Copy)]
pub enum Difference<'s> {
    /// The catalog has no such message.
    MissingMessage,
    /// The reference has no such message.
    ObsoleteMessage,
    /// Only that of the reference has a value.
    MissingValue,
    /// Only that of the catalog has a value.
    ObsoleteValue,
    /// Only that of the reference has an attribute of this name.
    MissingAttribute(&'s str),
    /// Only that of the catalog has an attribute of this name.
    ObsoleteAttribute(&'s str),
    /// Only that of the catalog is shown with this variable.
    UnknownVariable(&'s str),
    /// Only that of the reference shows this variable.
    MissingVariable(&'s str),
    /// Only that of the reference is shown with this variable.
    UnusedVariable(&'s str),
    /// Both have the same value and attributes.
    Untranslated,
}

impl Difference<'_> {
    /// The remark on the difference, without a hint.
    ///
    /// # Errors
    /// [`AllocError`] if memory runs out; nothing is kept.
    pub fn remark(&self, alloc: Global) -> Result<Remark, AllocError>
        ensures { IfOk result (λ remark. remark_view remark
            ≡ difference_words (difference_view self.now)) }
    {
        match self {
            Difference::MissingMessage => Ok(Remark::warning(
                "missing-message",
                format!(in alloc; "the message has no translation")?,
            )),
            Difference::ObsoleteMessage => Ok(Remark::note(
                "obsolete-message",
                format!(in alloc; "the reference has no such message")?,
            )),
            Difference::MissingValue => Ok(Remark::error(
                "missing-value",
                format!(in alloc; "the value is missing, and the reference has one")?,
            )),
            Difference::ObsoleteValue => Ok(Remark::warning(
                "obsolete-value",
                format!(in alloc; "the reference has no value")?,
            )),
            Difference::MissingAttribute(name) => Ok(Remark::error(
                "missing-attribute",
                format!(in alloc; "the attribute `.{name}` of the reference is missing")?,
            )),
            Difference::ObsoleteAttribute(name) => Ok(Remark::warning(
                "obsolete-attribute",
                format!(in alloc; "the reference has no attribute `.{name}`")?,
            )),
            Difference::UnknownVariable(name) => Ok(Remark::error(
                "unknown-variable",
                format!(in alloc; "the reference has no variable `${name}`")?,
            )),
            Difference::MissingVariable(name) => Ok(Remark::warning(
                "missing-variable",
                format!(in alloc; "the reference shows `${name}`")?,
            )),
            Difference::UnusedVariable(name) => Ok(Remark::note(
                "unused-variable",
                format!(in alloc; "the variable `${name}` of the reference isn't used")?,
            )),
            Difference::Untranslated => Ok(Remark::note(
                "untranslated",
                format!(in alloc; "the text is the same as in the reference")?,
            )),
        }
    }

    /// The finding of a difference of the message with this id, at an offset, with a hint.
    ///
    /// # Errors
    /// [`AllocError`] if memory runs out; nothing is kept.
    pub fn finding(
        &self,
        alloc: Global,
        id: &str,
        offset: usize,
        hint: Option<String>,
    ) -> Result<Finding, AllocError>
        ensures { IfOk result (IsFindingAt offset id.now hint self.now) }
    {
        let entry = String::from_str(alloc, id)?;
        let remark = self.remark(alloc)?;
        Ok(remark.with_hint(hint).at(offset, entry))
    }
}
