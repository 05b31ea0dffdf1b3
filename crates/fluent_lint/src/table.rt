//! The counts of a table of languages.
#![tactic(auto)]

ghost use Rattle.std.specs.Prelude.{◌≡◌, ◌+◌, IfOk};
ghost use Rattle.lint_findings.specs.View.{findings_view};
ghost use Rattle.fluent_lint.specs.Table.{both_counts, both_messages, counts, no_counts, per_mille};
ghost use Rattle.fluent_lint.specs.Translated.{alone_of, lacking_of, translated_of};

use crate::original::Messages;
use crate::totals::{code_count, severity_count};
use lint_findings::{FileFindings, Severity};
use std::alloc::AllocError;

/// The counts of a file, of a language or of all.
#[derive(Clone, Copy)]
pub struct Counts {
    /// The messages of the reference: those that are translated and those that are missing.
    pub messages: usize,
    pub translated: usize,
    pub missing: usize,
    /// The messages that the reference hasn't.
    pub obsolete: usize,
    /// The translated messages whose value and attributes are those of the reference.
    pub untranslated: usize,
    pub errors: usize,
    pub warnings: usize,
}

/// Counts what these findings say of the files with these numbers of messages.
///
/// # Errors
/// [`AllocError`] if there are more messages than `usize` can count, which fit in no memory.
pub fn counts_of(found: &[FileFindings], messages: Messages) -> Result<Counts, AllocError>
    ensures { IfOk result (λ made. made ≡ counts (findings_view found.now) messages) }
{
    let missing = sum(code_count(found, "missing-message")?, messages.lacking)?;
    let obsolete = sum(code_count(found, "obsolete-message")?, messages.alone)?;
    Ok(Counts {
        messages: sum(messages.translated, missing)?,
        translated: messages.translated,
        missing,
        obsolete,
        untranslated: code_count(found, "untranslated")?,
        errors: severity_count(found, Severity::Error)?,
        warnings: severity_count(found, Severity::Warning)?,
    })
}

impl Counts {
    /// Of no files.
    pub fn none() -> Counts
        ensures { result ≡ no_counts }
    {
        Counts {
            messages: 0,
            translated: 0,
            missing: 0,
            obsolete: 0,
            untranslated: 0,
            errors: 0,
            warnings: 0,
        }
    }

    /// The counts of these and of others together.
    ///
    /// # Errors
    /// [`AllocError`] if there are more than `usize` can count, which fit in no memory.
    pub fn plus(self, other: Counts) -> Result<Counts, AllocError>
        ensures { IfOk result (λ made. made ≡ both_counts self other) }
    {
        Ok(Counts {
            messages: sum(self.messages, other.messages)?,
            translated: sum(self.translated, other.translated)?,
            missing: sum(self.missing, other.missing)?,
            obsolete: sum(self.obsolete, other.obsolete)?,
            untranslated: sum(self.untranslated, other.untranslated)?,
            errors: sum(self.errors, other.errors)?,
            warnings: sum(self.warnings, other.warnings)?,
        })
    }

    /// How many of a thousand messages are translated, rounded down: 1000 only if none is missing.
    /// Of no messages it is 1000.
    pub fn per_mille(self) -> u128
        ensures { result ≡ per_mille self }
    {
        if self.messages == 0 {
            return 1000;
        }
        self.translated as u128 * 1000 / self.messages as u128
    }
}

impl Messages {
    /// No messages.
    pub fn none() -> Messages
        ensures { result ≡ translated_of 0 }
    {
        Messages {
            translated: 0,
            lacking: 0,
            alone: 0,
        }
    }

    /// This many messages of a file that a language lacks.
    pub fn lacking(count: usize) -> Messages
        ensures { result ≡ lacking_of count }
    {
        Messages {
            translated: 0,
            lacking: count,
            alone: 0,
        }
    }

    /// The numbers of these and of others together.
    ///
    /// # Errors
    /// [`AllocError`] if there are more than `usize` can count, which fit in no memory.
    pub fn plus(self, other: Messages) -> Result<Messages, AllocError>
        ensures { IfOk result (λ made. made ≡ both_messages self other) }
    {
        Ok(Messages {
            translated: sum(self.translated, other.translated)?,
            lacking: sum(self.lacking, other.lacking)?,
            alone: sum(self.alone, other.alone)?,
        })
    }
}

/// The sum of two counts.
///
/// # Errors
/// [`AllocError`] if it is more than `usize` can count.
pub fn sum(one: usize, other: usize) -> Result<usize, AllocError>
    ensures { IfOk result (λ both. both ≡ one + other) }
{
    one.checked_add(other).ok_or(AllocError)
}
