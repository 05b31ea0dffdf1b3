//! What the filters of a project leave out of what is found in a language.
ghost use Rattle.std.specs.Prelude.{◌≡◌, IfOk};
ghost use Rattle.ftl_project.specs.Counted.{file_counts};

use crate::language::LintedFile;
use crate::planned::PlannedFile;
use crate::project::Project;
use fluent_lint::{Messages, counts_of, missing_file};
use fluent_project::Action;
use lint_findings::{File, FileFindings, Finding};
use std::alloc::{AllocError, Global};

/// What the filters of a project leave out of a language.
#[derive(Drop)]
pub struct Filter<'c, 'l> {
    pub alloc: Global,
    pub project: &'c Project<'l>,
    /// The tag of the language.
    pub locale: &'c str,
}

impl Filter<'_, '_> {
    /// Whether a file, or a message of it, isn't asked for.
    fn ignores(&self, file: &PlannedFile, id: Option<&str>) -> Result<bool, AllocError> {
        if !self.project.has_filters() {
            return Ok(false);
        }
        let path = file.path.as_str();
        let action = self.project.action(self.alloc, self.locale, path, id)?;
        Ok(matches!(action, Action::Ignore))
    }

    /// What is found and counted of a file that a language lacks, by the ids of the messages.
    ///
    /// # Errors
    /// [`AllocError`] if memory runs out; nothing is kept.
    pub fn lacking_file<'s>(
        &self,
        file: &'s PlannedFile,
        ids: &[&str],
    ) -> Result<LintedFile<'s>, AllocError> {
        let count = self.asked_count(file, ids)?;
        let name = file.name.as_str();
        let found = if count == 0 {
            nothing_in(self.alloc, name)
        } else {
            missing_file(self.alloc, name, count)?
        };
        counted_file(file, found, Messages::lacking(count))
    }

    /// How many messages with these ids are asked for.
    fn asked_count(&self, file: &PlannedFile, ids: &[&str]) -> Result<usize, AllocError> {
        if self.ignores(file, None)? {
            return Ok(0);
        }
        let mut asked = Vec::with_capacity(self.alloc, ids.len())?;
        for id in ids {
            if !self.ignores(file, Some(*id))? {
                asked.push(*id)?;
            }
        }
        Ok(asked.len())
    }

    /// What is found and counted of a file that is there, by what is found without filters.
    ///
    /// # Errors
    /// [`AllocError`] if memory runs out; nothing is kept.
    pub fn present_file<'s>(
        &self,
        file: &'s PlannedFile,
        found: FileFindings<'s>,
        messages: Messages,
    ) -> Result<LintedFile<'s>, AllocError> {
        let FileFindings {
            file: source,
            findings,
        } = found;
        let mut messages = messages;
        if self.ignores(file, None)? {
            messages.alone = 0;
        }
        let findings = self.asked_findings(file, findings)?;
        let found = FileFindings {
            file: source,
            findings,
        };
        counted_file(file, found, messages)
    }

    /// The findings that are asked for.
    fn asked_findings(
        &self,
        file: &PlannedFile,
        findings: Vec<Finding>,
    ) -> Result<Vec<Finding>, AllocError> {
        let mut kept = Vec::with_capacity(self.alloc, findings.len())?;
        for finding in findings {
            if self.asks(file, &finding)? {
                kept.push(finding)?;
            }
        }
        Ok(kept)
    }

    /// Whether a finding is asked for. Only what is about missing and obsolete messages, and about
    /// obsolete files, may not be.
    fn asks(&self, file: &PlannedFile, finding: &Finding) -> Result<bool, AllocError> {
        if finding.code == "obsolete-file" {
            return Ok(!self.ignores(file, None)?);
        }
        if finding.code != "missing-message" && finding.code != "obsolete-message" {
            return Ok(true);
        }
        match &finding.entry {
            Some(id) => Ok(!self.ignores(file, Some(id.as_str()))?),
            None => Ok(true),
        }
    }
}

/// No findings in a file that isn't there.
fn nothing_in(alloc: Global, name: &str) -> FileFindings<'_> {
    FileFindings {
        file: File { name, source: "" },
        findings: Vec::new(alloc),
    }
}

/// A file with its findings and what is counted in it.
fn counted_file<'s>(
    planned: &'s PlannedFile,
    found: FileFindings<'s>,
    messages: Messages,
) -> Result<LintedFile<'s>, AllocError>
    ensures found { IfOk result (λ made. made.found ≡ found.entry) }
    ensures counts { IfOk result (λ made. made.counts ≡ file_counts found.entry messages) }
{
    let counts = counts_of(std::slice::from_ref(&found), messages)?;
    Ok(LintedFile {
        planned,
        found,
        counts,
    })
}
