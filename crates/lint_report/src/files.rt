//! The summaries of the files of a catalog and of its reference.

ghost use Rattle.std.specs.Prelude.{◌≡◌, All, IfOk, OnOk, codes, map};
ghost use Rattle.lint_report.specs.ReportView.{summary_view};
ghost use Rattle.lint_report.specs.Counted.{Adds, AreCounts, IsCounted, catalog_summaries, reference_summaries, summaries_of};

use crate::Summary;
use crate::counts::{count_for, counts_by_name};
use lint_findings::{File, FileFindings};
use std::alloc::{AllocError, Global};
use std::collections::HashMap;

/// A file, and how many messages it has.
#[derive(Clone, Copy, Debug)]
pub struct FileMessages<'a> {
    pub file: File<'a>,
    pub messages: usize,
}

/// The summaries of the files of a catalog, and then those of its reference, by all findings of the
/// catalog. Each finding is looked at three times.
///
/// # Errors
/// [`AllocError`] if memory runs out; nothing is kept.
pub fn summaries<'a>(
    alloc: Global,
    references: &[FileMessages<'a>],
    files: &[FileMessages<'a>],
    findings: &[FileFindings],
) -> Result<Vec<Summary<'a>>, AllocError>
    requires references { All IsCounted references.now }
    requires files { All IsCounted files.now }
    ensures { IfOk result (λ ss. map summary_view ss.items ≡ summaries_of references.now files.now findings.now) }
{
    let mut summaries = Vec::with_capacity(alloc, files.len())?;
    push_of_catalog(&mut summaries, alloc, files, findings)?;
    push_of_reference(&mut summaries, alloc, references, findings)?;
    Ok(summaries)
}

/// Appends the summaries of files of a catalog.
fn push_of_catalog<'a>(
    summaries: &mut Vec<Summary<'a>>,
    alloc: Global,
    files: &[FileMessages<'a>],
    findings: &[FileFindings],
) -> Result<(), AllocError>
    requires { All IsCounted files.now }
    ensures { OnOk result (Adds summaries.old.items summaries.new.items (catalog_summaries files.now findings.now)) }
{
    let obsolete = counts_by_name(alloc, findings, "obsolete-message")?;
    push_with_obsolete(summaries, alloc, files, findings, &obsolete)
}

/// Appends those summaries, by the counts of obsolete messages.
fn push_with_obsolete<'a>(
    summaries: &mut Vec<Summary<'a>>,
    alloc: Global,
    files: &[FileMessages<'a>],
    findings: &[FileFindings],
    obsolete: &HashMap<String, usize>,
) -> Result<(), AllocError>
    requires files { All IsCounted files.now }
    requires obsolete { AreCounts (codes "obsolete-message") findings.now obsolete.now }
    ensures { OnOk result (Adds summaries.old.items summaries.new.items (catalog_summaries files.now findings.now)) }
{
    let untranslated = counts_by_name(alloc, findings, "untranslated")?;
    for file in files {
        let name = file.file.name;
        summaries.push(Summary {
            file: name,
            messages: file.messages,
            missing: None,
            obsolete: Some(count_for(obsolete, name)),
            untranslated: Some(count_for(&untranslated, name)),
        })?;
    }
    Ok(())
}

/// Appends the summaries of files of a reference.
fn push_of_reference<'a>(
    summaries: &mut Vec<Summary<'a>>,
    alloc: Global,
    references: &[FileMessages<'a>],
    findings: &[FileFindings],
) -> Result<(), AllocError>
    requires { All IsCounted references.now }
    ensures { OnOk result (Adds summaries.old.items summaries.new.items (reference_summaries references.now findings.now)) }
{
    let missing = counts_by_name(alloc, findings, "missing-message")?;
    for file in references {
        let name = file.file.name;
        summaries.push(Summary {
            file: name,
            messages: file.messages,
            missing: Some(count_for(&missing, name)),
            obsolete: None,
            untranslated: None,
        })?;
    }
    Ok(())
}
