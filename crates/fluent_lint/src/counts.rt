//! The counts of the files of a catalog and of its reference.
#![tactic(auto)]

ghost use Rattle.std.specs.Prelude.{◌≡◌, All, IfOk, filter, map};
ghost use Rattle.lint_findings.specs.View.{findings_view};
ghost use Rattle.fluent_lint.specs.FileTiles.{AreTilesOf, files_of, files_view};
ghost use Rattle.fluent_lint.specs.Reports.{AreShown, AreSummaries, counts_by, counts_of};
ghost use Rattle.fluent_lint.specs.Lacking.{is_lacking};
ghost use Rattle.lint_findings.specs.Summary.{entry_count};
ghost use Rattle.lint_report.specs.ReportView.{summary_view};
ghost use Rattle.lint_report.specs.Counted as counted;
ghost use Rattle.lint_report.specs.Counted.{IsCounted};

use crate::Output;
use crate::tiles::FileTiles;
use lint_entries::message_count;
use lint_findings::FileFindings;
use lint_report::{FileMessages, Format, Summary, summaries};
use std::alloc::{AllocError, Global};

/// The counts that are shown.
///
/// # Errors
/// [`AllocError`] if memory runs out; nothing is kept.
pub fn shown_counts<'s>(
    alloc: Global,
    output: Output<'_>,
    references: &[FileTiles<'_, 's>],
    files: &[FileTiles<'_, 's>],
    found: &[FileFindings],
) -> Result<Vec<Summary<'s>>, AllocError>
    requires references { All AreTilesOf references.now }
    requires files { All AreTilesOf files.now }
    ensures { IfOk result (AreShown output.entry found.now references.now files.now) }
{
    let mut counts = counts_by_reference(alloc, references, files, found)?;
    keep_shown(output, &mut counts);
    Ok(counts)
}

/// Leaves out the counts that aren't shown.
fn keep_shown(output: Output<'_>, counts: &mut Vec<Summary>)
    ensures { map summary_view counts.new.items ≡ counts_by output.entry (map summary_view counts.old.items) }
{
    match output.format {
        Format::Text | Format::Terminal if !output.counts => keep_lacking(counts),
        _ => {}
    }
}

/// Leaves out the counts of files of which no message is missing.
fn keep_lacking(counts: &mut Vec<Summary>)
    ensures { map summary_view counts.new.items ≡ filter is_lacking (map summary_view counts.old.items) }
{
    counts.retain(|summary| is_lacking(summary));
}

/// Whether the catalog lacks some messages of a file.
fn is_lacking(summary: &Summary) -> bool
    ensures { result ≡ is_lacking (summary_view summary.now) }
{
    match summary.missing {
        Some(count) => 0 < count,
        None => false,
    }
}

/// The counts of the files of a catalog, and then those of its reference, by all findings of the
/// catalog. Without files of a reference there are none.
///
/// # Errors
/// [`AllocError`] if memory runs out; nothing is kept.
fn counts_by_reference<'s>(
    alloc: Global,
    references: &[FileTiles<'_, 's>],
    files: &[FileTiles<'_, 's>],
    found: &[FileFindings],
) -> Result<Vec<Summary<'s>>, AllocError>
    requires references { All AreTilesOf references.now }
    requires files { All AreTilesOf files.now }
    ensures { IfOk result (λ cs. map summary_view cs.items
        ≡ counts_of (findings_view found.now) references.now files.now) }
{
    match references {
        [] => Ok(Vec::new(alloc)),
        [_, ..] => counts_of_files(alloc, references, files, found),
    }
}

/// How many messages and terms files have. More than `usize` can count don't fit in memory.
///
/// # Errors
/// [`AllocError`] if there are more.
pub fn entry_count(files: &[FileTiles]) -> Result<usize, AllocError>
    requires { All AreTilesOf files.now }
    ensures { IfOk result (λ count. count ≡ entry_count (files_view (files_of files.now))) }
{
    let mut total: usize = 0;
    for file in files {
        let Some(sum) = total.checked_add(lint_entries::entry_count(&file.tiles)) else {
            return Err(AllocError);
        };
        total = sum;
    }
    Ok(total)
}

/// The counts with a reference.
fn counts_of_files<'s>(
    alloc: Global,
    references: &[FileTiles<'_, 's>],
    files: &[FileTiles<'_, 's>],
    found: &[FileFindings],
) -> Result<Vec<Summary<'s>>, AllocError>
    requires references { All AreTilesOf references.now }
    requires files { All AreTilesOf files.now }
    ensures { IfOk result (AreSummaries found.now references.now files.now) }
{
    let references = counted_files(alloc, references)?;
    let files = counted_files(alloc, files)?;
    summaries(alloc, &references, &files, found)
}

/// Files, each with the number of its messages.
fn counted_files<'s>(
    alloc: Global,
    files: &[FileTiles<'_, 's>],
) -> Result<Vec<FileMessages<'s>>, AllocError>
    requires { All AreTilesOf files.now }
    ensures files { IfOk result (λ counts. counted.files_of counts.items ≡ files_view (files_of files.now)) }
    ensures counts { IfOk result (λ counts. All IsCounted counts.items) }
{
    let mut counted = Vec::with_capacity(alloc, files.len())?;
    for file in files {
        counted.push(FileMessages {
            file: file.file,
            messages: message_count(&file.tiles),
        })?;
    }
    Ok(counted)
}
