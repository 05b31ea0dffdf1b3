//! Which findings are reported: those of the files that are chosen.
ghost use Rattle.std.specs.Prelude.{◌≡◌, ◌∷◌, [], IfOk, OnOk};
ghost use Rattle.std.specs.List.{list_any};
ghost use Rattle.ftl_project.specs.Chosen.{is_chosen, is_in};
ghost use Rattle.ftl_project.specs.GroupsFound.{AppendsChosen, AppendsGroups, AreGroupsOf, IsGroupOf, IsGroupOfReference, file_at, files_found, reference_found, whole_found};
ghost use Rattle.ftl_project.specs.Paths.{paths};

use crate::language::{Linted, LintedFile, LintedProject};
use crate::loading::Loaded;
use crate::project::Project;
use crate::reference::ReferenceFile;
use crate::report::Group;
use fluent_project::after;
use lint_findings::FileFindings;
use std::alloc::{AllocError, Global};

/// The groups of a report: that of the reference, and then that of each language, in their order.
///
/// # Errors
/// [`AllocError`] if memory runs out; nothing is kept.
pub fn groups_found<'s>(
    alloc: Global,
    project: &Project<'_>,
    only: &[String],
    references: &[ReferenceFile<'s>],
    linted: LintedProject<'s>,
) -> Result<Vec<Group<'s>>, AllocError>
    ensures { IfOk result (AreGroupsOf project.now only.now references.now linted.entry) }
{
    let LintedProject {
        reference,
        languages,
    } = linted;
    let mut groups = Vec::with_capacity(alloc, languages.len())?;
    groups.push(group_of_reference(alloc, only, references, reference)?)?;
    push_groups(&mut groups, alloc, project, only, languages)?;
    Ok(groups)
}

/// Appends the groups of these languages.
fn push_groups<'s>(
    groups: &mut Vec<Group<'s>>,
    alloc: Global,
    project: &Project<'_>,
    only: &[String],
    languages: Vec<Linted<'s>>,
) -> Result<(), AllocError>
    ensures { OnOk result (AppendsGroups project.now only.now languages.entry.items
        groups.old groups.new) }
{
    for language in languages {
        groups.push(group_of(alloc, project, only, language)?)?;
    }
    Ok(())
}

/// The group of a language: the findings of the files that are among these, or of all.
fn group_of<'s>(
    alloc: Global,
    project: &Project<'_>,
    only: &[String],
    linted: Linted<'s>,
) -> Result<Group<'s>, AllocError>
    ensures { IfOk result (IsGroupOf project.now only.now linted.entry) }
{
    let Linted {
        locale,
        files,
        present,
        whole,
        ..
    } = linted;
    let mut found = Vec::with_capacity(alloc, files.len())?;
    push_whole(&mut found, only, project.file, whole)?;
    push_files(&mut found, only, files)?;
    Ok(Group {
        locale: Some(locale),
        found,
        files: present,
    })
}

/// Appends what is found of a language as a whole, if the file of the project is chosen.
fn push_whole<'s>(
    found: &mut Vec<FileFindings<'s>>,
    only: &[String],
    file: Option<&Loaded>,
    whole: Option<FileFindings<'s>>,
) -> Result<(), AllocError>
    ensures { OnOk result (AppendsChosen only.now (whole_found file.entry whole.entry)
        found.old found.new) }
{
    match (file, whole) {
        (Some(file), Some(whole)) => push_chosen(found, only, file.path.as_str(), whole),
        _ => Ok(()),
    }
}

/// Appends the findings of these files of a language that are chosen.
fn push_files<'s>(
    found: &mut Vec<FileFindings<'s>>,
    only: &[String],
    files: Vec<LintedFile<'s>>,
) -> Result<(), AllocError>
    ensures { OnOk result (AppendsChosen only.now (files_found files.entry.items)
        found.old found.new) }
{
    for file in files {
        let LintedFile {
            planned,
            found: findings,
            ..
        } = file;
        push_chosen(found, only, planned.path.as_str(), findings)?;
    }
    Ok(())
}

/// The group of the reference: the findings of the files that are among these, or of all. They are
/// those of the files that were read, in their order.
fn group_of_reference<'s>(
    alloc: Global,
    only: &[String],
    references: &[ReferenceFile<'s>],
    findings: Vec<FileFindings<'s>>,
) -> Result<Group<'s>, AllocError>
    ensures { IfOk result (IsGroupOfReference only.now references.now findings.entry.items) }
{
    let files = findings.len();
    let mut found = Vec::with_capacity(alloc, files)?;
    push_references(&mut found, only, references, findings)?;
    Ok(Group {
        locale: None,
        found,
        files,
    })
}

/// Appends the findings of the files of the reference that are chosen. They are those of the files
/// that were read, in their order.
fn push_references<'s>(
    found: &mut Vec<FileFindings<'s>>,
    only: &[String],
    references: &[ReferenceFile<'s>],
    theirs: Vec<FileFindings<'s>>,
) -> Result<(), AllocError>
    ensures { OnOk result (AppendsChosen only.now
        (reference_found references.now theirs.entry.items) found.old found.new) }
{
    let mut rest = theirs.into_iter();
    for reference in references {
        if reference.file.is_some() {
            if let Some(file) = rest.next() {
                push_chosen(found, only, reference.path, file)?;
            }
        }
    }
    Ok(())
}

/// Appends the findings of a file, if its path is chosen.
fn push_chosen<'s>(
    found: &mut Vec<FileFindings<'s>>,
    only: &[String],
    path: &str,
    file: FileFindings<'s>,
) -> Result<(), AllocError>
    ensures { OnOk result (AppendsChosen only.now (file_at path.now file.entry ∷ [])
        found.old found.new) }
{
    if is_chosen(only, path) {
        found.push(file)?;
    }
    Ok(())
}

/// Whether a path is one of these or below one, or there are none.
fn is_chosen(only: &[String], path: &str) -> bool
    ensures { result ≡ is_chosen (paths only.now) path.now }
{
    match only {
        [] => true,
        [_, ..] => is_in_one(only, path),
    }
}

/// Whether a path is one of these or below one.
fn is_in_one(only: &[String], path: &str) -> bool
    ensures { result ≡ list_any (λ folder. is_in folder path.now) (paths only.now) }
{
    match only {
        [] => false,
        [folder, others @ ..] => is_in(folder.as_str(), path) || is_in_one(others, path),
    }
}

/// Whether a path is this one, or below it.
fn is_in(folder: &str, path: &str) -> bool
    ensures { result ≡ is_in folder.now path.now }
{
    match after(folder.as_bytes(), path.as_bytes()) {
        Some([]) => true,
        Some([byte, ..]) => *byte == b'/' || folder.is_empty(),
        None => false,
    }
}
