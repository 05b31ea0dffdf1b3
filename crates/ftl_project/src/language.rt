//! What is found in the languages of a project.
ghost use Rattle.std.specs.Prelude.{◌≡◌, IfOk, OnOk};
ghost use Rattle.fluent_lint.specs.ReferenceView.{IsReference};
ghost use Rattle.ftl_project.specs.Counted.{IsCounted, counts_in};

use crate::filtered::Filter;
use crate::groups::{Group, Language, LanguageFile, groups_of};
use crate::loading::Loaded;
use crate::planned::{Planned, PlannedFile};
use crate::project::Project;
use crate::reference::ReferenceFile;
use crate::sources::Sources;
use fluent_lint::{
    Counts, LanguageFindings, Looked, Messages, Options, Original, ReferenceCatalog, counts_of,
    hear, language_findings, missing_locale, read_files,
};
use fluent_parser::StackBudget;
use fluent_plurals::LanguagePlurals;
use fluent_project::{Place, line_of};
use lint_findings::{File, FileFindings};
use std::alloc::{AllocError, Global};

/// What is found in a project.
#[derive(Drop)]
pub struct LintedProject<'s> {
    /// The findings of the files of the reference that were read, as a catalog by itself.
    pub reference: Vec<FileFindings<'s>>,
    /// Its languages, in the order of their tags' bytes.
    pub languages: Vec<Linted<'s>>,
}

/// What is found in a language.
#[derive(Drop)]
pub struct Linted<'s> {
    /// The tag of the language.
    pub locale: &'s str,
    /// Its files, in the order of their paths.
    pub files: Vec<LintedFile<'s>>,
    /// What is counted in all of them.
    pub counts: Counts,
    /// How many of the files there are.
    pub present: usize,
    /// What is found of the language as a whole.
    pub whole: Option<FileFindings<'s>>,
}

/// What is found in a file of a language.
#[derive(Drop)]
pub struct LintedFile<'s> {
    /// The file, and what it is translated from.
    pub planned: &'s PlannedFile,
    /// Its findings, in the order of their offsets.
    pub found: FileFindings<'s>,
    /// What is counted in it.
    pub counts: Counts,
}

/// What is found in a project. The reference is read once for all languages that are translated
/// from the same files of it.
///
/// # Errors
/// [`AllocError`] if memory runs out; nothing is kept.
pub fn lint_languages<'s>(
    alloc: Global,
    project: &Project<'s>,
    functions: &[&str],
    references: &[ReferenceFile<'s>],
    plan: &'s [Planned<'_>],
    sources: &'s Sources,
) -> Result<LintedProject<'s>, AllocError> {
    let groups = groups_of(alloc, references, plan, sources)?;
    let mut languages = Vec::with_capacity(alloc, plan.len())?;
    let mut reference = Vec::new(alloc);
    for (n, group) in groups.iter().enumerate() {
        let mut found = lint_group(alloc, project, functions, group, &mut languages)?;
        if n == 0 {
            reference.append(&mut found)?;
        }
    }
    languages.sort_by(|one, other| one.locale.cmp(other.locale))?;
    Ok(LintedProject {
        reference,
        languages,
    })
}

/// Adds what is found in the languages of a group, and gives what is found in its files of the
/// reference.
fn lint_group<'s>(
    alloc: Global,
    project: &Project<'s>,
    functions: &[&str],
    group: &Group<'s>,
    languages: &mut Vec<Linted<'s>>,
) -> Result<Vec<FileFindings<'s>>, AllocError> {
    let theirs = read_files(alloc, &group.theirs, StackBudget::PROGRAM)?;
    let reference = ReferenceCatalog::new(alloc, reference_options(functions), &theirs)?;
    for language in &group.languages {
        languages.push(lint_read(alloc, project, &reference, language)?)?;
    }
    let mut found = reference.into_findings();
    for file in &mut found {
        hear(
            alloc,
            Some(NOTHING_ELSE),
            file.file.source,
            &mut file.findings,
        )?;
    }
    Ok(found)
}

/// What is looked for in the reference beside flaws: no plural categories, and no differences.
const NOTHING_ELSE: Looked = Looked {
    plurals: false,
    differences: false,
    gaps: false,
};

/// What is known of the program when the reference is looked at: its plural rules are its own.
fn reference_options<'a>(functions: &'a [&'a str]) -> Options<'a> {
    Options {
        functions,
        plurals: None,
    }
}

/// What is found in a language, by its files, which are read.
fn lint_read<'s>(
    alloc: Global,
    project: &Project<'s>,
    reference: &ReferenceCatalog<'_, '_, '_, 's>,
    language: &Language<'s>,
) -> Result<Linted<'s>, AllocError>
    requires { IsReference reference.now }
    ensures { IfOk result IsCounted }
{
    let mine = read_files(alloc, &language.mine, StackBudget::PROGRAM)?;
    let plurals = LanguagePlurals::for_tag(language.locale);
    let found = language_findings(alloc, reference, plurals, &mine, &language.originals)?;
    lint_language(alloc, project, reference, language, found)
}

/// What is found in a language, by what is found in its files.
fn lint_language<'s>(
    alloc: Global,
    project: &Project<'s>,
    reference: &ReferenceCatalog<'_, '_, '_, 's>,
    language: &Language<'s>,
    found: LanguageFindings<'s>,
) -> Result<Linted<'s>, AllocError>
    requires { IsReference reference.now }
    ensures { IfOk result IsCounted }
{
    let filter = Filter {
        alloc,
        project,
        locale: language.locale,
    };
    let files = linted_files(&filter, reference, language, found)?;
    let mut linted = Linted {
        locale: language.locale,
        counts: counts_in(&files)?,
        files,
        present: language.mine.len(),
        whole: None,
    };
    if is_absent(&language.files) && linted.counts.missing > 0 {
        if let Some(file) = project.file {
            as_whole(alloc, file, &mut linted)?;
        }
    }
    Ok(linted)
}

/// Whether none of the files of a language is there.
fn is_absent(files: &[LanguageFile<'_>]) -> bool {
    files.iter().all(|file| file.planned.index.is_none())
}

/// What is counted in these files.
fn counts_in(files: &[LintedFile<'_>]) -> Result<Counts, AllocError>
    ensures { IfOk result (λ counts. counts ≡ counts_in files.now) }
{
    let mut counts = Counts::none();
    for file in files {
        counts = counts.plus(file.counts)?;
    }
    Ok(counts)
}

/// What is found in the files of a language. Nothing of a file that could not be read.
fn linted_files<'s>(
    filter: &Filter<'_, '_>,
    reference: &ReferenceCatalog<'_, '_, '_, 's>,
    language: &Language<'s>,
    found: LanguageFindings<'s>,
) -> Result<Vec<LintedFile<'s>>, AllocError>
    requires { IsReference reference.now }
{
    let mut found = FoundFiles::of(found);
    let mut files = Vec::with_capacity(filter.alloc, language.files.len())?;
    for file in &language.files {
        let linted = if file.is_read {
            match found.next() {
                Some((found, messages)) => Some(filter.present_file(
                    file.planned,
                    found,
                    messages,
                )?),
                None => None,
            }
        } else {
            lacking_file(filter, reference, file)?
        };
        if let Some(linted) = linted {
            files.push(linted)?;
        }
    }
    Ok(files)
}

/// What is found of a file that a language lacks, if the reference has it.
fn lacking_file<'s>(
    filter: &Filter<'_, '_>,
    reference: &ReferenceCatalog<'_, '_, '_, 's>,
    file: &LanguageFile<'s>,
) -> Result<Option<LintedFile<'s>>, AllocError>
    requires { IsReference reference.now }
{
    match (file.planned.index, file.original) {
        (None, Original::File(place)) => {
            let ids = reference.message_ids(filter.alloc, place)?;
            Ok(Some(filter.lacking_file(file.planned, &ids)?))
        }
        _ => Ok(None),
    }
}

/// What is found in the files of a language that were read, the first of them last.
#[derive(Drop)]
struct FoundFiles<'s> {
    files: Vec<FileFindings<'s>>,
    messages: Vec<Messages>,
}

impl<'s> FoundFiles<'s> {
    /// These findings.
    fn of(found: LanguageFindings<'s>) -> Self {
        let LanguageFindings {
            mut files,
            mut messages,
        } = found;
        files.reverse();
        messages.reverse();
        FoundFiles { files, messages }
    }

    /// What is found in the next file.
    fn next(&mut self) -> Option<(FileFindings<'s>, Messages)> {
        Some((self.files.pop()?, self.messages.pop()?))
    }
}

/// Says once that a language has no file, and not for each file. This file of the project names
/// the language.
fn as_whole<'s>(alloc: Global, file: &'s Loaded, linted: &mut Linted<'s>) -> Result<(), AllocError>
    ensures { OnOk result (IsCounted linted.new) }
{
    let missing = linted.counts.missing;
    for file in &mut linted.files {
        file.found.findings.clear();
        file.counts = counts_of(
            std::slice::from_ref(&file.found),
            Messages::lacking(file.counts.missing),
        )?;
    }
    let offset = offset_of_locales(alloc, file)?;
    let file = File {
        name: file.name.as_str(),
        source: file.text.as_str(),
    };
    let whole = missing_locale(alloc, file, offset, linted.locale, missing)?;
    let counts = counts_of(std::slice::from_ref(&whole), Messages::none())?;
    linted.counts = counts_in(&linted.files)?.plus(counts)?;
    linted.whole = Some(whole);
    Ok(())
}

/// Where the line begins on which a file names the languages.
fn offset_of_locales(alloc: Global, file: &Loaded) -> Result<usize, AllocError> {
    let text = file.text.as_str();
    let line = line_of(alloc, text, Place::Top("locales"))?;
    Ok(line_start(text.as_bytes(), line))
}

/// Where a line begins, by its number from 1.
fn line_start(text: &[u8], line: usize) -> usize {
    let mut left = line;
    for (offset, byte) in text.iter().enumerate() {
        if left <= 1 {
            return offset;
        }
        if *byte == b'\n' {
            left -= 1;
        }
    }
    0
}
