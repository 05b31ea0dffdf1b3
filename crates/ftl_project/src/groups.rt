//! Languages that are translated from the same files of the reference.

use crate::planned::{Planned, PlannedFile};
use crate::reference::ReferenceFile;
use crate::sources::Sources;
use fluent_lint::Original;
use fluent_project::Source;
use lint_findings::File;
use std::alloc::{AllocError, Global};

/// Files of the reference, and the languages that are translated from exactly these.
#[derive(Drop)]
pub struct Group<'s> {
    /// The files.
    pub theirs: Vec<File<'s>>,
    /// Their numbers among those of the project's reference.
    numbers: Vec<usize>,
    /// The languages.
    pub languages: Vec<Language<'s>>,
}

/// The files of a language.
#[derive(Drop)]
pub struct Language<'s> {
    /// The tag of the language.
    pub locale: &'s str,
    /// Its files, whether they are there or not.
    pub files: Vec<LanguageFile<'s>>,
    /// Those that are there, in the same order.
    pub mine: Vec<File<'s>>,
    /// What each of these is translated from.
    pub originals: Vec<Original>,
}

/// A file of a language, and what it is translated from.
#[derive(Drop)]
pub struct LanguageFile<'s> {
    /// The file.
    pub planned: &'s PlannedFile,
    /// The file of the reference, by its index among those of the group.
    pub original: Original,
    /// Whether it was read.
    pub is_read: bool,
}

/// The files of the reference that a language is translated from, in the order in which they are
/// met.
#[derive(Drop)]
struct Used<'s> {
    theirs: Vec<File<'s>>,
    numbers: Vec<usize>,
    /// For each file of the project's reference, where it is among these.
    places: Vec<Option<usize>>,
}

/// The languages of a project, by the files of the reference that they are translated from. The
/// first group has all of these files.
///
/// # Errors
/// [`AllocError`] if memory runs out; nothing is kept.
pub fn groups_of<'s>(
    alloc: Global,
    references: &[ReferenceFile<'s>],
    plan: &'s [Planned<'_>],
    sources: &'s Sources,
) -> Result<Vec<Group<'s>>, AllocError> {
    let mut groups = Vec::new(alloc);
    groups.push(whole_group(alloc, references)?)?;
    for planned in plan {
        let mut used = Used::none(alloc, references.len())?;
        let language = language_of(alloc, references, planned, sources, &mut used)?;
        add_language(alloc, &mut groups, used, language)?;
    }
    Ok(groups)
}

/// The group of all files of the reference that were read.
fn whole_group<'s>(
    alloc: Global,
    references: &[ReferenceFile<'s>],
) -> Result<Group<'s>, AllocError> {
    let mut theirs = Vec::with_capacity(alloc, references.len())?;
    let mut numbers = Vec::with_capacity(alloc, references.len())?;
    for (number, reference) in references.iter().enumerate() {
        if let Some(file) = reference.file {
            theirs.push(file)?;
            numbers.push(number)?;
        }
    }
    Ok(Group {
        theirs,
        numbers,
        languages: Vec::new(alloc),
    })
}

/// Adds a language to the group of these files of the reference.
fn add_language<'s>(
    alloc: Global,
    groups: &mut Vec<Group<'s>>,
    used: Used<'s>,
    language: Language<'s>,
) -> Result<(), AllocError> {
    let place = place_of(groups, &used.numbers);
    if let Some(group) = groups.get_mut(place) {
        group.languages.push(language)?;
        return Ok(());
    }
    let mut languages = Vec::new(alloc);
    languages.push(language)?;
    let Used {
        theirs,
        numbers,
        ..
    } = used;
    groups.push(Group {
        theirs,
        numbers,
        languages,
    })?;
    Ok(())
}

/// Which of these groups has exactly these files of the reference. If none has, it is the number
/// of groups.
fn place_of(groups: &[Group<'_>], numbers: &[usize]) -> usize {
    groups
        .iter()
        .position(|group| group.numbers.as_slice() == numbers)
        .unwrap_or(groups.len())
}

/// The files of a language.
fn language_of<'s>(
    alloc: Global,
    references: &[ReferenceFile<'s>],
    planned: &'s Planned<'_>,
    sources: &'s Sources,
    used: &mut Used<'s>,
) -> Result<Language<'s>, AllocError> {
    let mut language = Language {
        locale: planned.locale,
        files: Vec::with_capacity(alloc, planned.files.len())?,
        mine: Vec::new(alloc),
        originals: Vec::new(alloc),
    };
    for file in &planned.files {
        let original = used.original(references, file.source)?;
        language.add(file, original, file_at(sources, file.index))?;
    }
    Ok(language)
}

/// The file at an index, if it was read.
fn file_at(sources: &Sources, index: Option<usize>) -> Option<File<'_>> {
    match index {
        Some(index) => sources.file(index),
        None => None,
    }
}

impl<'s> Language<'s> {
    /// Adds a file, and what was read of it.
    fn add(
        &mut self,
        planned: &'s PlannedFile,
        original: Original,
        read: Option<File<'s>>,
    ) -> Result<(), AllocError> {
        self.files.push(LanguageFile {
            planned,
            original,
            is_read: read.is_some(),
        })?;
        if let Some(file) = read {
            self.mine.push(file)?;
            self.originals.push(original)?;
        }
        Ok(())
    }
}

impl<'s> Used<'s> {
    /// None of so many files.
    fn none(alloc: Global, count: usize) -> Result<Self, AllocError> {
        Ok(Used {
            theirs: Vec::new(alloc),
            numbers: Vec::new(alloc),
            places: vec![in alloc; None; count]?,
        })
    }

    /// What a file is translated from. A file of the reference is added when it is first met.
    fn original(
        &mut self,
        references: &[ReferenceFile<'s>],
        source: Source,
    ) -> Result<Original, AllocError> {
        match source {
            Source::Lacking => Ok(Original::Lacking),
            Source::Unasked => Ok(Original::Unasked),
            Source::File(number) => match references.get(number) {
                Some(
                    ReferenceFile {
                        file: Some(file),
                        ..
                    },
                ) => self.met(number, *file),
                _ => Ok(Original::Unasked),
            },
        }
    }

    /// The file of the reference of this number.
    fn met(&mut self, number: usize, file: File<'s>) -> Result<Original, AllocError> {
        if let Some(Some(place)) = self.places.get(number) {
            return Ok(Original::File(*place));
        }
        let place = self.theirs.len();
        if let Some(slot) = self.places.get_mut(number) {
            *slot = Some(place);
        }
        self.theirs.push(file)?;
        self.numbers.push(number)?;
        Ok(Original::File(place))
    }
}
