//! The files of a project that are read, each once.
ghost use Rattle.std.specs.Prelude.{◌≡◌, IfOk, option_map};
ghost use Rattle.fluent_project.specs.Views.{plain};
ghost use Rattle.lint_findings.specs.View.{file_view};
ghost use Rattle.ftl_project.specs.FilesRead.{read_at};
ghost use Rattle.ftl_project.specs.Paths.{paths};
ghost use Rattle.ftl_project.specs.Reading.{AreReadOn};

use crate::planned::Planned;
use crate::reference::index_of;
use fluent_project::relative_path;
use ftl_files::{Folder, Found, Reported, SourceFile, read_each};
use lint_findings::File;
use std::alloc::{AllocError, Global};

/// What was read of the files of a project.
#[derive(Drop)]
pub struct Sources {
    /// At the index of each file of the project what was read of it.
    files: Vec<Option<SourceFile>>,
    /// The lines of those that could not be read.
    pub errors: String,
    /// Which errors these lines report.
    pub reported: Reported,
}

/// Reads the files of the reference and of these languages, each once, and folders that can't be
/// listed, which gives the lines that say so. The files stay as they are.
///
/// # Errors
/// [`AllocError`] if memory runs out; nothing is kept.
pub fn read_project<F: Folder>(
    folder: &mut F,
    alloc: Global,
    here: &str,
    references: &[&str],
    languages: &[Planned<'_>],
    files: &[&str],
    found: &Found,
) -> Result<Sources, AllocError>
    ensures read { IfOk result (AreReadOn F.Folder folder.old folder.new) }
    ensures kept { F.contents folder.new ≡ F.contents folder.old }
{
    let wanted = wanted(alloc, references, languages, files)?;
    let names = names_of(alloc, here, &wanted, files)?;
    let unlisted = relative_paths(alloc, here, &found.unlisted)?;
    let asked = asked(alloc, &names, &unlisted)?;
    let read = read_each(folder, alloc, &asked)?;
    Ok(Sources {
        files: placed(alloc, &names, read.files)?,
        errors: read.errors,
        reported: read.reported,
    })
}

/// The texts, lent.
pub(crate) fn lent(alloc: Global, texts: &[String]) -> Result<Vec<&str>, AllocError>
    ensures { IfOk result (λ lent. plain lent.items ≡ paths texts.now) }
{
    let mut lent = Vec::with_capacity(alloc, texts.len())?;
    for text in texts {
        lent.push(text.as_str())?;
    }
    Ok(lent)
}

/// Which files are read.
fn wanted(
    alloc: Global,
    references: &[&str],
    languages: &[Planned<'_>],
    files: &[&str],
) -> Result<Vec<bool>, AllocError> {
    let mut wanted = vec![in alloc; false; files.len()]?;
    for path in references {
        if let Some(index) = index_of(files, path) {
            mark(&mut wanted, index);
        }
    }
    for language in languages {
        for file in &language.files {
            if let Some(index) = file.index {
                mark(&mut wanted, index);
            }
        }
    }
    Ok(wanted)
}

/// Marks what is at an index, if something is.
fn mark(marks: &mut [bool], index: usize) {
    if let Some(mark) = marks.get_mut(index) {
        *mark = true;
    }
}

/// The names of the files that are read, each at its index.
fn names_of(
    alloc: Global,
    here: &str,
    wanted: &[bool],
    files: &[&str],
) -> Result<Vec<Option<String>>, AllocError> {
    let mut names = Vec::with_capacity(alloc, files.len())?;
    for (file, is_wanted) in files.iter().zip(wanted) {
        names.push(if *is_wanted {
            Some(relative_path(alloc, here, file)?)
        } else {
            None
        })?;
    }
    Ok(names)
}

/// Paths as they are seen from a folder.
fn relative_paths(alloc: Global, here: &str, paths: &[String]) -> Result<Vec<String>, AllocError> {
    let mut names = Vec::with_capacity(alloc, paths.len())?;
    for path in paths {
        names.push(relative_path(alloc, here, path.as_str())?)?;
    }
    Ok(names)
}

/// The names of these files, and then of these folders.
fn asked<'n>(
    alloc: Global,
    names: &'n [Option<String>],
    folders: &'n [String],
) -> Result<Vec<&'n str>, AllocError> {
    let mut asked = Vec::new(alloc);
    for name in names {
        if let Some(name) = name {
            asked.push(name.as_str())?;
        }
    }
    for folder in folders {
        asked.push(folder.as_str())?;
    }
    Ok(asked)
}

/// What was read, each at the index of its name. It is in the order of these names.
fn placed(
    alloc: Global,
    names: &[Option<String>],
    read: Vec<SourceFile>,
) -> Result<Vec<Option<SourceFile>>, AllocError> {
    let mut rest = read;
    rest.reverse();
    let mut files = Vec::with_capacity(alloc, names.len())?;
    for name in names {
        let file = if is_of(name, rest.last()) {
            rest.pop()
        } else {
            None
        };
        files.push(file)?;
    }
    Ok(files)
}

/// Whether a file was read by a name.
fn is_of(name: &Option<String>, file: Option<&SourceFile>) -> bool {
    match (name, file) {
        (Some(name), Some(file)) => file.name.as_str() == name.as_str(),
        _ => false,
    }
}

impl Sources {
    /// The file at this index of all, if it was read.
    pub fn file(&self, index: usize) -> Option<File<'_>>
        ensures { option_map file_view result ≡ read_at self.now.files.items index }
    {
        match self.files.get(index) {
            Some(Some(file)) => Some(File {
                name: file.name.as_str(),
                source: file.source.as_str(),
            }),
            _ => None,
        }
    }
}
