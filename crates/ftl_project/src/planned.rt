//! Which files of which languages are read.

use crate::project::Project;
use crate::reference::index_of;
use fluent_project::{Source, Tree, relative_path};
use std::alloc::{AllocError, Global};

/// The files of a language, in the order of their paths.
#[derive(Drop)]
pub struct Planned<'l> {
    /// The tag of the language.
    pub locale: &'l str,
    /// Its files.
    pub files: Vec<PlannedFile>,
}

/// A file of a language, whether there is one or not.
#[derive(Drop)]
pub struct PlannedFile {
    /// Its path from the root, or from the current folder if that isn't known.
    pub path: String,
    /// Its name, as it is reported.
    pub name: String,
    /// What it is translated from.
    pub source: Source,
    /// Its index among all files, if it is there.
    pub index: Option<usize>,
}

/// The files of these languages of a project.
///
/// # Errors
/// [`AllocError`] if memory runs out; nothing is kept.
pub fn plans_of<'l>(
    alloc: Global,
    project: &Project<'l>,
    here: &str,
    languages: &[&'l str],
    references: &[&str],
    files: &[&str],
) -> Result<Vec<Planned<'l>>, AllocError> {
    let tree = Tree {
        rules: &project.rules,
        excluded: &project.excluded,
        references,
        files,
    };
    let mut all = Vec::with_capacity(alloc, languages.len())?;
    for locale in languages {
        let files = planned_files(alloc, tree, here, locale)?;
        all.push(Planned {
            locale: *locale,
            files,
        })?;
    }
    Ok(all)
}

/// The files of a language.
fn planned_files(
    alloc: Global,
    tree: Tree<'_, '_>,
    here: &str,
    locale: &str,
) -> Result<Vec<PlannedFile>, AllocError> {
    let pairs = tree.pairs(alloc, locale)?;
    let mut files = Vec::with_capacity(alloc, pairs.len())?;
    for (path, source) in pairs.iter() {
        let path = path.as_str();
        files.push(PlannedFile {
            path: String::from_str(alloc, path)?,
            name: relative_path(alloc, here, path)?,
            source: *source,
            index: index_of(tree.files, path),
        })?;
    }
    Ok(files)
}
