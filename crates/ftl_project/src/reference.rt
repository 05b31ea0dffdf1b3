//! The files of a project's reference.
ghost use Rattle.std.specs.Prelude.{IfOk};
ghost use Rattle.fluent_project.specs.Views.{plain};
ghost use Rattle.ftl_project.specs.FilesRead.{IsPlaceOf};
ghost use Rattle.ftl_project.specs.References.{AreReferences, IsReference};

use crate::sources::Sources;
use fluent_project::relative_path;
use lint_findings::File;
use std::alloc::{AllocError, Global};

/// A file of the reference.
#[derive(Drop)]
pub struct ReferenceFile<'s> {
    /// Its path from the root, or from the current folder if that isn't known.
    pub path: &'s str,
    /// Its name, as it is reported.
    pub name: String,
    /// The file, if it was read.
    pub file: Option<File<'s>>,
}

/// The files of the reference of these paths.
///
/// # Errors
/// [`AllocError`] if memory runs out; nothing is kept.
pub fn reference_files<'s>(
    alloc: Global,
    here: &str,
    references: &[&'s str],
    files: &[&str],
    sources: &'s Sources,
) -> Result<Vec<ReferenceFile<'s>>, AllocError>
    ensures { IfOk result (λ made. AreReferences here.now (plain files.now) sources.now
        references.now made.items) }
{
    let mut all = Vec::with_capacity(alloc, references.len())?;
    for path in references {
        all.push(reference_file(alloc, here, path, files, sources)?)?;
    }
    Ok(all)
}

/// The file of the reference of a path.
fn reference_file<'s>(
    alloc: Global,
    here: &str,
    path: &'s str,
    files: &[&str],
    sources: &'s Sources,
) -> Result<ReferenceFile<'s>, AllocError>
    ensures { IfOk result (IsReference here.now (plain files.now) sources.now path.entry) }
{
    let file = match index_of(files, path) {
        Some(index) => sources.file(index),
        None => None,
    };
    Ok(ReferenceFile {
        path,
        name: relative_path(alloc, here, path)?,
        file,
    })
}

/// Where a path is among these, which are in the order of their bytes.
pub(crate) fn index_of(paths: &[&str], path: &str) -> Option<usize>
    ensures { IsPlaceOf path.now (plain paths.now) result }
{
    paths.binary_search_by(|other| (**other).cmp(path)).ok()
}
