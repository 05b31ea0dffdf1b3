//! Where the file of a project is.

use crate::config::path_in;
use crate::loading::folder_of_file;
use ftl_files::{FileError, Folder};
use std::alloc::{AllocError, Global};

/// The name of the file of a project.
const NAME: &str = "l10n.toml";

/// The path of the file of the project that the current folder is in: the first in it or above it.
///
/// # Errors
/// [`AllocError`] if memory runs out; nothing is kept.
pub fn find_project<F: Folder>(
    folder: &F,
    alloc: Global,
    here: &str,
) -> Result<Option<String>, AllocError> {
    let mut above = here;
    for _ in 0..=here.len() {
        let path = path_in(alloc, above, NAME)?;
        if folder.has_file(path.as_str()) {
            return Ok(Some(path));
        }
        if above.is_empty() || above == "/" {
            return Ok(None);
        }
        above = folder_of_file(above);
    }
    Ok(None)
}

/// The path of the current folder from the root, or an empty one if it isn't known.
///
/// # Errors
/// [`AllocError`] if memory runs out; nothing is kept.
pub fn current_folder<F: Folder>(folder: &F, alloc: Global) -> Result<String, AllocError> {
    match folder.here(alloc) {
        Ok(Some(path)) => Ok(path),
        Ok(None) => Ok(String::new(alloc)),
        Err(FileError::Memory) => Err(AllocError),
        Err(FileError::Unreadable) => Ok(String::new(alloc)),
    }
}
