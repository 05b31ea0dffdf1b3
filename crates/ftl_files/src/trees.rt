//! The sources below several folders.
ghost use Rattle.std.specs.Prelude.{◌≡◌};

use crate::folder::{Folder, Listing};
use crate::listed::list_path;
use crate::listing::is_source_name;
use std::alloc::{AllocError, Global};

/// The sources below folders.
#[derive(Debug, Drop)]
pub struct Found {
    /// Their names, in the order of their bytes, each once.
    pub sources: Vec<String>,
    /// The folders that can't be listed, in the same order.
    pub unlisted: Vec<String>,
}

/// The sources below folders, each of which may also be the name of a source, or be missing. The
/// files stay as they are.
///
/// # Errors
/// [`AllocError`] if memory runs out; nothing is kept.
pub fn find_sources<F: Folder>(
    folder: &mut F,
    alloc: Global,
    paths: &[&str],
) -> Result<Found, AllocError>
    ensures kept { F.contents folder.new ≡ F.contents folder.old }
{
    let mut found = Found {
        sources: Vec::new(alloc),
        unlisted: Vec::new(alloc),
    };
    for path in paths {
        let listing = list_path(folder, alloc, path)?;
        found.add(folder, path, listing)?;
    }
    found.order()?;
    Ok(found)
}

impl Found {
    /// Adds what one more path stands for.
    fn add<F: Folder>(
        &mut self,
        folder: &F,
        path: &str,
        listing: Listing,
    ) -> Result<(), AllocError> {
        let Listing {
            mut sources,
            mut unlisted,
        } = listing;
        sources.retain(|name| is_source_name(name.as_str()));
        if is_alone(path, &sources) && !folder.has_file(path) {
            sources.clear();
        }
        self.sources.append(&mut sources)?;
        self.unlisted.append(&mut unlisted)
    }

    /// Puts the names in order, each once.
    fn order(&mut self) -> Result<(), AllocError> {
        self.sources.sort()?;
        self.sources.dedup();
        self.unlisted.sort()?;
        self.unlisted.dedup();
        Ok(())
    }
}

/// Whether a path is the only name that it stands for. A name that is no folder's is listed so,
/// whether there is a file or not.
fn is_alone(path: &str, names: &[String]) -> bool {
    match names {
        [name] => name.as_str() == path,
        _ => false,
    }
}
