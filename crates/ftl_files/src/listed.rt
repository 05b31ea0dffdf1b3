//! The files that paths stand for.
ghost use Rattle.std.specs.Prelude.{◌≡◌, [], IfOk, OnOk, map, string_bytes};
ghost use Rattle.lint_nodes.specs.HasNames.{texts};
ghost use Rattle.lint_findings.specs.Comparison.{union};
ghost use Rattle.ftl_files.specs.Listed.{listed_after, nothing_listed};
ghost use Rattle.ftl_files.specs.Listing.{listed_names};
ghost use Rattle.ftl_files.specs.TidyView.{AreListedOn, IsListedOn, listed_view};

use crate::folder::{FileError, Folder, Listing};
use lint_nodes::Names;
use std::alloc::{AllocError, Global};

/// The files that paths stand for.
#[derive(Debug, Drop)]
pub(crate) struct Listed {
    /// Their names, for each path those of its own.
    pub(crate) names: Vec<String>,
    /// A line for each path that stands for no file.
    pub(crate) errors: String,
    /// Whether there is one.
    pub(crate) no_file: bool,
}

impl Listed {
    /// The files of no path: no name, and no line.
    fn new(alloc: Global) -> Listed
        ensures { listed_view result ≡ nothing_listed }
    {
        Listed {
            names: Vec::new(alloc),
            errors: String::new(alloc),
            no_file: false,
        }
    }

    /// Adds what one more path stands for.
    fn add(&mut self, path: &str, listing: Listing) -> Result<(), AllocError>
        ensures { OnOk result (listed_view self.new
            ≡ listed_after (listed_view self.old) path.now (listed_names listing)) }
    {
        let Listing {
            sources: mut names,
            mut unlisted,
        } = listing;
        names.append(&mut unlisted)?;
        if names.is_empty() {
            return self.add_path(path);
        }
        self.names.append(&mut names)?;
        Ok(())
    }

    /// Adds the line of a path that stands for no file.
    fn add_path(&mut self, path: &str) -> Result<(), AllocError>
        ensures { OnOk result (listed_view self.new
            ≡ listed_after (listed_view self.old) path.now []) }
    {
        self.no_file = true;
        writeln!(self.errors, "ftl: {path}: there is no .ftl file in it")
    }
}

/// The files that paths stand for, in their order, each with the folders below that can't be
/// listed.
pub(crate) fn list_paths<F: Folder>(
    folder: &mut F,
    alloc: Global,
    paths: &[&str],
) -> Result<Listed, AllocError>
    ensures listed { IfOk result (AreListedOn F.Folder paths.now folder.old folder.new) }
    ensures kept { F.contents folder.new ≡ F.contents folder.old }
{
    let mut listed = Listed::new(alloc);
    for path in paths {
        let listing = list_path(folder, alloc, path)?;
        listed.add(path, listing)?;
    }
    Ok(listed)
}

/// The listing of a path. A path that can't be listed itself is listed as a folder below that can't
/// be.
pub(crate) fn list_path<F: Folder>(
    folder: &mut F,
    alloc: Global,
    path: &str,
) -> Result<Listing, AllocError>
    ensures listed { IfOk result (IsListedOn F.Folder path.now folder.old folder.new) }
    ensures kept { F.contents folder.new ≡ F.contents folder.old }
{
    match folder.list(alloc, path) {
        Ok(listing) => Ok(listing),
        Err(FileError::Memory) => Err(AllocError),
        Err(FileError::Unreadable) => {
            let mut listing = Listing::new(alloc);
            listing.unlisted.push(String::from_str(alloc, path)?)?;
            Ok(listing)
        }
    }
}

/// The names, each once, by the first of each.
pub(crate) fn each_once(alloc: Global, names: &[String]) -> Result<Vec<&str>, AllocError>
    ensures { IfOk result (λ once. texts once.items ≡ union [] (map string_bytes names.now)) }
{
    let mut once = Names::new(alloc);
    for name in names {
        once.add(name.as_str())?;
    }
    Ok(once.list)
}
