//! The sources below a folder.
ghost use Rattle.std.specs.Prelude.{◌≡◌, ◌↔◌, ◌⊎◌, ◌∷◌, [], IfOk, IsSorted, IsTrue, map, string_bytes, string_cmp};
ghost use Rattle.std.specs.Fs.{IsFile, IsSymlink};
ghost use Rattle.ftl_files.specs.Files.{StandFor, is_source_name};
ghost use Rattle.ftl_files.specs.Listing.{AddsBelow, AreListedBelow, listed_names, path_in, slash_after};

use crate::causes::{is_refused, words_of};
use crate::folder::Listing;
use std::alloc::{AllocError, Global};
use std::fs::{DirEntry, FileType, metadata, read_dir};
use std::io;
use std::io::ErrorKind;
use std::rt::Files;

/// The files below a folder whose names end in `.ftl`, and the folders below it that can't be
/// listed, each by the bytes of their paths; of anything else the name alone. If a folder below
/// can't be listed, `why` becomes the reason, in words.
///
/// # Errors
/// The error of the system for a folder that can't be listed itself, or one that says that memory
/// ran out; nothing is kept.
pub(crate) fn list_sources<R: Files>(
    files: &R,
    alloc: Global,
    name: &str,
    why: &mut Option<&'static str>,
) -> io::Result<Listing>
    ensures stand { IfOk result (λ listing. StandFor name.now (listed_names listing)) }
    ensures ordered { IfOk result (λ listing. IsSorted string_cmp listing.sources.items) }
{
    if is_folder(files, name) {
        list_below(files, alloc, name, why)
    } else {
        Ok(Listing {
            sources: alone(alloc, name)?,
            unlisted: Vec::new(alloc),
        })
    }
}

/// Whether a name is that of a folder, or of a link to one.
fn is_folder<R: Files>(files: &R, name: &str) -> bool {
    metadata(files, name).is_ok_and(|found| found.is_dir())
}

/// The name alone.
fn alone(alloc: Global, name: &str) -> Result<Vec<String>, AllocError>
    ensures { IfOk result (λ names. map string_bytes names.items ≡ name.now ∷ []) }
{
    let mut names = Vec::with_capacity(alloc, 1)?;
    names.push(String::from_str(alloc, name)?)?;
    Ok(names)
}

/// A walk below a folder: the folders that are still to be listed, and what was found.
#[derive(Drop)]
struct Walk {
    folders: Vec<String>,
    listing: Listing,
}

/// The sources below a folder, and the folders that can't be listed, by the bytes of their paths.
fn list_below<R: Files>(
    files: &R,
    alloc: Global,
    name: &str,
    why: &mut Option<&'static str>,
) -> io::Result<Listing>
    ensures below { IfOk result (AreListedBelow name.now) }
    ensures ordered { IfOk result (λ listing. IsSorted string_cmp listing.sources.items) }
{
    let mut listing = find_below(files, alloc, name, why)?;
    listing.sources.sort()?;
    listing.unlisted.sort()?;
    Ok(listing)
}

/// The sources below a folder and the folders that can't be listed, in the order of the walk.
fn find_below<R: Files>(
    files: &R,
    alloc: Global,
    name: &str,
    why: &mut Option<&'static str>,
) -> io::Result<Listing>
    ensures { IfOk result (AreListedBelow name.now) }
{
    let mut walk = Walk {
        folders: Vec::new(alloc),
        listing: Listing::new(alloc),
    };
    push_folder(files, alloc, name, &mut walk)?;
    for _ in 0..u64::MAX {
        let Some(folder) = walk.folders.pop() else {
            break;
        };
        push_below(files, alloc, folder, &mut walk, why)?;
    }
    Ok(walk.listing)
}

/// Adds what lies in a folder, or the folder if it can't be listed: then `why` becomes the reason.
fn push_below<R: Files>(
    files: &R,
    alloc: Global,
    folder: String,
    walk: &mut Walk,
    why: &mut Option<&'static str>,
) -> io::Result<()>
    ensures { AddsBelow (string_bytes folder) walk.old walk.new }
{
    match push_folder(files, alloc, folder.as_str(), walk) {
        Err(error) if !is_refused(&error) => {
            *why = words_of(&error);
            walk.listing.unlisted.push(folder)?;
            Ok(())
        }
        ended => ended,
    }
}

/// Adds what lies in a folder.
fn push_folder<R: Files>(files: &R, alloc: Global, folder: &str, walk: &mut Walk) -> io::Result<()>
    ensures { AddsBelow folder.now walk.old walk.new }
{
    for entry in read_dir(&(files, alloc), folder)? {
        match entry {
            Ok(entry) => push_entry(alloc, folder, &entry, walk)?,
            // A name that isn't UTF-8 can't be given on a command line either.
            Err(error) if error.kind() == ErrorKind::InvalidFilename => {}
            Err(error) => return Err(error),
        }
    }
    Ok(())
}

/// Adds a folder or a source that lies in a folder.
fn push_entry<R: Files>(
    alloc: Global,
    folder: &str,
    entry: &DirEntry<R, Global>,
    walk: &mut Walk,
) -> io::Result<()>
    ensures { AddsBelow folder.now walk.old walk.new }
{
    let kind = entry.file_type()?;
    let path = path_in(alloc, folder, entry.file_name())?;
    if kind.is_dir() {
        walk.folders.push(path)?;
    } else if is_text_file(kind) && is_source_name(path.as_str()) {
        walk.listing.sources.push(path)?;
    }
    Ok(())
}

/// The path of a name in a folder.
fn path_in(alloc: Global, folder: &str, name: &str) -> Result<String, AllocError>
    ensures { IfOk result (λ path. string_bytes path ≡ path_in folder.now name.now) }
{
    let mut path = String::from_str(alloc, folder)?;
    path.push_str(slash_after(folder))?;
    path.push_str(name)?;
    Ok(path)
}

/// A slash, unless the name of a folder ends with one.
fn slash_after(folder: &str) -> &'static str
    ensures { result.now ≡ slash_after folder.now }
{
    if folder.is_empty() || folder.as_bytes().ends_with(b"/") {
        ""
    } else {
        "/"
    }
}

/// Whether a file of this type may be read to its end, as a pipe may not. A link may lead to a
/// file.
fn is_text_file(kind: FileType) -> bool
    ensures { IsTrue result ↔ (IsFile kind ⊎ IsSymlink kind) }
{
    kind.is_file() || kind.is_symlink()
}

/// Whether the name of a file ends as those of sources do.
pub(crate) fn is_source_name(path: &str) -> bool
    ensures { result ≡ is_source_name path.now }
{
    path.as_bytes().ends_with(b".ftl")
}
