//! Replacing what a file holds at once.
ghost use Rattle.std.specs.Prelude.{OnOk};
ghost use Rattle.std.specs.Io.KnownBytes.{Appends};

use crate::system::read_file;
use std::alloc::Global;
use std::fs::{Metadata, OpenFile, OpenOptions};
use std::io::{Error, ErrorKind, Write};
use std::os::unix::fs::MetadataExt;
use std::rt::Files;
use std::{fs, io};

/// How many names are tried for the new file: those of files that ended runs left behind are taken.
const TRIES: u32 = 100;

/// Why a file of the system was not replaced.
#[derive(Debug, Drop)]
pub(crate) enum NotReplaced {
    /// The error of the system, or one that says that memory ran out.
    System(Error),
    /// It holds something else than when it was read.
    Changed,
}

impl From<Error> for NotReplaced {
    fn from(error: Error) -> Self {
        NotReplaced::System(error)
    }
}

/// The bytes that a file holds, and those that it is to hold.
#[derive(Clone, Copy)]
struct Change<'a> {
    path: &'a str,
    old: &'a [u8],
    new: &'a [u8],
}

/// Replaces what a file of the system holds, if that still is `old`. The bytes are written to a new
/// file beside it, which is then renamed over it: at any time the file is the old one or the new
/// one, whole. Of a link the file that it leads to is replaced. New files that ended runs left
/// beside it are removed, if they hold a front of the bytes. A file that isn't there is made, if
/// `old` is empty.
///
/// # Errors
/// Why it isn't replaced; the file is as it was.
pub(crate) fn replace_file<R: Files>(
    files: &R,
    alloc: Global,
    name: &str,
    old: &[u8],
    bytes: &[u8],
) -> Result<(), NotReplaced> {
    let path = match files.canonicalize(alloc, name) {
        Ok(path) => path.into_string(),
        Err(error) if old.is_empty() && error.kind() == ErrorKind::NotFound => {
            return make_file(files, alloc, name, bytes);
        }
        Err(error) => return Err(NotReplaced::System(error)),
    };
    let change = Change {
        path: path.as_str(),
        old,
        new: bytes,
    };
    let found = fs::metadata(files, change.path)?;
    require_writable(files, change.path)?;
    let new = NewFile::beside(files, alloc, change.path)?;
    let number = new.number;
    new.take_place(files, alloc, &found, change)?;
    remove_left(files, alloc, change, number);
    Ok(())
}

/// Makes a file with these bytes where none is: at any time there is none, or it is whole.
fn make_file<R: Files>(
    files: &R,
    alloc: Global,
    path: &str,
    bytes: &[u8],
) -> Result<(), NotReplaced> {
    let NewFile {
        file,
        path: beside,
        ..
    } = NewFile::beside(files, alloc, path)?;
    let made = match write_new(file, bytes) {
        Ok(()) => fs::rename(files, beside.as_str(), path),
        Err(error) => Err(error),
    };
    if made.is_err() {
        let _ = fs::remove_file(files, beside.as_str());
    }
    made?;
    Ok(())
}

/// Writes the bytes to a new file, and has them stored.
fn write_new<F: OpenFile + Write + Drop>(file: F, bytes: &[u8]) -> io::Result<()> {
    let mut new = file;
    new.write_all(bytes)?;
    new.sync_all()
}

/// A rename replaces a file that nobody may write, too: so it is opened for writing first, and
/// stays as it is.
fn require_writable<R: Files>(files: &R, path: &str) -> io::Result<()> {
    OpenOptions::new().write(true).open(files, path)?;
    Ok(())
}

/// A file that was made beside another.
#[derive(Drop)]
struct NewFile<F> {
    file: F,
    path: String,
    /// How many names were taken before its own.
    number: u32,
}

impl<F: OpenFile + Write + Drop> NewFile<F> {
    /// A new file beside the one of a path, by the first name that is free.
    fn beside<R: Files<File = F>>(files: &R, alloc: Global, path: &str) -> io::Result<NewFile<F>> {
        for number in 0..TRIES {
            let path = name_beside(alloc, path, number)?;
            match create(files, path.as_str()) {
                Ok(file) => return Ok(NewFile { file, path, number }),
                Err(error) if error.kind() == ErrorKind::AlreadyExists => {}
                Err(error) => return Err(error),
            }
        }
        Err(Error::from(ErrorKind::AlreadyExists))
    }

    /// Writes the bytes, and renames the new file over the old one. It is removed if that fails, or
    /// is done already.
    fn take_place<R: Files<File = F>>(
        self,
        files: &R,
        alloc: Global,
        found: &Metadata,
        change: Change,
    ) -> Result<(), NotReplaced> {
        let NewFile { file, path, .. } = self;
        let path = path.as_str();
        // Who may not give a file away keeps it.
        let _ = files.chown(path, Some(found.uid()), Some(found.gid()));
        let done = match write_synced(file, found, change.new) {
            Ok(()) => rename_over(files, alloc, path, change),
            Err(error) => Err(NotReplaced::System(error)),
        };
        if !matches!(done, Ok(true)) {
            let _ = fs::remove_file(files, path);
        }
        done?;
        Ok(())
    }
}

/// The name of a new file beside the one of a path.
fn name_beside(alloc: Global, path: &str, number: u32) -> io::Result<String> {
    Ok(format!(in alloc; "{path}.{number}.new")?)
}

/// Makes a file that isn't there.
fn create<R: Files>(files: &R, path: &str) -> io::Result<R::File> {
    OpenOptions::new()
        .write(true)
        .create_new(true)
        .open(files, path)
}

/// Writes the bytes to a new file, with the mode of the old one, and has them stored.
fn write_synced<F: OpenFile + Write + Drop>(
    file: F,
    found: &Metadata,
    bytes: &[u8],
) -> io::Result<()> {
    let mut file = file;
    write_all(&mut file, found, bytes)
}

/// Writes the bytes to a file that is open, with the mode of the old one, and has them stored.
fn write_all<F: OpenFile + Write>(file: &mut F, found: &Metadata, bytes: &[u8]) -> io::Result<()>
    ensures { OnOk result (Appends (F.contents file.old) (F.contents file.new) bytes.now) }
{
    file.set_permissions(found.permissions())?;
    file.write_all(bytes)?;
    file.sync_all()
}

/// Renames the new file over the old one, if that holds what it did. Returns whether it did: if
/// another run has replaced it by the same bytes, nothing is to be done.
fn rename_over<R: Files>(
    files: &R,
    alloc: Global,
    new: &str,
    change: Change,
) -> Result<bool, NotReplaced> {
    let held = read_file(files, alloc, change.path)?;
    if *held == *change.new {
        return Ok(false);
    }
    if *held != *change.old {
        return Err(NotReplaced::Changed);
    }
    match fs::rename(files, new, change.path) {
        Ok(()) => Ok(true),
        // Another run has done the same, and took the new file for one that was left.
        Err(_) if holds(files, alloc, change.path, change.new) => Ok(false),
        Err(error) => Err(NotReplaced::System(error)),
    }
}

/// Whether a file holds these bytes.
fn holds<R: Files>(files: &R, alloc: Global, path: &str, bytes: &[u8]) -> bool {
    read_file(files, alloc, path).is_ok_and(|held| *held == *bytes)
}

/// Removes the new files that ended runs left, of those whose names were taken: they hold a front
/// of the bytes.
fn remove_left<R: Files>(files: &R, alloc: Global, change: Change, taken: u32) {
    for number in 0..taken {
        if let Ok(path) = name_beside(alloc, change.path, number) {
            if is_left(files, alloc, path.as_str(), change.new) {
                let _ = fs::remove_file(files, path.as_str());
            }
        }
    }
}

/// Whether a file holds a front of these bytes. Nothing but a file is read.
fn is_left<R: Files>(files: &R, alloc: Global, path: &str, bytes: &[u8]) -> bool {
    fs::symlink_metadata(files, path).is_ok_and(|found| found.is_file())
        && read_file(files, alloc, path).is_ok_and(|held| bytes.starts_with(&held))
}
