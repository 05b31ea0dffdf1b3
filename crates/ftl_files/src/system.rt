//! The system's files.
ghost use Rattle.std.specs.Prelude.{◌≡◌, [], IfOk, IfSome, None};
ghost use Rattle.fluent_serve.specs.Devices.{one_more};
ghost use Rattle.ftl_files.specs.Rows.{IsNoted, noted};

use crate::causes::{is_refused, words_of};
use crate::folder::{FileError, Folder, Listing, ReplaceError};
use crate::listing::list_sources;
use crate::replacing::{NotReplaced, replace_file};
use crate::rows::bad_row;
use std::alloc::Global;
use std::fs::{File, metadata};
use std::io;
use std::io::{ErrorKind, Read};
use std::rt::Files;

/// The system's files. What they hold is not known.
#[derive(Drop)]
pub struct FromFiles<'a, R> {
    files: &'a R,
    failures: u64,
    /// Why the last call that failed did.
    why: Option<&'static str>,
    /// Why the last folder that could not be listed wasn't.
    unlisted: Option<&'static str>,
    /// A line for each file that was read and isn't UTF-8, if these are noted.
    bad_bytes: Option<String>,
}

impl<'a, R: Files> FromFiles<'a, R> {
    /// The files that `files` opens, with no failure yet. Those that are read and aren't UTF-8 are
    /// noted, if that is wanted.
    pub fn new(files: &'a R, alloc: Global, notes: bool) -> FromFiles<'a, R>
        ensures contents { ⟦<FromFiles<'a, R> as Folder>⟧.contents result ≡ (λ _. None) }
        ensures sources { ⟦<FromFiles<'a, R> as Folder>⟧.sources result ≡ (λ _. None) }
        ensures failures { ⟦<FromFiles<'a, R> as Folder>⟧.failures result ≡ 0 }
        ensures noted { noted result.bad_bytes ≡ [] }
    {
        FromFiles {
            files,
            failures: 0,
            why: None,
            unlisted: None,
            bad_bytes: if notes {
                Some(String::new(alloc))
            } else {
                None
            },
        }
    }

    /// A line for each file that was read and isn't UTF-8, if these are noted: where its first byte
    /// is that isn't.
    pub fn bad_bytes(&self) -> &str
        ensures { result.now ≡ noted self.now.bad_bytes }
    {
        match &self.bad_bytes {
            Some(lines) => lines.as_str(),
            None => "",
        }
    }

    /// Notes a file that was read, if it isn't UTF-8. If memory runs out, it isn't noted.
    fn note_bytes(&mut self, alloc: Global, name: &str, bytes: &[u8])
        ensures failures { self.new.failures ≡ self.old.failures }
        ensures noted { IsNoted name.now bytes.now
            (noted self.old.bad_bytes) (noted self.new.bad_bytes) }
    {
        let Some(lines) = &mut self.bad_bytes else {
            return;
        };
        let Some(row) = bad_row(bytes) else {
            return;
        };
        if let Ok(line) = format!(in alloc; "ftl: {name}:{row}: a byte that isn't UTF-8\n") {
            let _ = lines.push_str(line.as_str());
        }
    }

    /// Notes that a call failed.
    fn note(&mut self, error: &io::Error)
        ensures { self.new.failures ≡ one_more self.old.failures }
    {
        self.failures = self.failures.saturating_add(1);
        self.why = words_of(error);
    }

    /// Notes that a file changed before it was replaced.
    fn note_changed(&mut self)
        ensures { self.new.failures ≡ one_more self.old.failures }
    {
        self.failures = self.failures.saturating_add(1);
        self.why = Some("changed while it was tidied");
    }

    /// Notes that a call that reads a file failed. A folder is read only if it can't be listed.
    fn note_unread(&mut self, error: &io::Error)
        ensures { self.new.failures ≡ one_more self.old.failures }
    {
        self.note(error);
        if error.kind() == ErrorKind::IsADirectory {
            self.why = self.unlisted.or(self.why);
        }
    }
}

impl<R: Files> Folder for FromFiles<'_, R> {
    ghost contents = { λ _ _. None };

    ghost sources = { λ _ _. None };

    ghost failures = { λ s. s.failures };

    fn read(&mut self, alloc: Global, name: &str) -> Result<Vec<u8>, FileError> {
        match read_file(self.files, alloc, name) {
            Ok(bytes) => {
                self.note_bytes(alloc, name, &bytes);
                Ok(bytes)
            }
            Err(error) if is_refused(&error) => Err(FileError::Memory),
            Err(error) => {
                self.note_unread(&error);
                Err(FileError::Unreadable)
            }
        }
    }

    fn why(&self) -> Option<&'static str> {
        self.why
    }

    fn list(&mut self, alloc: Global, name: &str) -> Result<Listing, FileError> {
        match list_sources(self.files, alloc, name, &mut self.unlisted) {
            Ok(listing) => Ok(listing),
            Err(error) if is_refused(&error) => Err(FileError::Memory),
            Err(error) => {
                self.note(&error);
                self.unlisted = self.why;
                Err(FileError::Unreadable)
            }
        }
    }

    fn has_file(&self, name: &str) -> bool {
        metadata(self.files, name).is_ok_and(|found| found.is_file())
    }

    fn here(&self, alloc: Global) -> Result<Option<String>, FileError> {
        match self.files.canonicalize(alloc, ".") {
            Ok(path) => Ok(Some(path.into_string())),
            Err(error) if is_refused(&error) => Err(FileError::Memory),
            Err(_) => Ok(None),
        }
    }

    fn replace(
        &mut self,
        alloc: Global,
        name: &str,
        old: &[u8],
        bytes: &[u8],
    ) -> Result<(), ReplaceError> {
        match replace_file(self.files, alloc, name, old, bytes) {
            Ok(()) => Ok(()),
            Err(NotReplaced::System(error)) if is_refused(&error) => Err(ReplaceError::Memory),
            Err(NotReplaced::System(error)) => {
                self.note(&error);
                Err(ReplaceError::Unwritable)
            }
            Err(NotReplaced::Changed) => {
                self.note_changed();
                Err(ReplaceError::Unwritable)
            }
        }
    }
}

/// Reads a file of the system to its end.
pub(crate) fn read_file<R: Files>(files: &R, alloc: Global, name: &str) -> io::Result<Vec<u8>> {
    read_whole(File::open(files, name)?, alloc)
}

/// All that is left of an open file.
fn read_whole<F: Read + Drop>(file: F, alloc: Global) -> io::Result<Vec<u8>>
    ensures { IfOk result (λ bytes. IfSome (F.remaining file) (λ left. bytes.items ≡ left)) }
{
    let mut file = file;
    let mut bytes = Vec::new(alloc);
    file.read_to_end(&mut bytes)?;
    Ok(bytes)
}
