//! Where the sources' files lie.
//!
//! Contracts see what the files of a `Folder` hold and which files lie below a name, if that is
//! known, and how many of its calls have failed. `FromFiles` makes one of the system's files, of
//! which nothing is known.
ghost use Rattle.std.specs.Prelude.{◌≡◌, ◌⊎◌, ℕ, List, [], Option, IfOk, IfSome, IsSorted, OnOk, OnErr, string_cmp, true};
ghost use Rattle.ftl_files.specs.Files.{IsReplaced, StandFor, failures_after_file, failures_after_replace};
ghost use Rattle.ftl_files.specs.Listing.{listed_names};

use std::alloc::Global;

/// Why a file was not read, or a folder not listed.
///
/// ```no_run
/// match folder.read(alloc, "hello.ftl") {
///     Ok(bytes) => print!(rt; "{} bytes", bytes.len())?,
///     Err(error) => bail!("hello.ftl: {error}"), // hello.ftl: cannot read
/// }
/// ```
#[derive(Clone, Copy, Debug, PartialEq, Eq)]
pub enum FileError {
    /// Memory ran out while the file was read.
    Memory,
    /// The file could not be opened, or a read of it failed.
    Unreadable,
}

/// Why a file was not replaced.
///
/// ```no_run
/// match folder.replace(alloc, "hello.ftl", old, text) {
///     Ok(()) => println!(rt; "hello.ftl")?,
///     Err(error) => bail!("hello.ftl: {error}"), // hello.ftl: cannot write
/// }
/// ```
#[derive(Clone, Copy, Debug, PartialEq, Eq)]
pub enum ReplaceError {
    /// Memory ran out before anything was written.
    Memory,
    /// The file can't be written, no new file could be made beside it, or it holds something else
    /// than when it was read.
    Unwritable,
}

/// The sources that a name stands for.
#[derive(Debug, Drop)]
pub struct Listing {
    /// The sources below a folder, or the name alone, if it isn't a folder's.
    pub sources: Vec<String>,
    /// The folders below that can't be listed.
    pub unlisted: Vec<String>,
}

impl Listing {
    /// A listing without sources and folders.
    pub fn new(alloc: Global) -> Listing
        ensures { listed_names result ≡ [] }
    {
        Listing {
            sources: Vec::new(alloc),
            unlisted: Vec::new(alloc),
        }
    }
}

/// Files by their names.
pub trait Folder {
    /// The bytes that the file of a name holds, if they are known.
    ghost contents: { Self → List ℕ → Option (List ℕ) };

    /// The names of the sources below a folder of this name, and then those of the folders below it
    /// that can't be listed; of anything else the name alone; if they are known.
    ghost sources: { Self → List ℕ → Option (List (List ℕ)) };

    /// How many reads, lists and replacements have failed, not counting those for which memory ran
    /// out. At the greatest `u64` the count stays there.
    ghost failures: { Self → ℕ };

    /// Reads a file to its end. The files stay as they are.
    ///
    /// # Errors
    /// [`FileError::Memory`] if memory runs out; nothing is kept. [`FileError::Unreadable`] if the
    /// file can't be opened, or a read of it fails.
    fn read(&mut self, alloc: Global, name: &str) -> Result<Vec<u8>, FileError>
        ensures held { IfOk result (λ bytes.
            IfSome (contents self.old name.now) (λ held. bytes.items ≡ held)) }
        ensures kept { contents self.new ≡ contents self.old }
        ensures same_sources { sources self.new ≡ sources self.old }
        ensures failed { failures self.new ≡ failures_after_file (failures self.old) result };

    /// Why the last call that failed did, in words, if that is known: `no such file`,
    /// `is a folder`, `no permission`, `no space left`, `a read-only file system`,
    /// `its name is too long` or `changed while it was tidied`.
    fn why(&self) -> Option<&'static str>;

    /// Lists the files below a folder whose names end in `.ftl`, by the bytes of their paths, each
    /// beginning with the name of the folder, and the folders below it that can't be listed. A name
    /// that isn't a folder's is listed alone. Links to folders aren't followed. The files stay as
    /// they are.
    ///
    /// # Errors
    /// [`FileError::Memory`] if memory runs out; nothing is kept. [`FileError::Unreadable`] if the
    /// folder itself can't be listed.
    fn list(&mut self, alloc: Global, name: &str) -> Result<Listing, FileError>
        ensures listed { IfOk result (λ listing.
            IfSome (sources self.old name.now) (λ all. listed_names listing ≡ all)) }
        ensures stand { IfOk result (λ listing. StandFor name.now (listed_names listing)) }
        ensures ordered { IfOk result (λ listing. IsSorted string_cmp listing.sources.items) }
        ensures kept { contents self.new ≡ contents self.old }
        ensures same_sources { sources self.new ≡ sources self.old }
        ensures failed { failures self.new ≡ failures_after_file (failures self.old) result };

    /// Whether there is a file of a name, or a link to one.
    fn has_file(&self, name: &str) -> bool
        ensures { IfSome (contents self.now name.now) (λ _. result ≡ true) };

    /// The path of the current folder from the root, without links, if it is known.
    ///
    /// # Errors
    /// [`FileError::Memory`] if memory runs out.
    fn here(&self, alloc: Global) -> Result<Option<String>, FileError>;

    /// Replaces what a file holds by these bytes, at once: at any time the file holds what it did
    /// or the bytes, whole. No other file changes, though a replacement that is cut off may leave
    /// a new one. `old` is what the file held when it was read, or nothing if it isn't there: then
    /// it is made.
    ///
    /// # Errors
    /// [`ReplaceError::Memory`] if memory runs out, [`ReplaceError::Unwritable`] if the file can't
    /// be written, or holds something else than `old`. The file is as it was.
    fn replace(
        &mut self,
        alloc: Global,
        name: &str,
        old: &[u8],
        bytes: &[u8],
    ) -> Result<(), ReplaceError>
        ensures unchanged { OnOk result (IfSome (contents self.old name.now)
            (λ held. (held ≡ old.now) ⊎ (held ≡ bytes.now))) }
        ensures replaced { OnOk result
            (IsReplaced (contents self.old) (contents self.new) name.now bytes.now) }
        ensures kept { OnErr result (contents self.new ≡ contents self.old) }
        ensures same_sources { sources self.new ≡ sources self.old }
        ensures failed { failures self.new ≡ failures_after_replace (failures self.old) result };
}
