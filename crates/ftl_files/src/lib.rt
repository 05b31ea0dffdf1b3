//! Files by their names: what the program reads, lists and replaces.
//!
//! [`Folder`] is what the commands ask. [`FromFiles`] makes one of the system's files.
//! [`read_sources`] reads files, and those below folders; [`find_sources`] lists them, and
//! [`read_each`] reads files by their names. [`tidy_files`] tidies them in place, as
//! `ftl tidy` does.
#![tactic(auto)]

mod causes;
mod depth;
mod ends;
mod errors;
mod folder;
pub mod laws;
mod listed;
mod listing;
mod reading;
mod refusals;
mod replacing;
mod reported;
mod rows;
mod system;
mod tidied;
mod tidying;
mod trees;

pub use ends::{Failure, FileEnd};
pub use folder::{FileError, Folder, Listing, ReplaceError};
pub use reading::{ReadSources, SourceFile, read_each, read_sources};
pub use reported::Reported;
pub use rows::{bad_row, last_row};
pub use system::FromFiles;
pub use tidied::TidiedFiles;
pub use tidying::{tidy_file, tidy_files, tidy_source};
pub use trees::{Found, find_sources};
