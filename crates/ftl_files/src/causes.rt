//! Why a call on a file failed.
ghost use Rattle.std.specs.Prelude.{◌≡◌, ◌↔◌, IsTrue, None, option_copied};
ghost use Rattle.std.specs.IoError.{error_kind, raw_os_error};
ghost use Rattle.ftl_files.specs.Causes.{words_for};

use std::io;
use std::io::ErrorKind;

/// Whether an error is a refused allocation, and not one of the system.
pub(crate) fn is_refused(error: &io::Error) -> bool
    ensures { IsTrue result
        ↔ ((error_kind error.now ≡ ErrorKind.OutOfMemory) × (raw_os_error error.now ≡ None)) }
{
    error.kind() == ErrorKind::OutOfMemory && error.raw_os_error().is_none()
}

/// The error of a call on a file, in words, if there are some.
pub(crate) fn words_of(error: &io::Error) -> Option<&'static str>
    ensures { option_copied result ≡ words_for (error_kind error.now) (raw_os_error error.now) }
{
    match error.kind() {
        ErrorKind::NotFound => Some("no such file"),
        ErrorKind::IsADirectory => Some("is a folder"),
        ErrorKind::PermissionDenied => Some("no permission"),
        ErrorKind::StorageFull | ErrorKind::QuotaExceeded => Some("no space left"),
        ErrorKind::ReadOnlyFilesystem => Some("a read-only file system"),
        ErrorKind::InvalidFilename if error.raw_os_error().is_some() => Some(
            "its name is too long",
        ),
        _ => None,
    }
}
