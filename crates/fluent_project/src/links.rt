//! The paths of other files that a project's file names.

ghost use Rattle.std.specs.Prelude.{◌≡◌, IfOk, Ok, string_bytes};
ghost use Rattle.fluent_project.specs.Resolving.{path_by};

use crate::checks::{has_locale, has_no_wildcard};
use crate::faults::{FaultKind, FileError};
use crate::fields::{fault, in_table};
use crate::path_rules::pattern_at;
use crate::putting::path_of;
use crate::resolved::Variables;
use std::alloc::Global;

/// The path of the file that the table of this name and number names by a text.
///
/// # Errors
/// [`FileError::Fault`]: the text is no path of one file. [`FileError::Memory`]: memory ran out.
pub fn linked_path<'f>(
    alloc: Global,
    variables: Variables<'_, 'f>,
    name: &'f str,
    n: usize,
    text: &str,
) -> Result<String, FileError<'f>>
    ensures { IfOk result (λ path. path_by variables.entry name.now n text.now ≡ Ok (string_bytes path)) }
{
    let place = in_table(name, n, "path");
    let pattern = pattern_at(alloc, variables, text, place)?;
    if has_locale(&pattern) || !has_no_wildcard(&pattern) {
        return Err(fault(place, FaultKind::NoPath));
    }
    match String::from_utf8(path_of(alloc, &pattern, b"", &[])?) {
        Ok(path) => Ok(path),
        Err(_) => Err(fault(place, FaultKind::NoPath)),
    }
}
