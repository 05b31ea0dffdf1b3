//! The version of the program.
ghost use Rattle.std.specs.Prelude.{◌≡◌, IfOk, string_bytes};
ghost use Rattle.ftl_arguments.specs.Version.{version_line};

use std::alloc::{AllocError, Global};

/// The version of this repository's program and libraries.
pub const VERSION: &str = "0.1.0";

/// The line that shows the version.
pub(crate) fn version_line(alloc: Global) -> Result<String, AllocError>
    ensures { IfOk result (λ line. string_bytes line ≡ version_line) }
{
    format!(in alloc; "ftl {VERSION}\n")
}
