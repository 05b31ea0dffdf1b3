//! The lines of the errors of a text.

ghost use Rattle.std.specs.Prelude.{◌≡◌, ◌++◌, IfOk, OnOk, map, string_bytes};
ghost use Rattle.std.specs.List.{flat_map};
ghost use Rattle.fluent_errors.specs.View.{bundle_view};
ghost use Rattle.fluent_run.specs.ReplyView.{error_text};
ghost use Rattle.ftl_command.specs.FormatView.{line_told};
ghost use Rattle.ftl_command.specs.Shown.{error_line};

use fluent_errors::FluentError;
use std::alloc::{AllocError, Global};

/// A line for each error, in their order.
///
/// # Errors
/// [`AllocError`] if memory runs out; nothing is kept.
pub(crate) fn error_lines(alloc: Global, errors: &[FluentError]) -> Result<String, AllocError>
    ensures { IfOk result (λ text. string_bytes text
        ≡ flat_map error_line (map error_text (map bundle_view errors.now))) }
{
    let mut text = String::new(alloc);
    for error in errors {
        push_line(&mut text, error)?;
    }
    Ok(text)
}

/// Appends the line of an error: an error of resolving is shown by its own text alone.
fn push_line(text: &mut String, error: &FluentError) -> Result<(), AllocError>
    ensures { OnOk result (string_bytes text.new
        ≡ string_bytes text.old ++ line_told (bundle_view error.now)) }
{
    match error {
        FluentError::ResolverError(error) => writeln!(text, "ftl: {error}"),
        error => writeln!(text, "ftl: {error}"),
    }
}
