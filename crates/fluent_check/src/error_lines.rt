//! The lines of errors.

ghost use Rattle.std.specs.Prelude.{◌≡◌, ◌++◌, OnOk, map, string_bytes};
ghost use Rattle.fluent_check.specs.ReportView.{errors_view};
ghost use Rattle.fluent_parsed.specs.ErrorView.{error_view};
ghost use Rattle.fluent_check.specs.Report.{error_line, error_lines, errors_text};

use fluent_parsed::ParserError;
use std::alloc::AllocError;

/// Puts the lines of all errors after `text`, source by source.
pub(crate) fn push_errors(text: &mut String, sources: &[Vec<ParserError>]) -> Result<(), AllocError>
    ensures { OnOk result (string_bytes text.new
        ≡ string_bytes text.old ++ errors_text 1 (map errors_view sources.now)) }
{
    for (index, errors) in sources.iter().enumerate() {
        push_errors_of(text, index + 1, errors)?;
    }
    Ok(())
}

/// Puts the lines of the errors of the source of this number after `text`.
fn push_errors_of(
    text: &mut String,
    number: usize,
    errors: &[ParserError],
) -> Result<(), AllocError>
    ensures { OnOk result (string_bytes text.new
        ≡ string_bytes text.old ++ error_lines number errors.now) }
{
    for error in errors {
        push_error(text, number, error)?;
    }
    Ok(())
}

/// Puts the line of an error after `text`.
fn push_error(text: &mut String, number: usize, error: &ParserError) -> Result<(), AllocError>
    ensures { OnOk result (string_bytes text.new
        ≡ string_bytes text.old ++ error_line number (error_view error.now)) }
{
    let pos = &error.pos;
    writeln!(
        text,
        "source {number}: bytes {}..{}: {}",
        pos.start, pos.end, error.kind
    )
}
