//! Colours, where the words leave them to the screen.
ghost use Rattle.std.specs.Prelude.{◌≡◌, ◌&&◌, IfOk, Some, None};
ghost use Rattle.ftl_arguments.specs.Linting.{format_by, is_left_open, lint_on};
ghost use Rattle.ftl_arguments.specs.CommandView.{found_rows, lint_view, IfRefused};
ghost use Rattle.lint_report.specs.Formats.{format_view};

use crate::commands::Lint;
use crate::linting::lint_in;
use crate::reading::WordsError;
use clap::ArgMatches;
use lint_report::Format as ReportFormat;
use std::alloc::Global;

/// Reads what was found for `lint`: text is in colours, too, if the words leave that open and a
/// screen shows them.
///
/// # Errors
/// Those of `lint_in`.
pub(crate) fn lint_on<'words>(
    alloc: Global,
    found: &ArgMatches<'words>,
    colours: bool,
) -> Result<Lint<'words>, WordsError>
    ensures lint { IfOk result (λ lint.
        lint_on colours (found_rows found.now) ≡ Some (lint_view lint)) }
    ensures nothing { IfRefused result (lint_on colours (found_rows found.now) ≡ None) }
{
    let mut lint = lint_in(alloc, found)?;
    lint.format = format_by(lint.format, colours && is_left_open(found));
    Ok(lint)
}

/// Whether the words leave it to the screen whether a report is in colours.
fn is_left_open(found: &ArgMatches<'_>) -> bool
    ensures { result ≡ is_left_open (found_rows found.now) }
{
    found.get_str("color") == Some("auto")
}

/// A format with colours, if it is for people and they are wanted.
fn format_by(format: ReportFormat, colours: bool) -> ReportFormat
    ensures { format_view result ≡ format_by (format_view format) colours }
{
    match format {
        ReportFormat::Text if colours => ReportFormat::Terminal,
        _ => format,
    }
}
