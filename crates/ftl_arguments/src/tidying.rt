//! The command `tidy`, as `clap` knows it, and from what was found for it.
ghost use Rattle.std.specs.Prelude.{◌≡◌, IfOk, codes};
ghost use Rattle.clap.specs.Words.{app_of, with_subcommand};
ghost use Rattle.ftl_arguments.specs.CommandView.{command_view, found_rows, tidy_files_view};
ghost use Rattle.ftl_arguments.specs.Commands.{IsLocal, IsShaped, paths_rule, tidy_shape};
ghost use Rattle.ftl_arguments.specs.Meaning.{texts, tidy_in};
ghost use Rattle.ftl_arguments.specs.TidyFiles.{is_input, tidy_files_in};

use crate::commands::{Command as Meant, TidyFiles};
use crate::program::{flag, with_subcommand};
use crate::reading::{is_given, values_in};
use clap::{Arg, ArgMatches, Command};
use std::alloc::{AllocError, Global};

/// The paths of `lint` and of `tidy`, for their help.
pub(crate) const PATHS: &str =
    "Files, and folders with each `.ftl` file below them; `-` alone is standard input";

/// The lines after the options in the help of `tidy`.
const EXAMPLE: &str = "The tidy text of standard input is written to standard output.

Example: ftl tidy --check locales";

/// The program with the command `tidy`, too.
pub(crate) fn with_tidy<'a>(alloc: Global, program: Command<'a>) -> Result<Command<'a>, AllocError>
    ensures { IfOk result (λ more. app_of more ≡ with_subcommand (app_of program.entry) tidy_shape) }
{
    with_subcommand(program, tidy(alloc))
}

/// The command `tidy`.
fn tidy<'a>(alloc: Global) -> Result<Command<'a>, AllocError>
    ensures { IfOk result (IsShaped tidy_shape) }
{
    let check = flag(alloc, "check").help(
        "Change no file; name those that aren't tidy, and end with 1 if there is one",
    );
    Command::new(alloc, "tidy")
        .about("Tidy files in place, and those below folders")
        .arg(check)?
        .after_help(EXAMPLE)
        .arg(paths(alloc))
}

/// The files and folders that a command is on.
pub(crate) fn paths<'a>(alloc: Global) -> Arg<'a>
    ensures { IsLocal paths_rule result }
{
    Arg::new(alloc, "PATH")
        .required(true)
        .num_args(1..)
        .help(PATHS)
}

/// Reads what was found for `tidy`: files, or a hyphen alone for standard input.
///
/// # Errors
/// [`AllocError`] if memory runs out; nothing is kept.
pub(crate) fn tidy_in<'words>(
    alloc: Global,
    found: &ArgMatches<'words>,
) -> Result<Meant<'words>, AllocError>
    ensures { IfOk result (λ meant. tidy_in (tidy_files_in (found_rows found.now)) ≡ command_view meant) }
{
    let tidy = tidy_files_in(alloc, found)?;
    if is_input(&tidy.paths) {
        Ok(Meant::TidyInput { check: tidy.check })
    } else {
        Ok(Meant::TidyFiles(tidy))
    }
}

/// Whether standard input is meant, and no file.
pub(crate) fn is_input(paths: &[&str]) -> bool
    ensures { result ≡ is_input (texts paths.now) }
{
    match paths {
        [path] => *path == "-",
        _ => false,
    }
}

/// The files that were found.
fn tidy_files_in<'words>(
    alloc: Global,
    found: &ArgMatches<'words>,
) -> Result<TidyFiles<'words>, AllocError>
    ensures { IfOk result (λ tidy. tidy_files_in (found_rows found.now) ≡ tidy_files_view tidy) }
{
    Ok(TidyFiles {
        check: is_given(found, "check"),
        paths: values_in(alloc, found, "PATH")?,
    })
}
