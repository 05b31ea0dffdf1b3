//! The command `status`, and the options of projects, as `clap` knows them.
ghost use Rattle.std.specs.Prelude.{◌≡◌, IfOk, codes};
ghost use Rattle.clap.specs.Words.{app_of, with_subcommand};
ghost use Rattle.ftl_arguments.specs.Commands.{IsLocal, IsShaped, chosen_rules, default_rule, each_rule, flag_rule, option_rule, project_paths_rule, shaped, status_shape};

use crate::program::{each, flag, named, option, option_or, with_argument, with_subcommand};
use clap::{Arg, Command};
use std::alloc::{AllocError, Global};

/// The lines after the options in the help of `status`.
const EXAMPLE: &str =
    "Without PATH, the project is that of the first l10n.toml here or in a folder above.

Example: ftl status --format markdown";

/// The program with the command `status`, too.
pub(crate) fn with_status<'a>(
    alloc: Global,
    program: Command<'a>,
) -> Result<Command<'a>, AllocError>
    ensures { IfOk result (λ more. app_of more ≡ with_subcommand (app_of program.entry) status_shape) }
{
    with_subcommand(program, status(alloc))
}

/// The command `status`.
fn status<'a>(alloc: Global) -> Result<Command<'a>, AllocError>
    ensures { IfOk result (IsShaped status_shape) }
{
    let command = with_argument(
        with_argument(choosing(alloc), files(alloc)),
        table_format(alloc),
    );
    let command = with_argument(command, project_paths(alloc))?;
    Ok(command.after_help(EXAMPLE))
}

/// The command `status` with the options alone that say which project and languages are meant.
fn choosing<'a>(alloc: Global) -> Result<Command<'a>, AllocError>
    ensures { IfOk result (IsShaped (shaped (codes "status") chosen_rules)) }
{
    let about = "Count what is translated, in each language of a project";
    let command = with_argument(Ok(named(alloc, "status", about)), reference(alloc));
    with_argument(with_argument(command, locales(alloc)), variable(alloc))
}

/// A pattern of the files that are translated from.
fn reference<'a>(alloc: Global) -> Arg<'a>
    ensures { IsLocal (each_rule (codes "reference")) result }
{
    each(alloc, "reference", "PATTERN").help(
        "With patterns in the place of l10n.toml, that of the source language, as 'l10n/en/**'",
    )
}

/// The languages that `status` counts.
fn locales<'a>(alloc: Global) -> Arg<'a>
    ensures { IsLocal (option_rule (codes "locale")) result }
{
    option(alloc, "locale", "TAG").help("Only these languages; several as a,b")
}

/// Whether `status` counts each file.
fn files<'a>(alloc: Global) -> Arg<'a>
    ensures { IsLocal (flag_rule (codes "files")) result }
{
    flag(alloc, "files").help("Count each file, too")
}

/// How `status` writes its table.
fn table_format<'a>(alloc: Global) -> Arg<'a>
    ensures { IsLocal (default_rule (codes "format") (codes "text")) result }
{
    option_or(alloc, "format", "FORMAT", "text").help("Write the table as text, json or markdown")
}

/// The files of a project that `lint` reports alone.
pub(crate) fn only<'a>(alloc: Global) -> Arg<'a>
    ensures { IsLocal (each_rule (codes "only")) result }
{
    each(alloc, "only", "PATH").help(
        "In a project, report on this file or folder alone (repeatable)",
    )
}

/// The file of findings of a project that `lint` doesn't report.
pub(crate) fn baseline<'a>(alloc: Global) -> Arg<'a>
    ensures { IsLocal (option_rule (codes "baseline")) result }
{
    option(alloc, "baseline", "FILE").help("In a project, leave out the findings in this file")
}

/// The file that is to have the findings of a project.
pub(crate) fn written<'a>(alloc: Global) -> Arg<'a>
    ensures { IsLocal (option_rule (codes "write-baseline")) result }
{
    option(alloc, "write-baseline", "FILE").help(
        "In a project, write the findings to this file, and report none",
    )
}

/// A variable of the patterns of a project.
pub(crate) fn variable<'a>(alloc: Global) -> Arg<'a>
    ensures { IsLocal (each_rule (codes "define")) result }
{
    each(alloc, "define", "NAME=VALUE").help(
        "In a project, give a variable of its patterns this value (repeatable)",
    )
}

/// The file of a project, or patterns.
pub(crate) fn project_paths<'a>(alloc: Global) -> Arg<'a>
    ensures { IsLocal project_paths_rule result }
{
    Arg::new(alloc, "PATH").num_args(1..).help(
        "The l10n.toml of the project, or patterns, as 'l10n/{locale}/**'",
    )
}
