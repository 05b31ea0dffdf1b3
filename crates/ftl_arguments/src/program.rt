//! The program and its commands, as `clap` knows them.
ghost use Rattle.std.specs.Prelude.{◌≡◌, ◌∷◌, [], false, codes, IfOk};
ghost use Rattle.clap.specs.Words.{app_of, rule_of, with_subcommand};
ghost use Rattle.ftl_arguments.specs.Commands.{AddsArgument, AddsCommand, IsShaped, IsLocal, shaped, with_command};
ghost use Rattle.ftl_arguments.specs.Commands.{flag_rule, option_rule, each_rule, default_rule};
ghost use Rattle.ftl_arguments.specs.Commands.{id_rule, file_rule, files_rule};
ghost use Rattle.ftl_arguments.specs.Commands.{bare_program, program_app, asking_rules, flagged_rules, format_shape, run_shape};
ghost use Rattle.ftl_arguments.specs.Commands.{filtered_rules, known_rules, lint_shape, linting_rules, project_paths_rule, explaining_rules, project_rules, reported_rules, with_reports, with_tidying, within_rules};

use crate::status::{baseline, only, project_paths, variable, with_status, written};
use crate::tidying::{PATHS, with_tidy};
use crate::version::VERSION;
use clap::{Arg, ArgAction, Command};
use std::alloc::{AllocError, Global};

/// The lines on requests in the help of `run`.
const REQUESTS: &str =
    "A request is an id, as `login`, or one with an attribute, as `login.title`, and then arguments,
each after a tab: NAME=VALUE.

Example: printf 'welcome\\tname=Jane\\n' | ftl run hello.ftl";

/// The lines after the options in the help of `lint`.
const CODES_AND_EXAMPLE: &str =
    "Without PATH, the project of the first l10n.toml here or in a folder above is linted. PATH can
be such a file, too, or patterns, as 'l10n/{locale}/**' with --reference 'l10n/en/**'. In a
project --locale chooses languages; several as a,b.

Codes:
  syntax, byte-order-mark, duplicate-id, unknown-message, unknown-term, unknown-attribute,
  no-value, no-default, cyclic-reference, unknown-function, duplicate-attribute,
  duplicate-variant, invalid-escape, unknown-option, missing-category, placeable-in-literal,
  unknown-term-argument, unknown-term-variant, unknown-category, unused-category,
  replacement-character, control-character, zero-width, unbalanced-direction, mixed-scripts,
  wrong-encoding, unused-term, missing-message, missing-value, missing-attribute, obsolete-value,
  obsolete-attribute, unknown-variable, missing-variable, unused-variable, obsolete-message,
  untranslated, variant-lacks-variable, plural-dropped, term-as-text, broken-tag,
  unbalanced-element, unknown-element, missing-element, missing-l10n-name, unknown-l10n-name,
  broken-entity, long-access-key, long-key, changed-style, access-key-not-in-label,
  missing-file, missing-locale, obsolete-file, unused-ignore

Codes that are only reported if they are selected, one by one or all as 'texts':
  changed-url, changed-placeholder, changed-number, edge-space, double-space, doubled-word,
  final-punctuation, three-dots, unpaired-quote, straight-quote, empty-text, long-text

Example: ftl lint --reference locales/en locales/de";

/// The program with all its commands.
pub(crate) fn program<'a>(alloc: Global) -> Result<Command<'a>, AllocError>
    ensures { IfOk result (λ program. app_of program ≡ program_app) }
{
    let run = run(alloc)?;
    let program = bare_program(alloc)?.subcommand(run)?;
    let program = with_format(alloc, program)?;
    let program = with_reports(alloc, program)?;
    let program = with_tidy(alloc, program)?;
    with_tidying(alloc, program)
}

/// The program with the commands that report on sources, too.
fn with_reports<'a>(alloc: Global, program: Command<'a>) -> Result<Command<'a>, AllocError>
    ensures { IfOk result (λ more. app_of more ≡ with_reports (app_of program.entry)) }
{
    let program = with_files(
        alloc,
        program,
        "check",
        "Report syntax errors and duplicate ids, for programs; `lint` says more",
    )?;
    let program = with_lint(alloc, program)?;
    with_status(alloc, program)
}

/// The program with the commands that tidy sources, too.
fn with_tidying<'a>(alloc: Global, program: Command<'a>) -> Result<Command<'a>, AllocError>
    ensures { IfOk result (λ more. app_of more ≡ with_tidying (app_of program.entry)) }
{
    let program = with_file(
        alloc,
        program,
        "clean",
        "Print a file without the entries that can't be read",
    )?;
    let program = with_file(
        alloc,
        program,
        "normalize",
        "Print a file in its normal layout",
    )?;
    let program = with_files(alloc, program, "join", "Print several files as one")?;
    let program = with_file(
        alloc,
        program,
        "export",
        "Print the syntax tree of a file as JSON",
    )?;
    with_file(
        alloc,
        program,
        "import",
        "Print the file of a syntax tree in JSON",
    )
}

/// The program before its commands.
fn bare_program<'a>(alloc: Global) -> Result<Command<'a>, AllocError>
    ensures { IfOk result (λ program. app_of program ≡ bare_program) }
{
    Command::new(alloc, "ftl")
        .about("Lint, format and tidy Fluent (.ftl) translation files")
        .version(VERSION)
        .no_binary_name(true)
        .subcommand_required(true)
        .bin_name("ftl")
}

/// The program with one more command, on one file.
fn with_file<'a>(
    alloc: Global,
    program: Command<'a>,
    name: &'a str,
    about: &'a str,
) -> Result<Command<'a>, AllocError>
    ensures { IfOk result (λ more.
        app_of more ≡ with_command (app_of program.entry) name.entry.now file_rule) }
{
    with_subcommand(program, command_of(alloc, name, about, file(alloc)))
}

/// The program with one more command, on one or more files.
fn with_files<'a>(
    alloc: Global,
    program: Command<'a>,
    name: &'a str,
    about: &'a str,
) -> Result<Command<'a>, AllocError>
    ensures { IfOk result (λ more.
        app_of more ≡ with_command (app_of program.entry) name.entry.now files_rule) }
{
    with_subcommand(program, command_of(alloc, name, about, files(alloc)))
}

/// The program with one more command, if there was memory for the command and there is for this.
pub(crate) fn with_subcommand<'a>(
    program: Command<'a>,
    command: Result<Command<'a>, AllocError>,
) -> Result<Command<'a>, AllocError>
    ensures { AddsCommand (app_of program.entry) command.entry result }
{
    program.subcommand(command?)
}

/// A command with this argument alone.
fn command_of<'a>(
    alloc: Global,
    name: &'a str,
    about: &'a str,
    argument: Arg<'a>,
) -> Result<Command<'a>, AllocError>
    ensures { argument.entry.global ≡ false
        → IfOk result (IsShaped (shaped name.entry.now (rule_of argument.entry ∷ []))) }
{
    with_argument(Ok(named(alloc, name, about)), argument)
}

/// The command `run`.
fn run<'a>(alloc: Global) -> Result<Command<'a>, AllocError>
    ensures { IfOk result (IsShaped run_shape) }
{
    asking(
        alloc,
        "run",
        "Answer requests from standard input, one a line",
    )?
    .after_help(REQUESTS)
    .arg(files(alloc))
}

/// The program with the command `format`, too.
fn with_format<'a>(alloc: Global, program: Command<'a>) -> Result<Command<'a>, AllocError>
    ensures { IfOk result (λ more. app_of more ≡ with_subcommand (app_of program.entry) format_shape) }
{
    with_subcommand(program, format(alloc))
}

/// The command `format`.
fn format<'a>(alloc: Global) -> Result<Command<'a>, AllocError>
    ensures { IfOk result (IsShaped format_shape) }
{
    let command = asking(alloc, "format", "Print the text of one message");
    let command = with_argument(with_argument(command, argument(alloc)), id(alloc));
    let command = with_argument(command, files(alloc))?;
    Ok(command.after_help("Example: ftl format welcome hello.ftl --argument name=Jane"))
}

/// The program with the command `lint`, too.
fn with_lint<'a>(alloc: Global, program: Command<'a>) -> Result<Command<'a>, AllocError>
    ensures { IfOk result (λ more. app_of more ≡ with_subcommand (app_of program.entry) lint_shape) }
{
    with_subcommand(program, lint(alloc))
}

/// The command `lint`.
fn lint<'a>(alloc: Global) -> Result<Command<'a>, AllocError>
    ensures { IfOk result (IsShaped lint_shape) }
{
    explaining(alloc)?
        .after_help(CODES_AND_EXAMPLE)
        .arg(lint_paths(alloc))
}

/// The files that `lint` is on.
fn lint_paths<'a>(alloc: Global) -> Arg<'a>
    ensures { IsLocal project_paths_rule result }
{
    project_paths(alloc).help(PATHS)
}

/// The command `lint` without its paths.
fn explaining<'a>(alloc: Global) -> Result<Command<'a>, AllocError>
    ensures { IfOk result (IsShaped (shaped (codes "lint") explaining_rules)) }
{
    with_argument(in_project(alloc), explained(alloc))
}

/// The command `lint` without its paths and `--explain`.
fn in_project<'a>(alloc: Global) -> Result<Command<'a>, AllocError>
    ensures { IfOk result (IsShaped (shaped (codes "lint") project_rules)) }
{
    with_argument(
        with_argument(within(alloc), baseline(alloc)),
        written(alloc),
    )
}

/// The command `lint` without its paths, `--explain` and the options on baselines.
fn within<'a>(alloc: Global) -> Result<Command<'a>, AllocError>
    ensures { IfOk result (IsShaped (shaped (codes "lint") within_rules)) }
{
    with_argument(
        with_argument(reporting(alloc), only(alloc)),
        variable(alloc),
    )
}

/// The command `lint` with the options that aren't of projects alone, but for `--explain`.
fn reporting<'a>(alloc: Global) -> Result<Command<'a>, AllocError>
    ensures { IfOk result (IsShaped (shaped (codes "lint") linting_rules)) }
{
    let command = with_argument(choosing(alloc), strict(alloc));
    with_argument(with_argument(command, report_format(alloc)), colours(alloc))
}

/// The command `lint` with the options that say what is known, and which findings are reported.
fn choosing<'a>(alloc: Global) -> Result<Command<'a>, AllocError>
    ensures { IfOk result (IsShaped (shaped (codes "lint") reported_rules)) }
{
    with_argument(with_argument(filtering(alloc), notes(alloc)), counts(alloc))
}

/// The command `lint` with the options that say what is known, and which findings are left out.
fn filtering<'a>(alloc: Global) -> Result<Command<'a>, AllocError>
    ensures { IfOk result (IsShaped (shaped (codes "lint") filtered_rules)) }
{
    with_argument(
        with_argument(comparing(alloc), ignored(alloc)),
        selected(alloc),
    )
}

/// The command `lint` with the options that say what is known of the program and of the language.
fn comparing<'a>(alloc: Global) -> Result<Command<'a>, AllocError>
    ensures { IfOk result (IsShaped (shaped (codes "lint") known_rules)) }
{
    let about = "Find mistakes and missing translations, with their lines";
    let command = with_argument(Ok(named(alloc, "lint", about)), reference(alloc));
    with_argument(with_argument(command, function(alloc)), categories(alloc))
}

/// A command of this name with the options that say how texts are made.
fn asking<'a>(alloc: Global, name: &'a str, about: &'a str) -> Result<Command<'a>, AllocError>
    ensures { IfOk result (IsShaped (shaped name.entry.now asking_rules)) }
{
    with_argument(
        with_argument(flagged(alloc, name, about), locale(alloc)),
        plain_numbers(alloc),
    )
}

/// A command of this name with the flags `--no-isolating` and `--overriding`.
fn flagged<'a>(alloc: Global, name: &'a str, about: &'a str) -> Result<Command<'a>, AllocError>
    ensures { IfOk result (IsShaped (shaped name.entry.now flagged_rules)) }
{
    let command = with_argument(Ok(named(alloc, name, about)), not_isolating(alloc));
    with_argument(command, overriding(alloc))
}

/// A command of this name, which has no argument.
pub(crate) fn named<'a>(alloc: Global, name: &'a str, about: &'a str) -> Command<'a>
    ensures { IsShaped (shaped name.entry.now []) result }
{
    Command::new(alloc, name).about(about)
}

/// A command with one more argument, if there was memory for the command and there is for this.
pub(crate) fn with_argument<'a>(
    command: Result<Command<'a>, AllocError>,
    argument: Arg<'a>,
) -> Result<Command<'a>, AllocError>
    ensures { AddsArgument command.entry argument.entry result }
{
    command?.arg(argument)
}

/// Whether values have no isolation marks.
fn not_isolating<'a>(alloc: Global) -> Arg<'a>
    ensures { IsLocal (flag_rule (codes "no-isolating")) result }
{
    flag(alloc, "no-isolating").help(
        "Leave out the direction marks U+2068 and U+2069 around values",
    )
}

/// Whether the last entry of an id counts.
fn overriding<'a>(alloc: Global) -> Arg<'a>
    ensures { IsLocal (flag_rule (codes "overriding")) result }
{
    flag(alloc, "overriding").help("Let the last entry of an id count, and not the first")
}

/// The locale whose plural rules and numbers texts have.
fn locale<'a>(alloc: Global) -> Arg<'a>
    ensures { IsLocal (option_rule (codes "locale")) result }
{
    option(alloc, "locale", "TAG").help(
        "Use the plural rules of this locale, and write numbers as it does",
    )
}

/// Whether numbers are written plainly.
fn plain_numbers<'a>(alloc: Global) -> Arg<'a>
    ensures { IsLocal (flag_rule (codes "plain-numbers")) result }
{
    flag(alloc, "plain-numbers").help("Write numbers plainly, whatever the locale")
}

/// A value that `format` passes to a message.
fn argument<'a>(alloc: Global) -> Arg<'a>
    ensures { IsLocal (each_rule (codes "argument")) result }
{
    each(alloc, "argument", "NAME=VALUE").help(
        "Pass a text or number, or a date as NAME:date=2026-11-28 (repeatable)",
    )
}

/// Whether `lint` reports notes.
fn notes<'a>(alloc: Global) -> Arg<'a>
    ensures { IsLocal (flag_rule (codes "notes")) result }
{
    flag(alloc, "notes").help("Report notes, too")
}

/// Whether warnings count for the status of `lint`.
fn strict<'a>(alloc: Global) -> Arg<'a>
    ensures { IsLocal (flag_rule (codes "strict")) result }
{
    flag(alloc, "strict").help("End with 1 for warnings, too")
}

/// A flag of this name.
pub(crate) fn flag<'a>(alloc: Global, name: &'a str) -> Arg<'a>
    ensures { IsLocal (flag_rule name.entry.now) result }
{
    Arg::new(alloc, name).long(name).action(ArgAction::SetTrue)
}

/// An option of this name with one value, which help calls `value`.
pub(crate) fn option<'a>(alloc: Global, name: &'a str, value: &'a str) -> Arg<'a>
    ensures { IsLocal (option_rule name.entry.now) result }
{
    Arg::new(alloc, name).long(name).value_name(value)
}

/// An option of this name with one value, which is `default` if the option isn't given.
pub(crate) fn option_or<'a>(
    alloc: Global,
    name: &'a str,
    value: &'a str,
    default: &'a str,
) -> Arg<'a>
    ensures { IsLocal (default_rule name.entry.now default.entry.now) result }
{
    option(alloc, name, value).default_value(default)
}

/// An option of this name that may come more than once, with one value each, which help calls
/// `value`.
pub(crate) fn each<'a>(alloc: Global, name: &'a str, value: &'a str) -> Arg<'a>
    ensures { IsLocal (each_rule name.entry.now) result }
{
    option(alloc, name, value).action(ArgAction::Append)
}

/// A file or a folder that `lint` compares with.
fn reference<'a>(alloc: Global) -> Arg<'a>
    ensures { IsLocal (each_rule (codes "reference")) result }
{
    each(alloc, "reference", "PATH").help(
        "Compare with this file or folder of the source language (repeatable)",
    )
}

/// A function that `lint` knows.
fn function<'a>(alloc: Global) -> Arg<'a>
    ensures { IsLocal (each_rule (codes "function")) result }
{
    each(alloc, "function", "NAME").help(
        "A function that your program provides, as PLATFORM (repeatable)",
    )
}

/// A code of findings that `lint` leaves out.
fn ignored<'a>(alloc: Global) -> Arg<'a>
    ensures { IsLocal (each_rule (codes "ignore")) result }
{
    each(alloc, "ignore", "CODE").help(
        "Leave out findings with this code of those below; several as a,b (repeatable)",
    )
}

/// A code of findings that `lint` reports alone.
fn selected<'a>(alloc: Global) -> Arg<'a>
    ensures { IsLocal (each_rule (codes "select")) result }
{
    each(alloc, "select", "CODE").help(
        "Report findings with this code alone, notes too; several as a,b (repeatable)",
    )
}

/// The code that `lint` explains.
fn explained<'a>(alloc: Global) -> Arg<'a>
    ensures { IsLocal (option_rule (codes "explain")) result }
{
    option(alloc, "explain", "CODE").help("Print what a code means, and how to mend it")
}

/// Whether `lint` counts in each file what the reference has.
fn counts<'a>(alloc: Global) -> Arg<'a>
    ensures { IsLocal (flag_rule (codes "counts")) result }
{
    flag(alloc, "counts").help(
        "With --reference, count the messages of each file, also if none is missing",
    )
}

/// The locale whose plural categories `lint` looks for.
fn categories<'a>(alloc: Global) -> Arg<'a>
    ensures { IsLocal (option_rule (codes "locale")) result }
{
    option(alloc, "locale", "TAG").help(
        "Report plural categories of this locale that have no variant",
    )
}

/// How `lint` writes findings.
fn report_format<'a>(alloc: Global) -> Arg<'a>
    ensures { IsLocal (default_rule (codes "format") (codes "text")) result }
{
    option_or(alloc, "format", "FORMAT", "text").help(
        "Write findings as text, line, json, github, sarif or gitlab",
    )
}

/// Whether `lint` writes text in colours.
fn colours<'a>(alloc: Global) -> Arg<'a>
    ensures { IsLocal (default_rule (codes "color") (codes "auto")) result }
{
    option_or(alloc, "color", "WHEN", "auto").help(
        "Write in colours: auto (on a terminal), always or never",
    )
}

/// The message that a command is on.
fn id<'a>(alloc: Global) -> Arg<'a>
    ensures { IsLocal id_rule result }
{
    Arg::new(alloc, "ID").required(true).help(
        "The id of the message, as `login`, or one with an attribute, as `login.title`",
    )
}

/// The file that a command is on.
fn file<'a>(alloc: Global) -> Arg<'a>
    ensures { IsLocal file_rule result }
{
    Arg::new(alloc, "FILE")
        .required(true)
        .help("The file to read")
}

/// The files that a command is on.
fn files<'a>(alloc: Global) -> Arg<'a>
    ensures { IsLocal files_rule result }
{
    file(alloc)
        .num_args(1..)
        .help("The files to read, in their order")
}
