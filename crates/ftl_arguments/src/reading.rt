//! Reading of command-line arguments.
ghost use Rattle.std.specs.Prelude.{◌≡◌, IfOk, IfErr, IsErrOf, Some, None, option_map};
ghost use Rattle.clap.specs.Words.{kind_of};
ghost use Rattle.ftl_arguments.specs.Meaning.{AskForHelpAlone, AskForVersionAlone, command_of, texts};
ghost use Rattle.ftl_arguments.specs.Found.{file_in, files_in, is_given, locale_in, values_in};
ghost use Rattle.ftl_arguments.specs.CommandView.{AskFor, IfBad, IfRefused, IsMet, IsTextOf};
ghost use Rattle.ftl_arguments.specs.CommandView.{asked_in, asked_with, command_view, found_rows, tidying_with};
ghost use Rattle.ftl_arguments.specs.declared.reading.WordsError.TheVariants.{Memory};

use crate::advising::{advice_by, advice_on};
use crate::colours::lint_on;
use crate::commands::{Command, Invocation, Tidy};
use crate::errors::CommandError;
use crate::explaining::explanation;
use crate::formatting::format_in;
use crate::program::program;
use crate::projects::{linting, status_in};
use crate::tidying::tidy_in;
use crate::version::version_line;
use clap::error::ErrorKind;
use clap::{ArgMatches, Error};
use std::alloc::{AllocError, Global};

/// Why there is no command, although `clap` found one.
#[derive(Clone, Copy)]
pub(crate) enum WordsError {
    /// Memory ran out.
    Memory,
    /// The program refuses it, as it lets less pass than `clap` does.
    Bad,
}

impl From<AllocError> for WordsError {
    ghost from_gives = { λ _ error. error ≡ Memory };

    fn from(_error: AllocError) -> Self {
        WordsError::Memory
    }
}

/// Reads the command-line arguments: a command, its options and its files, as `clap` has them, or a
/// request for help, for the version or for the explanation of a code. `colours` says whether a
/// screen shows the report of `lint` in colours, if the arguments leave that open.
///
/// ```no_run
/// match command(alloc, &["lnit", "a.ftl"], false) {
///     Err(CommandError::Bad { advice: Some(line) }) => eprint!(rt; "{line}")?,
///     _ => {} // ftl: no command 'lnit'; did you mean 'lint'? see ftl --help
/// }
/// ```
///
/// # Errors
/// [`CommandError::Bad`]: the arguments are neither. [`CommandError::Memory`]: memory ran out.
pub fn command<'words>(
    alloc: Global,
    words: &'words [&'words str],
    colours: bool,
) -> Result<Invocation<'words>, CommandError>
    ensures asked { IfOk result (AskFor colours (texts words.now)) }
    ensures nothing { IfBad result (command_of colours (texts words.now) ≡ None) }
    ensures not_help { IfBad result (¬ AskForHelpAlone (texts words.now)) }
    ensures not_version { IfBad result (¬ AskForVersionAlone (texts words.now)) }
{
    match program(alloc)?.try_get_matches_from(words) {
        Ok(matches) => met(alloc, words, &matches, colours),
        Err(error) => text_asked(alloc, words, &error),
    }
}

/// The explanation of a code, or the command that was met, or what is wrong with it.
fn met<'words>(
    alloc: Global,
    words: &[&str],
    matches: &ArgMatches<'words>,
    colours: bool,
) -> Result<Invocation<'words>, CommandError>
    ensures met { IfOk result (IsMet colours matches.now) }
    ensures nothing { IfBad result (asked_in colours matches.now ≡ None) }
{
    match explanation(matches) {
        Some(text) => Ok(Invocation::Explanation(text)),
        None => {
            let command = command_or_advice(alloc, words, matches, colours)?;
            Ok(Invocation::Command(command))
        }
    }
}

/// The text that an error of `clap` stands for: of help, or of the version.
fn text_asked<'words>(
    alloc: Global,
    words: &[&str],
    error: &Error,
) -> Result<Invocation<'words>, CommandError>
    ensures text { IfOk result (IsTextOf (kind_of error.now)) }
    ensures memory { kind_of error.now ≡ ErrorKind.OutOfMemory
        → IsErrOf result CommandError.Memory }
    ensures not_help { IfBad result (¬ (kind_of error.now ≡ ErrorKind.DisplayHelp)) }
    ensures not_version { IfBad result (¬ (kind_of error.now ≡ ErrorKind.DisplayVersion)) }
{
    match error.kind() {
        ErrorKind::OutOfMemory => Err(CommandError::Memory),
        ErrorKind::DisplayHelp => Ok(Invocation::Help(error.to_string(alloc)?)),
        ErrorKind::DisplayVersion => Ok(Invocation::Version(version_line(alloc)?)),
        _ => Err(CommandError::Bad {
            advice: advice_by(alloc, words, error),
        }),
    }
}

/// The command that was met, or what is wrong with it.
fn command_or_advice<'words>(
    alloc: Global,
    words: &[&str],
    matches: &ArgMatches<'words>,
    colours: bool,
) -> Result<Command<'words>, CommandError>
    ensures command { IfOk result (λ command.
        asked_in colours matches.now ≡ Some (command_view command)) }
    ensures nothing { IfBad result
        (asked_in colours matches.now ≡ None) }
{
    match command_met(alloc, matches, colours) {
        Ok(command) => Ok(command),
        Err(WordsError::Memory) => Err(CommandError::Memory),
        Err(WordsError::Bad) => Err(CommandError::Bad {
            advice: advice_on(alloc, words, matches),
        }),
    }
}

/// The command that was met.
fn command_met<'words>(
    alloc: Global,
    matches: &ArgMatches<'words>,
    colours: bool,
) -> Result<Command<'words>, WordsError>
    ensures command { IfOk result (λ command.
        asked_in colours matches.now ≡ Some (command_view command)) }
    ensures nothing { IfRefused result
        (asked_in colours matches.now ≡ None) }
{
    match matches.subcommand() {
        Some((name, found)) => command_named(alloc, name, found, colours),
        None => Err(WordsError::Bad),
    }
}

/// The command of a name, with what was found for it.
fn command_named<'words>(
    alloc: Global,
    name: &str,
    found: &ArgMatches<'words>,
    colours: bool,
) -> Result<Command<'words>, WordsError>
    ensures command { IfOk result (λ command.
        asked_with colours name.now found.now ≡ Some (command_view command)) }
    ensures nothing { IfRefused result (asked_with colours name.now found.now ≡ None) }
{
    match name {
        "run" => Ok(Command::Run {
            isolating: !is_given(found, "no-isolating"),
            overriding: is_given(found, "overriding"),
            locale: locale_in(found),
            plain_numbers: is_given(found, "plain-numbers"),
            files: files_in(alloc, found)?,
        }),
        "format" => Ok(Command::Format(format_in(alloc, found)?)),
        "check" => Ok(Command::Check {
            files: files_in(alloc, found)?,
        }),
        "lint" => linting(alloc, found, lint_on(alloc, found, colours)?),
        "status" => Ok(Command::Status(status_in(alloc, found)?)),
        "tidy" => Ok(tidy_in(alloc, found)?),
        _ => tidying_named(alloc, name, found),
    }
}

/// The command of a name that tidies, with what was found for it.
fn tidying_named<'words>(
    alloc: Global,
    name: &str,
    found: &ArgMatches<'words>,
) -> Result<Command<'words>, WordsError>
    ensures command { IfOk result (λ command.
        tidying_with name.now found.now ≡ Some (command_view command)) }
    ensures nothing { IfRefused result (tidying_with name.now found.now ≡ None) }
{
    let tidy = match name {
        "clean" => Tidy::Clean(file_in(found)?),
        "normalize" => Tidy::Normalize(file_in(found)?),
        "join" => Tidy::Join(files_in(alloc, found)?),
        "export" => Tidy::Export(file_in(found)?),
        "import" => Tidy::Import(file_in(found)?),
        _ => return Err(WordsError::Bad),
    };
    Ok(Command::Tidy(tidy))
}

/// Whether a flag was given.
pub(crate) fn is_given(found: &ArgMatches<'_>, name: &str) -> bool
    ensures { result ≡ is_given name.now (found_rows found.now) }
{
    found.get_str(name) == Some("true")
}

/// The tag of the locale, if one was given.
pub(crate) fn locale_in<'words>(found: &ArgMatches<'words>) -> Option<&'words str>
    ensures { option_map (λ locale. locale.now) result ≡ locale_in (found_rows found.now) }
{
    found.get_str("locale")
}

/// The file that was given.
fn file_in<'words>(found: &ArgMatches<'words>) -> Result<&'words str, WordsError>
    ensures file { IfOk result (λ file. file_in (found_rows found.now) ≡ Some file.now) }
    ensures bad { IfErr result (λ error. error ≡ WordsError.Bad) }
    ensures none { IfErr result (λ _. file_in (found_rows found.now) ≡ None) }
{
    found.get_str("FILE").ok_or(WordsError::Bad)
}

/// The files that were given.
pub(crate) fn files_in<'words>(
    alloc: Global,
    found: &ArgMatches<'words>,
) -> Result<Vec<&'words str>, AllocError>
    ensures { IfOk result (λ files.
        texts files.items ≡ files_in (found_rows found.now)) }
{
    values_in(alloc, found, "FILE")
}

/// All values of an argument, in the order of the words.
pub(crate) fn values_in<'words>(
    alloc: Global,
    found: &ArgMatches<'words>,
    name: &str,
) -> Result<Vec<&'words str>, AllocError>
    ensures { IfOk result (λ values.
        texts values.items ≡ values_in name.now (found_rows found.now)) }
{
    Vec::from_slice(alloc, found.get_raw(name).unwrap_or(&[]))
}
