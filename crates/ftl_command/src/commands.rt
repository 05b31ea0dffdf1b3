//! The program: its words, its files and its streams.
ghost use Rattle.std.specs.Prelude.{◌≡◌, false, Some};
ghost use Rattle.ftl_arguments.specs.CommandView.{command_view};
ghost use Rattle.ftl_arguments.specs.Meaning.{command_of, texts};
ghost use Rattle.ftl_command.specs.Ends.{EndsOn, EndsOver, IsStatusOf};
ghost use Rattle.ftl_command.specs.InPlace.{FilesEndBy, FilesEndFor};
ghost use Rattle.ftl_command.specs.Program.{CommandEndsOn, WithoutInput};
ghost use Rattle.ftl_command.specs.Refusals.{AnswersHelp, DevicesEnd};
ghost use Rattle.ftl_command.specs.Terminals.{piped};

use crate::checking::check_files;
use crate::ended::Ended;
use crate::fault::Fault;
use crate::formatting::write_formatted;
use crate::in_place::tidy_in_place;
use crate::input::tidy_input;
use crate::linting::{lint_files, lint_input};
use crate::output::write_asked;
use crate::projects::{write_project_report, write_status};
use crate::running::{RunOptions, run_files};
use crate::telling::{shown_reason, tell_errors_on, tell_on};
use crate::terminals::Terminals;
use crate::tidying::write_tidied;
use fluent_serve::serve::write_all;
use fluent_serve::stream::{FromRead, FromWrite, Sink, Source};
use ftl_arguments::{Command, CommandError, Invocation, command};
use ftl_files::{Folder, FromFiles};
use std::alloc::Global;
use std::io;
use std::rt::Files;

/// Runs the program on its command-line arguments with streams that are no terminals, and returns
/// the status that it ends with: 0, or 1 if a check found something, or that of the first failure,
/// which is reported on one line of `faults`. For a command that people type, more lines say why it
/// came. `lint` and `tidy` report all failures of files, and the highest status counts.
pub fn program<R: Files, I: io::Read + Drop, O: io::Write + Drop, F: io::Write + Drop>(
    rt: &R,
    alloc: Global,
    words: &[&str],
    input: I,
    output: O,
    faults: F,
) -> u8
    ensures status { IsStatusOf false (texts words.now) result }
    ensures ended { EndsOver (I.remaining input) (O.contents output) (F.contents faults)
        piped (texts words.now) result }
{
    let screens = Terminals {
        colours: false,
        faults: false,
    };
    program_shown(rt, alloc, words, screens, input, output, faults)
}

/// Runs the program as [`program`] does, with streams some of which may be terminals: colours are
/// for one that shows them, and on a terminal more lines say why a failure came, whatever the
/// command.
pub fn program_shown<R: Files, I: io::Read + Drop, O: io::Write + Drop, F: io::Write + Drop>(
    rt: &R,
    alloc: Global,
    words: &[&str],
    screens: Terminals,
    input: I,
    output: O,
    faults: F,
) -> u8
    ensures status { IsStatusOf screens.colours (texts words.now) result }
    ensures ended { EndsOver (I.remaining input) (O.contents output) (F.contents faults)
        screens (texts words.now) result }
{
    let mut folder = FromFiles::new(rt, alloc, are_files_listed(words));
    let mut reader = FromRead::new(input);
    let mut writer = FromWrite::new(output);
    let mut faults = FromWrite::new(faults);
    let status = program_on(
        &mut folder,
        alloc,
        words,
        screens,
        &mut reader,
        &mut writer,
        &mut faults,
    );
    let _ = write_all(&mut faults, folder.bad_bytes().as_bytes());
    status
}

/// Whether the command lists files, and goes on after one that it can't read.
fn are_files_listed(words: &[&str]) -> bool {
    match words {
        [word, ..] => *word == "lint" || *word == "status" || *word == "tidy",
        [] => false,
    }
}

/// Runs the program on a folder, a source and sinks, which contracts can see: what is read and
/// written, the status and the lines of a failure are exactly those that the command results in.
pub fn program_on<F: Folder, I: Source, O: Sink, T: Sink>(
    folder: &mut F,
    alloc: Global,
    words: &[&str],
    screens: Terminals,
    reader: &mut I,
    writer: &mut O,
    faults: &mut T,
) -> u8
    ensures status { IsStatusOf screens.colours (texts words.now) result }
    ensures ended { EndsOn F.Folder folder.old folder.new I.Source reader.old reader.new
        O.Sink writer.old writer.new T.Sink faults.old faults.new
        screens (texts words.now) result }
{
    match run_command(folder, alloc, words, screens.colours, reader, writer) {
        Ok(end) => tell_errors_on(faults, &end),
        Err(fault) => {
            let reason = shown_reason(alloc, &fault, screens.explain(words));
            tell_on(faults, &fault, reason.as_str())
        }
    }
}

/// Does what the command-line arguments ask for. They are read first, then a run's locale is looked
/// up, then the files are read in their order, and for a run then the request lines that `reader`
/// gives, or for `tidy -` and `lint -` its source: see `docs/reference/protocol.md`. If the words
/// ask for help, for the version or for what a code means, that is written.
///
/// # Errors
/// The first fault. What was written before it stays written.
pub fn run_command<'words, F: Folder, I: Source, O: Sink>(
    folder: &mut F,
    alloc: Global,
    words: &'words [&'words str],
    colours: bool,
    reader: &mut I,
    writer: &mut O,
) -> Result<Ended, Fault<'words>>
    // What is asked for is done. A run writes what it would write from whatever its sources are
    // tidied into, too. What was written before a fault stays written.
    ensures ended { CommandEndsOn F.Folder folder.old I.Source reader.old reader.new
        O.Sink writer.old writer.new (command_of colours (texts words.now)) result }
    ensures help { AnswersHelp O.Sink writer.old writer.new
        colours (texts words.now) result }
    ensures devices { DevicesEnd F.Folder folder.old folder.new I.Source reader.old reader.new
        O.Sink writer.old writer.new (command_of colours (texts words.now)) result }
    // Files that are tidied in place hold their tidy texts, and no other file changes. What is
    // linted are the files that the paths stand for, but for those that can't be read, which are
    // reported. Each other command leaves all files as they were, also after a fault.
    ensures files { FilesEndFor F.Folder folder.old folder.new I.Source reader.old reader.new
        O.Sink writer.old writer.new colours words.now result }
    ensures no_input { WithoutInput (command_of colours (texts words.now))
        (reader.new ≡ reader.old) }
{
    match command(alloc, words, colours) {
        Ok(Invocation::Command(command)) => do_command(folder, alloc, &command, reader, writer),
        Ok(Invocation::Help(text)) => write_asked(writer, text.as_str()),
        Ok(Invocation::Version(line)) => write_asked(writer, line.as_str()),
        Ok(Invocation::Explanation(text)) => write_asked(writer, text),
        Err(CommandError::Bad { advice }) => Err(Fault::CommandLine { advice }),
        Err(CommandError::Memory) => Err(Fault::Memory),
    }
}

/// Does what a command asks for.
///
/// # Errors
/// Those of [`run_command`] but [`Fault::CommandLine`].
fn do_command<'words, F: Folder, I: Source, O: Sink>(
    folder: &mut F,
    alloc: Global,
    command: &Command<'words>,
    reader: &mut I,
    writer: &mut O,
) -> Result<Ended, Fault<'words>>
    ensures ended { CommandEndsOn F.Folder folder.old I.Source reader.old reader.new
        O.Sink writer.old writer.new (Some (command_view command.now)) result }
    ensures devices { DevicesEnd F.Folder folder.old folder.new I.Source reader.old reader.new
        O.Sink writer.old writer.new (Some (command_view command.now)) result }
    ensures files { FilesEndBy F.Folder folder.old folder.new I.Source reader.old reader.new
        O.Sink writer.old writer.new command.now result }
    ensures no_input { WithoutInput (Some (command_view command.now)) (reader.new ≡ reader.old) }
{
    match command {
        Command::Run {
            isolating,
            overriding,
            locale,
            plain_numbers,
            files,
        } => {
            let options = RunOptions {
                isolating: *isolating,
                overriding: *overriding,
                locale: *locale,
                plain_numbers: *plain_numbers,
            };
            run_files(folder, alloc, options, files, reader, writer)
        }
        Command::Format(format) => write_formatted(folder, alloc, format, writer),
        Command::Check { files } => check_files(folder, alloc, files, writer),
        Command::Lint(lint) => lint_files(folder, alloc, lint, writer),
        Command::LintInput(lint) => lint_input(folder, alloc, lint, reader, writer),
        Command::LintProject(lint) => write_project_report(folder, alloc, lint, writer),
        Command::Status(status) => write_status(folder, alloc, status, writer),
        Command::TidyFiles(tidy) => tidy_in_place(folder, alloc, tidy, writer),
        Command::TidyInput { check } => tidy_input(alloc, *check, reader, writer),
        Command::Tidy(tidy) => write_tidied(folder, alloc, tidy, writer),
    }
}
