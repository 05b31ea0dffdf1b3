//! The report on a catalog, in files or in standard input.
ghost use Rattle.std.specs.Prelude.{◌≡◌, Some, IfOk, IfErr, OnOk, string_bytes};
ghost use Rattle.fluent_lint.specs.LintView.{output_view};
ghost use Rattle.fluent_lint.specs.Reports.{options_view};
ghost use Rattle.ftl_arguments.specs.CommandView.{lint_view};
ghost use Rattle.ftl_arguments.specs.Meaning as asked;
ghost use Rattle.ftl_files.specs.TidyView.{read_view};
ghost use Rattle.ftl_command.specs.InPlace.{LintEndsOn, LintInputEndsOn, LintsInputOn, LintsOn};
ghost use Rattle.ftl_command.specs.Linted.{EndsLinted, IsReportOf, lint_errors, options_asked, output_asked};
ghost use Rattle.ftl_command.specs.Refusals.{IsDeviceFault, IsEarlyFault, IsFaultOf, IsReadFault, IsTextFault};

use crate::ended::Ended;
use crate::fault::Fault;
use crate::input::{NAME, read_input};
use crate::output::write_to_stream;
use crate::plurals::language_plurals;
use fluent_lint::{Options, Output, Report, report_files};
use fluent_plurals::LanguagePlurals;
use fluent_serve::stream::{Sink, Source};
use fluent_text::stack::StackBudget;
use ftl_arguments::Lint;
use ftl_files::{Folder, ReadSources, Reported, read_sources};
use std::alloc::{AllocError, Global};

/// Writes what is found in the catalog in files, and those below folders. A file that can't be read
/// is reported in the end, as a path that stands for no file is, and the report is on the others.
/// The files stay as they are.
///
/// # Errors
/// The first fault: an unknown locale is found before any file is read. After [`Fault::Output`] a
/// front of the report was written, and after another fault nothing.
pub fn lint_files<'words, F: Folder, O: Sink>(
    folder: &mut F,
    alloc: Global,
    lint: &Lint<'words>,
    writer: &mut O,
) -> Result<Ended, Fault<'words>>
    ensures ended { LintEndsOn F.Folder folder.old folder.new
        O.Sink writer.old writer.new lint.now result }
    ensures writes { OnOk result (O.failures writer.new ≡ O.failures writer.old) }
    ensures fault { IfErr result (IsFaultOf F.Folder folder.old folder.new
        (Some (asked.lint (lint_view lint.now)))) }
    ensures stops { IfErr result (IsTextFault O.Sink writer.old writer.new) }
{
    let linted = report_paths(folder, alloc, lint)?;
    write_to_stream(writer, linted.report.text.as_str())?;
    Ok(end_of(linted))
}

/// Writes what is found in standard input, which is the catalog. The files of the reference are
/// read before it, and stay as they are. If it isn't UTF-8 or nests too deep, that is reported in
/// the end, and the report is on no file.
///
/// # Errors
/// The first fault: an unknown locale is found before anything is read. After [`Fault::Output`] a
/// front of the report was written, and after another fault nothing.
pub fn lint_input<'words, F: Folder, I: Source, O: Sink>(
    folder: &mut F,
    alloc: Global,
    lint: &Lint<'words>,
    reader: &mut I,
    writer: &mut O,
) -> Result<Ended, Fault<'words>>
    ensures ended { LintInputEndsOn F.Folder folder.old folder.new I.Source reader.old reader.new
        O.Sink writer.old writer.new lint.now result }
    ensures reads { OnOk result (I.failures reader.new ≡ I.failures reader.old) }
    ensures writes { OnOk result (O.failures writer.new ≡ O.failures writer.old) }
    ensures fault { IfErr result (IsFaultOf F.Folder folder.old folder.new
        (Some (asked.lint_input (lint_view lint.now)))) }
    ensures stops { IfErr result (IsDeviceFault I.Source reader.old reader.new
        O.Sink writer.old writer.new) }
{
    let linted = report_input(folder, alloc, lint, reader)?;
    write_to_stream(writer, linted.report.text.as_str())?;
    Ok(end_of(linted))
}

/// A report, and the lines of the files that could not be read, and of paths that stand for none.
#[derive(Drop)]
pub(crate) struct Linted {
    report: Report,
    errors: String,
    /// Which errors the lines report.
    reported: Reported,
}

/// The end of a catalog that was linted.
fn end_of(linted: Linted) -> Ended
    ensures { EndsLinted linted result }
{
    let Linted {
        report,
        errors,
        reported,
    } = linted;
    Ended::of_files(reported, report.has_failed, errors)
}

/// The report on the files that the paths stand for: those of the reference are read before those
/// of the catalog.
fn report_paths<'words, F: Folder>(
    folder: &mut F,
    alloc: Global,
    lint: &Lint<'words>,
) -> Result<Linted, Fault<'words>>
    ensures linted { IfOk result (LintsOn F.Folder folder.old folder.new lint.now) }
    ensures kept { F.contents folder.new ≡ F.contents folder.old }
    ensures fault { IfErr result (IsEarlyFault F.Folder folder.old folder.new
        (asked.lint (lint_view lint.now))) }
{
    let plurals = language_plurals(lint.locale)?;
    let references = read_sources(folder, alloc, &lint.references)?;
    let files = read_sources(folder, alloc, &lint.files)?;
    Ok(report_sources(alloc, lint, plurals, &references, &files)?)
}

/// The report on standard input, which is read after the files of the reference.
fn report_input<'words, F: Folder, I: Source>(
    folder: &mut F,
    alloc: Global,
    lint: &Lint<'words>,
    reader: &mut I,
) -> Result<Linted, Fault<'words>>
    ensures linted { IfOk result (LintsInputOn F.Folder folder.old folder.new
        I.Source reader.old reader.new lint.now) }
    ensures kept { F.contents folder.new ≡ F.contents folder.old }
    ensures reads { OnOk result (I.failures reader.new ≡ I.failures reader.old) }
    ensures fault { IfErr result (IsFaultOf F.Folder folder.old folder.new
        (Some (asked.lint_input (lint_view lint.now)))) }
    ensures stops { IfErr result (IsReadFault I.Source reader.old reader.new) }
{
    let plurals = language_plurals(lint.locale)?;
    let references = read_sources(folder, alloc, &lint.references)?;
    let bytes = read_input(alloc, reader)?;
    let input = ReadSources::of_bytes(alloc, NAME, bytes)?;
    Ok(report_sources(alloc, lint, plurals, &references, &input)?)
}

/// The report on the sources that were read, by these plural rules.
fn report_sources(
    alloc: Global,
    lint: &Lint,
    plurals: Option<LanguagePlurals>,
    references: &ReadSources,
    files: &ReadSources,
) -> Result<Linted, AllocError>
    ensures { IfOk result (IsReportOf lint.now plurals (read_view references.now) (read_view files.now)) }
{
    let errors = joined_errors(alloc, references, files)?;
    let reported = references.reported.or(files.reported);
    let references = references.files(alloc)?;
    let files = files.files(alloc)?;
    let options = options_of(lint, plurals);
    let report = report_files(
        alloc,
        &options,
        output_of(lint),
        &references,
        &files,
        StackBudget::PROGRAM,
    )?;
    Ok(Linted {
        report,
        errors,
        reported,
    })
}

/// The options of a catalog: the functions of the program, and these plural rules of the language.
fn options_of<'a>(lint: &'a Lint<'_>, plurals: Option<LanguagePlurals>) -> Options<'a>
    ensures { options_view result ≡ options_asked (lint_view lint.now) plurals }
{
    Options {
        functions: &lint.functions,
        plurals,
    }
}

/// The options of the report: how findings are written, which are left out, and which of them fail.
fn output_of<'a>(lint: &'a Lint<'_>) -> Output<'a>
    ensures { output_view result ≡ output_asked (lint_view lint.now) }
{
    Output {
        format: lint.format,
        ignored: &lint.ignored,
        notes: lint.notes,
        counts: lint.counts,
        strict: lint.strict,
    }
}

/// The lines of the files that could not be read.
fn joined_errors(
    alloc: Global,
    references: &ReadSources,
    files: &ReadSources,
) -> Result<String, AllocError>
    ensures { IfOk result (λ errors. string_bytes errors
        ≡ lint_errors (read_view references.now) (read_view files.now)) }
{
    let mut errors = String::from_str(alloc, references.errors.as_str())?;
    errors.push_str(files.errors.as_str())?;
    Ok(errors)
}
