//! The report on a project, and its table.
ghost use Rattle.std.specs.Prelude.{◌≡◌, IfErr, IfOk, OnErr, OnOk, string_bytes};
ghost use Rattle.std.specs.Io.KnownBytes.{Appends};
ghost use Rattle.ftl_project.specs.Ends.{IsTable, baseline_of, unread_in, written_in};
ghost use Rattle.ftl_command.specs.InPlace.{ProjectEndOn, ProjectLintEndOn};
ghost use Rattle.ftl_command.specs.Program.{WritesFront};
ghost use Rattle.ftl_command.specs.Projects.{EndsProject, HoldsFindings};
ghost use Rattle.ftl_command.specs.Refusals.{IsOfProject, IsTextFault};

use crate::ended::Ended;
use crate::fault::Fault;
use crate::output::write_to_stream;
use fluent_serve::stream::Sink;
use ftl_arguments::{ProjectLint, Status};
use ftl_files::Folder;
use ftl_project::{ProjectEnd, ProjectError, lint_project, project_status, write_baseline};
use std::alloc::Global;

/// Writes what is found in a project: in its reference, and in each of its languages. A file that
/// can't be read is reported in the end, and the report is on the others. The files stay as they
/// are, but for a baseline that is to be written.
///
/// # Errors
/// The first fault. After [`Fault::Output`] a front of the report was written, and after another
/// fault nothing.
pub fn write_project_report<'words, F: Folder, O: Sink>(
    folder: &mut F,
    alloc: Global,
    lint: &ProjectLint<'words>,
    writer: &mut O,
) -> Result<Ended, Fault<'words>>
    ensures ended { ProjectLintEndOn F.Folder folder.old folder.new O.Sink writer.old writer.new
        lint.now result }
    ensures writes { OnOk result (O.failures writer.new ≡ O.failures writer.old) }
    ensures fault { IfErr result IsOfProject }
    ensures stops { IfErr result (IsTextFault O.Sink writer.old writer.new) }
{
    let end = lint_project(folder, alloc, lint)?;
    keep_findings(folder, alloc, lint.written, &end)?;
    write_end(end, writer)
}

/// Writes the baseline of a project to the file of this name, if there is a name.
fn keep_findings<F: Folder>(
    folder: &mut F,
    alloc: Global,
    name: Option<&str>,
    end: &ProjectEnd,
) -> Result<(), ProjectError>
    ensures written { OnOk result (HoldsFindings name.entry end.now
        (F.contents folder.old) (F.contents folder.new)) }
    ensures kept { OnErr result (F.contents folder.new ≡ F.contents folder.old) }
{
    match name {
        Some(name) => write_baseline(folder, alloc, name, baseline_of(end)),
        None => Ok(()),
    }
}

/// The text of the baseline of a project.
fn baseline_of(end: &ProjectEnd) -> &str
    ensures { result.now ≡ baseline_of end.now }
{
    match &end.baseline {
        Some(text) => text.as_str(),
        None => "",
    }
}

/// Writes the table of a project: what is counted in each of its languages. The files stay as they
/// are.
///
/// # Errors
/// Those of [`write_project_report`].
pub fn write_status<'words, F: Folder, O: Sink>(
    folder: &mut F,
    alloc: Global,
    status: &Status<'words>,
    writer: &mut O,
) -> Result<Ended, Fault<'words>>
    ensures ended { ProjectEndOn F.Folder folder.old folder.new O.Sink writer.old writer.new
        IsTable result }
    ensures writes { OnOk result (O.failures writer.new ≡ O.failures writer.old) }
    ensures fault { IfErr result IsOfProject }
    ensures stops { IfErr result (IsTextFault O.Sink writer.old writer.new) }
{
    let end = project_status(folder, alloc, status)?;
    write_end(end, writer)
}

/// Writes the report or the table of a project. Errors of its files are in the end.
fn write_end<'words, O: Sink>(end: ProjectEnd, writer: &mut O) -> Result<Ended, Fault<'words>>
    ensures written { OnOk result
        (Appends (O.contents writer.old) (O.contents writer.new) (string_bytes end.text)) }
    ensures ended { IfOk result (EndsProject (written_in end) (unread_in end)) }
    ensures front { OnErr result
        (WritesFront (O.contents writer.old) (O.contents writer.new) (string_bytes end.text)) }
    ensures writes { OnOk result (O.failures writer.new ≡ O.failures writer.old) }
    ensures fault { IfErr result IsOfProject }
    ensures stops { IfErr result (IsTextFault O.Sink writer.old writer.new) }
{
    write_to_stream(writer, end.text.as_str())?;
    let ProjectEnd {
        has_failed,
        errors,
        reported,
        ..
    } = end;
    Ok(Ended::of_files(reported, has_failed, errors))
}
