//! The report on the sources in files.
ghost use Rattle.std.specs.Prelude.{◌≡◌, Some, IfOk, IfErr, OnOk, string_bytes};
ghost use Rattle.fluent_serve.specs.Texts.{texts};
ghost use Rattle.ftl_arguments.specs.Meaning.{check};
ghost use Rattle.ftl_command.specs.Program.{CheckEnds, IsReport};
ghost use Rattle.ftl_command.specs.Refusals.{IsEarlyFault, IsFaultOf, IsTextFault, TextWorks};

use crate::borrowed::borrow_texts;
use crate::ended::Ended;
use crate::fault::Fault;
use crate::files::read_text_files;
use crate::output::write_to_stream;
use fluent_check::check_text;
use fluent_run::StackBudget;
use fluent_serve::stream::Sink;
use ftl_files::Folder;
use std::alloc::Global;

/// Writes a line for each error of the sources in `files`, and then one for each entry whose id was
/// there.
///
/// # Errors
/// The first fault. After [`Fault::Output`] a front of the report was written, and after another
/// fault nothing.
pub fn check_files<'words, F: Folder, O: Sink>(
    folder: &mut F,
    alloc: Global,
    files: &[&'words str],
    writer: &mut O,
) -> Result<Ended, Fault<'words>>
    ensures ended { CheckEnds F.Folder folder.old (texts files.now)
        O.Sink writer.old writer.new result }
    ensures works { OnOk result (TextWorks F.Folder folder.old folder.new
        O.Sink writer.old writer.new) }
    ensures kept { F.contents folder.new ≡ F.contents folder.old }
    ensures fault { IfErr result (IsFaultOf F.Folder folder.old folder.new
        (Some (check (texts files.now)))) }
    ensures stops { IfErr result (IsTextFault O.Sink writer.old writer.new) }
{
    let report = report_on(folder, alloc, files)?;
    write_to_stream(writer, report.as_str())?;
    Ok(if report.is_empty() {
        Ended::Done
    } else {
        Ended::Found
    })
}

/// The report on the sources in files, as text.
fn report_on<'words, F: Folder>(
    folder: &mut F,
    alloc: Global,
    files: &[&'words str],
) -> Result<String, Fault<'words>>
    ensures report { IfOk result (λ text.
        IsReport (F.contents folder.old) (texts files.now) (string_bytes text)) }
    ensures fault { IfErr result (IsEarlyFault F.Folder folder.old folder.new
        (check (texts files.now))) }
    ensures opens { OnOk result (F.failures folder.new ≡ F.failures folder.old) }
    ensures kept { F.contents folder.new ≡ F.contents folder.old }
{
    let texts = read_text_files(folder, alloc, files)?;
    let sources = borrow_texts(alloc, &texts)?;
    Ok(check_text(alloc, &sources, StackBudget::PROGRAM)?)
}
