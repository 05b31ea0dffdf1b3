//! Files that are tidied in place.
ghost use Rattle.std.specs.Prelude.{◌≡◌, ◌⊎◌, IfErr, OnOk};
ghost use Rattle.ftl_files.specs.TidyView.{said_view};
ghost use Rattle.ftl_command.specs.InPlace.{InPlaceEndsOn};
ghost use Rattle.ftl_command.specs.Refusals.{IsTextFault};
ghost use Rattle.ftl_command.specs.Reported.{EndsBy};

use crate::ended::Ended;
use crate::fault::Fault;
use crate::output::write_to_stream;
use fluent_serve::stream::Sink;
use ftl_arguments::TidyFiles;
use ftl_files::{Folder, TidiedFiles, tidy_files};
use std::alloc::Global;

/// Tidies files in place, and writes the names of those that changed. What could not be tidied is
/// in the end.
///
/// # Errors
/// [`Fault::Memory`] if memory runs out: the first files are tidied, and nothing is written. After
/// [`Fault::Output`] all are, and a front of the names was written.
pub fn tidy_in_place<'words, F: Folder, O: Sink>(
    folder: &mut F,
    alloc: Global,
    tidy: &TidyFiles<'words>,
    writer: &mut O,
) -> Result<Ended, Fault<'words>>
    ensures ended { InPlaceEndsOn F.Folder folder.old folder.new
        O.Sink writer.old writer.new tidy.now result }
    ensures writes { OnOk result (O.failures writer.new ≡ O.failures writer.old) }
    ensures fault { IfErr result (λ fault. (fault ≡ Fault.Memory) ⊎ (fault ≡ Fault.Output)) }
    ensures stops { IfErr result (IsTextFault O.Sink writer.old writer.new) }
{
    let tidied = tidy_files(folder, alloc, tidy.check, &tidy.paths)?;
    write_to_stream(writer, tidied.names.as_str())?;
    Ok(end_of(tidied))
}

/// The end of a command by its output on files that are tidied.
pub(crate) fn end_of(tidied: TidiedFiles) -> Ended
    ensures { EndsBy (said_view tidied) result }
{
    let TidiedFiles {
        reports,
        reported,
        has_found,
        ..
    } = tidied;
    Ended::of_files(reported, has_found, reports)
}
