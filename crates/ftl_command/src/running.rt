//! Request lines, answered from the sources in files.
ghost use Rattle.std.specs.Prelude.{◌≡◌, IfOk, IfErr, OnOk};
ghost use Rattle.ftl_command.specs.Program.{RunEndsOn, run_asked, run_of};
ghost use Rattle.ftl_command.specs.Refusals.{IsDeviceFault, IsFaultOf};

use crate::borrowed::borrow_texts;
use crate::ended::Ended;
use crate::fault::Fault;
use crate::files::read_text_files;
use crate::plurals::RunRules;
use fluent_run::{Settings, Sink, Source, run_before_exit};
use ftl_files::Folder;
use std::alloc::Global;

/// How the lines of a run are answered.
#[derive(Clone, Copy)]
pub struct RunOptions<'words> {
    /// Whether the values of placeables stand between isolation marks.
    pub isolating: bool,
    /// Whether the last entry of an id counts, and not the first.
    pub overriding: bool,
    /// The tag of the locale whose plural rules choose variants and whose numbers are written, if
    /// one is given.
    pub locale: Option<&'words str>,
    /// Whether numbers are written plainly, whatever the locale.
    pub plain_numbers: bool,
}

/// Answers the request lines of `reader` from the sources in `files`. Without a locale the plural
/// rules are those of English, and numbers are written plainly.
///
/// # Errors
/// The first failure: an unknown locale is found before any file is read. What was written before
/// it stays written.
pub fn run_files<'words, F: Folder, I: Source, O: Sink>(
    folder: &mut F,
    alloc: Global,
    options: RunOptions<'words>,
    files: &[&'words str],
    reader: &mut I,
    writer: &mut O,
) -> Result<Ended, Fault<'words>>
    ensures ended { IfOk result (λ end. end ≡ Ended.Done) }
    // The lines are answered, and as they would be from whatever the sources are tidied into. What
    // was answered before a fault stays written.
    ensures ran { RunEndsOn F.Folder folder.old I.Source reader.old reader.new
        O.Sink writer.old writer.new (run_of options.entry files.now) result }
    ensures opens { OnOk result (F.failures folder.new ≡ F.failures folder.old) }
    ensures kept { F.contents folder.new ≡ F.contents folder.old }
    ensures reads { OnOk result (I.failures reader.new ≡ I.failures reader.old) }
    ensures writes { OnOk result (O.failures writer.new ≡ O.failures writer.old) }
    ensures fault { IfErr result (IsFaultOf F.Folder folder.old folder.new
        (run_asked options.entry files.now)) }
    ensures stops { IfErr result (IsDeviceFault I.Source reader.old reader.new
        O.Sink writer.old writer.new) }
{
    let rules = RunRules::of_locale(options.locale, options.plain_numbers)?;
    let texts = read_text_files(folder, alloc, files)?;
    let sources = borrow_texts(alloc, &texts)?;
    let settings = Settings {
        isolating: options.isolating,
        overriding: options.overriding,
        numerals: rules.numerals,
    };
    run_before_exit(alloc, &sources, settings, &rules.plurals, reader, writer)?;
    Ok(Ended::Done)
}
