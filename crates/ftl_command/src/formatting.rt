//! The text of a message, from the sources in files.
ghost use Rattle.std.specs.Prelude.{◌≡◌, Some, IfOk, IfErr, OnOk, string_bytes};
ghost use Rattle.fluent_run.specs.RunView.{settings_view};
ghost use Rattle.fluent_serve.specs.Texts.{texts};
ghost use Rattle.ftl_command.specs.Dated.{settings_for};
ghost use Rattle.ftl_command.specs.FormatView.{IsWrittenAs};
ghost use Rattle.ftl_arguments.specs.CommandView.{format_view};
ghost use Rattle.ftl_arguments.specs.Meaning as asked;
ghost use Rattle.ftl_command.specs.Faults.{IsWithMeant, end_status};
ghost use Rattle.ftl_command.specs.Plurals.{rules_view};
ghost use Rattle.ftl_command.specs.Program.{FormatEnds, IsFound, errors_in, reply_for, status_by};
ghost use Rattle.ftl_command.specs.Refusals.{IsEarlyFault, IsFaultOf, IsTextFault, TextWorks};

use crate::borrowed::borrow_texts;
use crate::dated::{format_dated, has_date};
use crate::ended::Ended;
use crate::fault::Fault;
use crate::files::read_text_files;
use crate::meant::{meant_by_file, meant_by_message};
use crate::output::write_to_stream;
use crate::plurals::RunRules;
use crate::{Formatted, format_message};
use fluent_run::Settings;
use fluent_serve::stream::Sink;
use ftl_arguments::Format;
use ftl_files::Folder;
use std::alloc::{AllocError, Global};

/// Writes the text of the message that is asked for, and a line feed. What went wrong in the text
/// is in the end.
///
/// # Errors
/// The first failure: an unknown locale is found before any file is read, and a missing message
/// after all are. After [`Fault::Output`] a front of the text was written, and after another fault
/// nothing.
pub fn write_formatted<'words, F: Folder, O: Sink>(
    folder: &mut F,
    alloc: Global,
    format: &Format<'words>,
    writer: &mut O,
) -> Result<Ended, Fault<'words>>
    ensures ended { FormatEnds F.Folder folder.old (format_view format.now)
        O.Sink writer.old writer.new result }
    ensures works { OnOk result (TextWorks F.Folder folder.old folder.new
        O.Sink writer.old writer.new) }
    ensures kept { F.contents folder.new ≡ F.contents folder.old }
    ensures fault { IfErr result (IsFaultOf F.Folder folder.old folder.new
        (Some (asked.format (format_view format.now)))) }
    ensures stops { IfErr result (IsTextFault O.Sink writer.old writer.new) }
{
    let formatted = formatted_on(folder, alloc, format)?;
    write_to_stream(writer, formatted.text.as_str())?;
    Ok(end_with(formatted.errors))
}

/// The end of a text with these lines of errors.
fn end_with(errors: String) -> Ended
    ensures errors { errors_in result ≡ string_bytes errors }
    ensures status { end_status result ≡ status_by (string_bytes errors) }
{
    if errors.is_empty() {
        Ended::Done
    } else {
        Ended::Incomplete { errors }
    }
}

/// The text and the errors of the message that is asked for. The contents of the folder stay as
/// they are.
fn formatted_on<'words, F: Folder>(
    folder: &mut F,
    alloc: Global,
    format: &Format<'words>,
) -> Result<Formatted, Fault<'words>>
    ensures found { IfOk result (λ formatted.
        IsFound (F.contents folder.old) (format_view format.now) (Some formatted)) }
    ensures fault { IfErr result (IsEarlyFault F.Folder folder.old folder.new
        (asked.format (format_view format.now))) }
    ensures opens { OnOk result (F.failures folder.new ≡ F.failures folder.old) }
    ensures kept { F.contents folder.new ≡ F.contents folder.old }
{
    let rules = RunRules::of_locale(format.locale, format.plain_numbers)?;
    let texts = match read_text_files(folder, alloc, &format.files) {
        Ok(texts) => texts,
        Err(fault) => return Err(with_meant(format, fault)),
    };
    let sources = borrow_texts(alloc, &texts)?;
    match formatted_from(alloc, format, &rules, &sources)? {
        Some(formatted) => Ok(formatted),
        None => Err(Fault::NoMessage {
            meant: meant_by_message(alloc, format, &sources),
        }),
    }
}

/// A fault of the files, with what may be meant by the name of one that is missing.
fn with_meant<'words>(format: &Format<'_>, fault: Fault<'words>) -> Fault<'words>
    ensures { IsWithMeant fault.entry result }
{
    match fault {
        Fault::FileUnreadable { file, why, .. } => Fault::FileUnreadable {
            file,
            why,
            meant: meant_by_file(format, file, why),
        },
        fault => fault,
    }
}

/// How the message is formatted, by these rules of a locale.
pub(crate) fn settings_of(format: &Format<'_>, rules: &RunRules) -> Settings
    ensures { settings_view result ≡ settings_for (rules_view rules.now) (format_view format.now) }
{
    Settings {
        isolating: format.isolating,
        overriding: format.overriding,
        numerals: rules.numerals,
    }
}

/// The text and the errors of the message from these sources; `None` if they don't have it.
fn formatted_from(
    alloc: Global,
    format: &Format<'_>,
    rules: &RunRules,
    sources: &[&str],
) -> Result<Option<Formatted>, AllocError>
    ensures { IfOk result (IsWrittenAs
        (reply_for (rules_view rules.now) (format_view format.now) (texts sources.now))) }
{
    if has_date(&format.arguments) {
        return format_dated(alloc, format, rules, sources);
    }
    format_message(
        alloc,
        sources,
        settings_of(format, rules),
        &rules.plurals,
        format.id,
        format.attribute,
        &format.arguments,
    )
}
