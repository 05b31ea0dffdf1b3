//! The commands that write sources anew: `clean`, `normalize`, `join`, `export` and `import`.
ghost use Rattle.std.specs.Prelude.{◌≡◌, ◌⊎◌, Some, None, false, IfOk, OnOk, IfErr, IsErrOf, string_bytes};
ghost use Rattle.serde_json.specs.Read.{read as read_text};
ghost use Rattle.serde_json.specs.View.{view};
ghost use Rattle.serde_json.specs.Written.{has_float};
ghost use Rattle.fluent_serve.specs.Texts.{texts};
ghost use Rattle.ftl_arguments.specs.CommandView.{tidy_view};
ghost use Rattle.ftl_arguments.specs.Meaning as asked;
ghost use Rattle.ftl_command.specs.Faults.{IsCleanFault, IsNormalizeFault};
ghost use Rattle.ftl_command.specs.Program.{Tidies, TidyEnds, data_line};
ghost use Rattle.ftl_command.specs.Refusals.{IsEarlyFault, IsFaultOf, IsTextFault, TextWorks};

use crate::borrowed::borrow_texts;
use crate::ended::Ended;
use crate::fault::{Fault, FilePlace};
use crate::files::{read_text_file, read_text_files};
use crate::output::write_to_stream;
use fluent_serve::stream::Sink;
use fluent_tidy::{CleanError, NormalizeError, clean, export, import, join, normalize};
use ftl_arguments::Tidy;
use ftl_files::{FileEnd, Folder, last_row, tidy_source};
use serde_json::Value;
use std::alloc::{AllocError, Global};

/// Writes what the sources' files are tidied into.
///
/// # Errors
/// The first fault. After [`Fault::Output`] a front of the text was written, and after another
/// fault nothing.
pub fn write_tidied<'words, F: Folder, O: Sink>(
    folder: &mut F,
    alloc: Global,
    tidy: &Tidy<'words>,
    writer: &mut O,
) -> Result<Ended, Fault<'words>>
    ensures ended { IfOk result (λ end. end ≡ Ended.Done) }
    ensures tidied { TidyEnds F.Folder folder.old (tidy_view tidy.now)
        O.Sink writer.old writer.new result }
    ensures works { OnOk result (TextWorks F.Folder folder.old folder.new
        O.Sink writer.old writer.new) }
    ensures kept { F.contents folder.new ≡ F.contents folder.old }
    ensures fault { IfErr result (IsFaultOf F.Folder folder.old folder.new
        (Some (asked.tidy (tidy_view tidy.now)))) }
    ensures stops { IfErr result (IsTextFault O.Sink writer.old writer.new) }
{
    let text = tidied_text(folder, alloc, tidy)?;
    write_to_stream(writer, text.as_str())?;
    Ok(Ended::Done)
}

/// The text that the sources' files are tidied into.
///
/// # Errors
/// The first fault; nothing is kept.
pub fn tidied_text<'words, F: Folder>(
    folder: &mut F,
    alloc: Global,
    tidy: &Tidy<'words>,
) -> Result<String, Fault<'words>>
    ensures text { IfOk result (λ text.
        Tidies (F.contents folder.old) (tidy_view tidy.now) (string_bytes text)) }
    ensures fault { IfErr result (IsEarlyFault F.Folder folder.old folder.new
        (asked.tidy (tidy_view tidy.now))) }
    ensures opens { OnOk result (F.failures folder.new ≡ F.failures folder.old) }
    ensures kept { F.contents folder.new ≡ F.contents folder.old }
{
    match tidy {
        Tidy::Clean(file) => clean_file(folder, alloc, file),
        Tidy::Normalize(file) => normalize_file(folder, alloc, file),
        Tidy::Join(files) => join_files(folder, alloc, files),
        Tidy::Export(file) => export_file(folder, alloc, file),
        Tidy::Import(file) => import_file(folder, alloc, file),
    }
}

/// The cleaned source of a file.
fn clean_file<'words, F: Folder>(
    folder: &mut F,
    alloc: Global,
    file: &'words str,
) -> Result<String, Fault<'words>>
    ensures text { IfOk result (λ text.
        Tidies (F.contents folder.old) (asked.clean file.now) (string_bytes text)) }
    ensures fault { IfErr result (IsEarlyFault F.Folder folder.old folder.new
        (asked.tidy (asked.clean file.now))) }
    ensures opens { OnOk result (F.failures folder.new ≡ F.failures folder.old) }
    ensures kept { F.contents folder.new ≡ F.contents folder.old }
{
    let source = read_text_file(folder, alloc, file)?;
    match clean(alloc, source.as_str()) {
        Ok(text) => Ok(text),
        Err(error) => Err(fault_of_clean(error, &[file], &[source.as_str()])),
    }
}

/// The normal text of a file's source.
fn normalize_file<'words, F: Folder>(
    folder: &mut F,
    alloc: Global,
    file: &'words str,
) -> Result<String, Fault<'words>>
    ensures text { IfOk result (λ text.
        Tidies (F.contents folder.old) (asked.normalize file.now) (string_bytes text)) }
    ensures fault { IfErr result (IsEarlyFault F.Folder folder.old folder.new
        (asked.tidy (asked.normalize file.now))) }
    ensures opens { OnOk result (F.failures folder.new ≡ F.failures folder.old) }
    ensures kept { F.contents folder.new ≡ F.contents folder.old }
{
    let source = read_text_file(folder, alloc, file)?;
    match normalize(alloc, source.as_str()) {
        Ok(text) => Ok(text),
        Err(error) => Err(fault_of_normalize(alloc, error, file, source.as_str())),
    }
}

/// The sources of files, joined.
fn join_files<'words, F: Folder>(
    folder: &mut F,
    alloc: Global,
    files: &[&'words str],
) -> Result<String, Fault<'words>>
    ensures text { IfOk result (λ text.
        Tidies (F.contents folder.old) (asked.join (texts files.now)) (string_bytes text)) }
    ensures fault { IfErr result (IsEarlyFault F.Folder folder.old folder.new
        (asked.tidy (asked.join (texts files.now)))) }
    ensures opens { OnOk result (F.failures folder.new ≡ F.failures folder.old) }
    ensures kept { F.contents folder.new ≡ F.contents folder.old }
{
    let texts = read_text_files(folder, alloc, files)?;
    let sources = borrow_texts(alloc, &texts)?;
    match join(alloc, &sources) {
        Ok(text) => Ok(text),
        Err(error) => Err(fault_of_clean(error, files, &sources)),
    }
}

/// The JSON tree of a file's source, on one line.
fn export_file<'words, F: Folder>(
    folder: &mut F,
    alloc: Global,
    file: &'words str,
) -> Result<String, Fault<'words>>
    ensures text { IfOk result (λ text.
        Tidies (F.contents folder.old) (asked.export file.now) (string_bytes text)) }
    ensures fault { IfErr result (IsEarlyFault F.Folder folder.old folder.new
        (asked.tidy (asked.export file.now))) }
    ensures opens { OnOk result (F.failures folder.new ≡ F.failures folder.old) }
    ensures kept { F.contents folder.new ≡ F.contents folder.old }
{
    let source = read_text_file(folder, alloc, file)?;
    match export(alloc, source.as_str()) {
        Ok(value) => Ok(line_of(alloc, &value)?),
        Err(error) => Err(fault_of_clean(error, &[file], &[source.as_str()])),
    }
}

/// A tree's value as compact JSON text, and a line feed.
fn line_of(alloc: Global, value: &Value) -> Result<String, AllocError>
    ensures { IfOk result (λ text. has_float (view value.now) ≡ false
        → string_bytes text ≡ data_line (view value.now)) }
{
    let mut text = value.to_string(alloc)?;
    text.push('\n')?;
    Ok(text)
}

/// The text of the JSON tree in a file.
fn import_file<'words, F: Folder>(
    folder: &mut F,
    alloc: Global,
    file: &'words str,
) -> Result<String, Fault<'words>>
    ensures text { IfOk result (λ text.
        Tidies (F.contents folder.old) (asked.import file.now) (string_bytes text)) }
    ensures fault { IfErr result (IsEarlyFault F.Folder folder.old folder.new
        (asked.tidy (asked.import file.now))) }
    ensures opens { OnOk result (F.failures folder.new ≡ F.failures folder.old) }
    ensures kept { F.contents folder.new ≡ F.contents folder.old }
{
    let source = read_text_file(folder, alloc, file)?;
    let value = json_value(alloc, source.as_str())?;
    drop(source);
    Ok(import(alloc, &value)?)
}

/// The value of a JSON text.
fn json_value<'words>(alloc: Global, text: &str) -> Result<Value, Fault<'words>>
    ensures value { IfOk result (λ value. read_text text.now ≡ Some (view value)) }
    ensures not_json { IsErrOf result Fault.NotJson → read_text text.now ≡ None }
    ensures fault { IfErr result (λ fault. (fault ≡ Fault.NotJson) ⊎ (fault ≡ Fault.Memory)) }
{
    match Value::from_str(alloc, text) {
        Ok(value) => Ok(value),
        Err(error) if error.is_memory() => Err(Fault::Memory),
        Err(_) => Err(Fault::NotJson),
    }
}

/// The failure if sources aren't cleaned, with the place of their first carriage return.
fn fault_of_clean<'words>(
    error: CleanError,
    files: &[&'words str],
    sources: &[&str],
) -> Fault<'words>
    ensures { IsCleanFault error result }
{
    match error {
        CleanError::Memory => Fault::Memory,
        CleanError::CarriageReturn => Fault::CarriageReturn {
            place: return_in(files, sources),
        },
    }
}

/// The failure if a source isn't normalized, with the place or the report of its reason.
fn fault_of_normalize<'words>(
    alloc: Global,
    error: NormalizeError,
    file: &'words str,
    source: &str,
) -> Fault<'words>
    ensures { IsNormalizeFault error result }
{
    match error {
        NormalizeError::Memory => Fault::Memory,
        NormalizeError::CarriageReturn => Fault::CarriageReturn {
            place: return_in(&[file], &[source]),
        },
        NormalizeError::NotNormal => Fault::NotNormal {
            report: shape_report(alloc, file, source),
        },
    }
}

/// Where the first carriage return in the sources of these files is.
fn return_in<'words>(files: &[&'words str], sources: &[&str]) -> Option<FilePlace<'words>> {
    for (file, source) in files.iter().zip(sources) {
        if let Some((front, _)) = source.split_once('\r') {
            let row = last_row(front.as_bytes());
            return Some(FilePlace { file: *file, row });
        }
    }
    None
}

/// The report on an entry of a source that would be read otherwise if it were written anew. `None`
/// if memory runs out.
fn shape_report(alloc: Global, file: &str, source: &str) -> Option<String> {
    match tidy_source(alloc, file, source) {
        Ok(FileEnd::Refused(report)) => Some(report),
        _ => None,
    }
}
