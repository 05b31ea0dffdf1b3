//! The sources' files.
ghost use Rattle.std.specs.Prelude.{◌≡◌, map, IfOk, OnOk, IfErr, IfSome, string_bytes, [], ◌∷◌};
ghost use Rattle.std.specs.Str.{IsUtf8};
ghost use Rattle.fluent_serve.specs.Texts.{texts};
ghost use Rattle.ftl_command.specs.Faults.{IsFaultOfFiles};
ghost use Rattle.ftl_files.specs.Rows.{bad_row};
ghost use Rattle.ftl_command.specs.Files.{AreRead};

use crate::fault::{Fault, Meant};
use ftl_files::{FileError, Folder, bad_row};
use std::alloc::Global;

/// Reads the files, a text for each, in their order.
///
/// # Errors
/// For the first file that has no text: [`Fault::FileUnreadable`] if it can't be read,
/// [`Fault::FileNotUtf8`] if it isn't UTF-8. [`Fault::Memory`] if memory runs out; nothing is kept.
pub fn read_text_files<'words, F: Folder>(
    folder: &mut F,
    alloc: Global,
    files: &[&'words str],
) -> Result<Vec<String>, Fault<'words>>
    ensures held { IfOk result (λ read.
        AreRead (F.contents folder.old) files.now read.items) }
    ensures fault { IfErr result (IsFaultOfFiles F.Folder folder.old folder.new (texts files.now)) }
    ensures opens { OnOk result (F.failures folder.new ≡ F.failures folder.old) }
    ensures kept { F.contents folder.new ≡ F.contents folder.old }
{
    let mut sources = Vec::new(alloc);
    for file in files {
        let source = read_text_file(folder, alloc, file)?;
        sources.push(source)?;
    }
    Ok(sources)
}

/// Reads one file.
///
/// # Errors
/// [`Fault::Memory`] if memory runs out; nothing is kept. [`Fault::FileUnreadable`] if the file
/// can't be read. [`Fault::FileNotUtf8`] if it isn't UTF-8.
pub fn read_text_file<'words, F: Folder>(
    folder: &mut F,
    alloc: Global,
    file: &'words str,
) -> Result<String, Fault<'words>>
    ensures held { IfOk result (λ text.
        IfSome (F.contents folder.old file.now) (λ held. string_bytes text ≡ held)) }
    ensures fault { IfErr result (IsFaultOfFiles F.Folder folder.old folder.new (file.now ∷ [])) }
    ensures opens { OnOk result (F.failures folder.new ≡ F.failures folder.old) }
    ensures kept { F.contents folder.new ≡ F.contents folder.old }
{
    let bytes = match folder.read(alloc, file) {
        Ok(bytes) => bytes,
        Err(FileError::Memory) => return Err(Fault::Memory),
        Err(FileError::Unreadable) => {
            return Err(Fault::FileUnreadable {
                file,
                why: folder.why(),
                meant: Meant::Nothing,
            });
        }
    };
    match text_of(bytes) {
        Ok(text) => Ok(text),
        Err(row) => Err(Fault::FileNotUtf8 { file, row }),
    }
}

/// The bytes as a text, if they are UTF-8, or otherwise the number of the line that isn't.
fn text_of(bytes: Vec<u8>) -> Result<String, usize>
    ensures same { IfOk result (λ text. string_bytes text ≡ bytes.items) }
    ensures found { IfErr result (λ row.
        (IsUtf8 bytes.items → ⊥) × (row ≡ bad_row bytes.items)) }
{
    match bad_row(&bytes) {
        Some(row) => Err(row),
        // Its bytes were just found to be UTF-8.
        None => Ok(unsafe { String::from_utf8_unchecked(bytes) }),
    }
}
