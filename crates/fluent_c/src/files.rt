//! Files in the memory of a caller that isn't Rattle.

ghost use Rattle.std.specs.Prelude.{◌≡◌, ◌≢◌, ◌++◌, ◌∷◌, [], false, IfErr, IfOk, IsTrue, IsUtf8, OnOk};
ghost use Rattle.fluent_lint.specs.FileTiles.{files_view};
ghost use Rattle.fluent_c.specs.Linting.{AreUtf8Files, HoldsOtherFile, IsUtf8File, files_given};
ghost use Rattle.fluent_c.specs.declared.answering.Refusal.TheVariants.{NotUtf8, UnknownLocale};

use crate::answering::Refusal;
use lint_findings::File;
use simdutf8::basic::from_utf8;
use std::alloc::Global;

/// A file: its name and its text, each as its first byte and its length in bytes.
///
/// ```c
/// const struct FluentFile reference = fluent_file("en.ftl", "hi = { F() }\n");
/// ```
#[repr(C)]
#[derive(Clone, Copy)]
pub struct FluentFile<'f> {
    pub name: &'f [u8],
    pub text: &'f [u8],
}

/// Whether the name and the text of each file are UTF-8.
pub(crate) fn are_files_utf8(files: &[FluentFile<'_>]) -> bool
    ensures utf8 { IsTrue result → AreUtf8Files files.now }
    ensures not_utf8 { result ≡ false → HoldsOtherFile files.now }
{
    for file in files {
        if !is_file_utf8(file) {
            return false;
        }
    }
    true
}

/// Whether the name and the text of a file are UTF-8.
fn is_file_utf8(file: &FluentFile<'_>) -> bool
    ensures utf8 { IsTrue result → IsUtf8File file.now }
    ensures not_utf8 { result ≡ false → ¬ IsUtf8File file.now }
{
    is_text(file.name) && is_text(file.text)
}

/// Whether bytes are UTF-8.
fn is_text(bytes: &[u8]) -> bool
    ensures utf8 { IsTrue result → IsUtf8 bytes.now }
    ensures not_utf8 { result ≡ false → ¬ IsUtf8 bytes.now }
{
    match from_utf8(bytes) {
        Ok(_) => true,
        Err(_) => false,
    }
}

/// The names and the texts of files, if each is UTF-8.
///
/// # Errors
/// [`Refusal::NotUtf8`] if one isn't, and [`Refusal::Memory`] if memory runs out; nothing is kept.
pub(crate) fn checked_files<'f>(
    alloc: Global,
    files: &[FluentFile<'f>],
) -> Result<Vec<File<'f>>, Refusal>
    ensures read { IfOk result (λ read. files_view read.items ≡ files_given files.now) }
    ensures not_utf8 { IfErr result (λ refusal. refusal ≡ NotUtf8 → HoldsOtherFile files.now) }
    ensures no_locale { IfErr result (λ refusal. refusal ≢ UnknownLocale) }
{
    let mut read = Vec::new(alloc);
    for file in files {
        read_file(file, &mut read)?;
    }
    Ok(read)
}

/// Puts a file after `read`, if its name and its text are UTF-8.
fn read_file<'f>(file: &FluentFile<'f>, read: &mut Vec<File<'f>>) -> Result<(), Refusal>
    ensures read { OnOk result (files_view read.new.items
        ≡ files_view read.old.items ++ files_given (file.now ∷ [])) }
    ensures not_utf8 { IfErr result (λ refusal. refusal ≡ NotUtf8 → ¬ IsUtf8File file.now) }
    ensures no_locale { IfErr result (λ refusal. refusal ≢ UnknownLocale) }
{
    let Ok(name) = from_utf8(file.name) else {
        return Err(Refusal::NotUtf8);
    };
    let Ok(source) = from_utf8(file.text) else {
        return Err(Refusal::NotUtf8);
    };
    match read.push(File { name, source }) {
        Ok(()) => Ok(()),
        Err(_) => Err(Refusal::Memory),
    }
}
