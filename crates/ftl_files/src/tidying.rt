//! Tidying files in place.
ghost use Rattle.std.specs.Prelude.{◌≡◌, false, IfErr, IfOk, IfSome, OnErr};
ghost use Rattle.fluent_tidy.specs.Reasons.{IsReason};
ghost use Rattle.ftl_files.specs.TidyView.{AreTidiedFirstOn, AreTidiedOn, EndsOnFolder, GoesThroughFirstOn, GoesThroughOn, HoldsUntidy, IsEndOf, IsReadOn, end_view};
ghost use Rattle.ftl_files.specs.Tidying.{IsSourceEnd};

use crate::ends::{Failure, FileEnd};
use crate::folder::{FileError, Folder, ReplaceError};
use crate::listed::{each_once, list_paths};
use crate::refusals::refused_source;
use crate::tidied::TidiedFiles;
use fluent_tidy::{TidyError, tidy};
use std::alloc::{AllocError, Global};

/// Tidies the files that paths stand for, each once, one after the other, in place; with `check` it
/// changes none. A file that can't be tidied is reported, and left as it is, and a path that stands
/// for no file is reported.
///
/// # Errors
/// [`AllocError`] if memory runs out: the first of these files were tidied, and no other changed.
pub fn tidy_files<F: Folder>(
    folder: &mut F,
    alloc: Global,
    check: bool,
    paths: &[&str],
) -> Result<TidiedFiles, AllocError>
    ensures tidied { IfOk result (AreTidiedOn F.Folder check paths.now folder.old folder.new) }
    ensures stopped { OnErr result (AreTidiedFirstOn F.Folder check paths.now folder.old folder.new) }
{
    let listed = list_paths(folder, alloc, paths)?;
    let names = each_once(alloc, &listed.names)?;
    let mut tidied = tidy_all(folder, alloc, check, &names)?;
    tidied.add_listed(&listed)?;
    Ok(tidied)
}

/// Tidies files, one after the other.
fn tidy_all<F: Folder>(
    folder: &mut F,
    alloc: Global,
    check: bool,
    names: &[&str],
) -> Result<TidiedFiles, AllocError>
    ensures tidied { IfOk result (GoesThroughOn F.Folder check names.now folder.old folder.new) }
    ensures stopped { OnErr result (GoesThroughFirstOn F.Folder check names.now folder.old folder.new) }
{
    let mut tidied = TidiedFiles::new(alloc);
    for name in names {
        let end = tidy_file(folder, alloc, check, name)?;
        tidied.add(check, name, &end)?;
    }
    Ok(tidied)
}

/// Tidies a file.
///
/// # Errors
/// [`AllocError`] if memory runs out; the file is as it was.
pub fn tidy_file<F: Folder>(
    folder: &mut F,
    alloc: Global,
    check: bool,
    name: &str,
) -> Result<FileEnd, AllocError>
    ensures ended { IfOk result (EndsOnFolder F.Folder check name.now folder.old folder.new) }
    ensures kept { OnErr result (F.contents folder.new ≡ F.contents folder.old) }
{
    match read_source(folder, alloc, name)? {
        Ok(source) => tidy_read(folder, alloc, check, name, source.as_str()),
        Err(failure) => Ok(FileEnd::Failed(failure, why_of(folder, failure))),
    }
}

/// Tidies a file whose source was read, and replaces the file unless it is only checked. If memory
/// runs out, the file stays.
fn tidy_read<F: Folder>(
    folder: &mut F,
    alloc: Global,
    check: bool,
    name: &str,
    source: &str,
) -> Result<FileEnd, AllocError>
    requires read { IfSome (F.contents folder.old name.now) (λ held. source.now ≡ held) }
    ensures ended { IfOk result (EndsOnFolder F.Folder check name.now folder.old folder.new) }
    ensures kept { OnErr result (F.contents folder.new ≡ F.contents folder.old) }
{
    match tidy_source(alloc, name, source)? {
        FileEnd::Changed(text) if !check => replace(folder, alloc, name, source, text),
        end => Ok(end),
    }
}

/// Reads a source; why it can't be read, if it can't. The files stay as they are.
pub(crate) fn read_source<F: Folder>(
    folder: &mut F,
    alloc: Global,
    name: &str,
) -> Result<Result<String, Failure>, AllocError>
    ensures read { IfOk result (IsReadOn F.Folder name.now folder.old folder.new) }
    ensures kept { F.contents folder.new ≡ F.contents folder.old }
{
    let bytes = match folder.read(alloc, name) {
        Ok(bytes) => bytes,
        Err(FileError::Memory) => return Err(AllocError),
        Err(FileError::Unreadable) => return Ok(Err(Failure::Unreadable)),
    };
    match String::from_utf8(bytes) {
        Ok(source) => Ok(Ok(source)),
        Err(_) => Ok(Err(Failure::NotUtf8)),
    }
}

/// Why a file could not be read, if that is known.
pub(crate) fn why_of<F: Folder>(folder: &F, failure: Failure) -> Option<&'static str> {
    match failure {
        Failure::Unreadable => folder.why(),
        _ => None,
    }
}

/// The outcome of tidying a source, whose file has this name.
///
/// # Errors
/// [`AllocError`] if memory runs out; nothing is kept.
pub fn tidy_source(alloc: Global, name: &str, source: &str) -> Result<FileEnd, AllocError>
    ensures { IfOk result (λ end. IsSourceEnd name.now source.now (end_view end)) }
{
    source_end(alloc, name, source, tidy(alloc, source))
}

/// The outcome for a source by its tidy text, or by the reason why it has none.
fn source_end(
    alloc: Global,
    name: &str,
    source: &str,
    tidied: Result<String, TidyError>,
) -> Result<FileEnd, AllocError>
    requires reason { IfErr tidied (IsReason source.now) }
    ensures { IfOk result (λ end. IsEndOf name.now source.now tidied (end_view end)) }
{
    match tidied {
        Ok(text) if text.as_str() == source => Ok(FileEnd::Kept),
        Ok(text) => Ok(FileEnd::Changed(text)),
        Err(reason) => refused_source(alloc, name, source, reason),
    }
}

/// Replaces what a file holds by its tidy text.
fn replace<F: Folder>(
    folder: &mut F,
    alloc: Global,
    name: &str,
    source: &str,
    text: String,
) -> Result<FileEnd, AllocError>
    requires source { HoldsUntidy F.Folder name.now folder.old text }
    ensures ended { IfOk result (EndsOnFolder F.Folder false name.now folder.old folder.new) }
    ensures kept { OnErr result (F.contents folder.new ≡ F.contents folder.old) }
{
    match folder.replace(alloc, name, source.as_bytes(), text.as_bytes()) {
        Ok(()) => Ok(FileEnd::Changed(text)),
        Err(ReplaceError::Memory) => Err(AllocError),
        Err(ReplaceError::Unwritable) => { Ok(FileEnd::Failed(Failure::Unwritable, folder.why())) }
    }
}
