//! Sources that are read, one after the other.
ghost use Rattle.std.specs.Prelude.{◌≡◌, IfOk, OnOk, map, string_bytes};
ghost use Rattle.lint_findings.specs.View.{file_view};
ghost use Rattle.ftl_files.specs.Reading.{ReadsBytes, nothing_read, read_of_listed};
ghost use Rattle.ftl_files.specs.TidyView.{AreReadOn, IsAddedTo, ReadsOneOn, ReadsThroughOn, after_read_failure, after_refusal, after_source, listed_view, read_view};

use crate::depth::depth_report;
use crate::ends::{Failure, push_failure};
use crate::folder::Folder;
use crate::listed::{Listed, each_once, list_paths};
use crate::reported::Reported;
use crate::tidying::{read_source, why_of};
use lint_findings::File;
use std::alloc::{AllocError, Global};

/// A file that was read.
#[derive(Debug, Drop)]
pub struct SourceFile {
    /// Its name.
    pub name: String,
    /// The text that it holds.
    pub source: String,
}

/// Files that were read, and what is said of the others.
#[derive(Debug, Drop)]
pub struct ReadSources {
    /// The files that were read, in their order.
    pub files: Vec<SourceFile>,
    /// A line for each of the others: that could not be read, or nests too deep; and then for each
    /// path that stands for no file.
    pub errors: String,
    /// Which errors these lines report.
    pub reported: Reported,
}

impl ReadSources {
    /// The reading of no file.
    fn new(alloc: Global) -> ReadSources
        ensures { read_view result ≡ nothing_read }
    {
        ReadSources {
            files: Vec::new(alloc),
            errors: String::new(alloc),
            reported: Reported::none(),
        }
    }

    /// The reading of a source that is in no file, from its bytes: if they aren't UTF-8, or nest
    /// too deep, a line says so.
    ///
    /// # Errors
    /// [`AllocError`] if memory runs out; nothing is kept.
    pub fn of_bytes(alloc: Global, name: &str, bytes: Vec<u8>) -> Result<ReadSources, AllocError>
        ensures { IfOk result (λ read. ReadsBytes name.now bytes.items nothing_read (read_view read)) }
    {
        let mut read = ReadSources::new(alloc);
        add_bytes(alloc, name, bytes, &mut read)?;
        Ok(read)
    }

    /// The files that were read, for a report on them.
    ///
    /// # Errors
    /// [`AllocError`] if memory runs out; nothing is kept.
    pub fn files(&self, alloc: Global) -> Result<Vec<File<'_>>, AllocError>
        ensures { IfOk result (λ files. map file_view files.items ≡ (read_view self.now).files) }
    {
        let mut files = Vec::with_capacity(alloc, self.files.len())?;
        for file in &self.files {
            let name = file.name.as_str();
            let source = file.source.as_str();
            files.push(File { name, source })?;
        }
        Ok(files)
    }

    /// Adds a file that was read.
    fn add_source(&mut self, alloc: Global, name: &str, source: String) -> Result<(), AllocError>
        ensures { OnOk result (read_view self.new
            ≡ after_source (read_view self.old) name.now source) }
    {
        let name = String::from_str(alloc, name)?;
        self.files.push(SourceFile { name, source })?;
        Ok(())
    }

    /// Adds the line of a source that is refused.
    fn add_refusal(&mut self, name: &str, source: &str, report: &str) -> Result<(), AllocError>
        ensures { OnOk result (read_view self.new
            ≡ after_refusal (read_view self.old) name.now source.now report.now) }
    {
        self.reported.out_of_memory = true;
        self.errors.push_str(report)
    }

    /// Adds the line of a failure.
    fn add_failure(
        &mut self,
        name: &str,
        failure: Failure,
        why: Option<&'static str>,
    ) -> Result<(), AllocError>
        ensures { OnOk result (read_view self.new
            ≡ after_read_failure (read_view self.old) name.now failure why.entry) }
    {
        self.reported.failure = true;
        push_failure(&mut self.errors, name, failure, why)
    }

    /// Adds the lines of the paths that stand for no file.
    fn add_listed(&mut self, listed: &Listed) -> Result<(), AllocError>
        ensures { OnOk result (read_view self.new
            ≡ read_of_listed (read_view self.old) (listed_view listed.now)) }
    {
        self.reported.no_file = listed.no_file;
        self.errors.push_str(listed.errors.as_str())
    }
}

/// Reads the files that paths stand for, each once, one after the other. Of a file that can't be
/// read, or whose source nests too deep for that, a line says so, and of a path that stands for no
/// file. The files stay as they are.
///
/// # Errors
/// [`AllocError`] if memory runs out; nothing is kept.
pub fn read_sources<F: Folder>(
    folder: &mut F,
    alloc: Global,
    paths: &[&str],
) -> Result<ReadSources, AllocError>
    ensures read { IfOk result (AreReadOn F.Folder paths.now folder.old folder.new) }
    ensures kept { F.contents folder.new ≡ F.contents folder.old }
{
    let listed = list_paths(folder, alloc, paths)?;
    let names = each_once(alloc, &listed.names)?;
    let mut read = read_each(folder, alloc, &names)?;
    read.add_listed(&listed)?;
    Ok(read)
}

/// Reads files, one after the other. Of a file that can't be read, or whose source nests too deep
/// for that, a line says so. The files stay as they are.
///
/// # Errors
/// [`AllocError`] if memory runs out; nothing is kept.
pub fn read_each<F: Folder>(
    folder: &mut F,
    alloc: Global,
    names: &[&str],
) -> Result<ReadSources, AllocError>
    ensures read { IfOk result (ReadsThroughOn F.Folder names.now folder.old folder.new) }
    ensures kept { F.contents folder.new ≡ F.contents folder.old }
{
    let mut read = ReadSources::new(alloc);
    for name in names {
        read_one(folder, alloc, name, &mut read)?;
    }
    Ok(read)
}

/// Reads one file more.
fn read_one<F: Folder>(
    folder: &mut F,
    alloc: Global,
    name: &str,
    read: &mut ReadSources,
) -> Result<(), AllocError>
    ensures read { OnOk result (ReadsOneOn F.Folder name.now folder.old folder.new read.old read.new) }
    ensures kept { F.contents folder.new ≡ F.contents folder.old }
{
    match read_source(folder, alloc, name)? {
        Ok(source) => add_read(alloc, name, source, read),
        Err(failure) => read.add_failure(name, failure, why_of(folder, failure)),
    }
}

/// Adds a file that was read, or if its source nests too deep, the line that says so.
fn add_read(
    alloc: Global,
    name: &str,
    source: String,
    read: &mut ReadSources,
) -> Result<(), AllocError>
    ensures { OnOk result (IsAddedTo name.now (string_bytes source) read.old read.new) }
{
    match depth_report(alloc, name, source.as_str())? {
        Some(report) => read.add_refusal(name, source.as_str(), report.as_str()),
        None => read.add_source(alloc, name, source),
    }
}

/// Adds a source by its bytes, or the line that says that they aren't UTF-8.
fn add_bytes(
    alloc: Global,
    name: &str,
    bytes: Vec<u8>,
    read: &mut ReadSources,
) -> Result<(), AllocError>
    ensures { OnOk result (ReadsBytes name.now bytes.items (read_view read.old) (read_view read.new)) }
{
    match String::from_utf8(bytes) {
        Ok(source) => add_read(alloc, name, source, read),
        Err(_) => read.add_failure(name, Failure::NotUtf8, None),
    }
}
