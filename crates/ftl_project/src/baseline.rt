//! Findings of a project that are known: those of a baseline.
//!
//! A baseline has a line of JSON for each finding that there was, without its place: so a finding
//! stays known if its line moves. Two findings of an entry that say the same are one.
ghost use Rattle.std.specs.Prelude.{◌≡◌, [], ◌∷◌, IfOk, OnErr, OnOk, option_copied, string_bytes};
ghost use Rattle.fluent_grammar.specs.Words.{is_among};
ghost use Rattle.ftl_files.specs.Files.{IsReplaced};
ghost use Rattle.lint_findings.specs.View.{file_findings_view, findings_view};
ghost use Rattle.lint_report.specs.View.{in_file};
ghost use Rattle.ftl_project.specs.Baselines.{AddsNew, LeavesOut, LeavesOutIn, LeavesOutOf, known_line, line_with, lines_of, text_of_lines, with_shown};
ghost use Rattle.ftl_project.specs.Reports.{all_found, groups_view};

use crate::json::{is_shown, put_optional, put_text};
use crate::loading::{bytes_of, text_of, unreadable};
use crate::report::Group;
use crate::wrong::ProjectError;
use ftl_files::{FileError, Folder, ReplaceError};
use lint_findings::{File, FileFindings, Finding};
use serde_json::{Map, Value};
use std::alloc::{AllocError, Global};
use std::collections::BTreeSet;

/// The lines of findings, in the order of their bytes, each once.
#[derive(Drop)]
pub struct Baseline {
    lines: BTreeSet<String>,
}

/// Reads the baseline of a file. The files stay as they are.
///
/// # Errors
/// [`ProjectError`]: the first line that is wrong, or that memory ran out.
pub fn read_baseline<F: Folder>(
    folder: &mut F,
    alloc: Global,
    name: &str,
) -> Result<Baseline, ProjectError>
    ensures kept { F.contents folder.new ≡ F.contents folder.old }
{
    match bytes_of(folder, alloc, name)? {
        Some(bytes) => {
            let text = text_of(alloc, name, bytes)?;
            Baseline::of_text(alloc, name, text.as_str())
        }
        None => Err(ProjectError::of(unreadable(alloc, name, folder.why()))),
    }
}

/// Writes a baseline to a file, which is made if it isn't there. No other file changes.
///
/// # Errors
/// [`ProjectError`]: why it can't be written, or that memory ran out. The file is as it was.
pub fn write_baseline<F: Folder>(
    folder: &mut F,
    alloc: Global,
    name: &str,
    text: &str,
) -> Result<(), ProjectError>
    ensures written { OnOk result
        (IsReplaced (F.contents folder.old) (F.contents folder.new) name.now text.now) }
    ensures kept { OnErr result (F.contents folder.new ≡ F.contents folder.old) }
{
    let old = match folder.read(alloc, name) {
        Ok(bytes) => bytes,
        Err(FileError::Memory) => return Err(ProjectError::Memory),
        Err(FileError::Unreadable) => Vec::new(alloc),
    };
    match folder.replace(alloc, name, &old, text.as_bytes()) {
        Ok(()) => Ok(()),
        Err(ReplaceError::Memory) => Err(ProjectError::Memory),
        Err(ReplaceError::Unwritable) => {
            Err(ProjectError::of(unwritable(alloc, name, folder.why())))
        }
    }
}

/// That the file of this name can't be written, and why, if that is known.
fn unwritable(alloc: Global, name: &str, why: Option<&'static str>) -> Result<String, AllocError> {
    match why {
        Some(why) => format!(in alloc; "{name}: cannot write: {why}"),
        None => format!(in alloc; "{name}: cannot write"),
    }
}

impl Baseline {
    /// No lines.
    fn new(alloc: Global) -> Self
        ensures { lines_of result ≡ [] }
    {
        Baseline {
            lines: BTreeSet::new(alloc),
        }
    }

    /// The baseline of the text of a file.
    fn of_text(alloc: Global, name: &str, text: &str) -> Result<Self, ProjectError> {
        let mut baseline = Baseline::new(alloc);
        for (index, line) in text.lines().enumerate() {
            match line_read(alloc, line)? {
                Some(line) => {
                    baseline.lines.insert(line)?;
                }
                None => return Err(ProjectError::at(alloc, name, index + 1, "not a finding")),
            }
        }
        Ok(baseline)
    }

    /// The baseline of what is reported of these groups.
    ///
    /// # Errors
    /// [`AllocError`] if memory runs out; nothing is kept.
    pub fn of_groups(alloc: Global, notes: bool, groups: &[Group<'_>]) -> Result<Self, AllocError>
        ensures { IfOk result (λ made. lines_of made
            ≡ with_shown notes [] (all_found (groups_view groups.now))) }
    {
        let mut baseline = Baseline::new(alloc);
        for group in groups {
            baseline.add_files(alloc, notes, &group.found)?;
        }
        Ok(baseline)
    }

    /// Adds the lines of what is reported of files.
    fn add_files(
        &mut self,
        alloc: Global,
        notes: bool,
        found: &[FileFindings<'_>],
    ) -> Result<(), AllocError>
        ensures { OnOk result (lines_of self.new
            ≡ with_shown notes (lines_of self.old) (findings_view found.now)) }
    {
        for file in found {
            self.add_file(alloc, notes, file)?;
        }
        Ok(())
    }

    /// Adds the lines of what is reported of a file.
    fn add_file(
        &mut self,
        alloc: Global,
        notes: bool,
        found: &FileFindings<'_>,
    ) -> Result<(), AllocError>
        ensures { OnOk result (lines_of self.new
            ≡ with_shown notes (lines_of self.old) (file_findings_view found.now)) }
    {
        for finding in &found.findings {
            self.add(alloc, notes, &found.file, finding)?;
        }
        Ok(())
    }

    /// Adds the line of a finding of a file, unless it is a note and notes are left out.
    fn add(
        &mut self,
        alloc: Global,
        notes: bool,
        file: &File<'_>,
        finding: &Finding,
    ) -> Result<(), AllocError>
        ensures { OnOk result (lines_of self.new
            ≡ with_shown notes (lines_of self.old) (in_file file.now finding.now ∷ [])) }
    {
        if is_shown(finding.severity, notes) {
            self.lines.insert(line_of(alloc, file, finding)?)?;
        }
        Ok(())
    }

    /// Its text: a line after the other.
    ///
    /// # Errors
    /// [`AllocError`] if memory runs out; nothing is kept.
    pub fn text(&self, alloc: Global) -> Result<String, AllocError>
        ensures { IfOk result (λ text. string_bytes text ≡ text_of_lines (lines_of self.now)) }
    {
        let mut text = String::new(alloc);
        for line in &self.lines {
            text.push_str(line.as_str())?;
            text.push_str("\n")?;
        }
        Ok(text)
    }

    /// The findings of files that aren't known.
    ///
    /// # Errors
    /// [`AllocError`] if memory runs out; nothing is kept.
    pub fn leave_out<'s>(
        &self,
        alloc: Global,
        found: Vec<FileFindings<'s>>,
    ) -> Result<Vec<FileFindings<'s>>, AllocError>
        ensures { IfOk result (LeavesOut self.now found.entry.items) }
    {
        let mut files = Vec::with_capacity(alloc, found.len())?;
        for file in found {
            files.push(self.new_in(alloc, file)?)?;
        }
        Ok(files)
    }

    /// A file with those of its findings that aren't known.
    fn new_in<'s>(
        &self,
        alloc: Global,
        found: FileFindings<'s>,
    ) -> Result<FileFindings<'s>, AllocError>
        ensures { IfOk result (LeavesOutIn self.now found.entry) }
    {
        let FileFindings { file, findings } = found;
        let findings = self.new_among(alloc, &file, findings)?;
        Ok(FileFindings { file, findings })
    }

    /// Those of these findings of a file that aren't known.
    fn new_among(
        &self,
        alloc: Global,
        file: &File<'_>,
        findings: Vec<Finding>,
    ) -> Result<Vec<Finding>, AllocError>
        ensures { IfOk result (LeavesOutOf self.now file.now findings.items) }
    {
        let mut left = Vec::new(alloc);
        for finding in findings {
            self.push_new(alloc, file, finding, &mut left)?;
        }
        Ok(left)
    }

    /// Appends a finding of a file, unless it is known.
    fn push_new(
        &self,
        alloc: Global,
        file: &File<'_>,
        finding: Finding,
        left: &mut Vec<Finding>,
    ) -> Result<(), AllocError>
        ensures { OnOk result (AddsNew self.now file.now finding left.old left.new) }
    {
        let line = line_of(alloc, file, &finding)?;
        if !self.has(line.as_str()) {
            left.push(finding)?;
        }
        Ok(())
    }

    /// Whether it has a line.
    fn has(&self, line: &str) -> bool
        ensures { result ≡ is_among line.now (lines_of self.now) }
    {
        self.lines.contains(line)
    }
}

/// The line of a finding of a file.
fn line_of(alloc: Global, file: &File<'_>, finding: &Finding) -> Result<String, AllocError>
    ensures { IfOk result (λ line. string_bytes line ≡ known_line (in_file file.now finding.now)) }
{
    let entry = finding.entry.as_ref().map(|entry| entry.as_str());
    line_with(alloc, finding.code, entry, file.name, finding.text.as_str())
}

/// The line that a line of a file is, whatever is written between its keys. `None` if it is none.
fn line_read(alloc: Global, line: &str) -> Result<Option<String>, AllocError> {
    match Value::from_str(alloc, line) {
        Ok(value) => line_of_value(alloc, &value),
        Err(error) if error.is_memory() => Err(AllocError),
        Err(_) => Ok(None),
    }
}

/// The line of a value, if it is that of a finding.
fn line_of_value(alloc: Global, value: &Value) -> Result<Option<String>, AllocError> {
    let entry = match value.get("entry") {
        Some(Value::Null) => None,
        Some(Value::String(entry)) => Some(entry.as_str()),
        _ => return Ok(None),
    };
    match (
        text_at(value, "code"),
        text_at(value, "file"),
        text_at(value, "text"),
    ) {
        (Some(code), Some(file), Some(text)) => {
            Ok(Some(line_with(alloc, code, entry, file, text)?))
        }
        _ => Ok(None),
    }
}

/// The text at a key, if there is one.
fn text_at<'v>(value: &'v Value, key: &str) -> Option<&'v str> {
    value.get(key)?.as_str()
}

/// The line of a finding: an object, whose keys are in the order of their bytes.
fn line_with(
    alloc: Global,
    code: &str,
    entry: Option<&str>,
    file: &str,
    text: &str,
) -> Result<String, AllocError>
    ensures { IfOk result (λ line. string_bytes line
        ≡ line_with code.now (option_copied entry.entry) file.now text.now) }
{
    let mut members = Map::new(alloc);
    put_text(&mut members, alloc, "code", code)?;
    put_optional(&mut members, alloc, "entry", entry)?;
    put_text(&mut members, alloc, "file", file)?;
    put_text(&mut members, alloc, "text", text)?;
    Value::Object(members).to_string(alloc)
}
