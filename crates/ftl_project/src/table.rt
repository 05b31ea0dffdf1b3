//! The table of a project: what is counted in each language, and in all.
ghost use Rattle.std.specs.Prelude.{◌≡◌, IfOk};
ghost use Rattle.ftl_project.specs.Counted.{counts_in_all};
ghost use Rattle.ftl_project.specs.Rows.{EndInTotal};

use crate::language::{Linted, LintedFile};
use crate::reference::ReferenceFile;
use fluent_lint::Counts;
use fluent_project::Source;
use ftl_arguments::TableFormat;
use lint_report::push_masked;
use serde_json::Value;
use std::alloc::{AllocError, Global};

/// A line of the table: of a file, of a language or of all.
#[derive(Clone, Copy)]
pub struct Row<'s> {
    /// The tag of the language, unless it is the line of all.
    pub locale: Option<&'s str>,
    /// The file, if it is the line of one.
    pub file: Option<RowFile<'s>>,
    pub counts: Counts,
}

/// A file with what it is translated from.
#[derive(Clone, Copy)]
pub struct RowFile<'s> {
    pub name: &'s str,
    /// What it is translated from. An empty text if nothing is asked for, and nothing if the
    /// reference has no such file.
    pub reference: Option<&'s str>,
}

/// The lines of a project: of each language, after those of its files if these are asked for, and
/// then of all.
///
/// # Errors
/// [`AllocError`] if memory runs out; nothing is kept.
pub fn rows_of<'s>(
    alloc: Global,
    with_files: bool,
    references: &'s [ReferenceFile<'_>],
    languages: &'s [Linted<'s>],
) -> Result<Vec<Row<'s>>, AllocError>
    ensures total { IfOk result (λ rows. EndInTotal (counts_in_all languages.now) rows.items) }
{
    let mut rows = rows_of_languages(alloc, with_files, references, languages)?;
    rows.push(Row {
        locale: None,
        file: None,
        counts: counts_in_all(languages)?,
    })?;
    Ok(rows)
}

/// The lines of these languages.
fn rows_of_languages<'s>(
    alloc: Global,
    with_files: bool,
    references: &'s [ReferenceFile<'_>],
    languages: &'s [Linted<'s>],
) -> Result<Vec<Row<'s>>, AllocError> {
    let mut rows = Vec::new(alloc);
    for language in languages {
        let locale = Some(language.locale);
        if with_files {
            for file in &language.files {
                rows.push(row_of_file(locale, references, file))?;
            }
        }
        rows.push(Row {
            locale,
            file: None,
            counts: language.counts,
        })?;
    }
    Ok(rows)
}

/// What is counted in all languages.
fn counts_in_all(languages: &[Linted<'_>]) -> Result<Counts, AllocError>
    ensures { IfOk result (λ counts. counts ≡ counts_in_all languages.now) }
{
    let mut counts = Counts::none();
    for language in languages {
        counts = counts.plus(language.counts)?;
    }
    Ok(counts)
}

/// The line of a file.
fn row_of_file<'s>(
    locale: Option<&'s str>,
    references: &'s [ReferenceFile<'_>],
    file: &'s LintedFile<'s>,
) -> Row<'s> {
    let reference = match file.planned.source {
        Source::File(number) => references.get(number).map(|file| file.name.as_str()),
        Source::Lacking => None,
        Source::Unasked => Some(""),
    };
    Row {
        locale,
        file: Some(RowFile {
            name: file.planned.name.as_str(),
            reference,
        }),
        counts: file.counts,
    }
}

/// The table of these lines.
///
/// # Errors
/// [`AllocError`] if memory runs out; nothing is kept.
pub fn table(alloc: Global, format: TableFormat, rows: &[Row<'_>]) -> Result<String, AllocError> {
    let mut text = String::new(alloc);
    match format {
        TableFormat::Text => push_columns(&mut text, alloc, rows)?,
        TableFormat::Json => {
            for row in rows {
                push_json(&mut text, alloc, row)?;
            }
        }
        TableFormat::Markdown => push_markdown(&mut text, rows)?,
    }
    Ok(text)
}

/// The head of the first column.
const LOCALE: &str = "locale";

/// The heads of the columns of counts.
const HEADS: [&str; 7] = [
    "messages",
    "translated",
    "missing",
    "obsolete",
    "untranslated",
    "errors",
    "warnings",
];

/// The head of the last column.
const PERCENT: &str = "percent";

/// Appends the columns for people. The first is as wide as its widest name.
fn push_columns(text: &mut String, alloc: Global, rows: &[Row<'_>]) -> Result<(), AllocError> {
    let names = names_of(alloc, rows)?;
    let width = width_of(&names);
    push_padded(text, LOCALE, width)?;
    for head in &HEADS {
        write!(text, "  {head}")?;
    }
    writeln!(text, "  {PERCENT}")?;
    for (name, row) in names.iter().zip(rows) {
        push_padded(text, name.as_str(), width)?;
        push_numbers(text, row.counts)?;
    }
    Ok(())
}

/// The names of lines, as they are shown.
fn names_of(alloc: Global, rows: &[Row<'_>]) -> Result<Vec<String>, AllocError> {
    let mut names = Vec::with_capacity(alloc, rows.len())?;
    for row in rows {
        names.push(name_of(alloc, row)?)?;
    }
    Ok(names)
}

/// How wide the first column is.
fn width_of(names: &[String]) -> usize {
    let mut width = LOCALE.len();
    for name in names {
        width = width.max(name.as_str().chars().count());
    }
    width
}

/// The name of a line, as it is shown.
fn name_of(alloc: Global, row: &Row<'_>) -> Result<String, AllocError> {
    let mut name = String::new(alloc);
    match row.file {
        Some(file) => {
            name.push_str("  ")?;
            push_masked(&mut name, file.name)?;
        }
        None => push_masked(&mut name, row.locale.unwrap_or("total"))?,
    }
    Ok(name)
}

/// Appends a text, and blanks up to a width.
fn push_padded(text: &mut String, name: &str, width: usize) -> Result<(), AllocError> {
    text.push_str(name)?;
    for _ in name.chars().count()..width {
        text.push(' ')?;
    }
    Ok(())
}

/// Appends the counts of a line, each below its head.
fn push_numbers(text: &mut String, counts: Counts) -> Result<(), AllocError> {
    for (head, number) in HEADS.iter().zip(&numbers_of(counts)) {
        let width = head.len();
        write!(text, "  {number:>width$}")?;
    }
    let (whole, tenth) = percent(counts);
    writeln!(text, "{whole:>7}.{tenth}")
}

/// The counts of a line, in the order of its columns.
fn numbers_of(counts: Counts) -> [usize; 7] {
    [
        counts.messages,
        counts.translated,
        counts.missing,
        counts.obsolete,
        counts.untranslated,
        counts.errors,
        counts.warnings,
    ]
}

/// How many of a hundred messages are translated, rounded down, and tenths of that.
fn percent(counts: Counts) -> (u128, u128) {
    let per_mille = counts.per_mille();
    (per_mille / 10, per_mille % 10)
}

/// Appends a line of JSON.
fn push_json(text: &mut String, alloc: Global, row: &Row<'_>) -> Result<(), AllocError> {
    let locale = quoted(alloc, row.locale)?;
    write!(text, "{{\"locale\":{locale}")?;
    if let Some(file) = row.file {
        let name = quoted(alloc, Some(file.name))?;
        let reference = quoted(alloc, file.reference)?;
        write!(text, ",\"file\":{name},\"reference\":{reference}")?;
    }
    for (head, number) in HEADS.iter().zip(&numbers_of(row.counts)) {
        write!(text, ",\"{head}\":{number}")?;
    }
    let (whole, tenth) = percent(row.counts);
    writeln!(text, ",\"percent\":{whole}.{tenth}}}")
}

/// A text in JSON, or null.
fn quoted(alloc: Global, text: Option<&str>) -> Result<String, AllocError> {
    match text {
        Some(text) => Value::try_from_str(alloc, text)?.to_string(alloc),
        None => String::from_str(alloc, "null"),
    }
}

/// Appends a table in Markdown.
fn push_markdown(text: &mut String, rows: &[Row<'_>]) -> Result<(), AllocError> {
    write!(text, "| {LOCALE} ")?;
    for head in &HEADS {
        write!(text, "| {head} ")?;
    }
    write!(text, "| {PERCENT} |\n|---|")?;
    for _ in &HEADS {
        text.push_str("---:|")?;
    }
    text.push_str("---:|\n")?;
    for row in rows {
        text.push_str("| ")?;
        match row.file {
            Some(file) => push_cell(text, file.name)?,
            None => push_cell(text, row.locale.unwrap_or("total"))?,
        }
        for number in &numbers_of(row.counts) {
            write!(text, " | {number}")?;
        }
        let (whole, tenth) = percent(row.counts);
        writeln!(text, " | {whole}.{tenth} |")?;
    }
    Ok(())
}

/// Appends the text of a cell, in which a bar has a backslash before it.
fn push_cell(text: &mut String, cell: &str) -> Result<(), AllocError> {
    for (n, piece) in cell.split('|').enumerate() {
        if n > 0 {
            text.push_str("\\|")?;
        }
        push_masked(text, piece)?;
    }
    Ok(())
}
