//! Reports of findings.
#![tactic(auto)]

ghost use Rattle.std.specs.Prelude.{◌≡◌, IfOk, OnOk, map, string_bytes};
ghost use Rattle.fluent_lint.specs.LintView.{ending_on_findings, report_on_files, report_on_findings, report_view, text_on_findings};
ghost use Rattle.fluent_lint.specs.Reading.{IsRead};
ghost use Rattle.fluent_lint.specs.Reports.{IsReportBy, IsReportOf, IsReportOn, ending};
ghost use Rattle.lint_files.specs.RulesView.{rules_view};
ghost use Rattle.lint_findings.specs.View.{findings_view};
ghost use Rattle.lint_findings.specs.Report.{has_failed as fails};
ghost use Rattle.lint_report.specs.Changes.{Appends};
ghost use Rattle.lint_report.specs.ReportView.{summary_view};

use crate::counts::{entry_count, shown_counts};
use crate::findings::all_findings;
use crate::known::Known;
use crate::looked::Looked;
use crate::read::{ReadFiles, read_files};
use crate::reported::keep_reported;
use crate::terms::terms_of;
use crate::tiles::tiles_of_files;
use crate::totals::{push_taken, push_totals};
use fluent_parser::StackBudget;
use fluent_plurals::LanguagePlurals;
use lint_entries::Catalog;
use lint_files::Rules;
use lint_findings::{File, FileFindings};
use lint_flaws::CommonCategories;
use lint_nodes::EndlessPatterns;
use lint_report::{Format, Summary, has_failed, report};
use std::alloc::{AllocError, Global};

/// What is known of the program and of the language.
#[derive(Clone, Copy)]
pub struct Options<'a> {
    /// The functions that the program adds.
    pub functions: &'a [&'a str],
    /// The plural rules of the language, if missing plural categories are to be found.
    pub plurals: Option<LanguagePlurals>,
}

/// What is written of findings, and which of them fail.
#[derive(Clone, Copy)]
pub struct Output<'a> {
    pub format: Format,
    /// The codes of findings that are left out. The counts are of these, too.
    pub ignored: &'a [&'a str],
    /// Whether notes are written.
    pub notes: bool,
    /// Whether text has the counts of each file, also of one of which no message is missing.
    pub counts: bool,
    /// Whether warnings fail.
    pub strict: bool,
}

/// A report, and whether the status is that of a failure.
#[derive(Drop)]
pub struct Report {
    pub text: String,
    pub has_failed: bool,
}

/// The report of a catalog: the findings of its files that no comment leaves out and whose code
/// isn't ignored, and whether one of them fails. With files of a reference, which it is translated
/// from, also the messages that it lacks and the counts of files, which are of ignored findings,
/// too; the functions that the reference calls are known then.
///
/// # Errors
/// [`AllocError`] if memory runs out, or a file nests so deep that reading it would take more of
/// the machine's stack than this budget; nothing is kept.
pub fn report_files<'s>(
    alloc: Global,
    options: &Options,
    output: Output<'_>,
    references: &[File<'s>],
    files: &[File<'s>],
    stack: StackBudget,
) -> Result<Report, AllocError>
    ensures { IfOk result (λ made. report_view made
        ≡ report_on_files options.now output.entry references.now files.now) }
{
    let references = read_files(alloc, references, stack)?;
    let files = read_files(alloc, files, stack)?;
    let report = report_read_files(alloc, options, output, &references, &files)?;
    Ok(report)
}

/// The report of what is found in this many files, without the findings whose code is ignored.
///
/// # Errors
/// [`AllocError`] if memory runs out.
pub fn report_found(
    alloc: Global,
    output: Output<'_>,
    files: usize,
    found: &mut [FileFindings],
) -> Result<Report, AllocError>
    ensures { IfOk result (λ made. report_view made
        ≡ report_on_findings output.entry files found.old) }
{
    keep_reported(found, output.ignored);
    report_kept(alloc, output, files, found)
}

/// The report of these findings of this many files.
fn report_kept(
    alloc: Global,
    output: Output<'_>,
    files: usize,
    found: &[FileFindings],
) -> Result<Report, AllocError>
    ensures text { IfOk result (λ made. string_bytes made.text
        ≡ text_on_findings output.entry files found.now) }
    ensures failed { IfOk result (λ made. made.has_failed
        ≡ fails output.entry.strict (findings_view found.now)) }
{
    let mut text = report(alloc, output.format, output.notes, found, &[])?;
    push_found_ending(&mut text, output, files, found)?;
    Ok(Report {
        text,
        has_failed: has_failed(output.strict, found),
    })
}

/// Appends how many findings there are, to text.
fn push_found_ending(
    text: &mut String,
    output: Output<'_>,
    files: usize,
    found: &[FileFindings],
) -> Result<(), AllocError>
    ensures { OnOk result
        (Appends text.old text.new (ending_on_findings output.entry files found.now)) }
{
    match output.format {
        Format::Text | Format::Terminal => push_totals(text, output.notes, files, found),
        Format::Line | Format::Json | Format::Github | Format::Sarif | Format::Gitlab => Ok(()),
    }
}

/// The report of files and of those of a reference, by what was read of them.
fn report_read_files<'r, 's: 'r>(
    alloc: Global,
    options: &Options,
    output: Output<'_>,
    references: &'r ReadFiles<'_, 's>,
    files: &'r ReadFiles<'_, 's>,
) -> Result<Report, AllocError>
    requires references { IsRead references.now }
    requires files { IsRead files.now }
    ensures { IfOk result (IsReportOn options.now output.entry references.now.files.now files.now.files.now) }
{
    let known = Known::of(alloc, options, references, files)?;
    let endless = EndlessPatterns::new(alloc, &known.ids, &files.trees)?;
    let terms = terms_of(alloc, files)?;
    let common = CommonCategories::of(options.plurals);
    let catalog = Catalog {
        endless: &endless,
        reference: &known.reference,
        plurals: options.plurals,
        common,
    };
    let rules = Rules {
        functions: &known.functions,
        catalog,
        terms: &terms,
        reference: known.comparison(options.plurals, references),
    };
    let looked = Looked::in_catalog(options.plurals, references.files);
    report_by_rules(alloc, output, &rules, looked, references, files)
}

/// The report of files and of those of a reference, by the rules for findings.
fn report_by_rules<'r, 's: 'r>(
    alloc: Global,
    output: Output<'_>,
    rules: &Rules<'_, '_, 's>,
    looked: Looked,
    references: &'r ReadFiles<'_, 's>,
    files: &'r ReadFiles<'_, 's>,
) -> Result<Report, AllocError>
    requires references { IsRead references.now }
    requires files { IsRead files.now }
    ensures { IfOk result (IsReportBy (rules_view rules.now) looked references.now files.now output.entry) }
{
    let count = files.files.len();
    let references = tiles_of_files(alloc, references)?;
    let files = tiles_of_files(alloc, files)?;
    let mut found = all_findings(alloc, rules, looked, &references, &files)?;
    let counts = shown_counts(alloc, output, &references, &files, &found)?;
    keep_reported(&mut found, output.ignored);
    let entries = entry_count(&files)?;
    report_findings(alloc, output, count, entries, &found, &counts)
}

/// The report of these findings of this many files and entries, with these counts.
fn report_findings(
    alloc: Global,
    output: Output<'_>,
    files: usize,
    entries: usize,
    found: &[FileFindings],
    counts: &[Summary],
) -> Result<Report, AllocError>
    ensures { IfOk result
        (IsReportOf (findings_view found.now) (map summary_view counts.now) files entries output.entry) }
{
    let mut text = report(alloc, output.format, output.notes, found, counts)?;
    push_ending(&mut text, output, files, entries, found)?;
    Ok(Report {
        text,
        has_failed: has_failed(output.strict, found),
    })
}

/// Appends what follows the counts.
fn push_ending(
    text: &mut String,
    output: Output<'_>,
    files: usize,
    entries: usize,
    found: &[FileFindings],
) -> Result<(), AllocError>
    ensures { OnOk result
        (Appends text.old text.new (ending output.entry files entries (findings_view found.now))) }
{
    match output.format {
        Format::Text | Format::Terminal => {
            push_totals(text, output.notes, files, found)?;
            push_taken(text, entries, found)
        }
        Format::Line | Format::Json | Format::Github | Format::Sarif | Format::Gitlab => Ok(()),
    }
}
