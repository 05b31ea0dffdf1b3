//! The report on a project.
ghost use Rattle.std.specs.Prelude.{◌≡◌, IfOk, OnOk, string_bytes};
ghost use Rattle.std.specs.List.{flat_map, list_any};
ghost use Rattle.lint_findings.specs.View.{findings_view};
ghost use Rattle.lint_report.specs.Changes.{Appends};
ghost use Rattle.fluent_lint.specs.Reports.{ignored_by};
ghost use Rattle.ftl_project.specs.Left.{AreNew, IsNew, IsReportLeft, IsWritten, kept_by, kept_group};
ghost use Rattle.ftl_project.specs.Reports.{all_found, group_fails, group_lines, group_name, group_view, groups_view, has_failure, text_by, text_of_group};

use crate::baseline::Baseline;
use crate::json::push_json_findings;
use fluent_lint::{Output, keep_reported, push_totals};
use lint_findings::FileFindings;
use lint_report::{Format, has_failed, push_masked, report};
use std::alloc::{AllocError, Global};

/// What is reported of the reference or of a language.
#[derive(Drop)]
pub struct Group<'s> {
    /// The tag of the language, if it is one.
    pub locale: Option<&'s str>,
    /// The findings that are reported.
    pub found: Vec<FileFindings<'s>>,
    /// How many files there are.
    pub files: usize,
}

/// The report on a project, and whether a language fails.
#[derive(Drop)]
pub struct ProjectReport {
    pub text: String,
    pub has_failed: bool,
    /// The text of the baseline that has what is left out, if one is written.
    pub baseline: Option<String>,
}

/// Which findings aren't reported.
#[derive(Clone, Copy)]
pub enum Known<'c> {
    /// None is known.
    Nothing,
    /// Those of a baseline are known.
    Baseline(&'c Baseline),
    /// All are, and a baseline of them is written.
    All,
}

/// The report on these groups, without what is known. Those of languages fail if they have an
/// error, or with `output.strict` a warning.
///
/// # Errors
/// [`AllocError`] if memory runs out; nothing is kept.
pub fn report_groups(
    alloc: Global,
    output: Output<'_>,
    known: Known<'_>,
    groups: Vec<Group<'_>>,
) -> Result<ProjectReport, AllocError>
    ensures report { IfOk result (IsReportLeft output.entry known.entry groups.entry.items) }
    ensures baseline { IfOk result (IsWritten output.entry known.entry groups.entry.items) }
{
    let mut groups = groups;
    keep_in_groups(&mut groups, output);
    match known {
        Known::Nothing => report_kept(alloc, output, groups, None),
        Known::Baseline(baseline) => {
            let groups = new_groups(alloc, baseline, groups)?;
            report_kept(alloc, output, groups, None)
        }
        Known::All => {
            let baseline = Baseline::of_groups(alloc, output.notes, &groups)?;
            let text = baseline.text(alloc)?;
            let groups = new_groups(alloc, &baseline, groups)?;
            report_kept(alloc, output, groups, Some(text))
        }
    }
}

/// Leaves out the findings of groups whose code is ignored.
fn keep_in_groups(groups: &mut [Group<'_>], output: Output<'_>)
    ensures { groups_view groups.new ≡ kept_by output.entry (groups_view groups.old) }
{
    for group in groups.iter_mut() {
        keep_in(group, output);
    }
}

/// Leaves out the findings of a group whose code is ignored.
fn keep_in(group: &mut Group<'_>, output: Output<'_>)
    ensures { group_view group.new ≡ kept_group (ignored_by output.entry) (group_view group.old) }
{
    keep_reported(&mut group.found, output.ignored);
}

/// The same groups without what a baseline has.
fn new_groups<'s>(
    alloc: Global,
    baseline: &Baseline,
    groups: Vec<Group<'s>>,
) -> Result<Vec<Group<'s>>, AllocError>
    ensures { IfOk result (AreNew baseline.now groups.entry.items) }
{
    let mut left = Vec::with_capacity(alloc, groups.len())?;
    for group in groups {
        left.push(new_in(alloc, baseline, group)?)?;
    }
    Ok(left)
}

/// The same group without what a baseline has.
fn new_in<'s>(alloc: Global, baseline: &Baseline, group: Group<'s>) -> Result<Group<'s>, AllocError>
    ensures { IfOk result (IsNew baseline.now group.entry) }
{
    let Group {
        locale,
        found,
        files,
    } = group;
    let found = baseline.leave_out(alloc, found)?;
    Ok(Group {
        locale,
        found,
        files,
    })
}

/// The report on groups, of which all findings are reported, and a baseline.
fn report_kept(
    alloc: Global,
    output: Output<'_>,
    groups: Vec<Group<'_>>,
    baseline: Option<String>,
) -> Result<ProjectReport, AllocError>
    ensures text { IfOk result (λ made. string_bytes made.text
        ≡ text_by output.entry (groups_view groups.entry.items)) }
    ensures failed { IfOk result (λ made. made.has_failed
        ≡ has_failure output.entry (groups_view groups.entry.items)) }
    ensures baseline { IfOk result (λ made. made.baseline ≡ baseline) }
{
    let has_failed = has_language_failed(output.strict, &groups);
    let text = text_of(alloc, output, groups)?;
    Ok(ProjectReport {
        text,
        has_failed,
        baseline,
    })
}

/// Whether a language has an error among its findings, or with `strict` a warning.
fn has_language_failed(strict: bool, groups: &[Group<'_>]) -> bool
    ensures { result ≡ list_any (group_fails strict) (groups_view groups.now) }
{
    match groups {
        [] => false,
        [group, rest @ ..] => group.fails(strict) || has_language_failed(strict, rest),
    }
}

impl Group<'_> {
    /// Whether it is a language that fails.
    fn fails(&self, strict: bool) -> bool
        ensures { result ≡ group_fails strict (group_view self.now) }
    {
        match self.locale {
            Some(_) => has_failed(strict, &self.found),
            None => false,
        }
    }

    /// Its name for people.
    fn name(&self) -> &str
        ensures { result.now ≡ group_name (group_view self.now).locale }
    {
        match self.locale {
            Some(locale) => locale,
            None => "reference",
        }
    }
}

/// What is written of groups.
fn text_of(alloc: Global, output: Output<'_>, groups: Vec<Group<'_>>) -> Result<String, AllocError>
    ensures { IfOk result (λ text. string_bytes text
        ≡ text_by output.entry (groups_view groups.entry.items)) }
{
    match output.format {
        Format::Text | Format::Terminal => text_of_groups(alloc, output, &groups),
        Format::Json => json_of_groups(alloc, output.notes, &groups),
        Format::Line | Format::Github | Format::Sarif | Format::Gitlab => {
            let found = all_found(alloc, groups)?;
            report(alloc, output.format, output.notes, &found, &[])
        }
    }
}

/// The report for people: after the findings of each group, how many there are.
fn text_of_groups(
    alloc: Global,
    output: Output<'_>,
    groups: &[Group<'_>],
) -> Result<String, AllocError>
    ensures { IfOk result (λ text. string_bytes text
        ≡ flat_map (text_of_group output.entry) (groups_view groups.now)) }
{
    let mut text = String::new(alloc);
    for group in groups {
        push_group(&mut text, alloc, output, group)?;
    }
    Ok(text)
}

/// Appends the findings of a group, and how many there are.
fn push_group(
    text: &mut String,
    alloc: Global,
    output: Output<'_>,
    group: &Group<'_>,
) -> Result<(), AllocError>
    ensures { OnOk result (Appends text.old text.new
        (text_of_group output.entry (group_view group.now))) }
{
    let found = report(alloc, output.format, output.notes, &group.found, &[])?;
    text.push_str(found.as_str())?;
    push_masked(text, group.name())?;
    text.push_str(": ")?;
    push_totals(text, output.notes, group.files, &group.found)
}

/// A line of JSON for each finding.
fn json_of_groups(alloc: Global, notes: bool, groups: &[Group<'_>]) -> Result<String, AllocError>
    ensures { IfOk result (λ text. string_bytes text
        ≡ flat_map (group_lines notes) (groups_view groups.now)) }
{
    let mut text = String::new(alloc);
    for group in groups {
        push_json_findings(&mut text, alloc, notes, group.locale, &group.found)?;
    }
    Ok(text)
}

/// The findings of all groups, in their order.
fn all_found<'s>(alloc: Global, groups: Vec<Group<'s>>) -> Result<Vec<FileFindings<'s>>, AllocError>
    ensures { IfOk result (λ all.
        findings_view all.items ≡ all_found (groups_view groups.entry.items)) }
{
    let mut all = Vec::new(alloc);
    for group in groups {
        let Group { mut found, .. } = group;
        all.append(&mut found)?;
    }
    Ok(all)
}
