//! What is asked of a project: its report, or its table.
ghost use Rattle.std.specs.Prelude.{◌≡◌, ◌++◌, IfOk};
ghost use Rattle.fluent_project.specs.Views.{plain};
ghost use Rattle.ftl_project.specs.Ends.{EndsRead, IsAsked, IsReportFor, IsTable, written_in};
ghost use Rattle.ftl_project.specs.ProjectReports.{IsReportMade, seen_by};
ghost use Rattle.ftl_project.specs.Reports.{report_view};

use crate::baseline::{Baseline, read_baseline};
use crate::chosen::groups_found;
use crate::language::{LintedProject, lint_languages};
use crate::loading::load_project;
use crate::locating::{current_folder, find_project};
use crate::planned::{Planned, plans_of};
use crate::project::{Project, paths_in};
use crate::reference::{ReferenceFile, reference_files};
use crate::report::{Known, ProjectReport, report_groups};
use crate::sources::{Sources, lent, read_project};
use crate::table::{rows_of, table};
use crate::wrong::ProjectError;
use fluent_lint::Output;
use fluent_project::{Setting, references_of};
use ftl_arguments::{DATETIME, ProjectLint, ProjectWords, Status};
use ftl_files::{Folder, Found, Reported, find_sources};
use std::alloc::{AllocError, Global};

/// What is written of a project, and what is said of its files.
#[derive(Drop)]
pub struct ProjectEnd {
    /// What is written.
    pub text: String,
    /// Whether a language fails.
    pub has_failed: bool,
    /// The lines of the files that could not be read.
    pub errors: String,
    /// Which errors these lines report.
    pub reported: Reported,
    /// The text of the baseline that is to be written, if one is.
    pub baseline: Option<String>,
}

/// What is done with the languages of a project.
#[derive(Clone, Copy)]
enum Work<'a> {
    /// What is found in them is reported, but for what is known.
    Lint(&'a ProjectLint<'a>, &'a Known<'a>),
    /// What is counted in them is written.
    Status(&'a Status<'a>),
}

/// The words, and the folder that the paths in them begin at.
#[derive(Clone, Copy)]
struct Asked<'a> {
    alloc: Global,
    here: &'a str,
    words: &'a ProjectWords<'a>,
    work: Work<'a>,
}

/// The report on a project: what is found in its reference, and in each of its languages.
///
/// # Errors
/// [`ProjectError`]: what is wrong with the project, or that memory ran out.
pub fn lint_project<F: Folder>(
    folder: &mut F,
    alloc: Global,
    lint: &ProjectLint<'_>,
) -> Result<ProjectEnd, ProjectError>
    ensures report { IfOk result (λ end. IsReportFor lint.now (written_in end)) }
    ensures read { IfOk result (EndsRead F.Folder folder.old folder.new) }
    ensures kept { F.contents folder.new ≡ F.contents folder.old }
{
    let baseline = match lint.baseline {
        Some(name) => Some(read_baseline(folder, alloc, name)?),
        None => None,
    };
    let known = known_by(&baseline, lint.written);
    with_project(folder, alloc, &lint.project, Work::Lint(lint, &known))
}

/// What is known, by the baseline that was read, and the name of one that is to be written.
fn known_by<'b>(baseline: &'b Option<Baseline>, written: Option<&str>) -> Known<'b> {
    match written {
        Some(_) => Known::All,
        None => match baseline {
            Some(baseline) => Known::Baseline(baseline),
            None => Known::Nothing,
        },
    }
}

/// The table of a project: what is counted in each of its languages.
///
/// # Errors
/// [`ProjectError`]: what is wrong with the project, or that memory ran out.
pub fn project_status<F: Folder>(
    folder: &mut F,
    alloc: Global,
    status: &Status<'_>,
) -> Result<ProjectEnd, ProjectError>
    ensures table { IfOk result (λ end. IsTable (written_in end)) }
    ensures read { IfOk result (EndsRead F.Folder folder.old folder.new) }
    ensures kept { F.contents folder.new ≡ F.contents folder.old }
{
    with_project(folder, alloc, &status.project, Work::Status(status))
}

/// Does it with the project that the words name, or that the current folder is in.
fn with_project<F: Folder>(
    folder: &mut F,
    alloc: Global,
    words: &ProjectWords<'_>,
    work: Work<'_>,
) -> Result<ProjectEnd, ProjectError>
    ensures asked { IfOk result (λ end. IsAsked work.entry (written_in end)) }
    ensures read { IfOk result (EndsRead F.Folder folder.old folder.new) }
    ensures kept { F.contents folder.new ≡ F.contents folder.old }
{
    let here = current_folder(folder, alloc)?;
    let asked = Asked {
        alloc,
        here: here.as_str(),
        words,
        work,
    };
    match asked.file(folder)? {
        Some(path) => asked.with_file(folder, path.as_str()),
        None => asked.with_patterns(folder),
    }
}

impl Asked<'_> {
    /// The path of the file of the project; nothing if patterns are named in its place.
    fn file<F: Folder>(&self, folder: &F) -> Result<Option<String>, ProjectError> {
        match self.words.files.as_slice() {
            [] => match find_project(folder, self.alloc, self.here)? {
                Some(path) => Ok(Some(path)),
                None => Err(ProjectError::of(String::from_str(
                    self.alloc,
                    "there is no l10n.toml here, nor in a folder above",
                ))),
            },
            [file] if file.ends_with(".toml") => {
                let mut paths = paths_in(self.alloc, self.here, &[*file])?;
                Ok(paths.pop())
            }
            _ => Ok(None),
        }
    }

    /// Does it with the project of a file.
    fn with_file<F: Folder>(&self, folder: &mut F, path: &str) -> Result<ProjectEnd, ProjectError>
        ensures asked { IfOk result (λ end. IsAsked self.now.work (written_in end)) }
        ensures read { IfOk result (EndsRead F.Folder folder.old folder.new) }
        ensures kept { F.contents folder.new ≡ F.contents folder.old }
    {
        let given = settings_of(self.alloc, &self.words.variables)?;
        let loaded = load_project(folder, self.alloc, self.here, &given, path)?;
        let project = Project::of_files(self.alloc, &given, &loaded)?;
        let languages = self.chosen(&project.languages)?;
        let found = self.found(folder, &project, &languages)?;
        self.with_languages(folder, &project, &languages, &found)
    }

    /// Does it with the project of patterns.
    fn with_patterns<F: Folder>(&self, folder: &mut F) -> Result<ProjectEnd, ProjectError>
        ensures asked { IfOk result (λ end. IsAsked self.now.work (written_in end)) }
        ensures read { IfOk result (EndsRead F.Folder folder.old folder.new) }
        ensures kept { F.contents folder.new ≡ F.contents folder.old }
    {
        let words = self.words;
        let project = Project::of_patterns(self.alloc, self.here, &words.references, &words.files)?;
        let found = self.found(folder, &project, &[])?;
        let files = lent(self.alloc, &found.sources)?;
        let references = references_of(self.alloc, &project.rules, &files)?;
        let languages = project.languages_of(self.alloc, &references, &files)?;
        if languages.is_empty() {
            return Err(self.no_language());
        }
        let languages = self.chosen(&languages)?;
        self.with_languages(folder, &project, &languages, &found)
    }

    /// That no file is one of a language, by the patterns.
    fn no_language(&self) -> ProjectError {
        let alloc = self.alloc;
        ProjectError::of(match self.words.files.as_slice() {
            [pattern] => format!(in alloc; "{pattern}: no file matches the pattern"),
            _ => String::from_str(alloc, "no file matches the patterns of translations"),
        })
    }

    /// The files below the folders of these languages and of the reference.
    fn found<F: Folder>(
        &self,
        folder: &mut F,
        project: &Project<'_>,
        languages: &[&str],
    ) -> Result<Found, AllocError>
        ensures kept { F.contents folder.new ≡ F.contents folder.old }
    {
        let folders = project.folders(self.alloc, languages)?;
        find_sources(folder, self.alloc, &lent(self.alloc, &folders)?)
    }

    /// Those of the languages that the words choose, or all.
    fn chosen<'l>(&self, languages: &[&'l str]) -> Result<Vec<&'l str>, ProjectError> {
        let alloc = self.alloc;
        let chosen = &self.words.locales;
        for locale in chosen {
            if !is_among(languages, locale) {
                return Err(ProjectError::of(format!(in alloc;
                    "{locale}: the project has no such language"
                )));
            }
        }
        let mut list = Vec::new(alloc);
        for language in languages {
            if chosen.is_empty() || is_among(chosen, language) {
                list.push(*language)?;
            }
        }
        Ok(list)
    }

    /// Does it with these languages of a project, whose files were found.
    fn with_languages<F: Folder>(
        &self,
        folder: &mut F,
        project: &Project<'_>,
        languages: &[&str],
        found: &Found,
    ) -> Result<ProjectEnd, ProjectError>
        ensures asked { IfOk result (λ end. IsAsked self.now.work (written_in end)) }
        ensures read { IfOk result (EndsRead F.Folder folder.old folder.new) }
        ensures kept { F.contents folder.new ≡ F.contents folder.old }
    {
        let (alloc, here) = (self.alloc, self.here);
        let files = lent(alloc, &found.sources)?;
        let references = references_of(alloc, &project.rules, &files)?;
        if references.is_empty() {
            if let Some(error) = project.no_reference(alloc) {
                return Err(error);
            }
        }
        let plan = plans_of(alloc, project, here, languages, &references, &files)?;
        let sources = read_project(folder, alloc, here, &references, &plan, &files, found)?;
        let report = self.with_sources(project, &references, &files, &plan, &sources)?;
        Ok(ProjectEnd {
            text: report.text,
            has_failed: report.has_failed,
            errors: sources.errors,
            reported: sources.reported,
            baseline: report.baseline,
        })
    }

    /// What is written, by what was read.
    fn with_sources(
        &self,
        project: &Project<'_>,
        references: &[&str],
        files: &[&str],
        plan: &[Planned<'_>],
        sources: &Sources,
    ) -> Result<ProjectReport, AllocError>
        ensures { IfOk result (λ made. IsAsked self.now.work (report_view made)) }
    {
        let theirs = reference_files(self.alloc, self.here, references, files, sources)?;
        self.told(project, &theirs, plan, sources)
    }

    /// What is written of the languages.
    fn told<'s>(
        &self,
        project: &Project<'s>,
        references: &'s [ReferenceFile<'s>],
        plan: &'s [Planned<'_>],
        sources: &'s Sources,
    ) -> Result<ProjectReport, AllocError>
        ensures { IfOk result (λ made. IsAsked self.now.work (report_view made)) }
    {
        let functions = self.functions(project)?;
        let linted = lint_languages(self.alloc, project, &functions, references, plan, sources)?;
        match self.work {
            Work::Lint(lint, known) => self.report(project, references, linted, lint, known),
            Work::Status(status) => {
                let rows = rows_of(self.alloc, status.files, references, &linted.languages)?;
                Ok(ProjectReport {
                    text: table(self.alloc, status.format, &rows)?,
                    has_failed: false,
                    baseline: None,
                })
            }
        }
    }

    /// The functions that are known: those of the project and of the words.
    fn functions<'f>(&'f self, project: &'f Project<'_>) -> Result<Vec<&'f str>, AllocError> {
        let mut functions = Vec::new(self.alloc);
        functions.extend_from_slice(&project.functions)?;
        match self.work {
            Work::Lint(lint, _) => functions.extend_from_slice(&lint.functions)?,
            Work::Status(_) => functions.push(DATETIME)?,
        }
        Ok(functions)
    }

    /// The report on the reference and the languages.
    fn report<'s>(
        &self,
        project: &Project<'s>,
        references: &[ReferenceFile<'s>],
        linted: LintedProject<'s>,
        lint: &ProjectLint<'_>,
        known: &Known<'_>,
    ) -> Result<ProjectReport, AllocError>
        ensures { IfOk result (IsReportMade lint.now known.now
            (seen_by self.now project.now references.now linted.entry)) }
    {
        let alloc = self.alloc;
        let only = paths_in(alloc, self.here, &lint.only)?;
        let ignored = both(alloc, &project.ignored, &lint.ignored)?;
        let output = Output {
            format: lint.format,
            ignored: &ignored,
            notes: lint.notes,
            counts: false,
            strict: lint.strict,
        };
        let groups = groups_found(alloc, project, &only, references, linted)?;
        report_groups(alloc, output, *known, groups)
    }
}

/// These texts, and then those.
fn both<'t>(
    alloc: Global,
    first: &[&'t str],
    second: &[&'t str],
) -> Result<Vec<&'t str>, AllocError>
    ensures { IfOk result (λ all. plain all.items ≡ plain first.now ++ plain second.now) }
{
    let mut all = Vec::new(alloc);
    all.extend_from_slice(first)?;
    all.extend_from_slice(second)?;
    Ok(all)
}

/// Whether a tag is one of these.
fn is_among(locales: &[&str], locale: &str) -> bool {
    locales.iter().any(|other| *other == locale)
}

/// Variables that the words give a value.
fn settings_of<'w>(
    alloc: Global,
    variables: &[(&'w str, &'w str)],
) -> Result<Vec<Setting<'w>>, AllocError> {
    let mut settings = Vec::with_capacity(alloc, variables.len())?;
    for (name, value) in variables {
        settings.push(Setting {
            name: *name,
            value: *value,
        })?;
    }
    Ok(settings)
}
