//! The commands `lint` and `status` on a project, from what `clap` found for them.
ghost use Rattle.std.specs.Prelude.{◌≡◌, ◌&&◌, ◌||◌, ◌==◌, IfOk, Some, None, codes, not, option_map};
ghost use Rattle.std.specs.List.{list_any};
ghost use Rattle.fluent_serve.specs.Requests.{arguments_of};
ghost use Rattle.ftl_arguments.specs.CommandView.{IfRefused, command_view, found_rows, linting_with, project_linting_with, project_lint_view, project_view, read_view, status_view, table_format_view};
ghost use Rattle.ftl_arguments.specs.Found.{values_in};
ghost use Rattle.ftl_arguments.specs.Linting.{is_any};
ghost use Rattle.ftl_arguments.specs.Meaning.{texts};
ghost use Rattle.ftl_arguments.specs.Projects.{baseline_in, has_baseline, has_brace, has_own_options, has_references_for, is_file_of_project, is_patterns, locales_in, names_project, project_in, status_in, table_format_in, table_format_named, variables_in, written_in};

use crate::codes::{code_list, is_any};
use crate::commands::{Command, Lint, ProjectLint, ProjectWords, Status, TableFormat};
use crate::formatting::read_arguments;
use crate::reading::{WordsError, is_given, locale_in, values_in};
use crate::tidying::is_input;
use clap::ArgMatches;
use std::alloc::{AllocError, Global};

/// The command: on the project that the paths name, on the files that they stand for, or on
/// standard input if a hyphen is the only path.
///
/// # Errors
/// [`WordsError::Bad`]: an option is of projects alone, or doesn't go with the paths.
/// [`WordsError::Memory`]: memory ran out.
pub(crate) fn linting<'words>(
    alloc: Global,
    found: &ArgMatches<'words>,
    lint: Lint<'words>,
) -> Result<Command<'words>, WordsError>
    ensures command { IfOk result (λ command.
        linting_with found.now lint.entry ≡ Some (command_view command)) }
    ensures nothing { IfRefused result (linting_with found.now lint.entry ≡ None) }
{
    if names_project(&lint.files) {
        Ok(Command::LintProject(project_linting(alloc, found, lint)?))
    } else if has_own_options(found) {
        Err(WordsError::Bad)
    } else if is_input(&lint.files) {
        Ok(Command::LintInput(lint))
    } else {
        Ok(Command::Lint(lint))
    }
}

/// Whether an option was given that is of projects alone.
fn has_own_options(found: &ArgMatches<'_>) -> bool
    ensures { result ≡ has_own_options (found_rows found.now) }
{
    has_files(found) || has_variables(found) || has_baseline(found)
}

/// Whether a file of findings was named.
fn has_baseline(found: &ArgMatches<'_>) -> bool
    ensures { result ≡ has_baseline (found_rows found.now) }
{
    baseline_in(found).is_some() || written_in(found).is_some()
}

/// The file of findings that aren't reported, if one was named.
fn baseline_in<'words>(found: &ArgMatches<'words>) -> Option<&'words str>
    ensures { option_map (λ file. file.now) result ≡ baseline_in (found_rows found.now) }
{
    found.get_str("baseline")
}

/// The file that is to have the findings, if one was named.
fn written_in<'words>(found: &ArgMatches<'words>) -> Option<&'words str>
    ensures { option_map (λ file. file.now) result ≡ written_in (found_rows found.now) }
{
    found.get_str("write-baseline")
}

/// Whether files were named that are reported alone.
fn has_files(found: &ArgMatches<'_>) -> bool
    ensures { result ≡ is_any (values_in (codes "only") (found_rows found.now)) }
{
    is_any(found.get_raw("only").unwrap_or(&[]))
}

/// Whether variables were given a value.
fn has_variables(found: &ArgMatches<'_>) -> bool
    ensures { result ≡ is_any (values_in (codes "define") (found_rows found.now)) }
{
    is_any(found.get_raw("define").unwrap_or(&[]))
}

/// The linting of a project, whose options that other paths have, too, are in `lint`. Counts are
/// refused.
fn project_linting<'words>(
    alloc: Global,
    found: &ArgMatches<'words>,
    lint: Lint<'words>,
) -> Result<ProjectLint<'words>, WordsError>
    ensures lint { IfOk result (λ project.
        project_linting_with found.now lint.entry ≡ Some (project_lint_view project)) }
    ensures nothing { IfRefused result (project_linting_with found.now lint.entry ≡ None) }
{
    if lint.counts {
        return Err(WordsError::Bad);
    }
    Ok(ProjectLint {
        project: project_in(alloc, found)?,
        only: values_in(alloc, found, "only")?,
        functions: lint.functions,
        ignored: lint.ignored,
        baseline: baseline_in(found),
        written: written_in(found),
        notes: lint.notes,
        strict: lint.strict,
        format: lint.format,
    })
}

/// Reads what was found for `status`.
///
/// # Errors
/// [`WordsError::Bad`]: there is no such format, the paths name no project, or they don't go with
/// the options. [`WordsError::Memory`]: memory ran out.
pub(crate) fn status_in<'words>(
    alloc: Global,
    found: &ArgMatches<'words>,
) -> Result<Status<'words>, WordsError>
    ensures status { IfOk result (λ status. status_in (found_rows found.now) ≡ Some (status_view status)) }
    ensures nothing { IfRefused result (status_in (found_rows found.now) ≡ None) }
{
    let Some(format) = table_format_in(found) else {
        return Err(WordsError::Bad);
    };
    let project = project_in(alloc, found)?;
    if !names_project(&project.files) {
        return Err(WordsError::Bad);
    }
    Ok(Status {
        project,
        files: is_given(found, "files"),
        format,
    })
}

/// The format of a table that is named, if there is such a format.
fn table_format_in(found: &ArgMatches<'_>) -> Option<TableFormat>
    ensures { option_map table_format_view result ≡ table_format_in (found_rows found.now) }
{
    table_format_named(found.get_str("format")?)
}

/// The format of a table, by its name.
pub(crate) fn table_format_named(name: &str) -> Option<TableFormat>
    ensures { option_map table_format_view result ≡ table_format_named name.now }
{
    match name {
        "text" => Some(TableFormat::Text),
        "json" => Some(TableFormat::Json),
        "markdown" => Some(TableFormat::Markdown),
        _ => None,
    }
}

/// Which project was found, and which of its languages.
fn project_in<'words>(
    alloc: Global,
    found: &ArgMatches<'words>,
) -> Result<ProjectWords<'words>, WordsError>
    ensures project { IfOk result (λ project.
        project_in (found_rows found.now) ≡ Some (project_view project)) }
    ensures nothing { IfRefused result (project_in (found_rows found.now) ≡ None) }
{
    let references = values_in(alloc, found, "reference")?;
    let files = values_in(alloc, found, "PATH")?;
    if !has_references_for(&references, &files) {
        return Err(WordsError::Bad);
    }
    let Some(variables) = variables_in(alloc, found)? else {
        return Err(WordsError::Bad);
    };
    Ok(ProjectWords {
        references,
        files,
        locales: locales_in(alloc, found)?,
        variables,
    })
}

/// The languages that were given, between commas.
fn locales_in<'words>(
    alloc: Global,
    found: &ArgMatches<'words>,
) -> Result<Vec<&'words str>, AllocError>
    ensures { IfOk result (λ list. texts list.items ≡ locales_in (found_rows found.now)) }
{
    match locale_in(found) {
        Some(locales) => code_list(alloc, locales),
        None => Ok(Vec::new(alloc)),
    }
}

/// The variables that were given a value. `None` if one has no equals sign.
fn variables_in<'words>(
    alloc: Global,
    found: &ArgMatches<'words>,
) -> Result<Option<Vec<(&'words str, &'words str)>>, AllocError>
    ensures { IfOk result (λ variables. read_view variables ≡ variables_in (found_rows found.now)) }
{
    read_arguments(alloc, found.get_raw("define").unwrap_or(&[]))
}

/// Whether paths name a project: no path, its file, or patterns.
pub(crate) fn names_project(paths: &[&str]) -> bool
    ensures { result ≡ names_project (texts paths.now) }
{
    match paths {
        [] => true,
        [path] if is_file_of_project(path) => true,
        _ => is_patterns(paths),
    }
}

/// Whether a path may be that of the file of a project.
fn is_file_of_project(path: &str) -> bool
    ensures { result ≡ is_file_of_project path.now }
{
    path.as_bytes().ends_with(b".toml")
}

/// Whether one of these paths is a pattern with `{locale}`.
fn is_patterns(paths: &[&str]) -> bool
    ensures { result ≡ is_patterns (texts paths.now) }
{
    match paths {
        [] => false,
        [path, others @ ..] => has_brace(path) || is_patterns(others),
    }
}

/// Whether a path has an opening brace.
fn has_brace(path: &str) -> bool
    ensures { result ≡ has_brace path.now }
{
    path.as_bytes().contains(&b'{')
}

/// Whether there are patterns of a reference only where there are patterns of translations.
fn has_references_for(references: &[&str], paths: &[&str]) -> bool
    ensures { result ≡ has_references_for (texts references.now) (texts paths.now) }
{
    !is_any(references) || is_patterns(paths)
}
