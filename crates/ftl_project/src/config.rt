//! What a file of a project says, with its patterns read.
ghost use Rattle.std.specs.Prelude.{◌≡◌, IfOk, string_bytes};
ghost use Rattle.ftl_project.specs.Paths.{path_in};

use fluent_project::{
    FileError, FilterRule, ProjectFile, Rule, Setting, Settings, Variables, file_of, filters_of,
    joined, linked_path, path_of, plain_pattern, rules_of, variables_of,
};
use std::alloc::{AllocError, Global};
use toml::Table;

/// What a file of a project says, with its patterns read.
#[derive(Drop)]
pub struct Config<'f> {
    /// The languages that it names, for all of its rules or for one.
    pub languages: Vec<&'f str>,
    /// Which files are translated from which.
    pub rules: Vec<Rule<'f>>,
    /// What becomes of files and messages that a language lacks.
    pub filters: Vec<FilterRule<'f>>,
    /// The files that it names.
    pub links: Vec<Link>,
    /// What it tells this program alone.
    pub settings: Settings<'f>,
}

/// A file that another names.
#[derive(Drop)]
pub struct Link {
    /// Its path from the root, or from the current folder if that isn't known.
    pub path: String,
    /// The name of the table, `includes` or `excludes`.
    pub table: &'static str,
    /// How many tables of this name come before.
    pub index: usize,
}

/// What these tables say, of the file of this number, in this folder. Variables that are given
/// count before its own.
///
/// # Errors
/// [`FileError::Fault`]: something is wrong with the file. [`FileError::Memory`]: memory ran out.
pub fn config_of<'f>(
    alloc: Global,
    given: &[Setting<'f>],
    number: usize,
    folder: &str,
    table: &'f Table,
) -> Result<Config<'f>, FileError<'f>> {
    let file = file_of(alloc, table)?;
    let folder = path_in(alloc, folder, file.head.basepath.unwrap_or("."))?;
    let list = variables_of(alloc, given, &file.head.variables)?;
    let variables = Variables {
        folder: folder.as_str(),
        list: &list,
    };
    let rules = rules_of(alloc, variables, number, &file)?;
    let filters = filters_of(alloc, variables, &file)?;
    let links = links_of(alloc, variables, &file)?;
    let languages = languages_in(alloc, &file)?;
    let ProjectFile { settings, .. } = file;
    Ok(Config {
        languages,
        rules,
        filters,
        links,
        settings,
    })
}

/// The languages that a file names.
fn languages_in<'f>(alloc: Global, file: &ProjectFile<'f>) -> Result<Vec<&'f str>, AllocError> {
    let mut languages = Vec::new(alloc);
    add_all(&mut languages, &file.head.locales)?;
    for rule in &file.paths {
        add_all(&mut languages, &rule.locales)?;
    }
    Ok(languages)
}

/// Appends these texts, if there are some.
pub(crate) fn add_all<'f>(
    list: &mut Vec<&'f str>,
    more: &Option<Vec<&'f str>>,
) -> Result<(), AllocError> {
    match more {
        Some(more) => list.extend_from_slice(more),
        None => Ok(()),
    }
}

/// A path in a folder, without `.`, `..` and slashes that follow each other.
pub(crate) fn path_in(alloc: Global, folder: &str, path: &str) -> Result<String, AllocError>
    ensures { IfOk result (λ made. string_bytes made ≡ path_in folder.now path.now) }
{
    let parts = joined(
        alloc,
        folder.as_bytes(),
        &plain_pattern(alloc, path.as_bytes())?,
    )?;
    match String::from_utf8(path_of(alloc, &parts, b"", &[])?) {
        Ok(path) => Ok(path),
        Err(_) => String::from_str(alloc, path),
    }
}

/// The files that a file names: those that it includes, and then those that it excludes.
fn links_of<'f>(
    alloc: Global,
    variables: Variables<'_, 'f>,
    file: &ProjectFile<'f>,
) -> Result<Vec<Link>, FileError<'f>> {
    let mut links = Vec::new(alloc);
    push_links(
        alloc,
        variables,
        "includes",
        &file.links.includes,
        &mut links,
    )?;
    push_links(
        alloc,
        variables,
        "excludes",
        &file.links.excludes,
        &mut links,
    )?;
    Ok(links)
}

/// Appends the files that tables of a name have.
fn push_links<'f>(
    alloc: Global,
    variables: Variables<'_, 'f>,
    table: &'static str,
    texts: &[&'f str],
    links: &mut Vec<Link>,
) -> Result<(), FileError<'f>> {
    for (index, text) in texts.iter().enumerate() {
        let path = linked_path(alloc, variables, table, index, text)?;
        links.push(Link { path, table, index })?;
    }
    Ok(())
}
