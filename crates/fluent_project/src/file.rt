//! The file of a project, from its tables.
ghost use Rattle.std.specs.Prelude.{◌≡◌, IfErr, IfOk, Ok, Some, codes, map, option_map};
ghost use Rattle.toml.specs.Data.{get_member};
ghost use Rattle.toml.specs.View.{table_view};
ghost use Rattle.fluent_project.specs.Files.{file_of, head_of, links_of};
ghost use Rattle.fluent_project.specs.FileViews.{IsRefusedBy, file_view, head_view, links_view};

use crate::faults::{FaultKind, FileError};
use crate::fields::{get_in, optional_languages, optional_text};
use crate::places::Place;
use crate::rules::{filters_of, linked_of, path_rules_of};
use crate::settings::settings_of;
use crate::variables::variables_of;
use std::alloc::Global;
use toml::Table;

/// What the file of a project says. Its texts are those of the table that it was read from.
#[derive(Drop)]
pub struct ProjectFile<'f> {
    /// Where paths begin, the languages, and the variables of patterns.
    pub head: Head<'f>,
    /// The tables `[[paths]]`, in their order.
    pub paths: Vec<PathRule<'f>>,
    /// The tables `[[filters]]`, in their order.
    pub filters: Vec<Filter<'f>>,
    /// The files that it names.
    pub links: Links<'f>,
    /// The table `[kozhvadi]`.
    pub settings: Settings<'f>,
}

/// Where paths begin, the languages, and the variables of patterns.
#[derive(Drop)]
pub struct Head<'f> {
    /// `basepath`: the folder that patterns are relative to, itself relative to the file's folder.
    pub basepath: Option<&'f str>,
    /// `locales`: the tags of languages, as they are written in paths. No two are the same.
    pub locales: Option<Vec<&'f str>>,
    /// The table `[env]`.
    pub variables: Vec<Setting<'f>>,
}

/// A name and its value.
#[derive(Clone, Copy)]
pub struct Setting<'f> {
    /// The name.
    pub name: &'f str,
    /// The value.
    pub value: &'f str,
}

/// A table `[[paths]]`: which translations are of which reference.
#[derive(Drop)]
pub struct PathRule<'f> {
    /// The pattern of the files that are translated from.
    pub reference: Option<&'f str>,
    /// The pattern of translations.
    pub l10n: &'f str,
    /// The languages that it is about; without them, all.
    pub locales: Option<Vec<&'f str>>,
}

/// A table `[[filters]]`: what becomes of files, or of their messages with these keys.
#[derive(Drop)]
pub struct Filter<'f> {
    /// Patterns of translations: one at least.
    pub paths: Vec<&'f str>,
    /// Ids of messages, or expressions after `re:`: one at least, if there are any.
    pub keys: Option<Vec<&'f str>>,
    /// What becomes of them.
    pub action: Action,
}

/// What becomes of files or messages that a translation lacks, or has alone.
#[derive(Clone, Copy)]
pub enum Action {
    /// They aren't asked for.
    Ignore,
    /// They are worth a warning.
    Warning,
    /// They are an error.
    Error,
}

/// The files that the file of a project names.
#[derive(Drop)]
pub struct Links<'f> {
    /// Files whose tables count as well.
    pub includes: Vec<&'f str>,
    /// Files whose paths are left out.
    pub excludes: Vec<&'f str>,
}

/// The table `[kozhvadi]`.
#[derive(Drop)]
pub struct Settings<'f> {
    /// The functions that the program provides.
    pub functions: Option<Vec<&'f str>>,
    /// The codes of findings that are left out.
    pub ignored: Option<Vec<&'f str>>,
    /// Which files the language server takes as one catalog.
    pub catalog: Option<&'f str>,
}

/// What the file of a project says, of which these are the tables.
///
/// # Errors
/// [`FileError::Fault`]: a value isn't what it has to be, a table isn't, a key is missing, or is
/// none that the table takes. [`FileError::Memory`]: memory ran out.
pub fn file_of<'f>(alloc: Global, table: &'f Table) -> Result<ProjectFile<'f>, FileError<'f>>
    ensures file { IfOk result (λ file. file_of (table_view table.now) ≡ Ok (file_view file)) }
    ensures refused { IfErr result (IsRefusedBy (file_of (table_view table.now))) }
{
    let head = head_of(alloc, table)?;
    let paths = path_rules_of(alloc, table)?;
    let filters = filters_of(alloc, table)?;
    let links = links_of(alloc, table)?;
    let settings = settings_of(alloc, table)?;
    Ok(ProjectFile {
        head,
        paths,
        filters,
        links,
        settings,
    })
}

/// Where paths begin, the languages, and the variables.
fn head_of<'f>(alloc: Global, table: &'f Table) -> Result<Head<'f>, FileError<'f>>
    ensures head { IfOk result (λ head. head_of (table_view table.now) ≡ Ok (head_view head)) }
    ensures refused { IfErr result (IsRefusedBy (head_of (table_view table.now))) }
{
    let basepath = optional_text(get_in(table, "basepath"), Place::Top("basepath"))?;
    let locales = optional_languages(alloc, get_in(table, "locales"), Place::Top("locales"))?;
    let variables = variables_of(alloc, table)?;
    Ok(Head {
        basepath,
        locales,
        variables,
    })
}

/// The files that it names.
fn links_of<'f>(alloc: Global, table: &'f Table) -> Result<Links<'f>, FileError<'f>>
    ensures links { IfOk result (λ links. links_of (table_view table.now) ≡ Ok (links_view links)) }
    ensures refused { IfErr result (IsRefusedBy (links_of (table_view table.now))) }
{
    let includes = linked_of(alloc, table, "includes")?;
    let excludes = linked_of(alloc, table, "excludes")?;
    Ok(Links { includes, excludes })
}
