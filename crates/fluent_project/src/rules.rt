//! The tables of a project that may be repeated.
ghost use Rattle.std.specs.Prelude.{◌≡◌, IfErr, IfOk, Ok, map};
ghost use Rattle.toml.specs.View.{table_view, view};
ghost use Rattle.fluent_project.specs.Files.{action_named, action_of, filter_rule, filters, known_rule_in, linked, linked_paths, path_rule, path_rules};
ghost use Rattle.fluent_project.specs.FieldViews.{action_at};
ghost use Rattle.fluent_project.specs.FileViews.{IsRefusedBy, filter_view, rule_view};
ghost use Rattle.fluent_project.specs.PlaceViews.{texts};

use crate::faults::{FaultKind, FileError};
use crate::fields::{
    a_table, fault, first_unknown, get_in, in_table, needed_text, needed_texts, optional_languages,
    optional_text, optional_texts, tables,
};
use crate::file::{Action, Filter, PathRule};
use crate::places::Place;
use crate::reading::is_same;
use std::alloc::Global;
use toml::{Table, Value};

/// The keys of `[[paths]]`.
const PATH_KEYS: [&str; 5] = ["reference", "l10n", "locales", "test", "module"];

/// The tables `[[paths]]`.
pub(crate) fn path_rules_of<'f>(
    alloc: Global,
    table: &'f Table,
) -> Result<Vec<PathRule<'f>>, FileError<'f>>
    ensures rules { IfOk result (λ rules. path_rules (table_view table.now)
        ≡ Ok (map rule_view rules.items)) }
    ensures refused { IfErr result (IsRefusedBy
        (path_rules (table_view table.now))) }
{
    let values = tables(table, "paths")?;
    let mut rules = Vec::new(alloc);
    for n in 0..values.len() {
        rules.push(path_rule(alloc, n, &values[n])?)?;
    }
    Ok(rules)
}

/// The table `[[paths]]` of this number.
fn path_rule<'f>(alloc: Global, n: usize, value: &'f Value) -> Result<PathRule<'f>, FileError<'f>>
    ensures rule { IfOk result (λ rule. path_rule n (view value.now) ≡ Ok (rule_view rule)) }
    ensures refused { IfErr result (IsRefusedBy (path_rule n (view value.now))) }
{
    let table = a_table("paths", value)?;
    match first_unknown(table, &PATH_KEYS) {
        Some(key) => Err(fault(in_table("paths", n, key), FaultKind::Unknown)),
        None => known_rule(alloc, n, table),
    }
}

/// The same, if it has no other keys.
fn known_rule<'f>(alloc: Global, n: usize, table: &'f Table) -> Result<PathRule<'f>, FileError<'f>>
    ensures rule { IfOk result (λ rule. known_rule_in n (table_view table.now)
        ≡ Ok (rule_view rule)) }
    ensures refused { IfErr result (IsRefusedBy (known_rule_in n (table_view table.now))) }
{
    let l10n = needed_text(get_in(table, "l10n"), in_table("paths", n, "l10n"))?;
    let place = in_table("paths", n, "reference");
    let reference = optional_text(get_in(table, "reference"), place)?;
    let place = in_table("paths", n, "locales");
    let locales = optional_languages(alloc, get_in(table, "locales"), place)?;
    Ok(PathRule {
        reference,
        l10n,
        locales,
    })
}

/// The tables `[[filters]]`.
pub(crate) fn filters_of<'f>(
    alloc: Global,
    table: &'f Table,
) -> Result<Vec<Filter<'f>>, FileError<'f>>
    ensures rules { IfOk result (λ rules. filters (table_view table.now) ≡ Ok (map filter_view rules.items)) }
    ensures refused { IfErr result (IsRefusedBy
        (filters (table_view table.now))) }
{
    let values = tables(table, "filters")?;
    let mut rules = Vec::new(alloc);
    for n in 0..values.len() {
        rules.push(filter(alloc, n, &values[n])?)?;
    }
    Ok(rules)
}

/// The table `[[filters]]` of this number.
fn filter<'f>(alloc: Global, n: usize, value: &'f Value) -> Result<Filter<'f>, FileError<'f>>
    ensures rule { IfOk result (λ rule. filter_rule n (view value.now) ≡ Ok (filter_view rule)) }
    ensures refused { IfErr result (IsRefusedBy (filter_rule n (view value.now))) }
{
    let table = a_table("filters", value)?;
    let action = needed_action(get_in(table, "action"), in_table("filters", n, "action"))?;
    let paths = needed_texts(alloc, get_in(table, "path"), in_table("filters", n, "path"))?;
    let keys = optional_texts(alloc, get_in(table, "key"), in_table("filters", n, "key"))?;
    Ok(Filter {
        paths,
        keys,
        action,
    })
}

/// The action of a key that has to be there.
fn needed_action<'f>(value: Option<&'f Value>, place: Place<'f>) -> Result<Action, FileError<'f>>
    ensures action { IfOk result (λ action. action_at place.entry value.entry ≡ Ok action) }
    ensures refused { IfErr result (IsRefusedBy (action_at place.entry value.entry)) }
{
    match value {
        None => Err(fault(place, FaultKind::Missing)),
        Some(value) => match action_of(value) {
            Some(action) => Ok(action),
            None => Err(fault(place, FaultKind::NoAction)),
        },
    }
}

/// The action that a value names.
fn action_of(value: &Value) -> Option<Action>
    ensures { result ≡ action_of (view value.now) }
{
    action_named(value.as_str()?)
}

/// The action of a name.
fn action_named(name: &str) -> Option<Action>
    ensures { result ≡ action_named name.now }
{
    if is_same(b"ignore", name.as_bytes()) {
        Some(Action::Ignore)
    } else if is_same(b"warning", name.as_bytes()) {
        Some(Action::Warning)
    } else if is_same(b"error", name.as_bytes()) {
        Some(Action::Error)
    } else {
        None
    }
}

/// The paths that tables of this name have.
pub(crate) fn linked_of<'f>(
    alloc: Global,
    table: &'f Table,
    name: &'f str,
) -> Result<Vec<&'f str>, FileError<'f>>
    ensures paths { IfOk result (λ paths. linked_paths name.now (table_view table.now)
        ≡ Ok (texts paths.items)) }
    ensures refused { IfErr result (IsRefusedBy
        (linked_paths name.now (table_view table.now))) }
{
    let values = tables(table, name)?;
    let mut paths = Vec::new(alloc);
    for n in 0..values.len() {
        paths.push(linked(name, n, &values[n])?)?;
    }
    Ok(paths)
}

/// The path of a table.
fn linked<'f>(name: &'f str, n: usize, value: &'f Value) -> Result<&'f str, FileError<'f>>
    ensures path { IfOk result (λ path. linked name.now n (view value.now) ≡ Ok path.now) }
    ensures refused { IfErr result (IsRefusedBy (linked name.now n (view value.now))) }
{
    let table = a_table(name, value)?;
    needed_text(get_in(table, "path"), in_table(name, n, "path"))
}
