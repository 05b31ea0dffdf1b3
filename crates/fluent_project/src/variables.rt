//! The variables of a project.
ghost use Rattle.std.specs.Prelude.{◌≡◌, IfErr, IfOk, Ok, map};
ghost use Rattle.toml.specs.View.{table_view, view};
ghost use Rattle.fluent_project.specs.FileValues.{text_of};
ghost use Rattle.fluent_project.specs.Files.{variable, variables_from, variables_of};
ghost use Rattle.fluent_project.specs.FileViews.{IsRefusedBy, setting_view};

use crate::faults::{FaultKind, FileError};
use crate::fields::{fault, in_table, one_table};
use crate::file::Setting;
use crate::values::text_of;
use std::alloc::Global;
use toml::{Table, Value};

/// The table `[env]`.
pub(crate) fn variables_of<'f>(
    alloc: Global,
    table: &'f Table,
) -> Result<Vec<Setting<'f>>, FileError<'f>>
    ensures list { IfOk result (λ list. variables_of (table_view table.now)
        ≡ Ok (map setting_view list.items)) }
    ensures refused { IfErr result (IsRefusedBy (variables_of (table_view table.now))) }
{
    match one_table(table, "env")? {
        None => Ok(Vec::new(alloc)),
        Some(table) => variables_from(alloc, table),
    }
}

/// The variables of a table.
fn variables_from<'f>(alloc: Global, table: &'f Table) -> Result<Vec<Setting<'f>>, FileError<'f>>
    ensures list { IfOk result (λ list. variables_from (table_view table.now)
        ≡ Ok (map setting_view list.items)) }
    ensures refused { IfErr result (IsRefusedBy (variables_from (table_view table.now))) }
{
    let mut variables = Vec::new(alloc);
    for (name, value) in table.iter() {
        variables.push(variable(name, value)?)?;
    }
    Ok(variables)
}

/// A variable of this name and value.
fn variable<'f>(name: &'f str, value: &'f Value) -> Result<Setting<'f>, FileError<'f>>
    ensures variable { IfOk result (λ setting. variable name.now (text_of (view value.now))
        ≡ Ok (setting_view setting)) }
    ensures refused { IfErr result (IsRefusedBy (variable name.now (text_of (view value.now)))) }
{
    match text_of(value) {
        Some(value) => Ok(Setting { name, value }),
        None => Err(fault(in_table("env", 0, name), FaultKind::NoText)),
    }
}
