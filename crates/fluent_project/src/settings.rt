//! What a project tells this program alone.
ghost use Rattle.std.specs.Prelude.{◌≡◌, IfErr, IfOk, Ok};
ghost use Rattle.toml.specs.View.{table_view};
ghost use Rattle.fluent_project.specs.Files.{in_settings, known_settings_in, settings_in, settings_of};
ghost use Rattle.fluent_project.specs.PlaceViews.{place_view};
ghost use Rattle.fluent_project.specs.FileViews.{IsRefusedBy, settings_view};

use crate::faults::{FaultKind, FileError};
use crate::fields::{
    fault, first_unknown, get_in, in_table, one_table, optional_list, optional_text,
};
use crate::file::Settings;
use crate::places::Place;
use std::alloc::Global;
use toml::Table;

/// The keys of `[kozhvadi]`.
const KEYS: [&str; 3] = ["functions", "ignore", "catalog"];

/// The table `[kozhvadi]`.
pub(crate) fn settings_of<'f>(
    alloc: Global,
    table: &'f Table,
) -> Result<Settings<'f>, FileError<'f>>
    ensures settings { IfOk result (λ settings. settings_of (table_view table.now)
        ≡ Ok (settings_view settings)) }
    ensures refused { IfErr result (IsRefusedBy (settings_of (table_view table.now))) }
{
    match one_table(table, "kozhvadi")? {
        None => Ok(Settings {
            functions: None,
            ignored: None,
            catalog: None,
        }),
        Some(table) => settings_in(alloc, table),
    }
}

/// The settings of a table.
fn settings_in<'f>(alloc: Global, table: &'f Table) -> Result<Settings<'f>, FileError<'f>>
    ensures settings { IfOk result (λ settings. settings_in (table_view table.now)
        ≡ Ok (settings_view settings)) }
    ensures refused { IfErr result (IsRefusedBy (settings_in (table_view table.now))) }
{
    match first_unknown(table, &KEYS) {
        Some(key) => Err(fault(own(key), FaultKind::Unknown)),
        None => known_settings(alloc, table),
    }
}

/// The same, if it has no other keys.
fn known_settings<'f>(alloc: Global, table: &'f Table) -> Result<Settings<'f>, FileError<'f>>
    ensures settings { IfOk result (λ settings. known_settings_in (table_view table.now)
        ≡ Ok (settings_view settings)) }
    ensures refused { IfErr result (IsRefusedBy (known_settings_in (table_view table.now))) }
{
    let functions = optional_list(alloc, get_in(table, "functions"), own("functions"))?;
    let ignored = optional_list(alloc, get_in(table, "ignore"), own("ignore"))?;
    let catalog = optional_text(get_in(table, "catalog"), own("catalog"))?;
    Ok(Settings {
        functions,
        ignored,
        catalog,
    })
}

/// A key of the table.
fn own(key: &str) -> Place<'_>
    ensures { place_view result ≡ in_settings key.now }
{
    in_table("kozhvadi", 0, key)
}
