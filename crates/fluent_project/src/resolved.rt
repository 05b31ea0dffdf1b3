//! The variables of a project, with those that they hold put in.

ghost use Rattle.std.specs.Prelude.{◌≡◌, ◌++◌, IfOk, OnOk, option_map};
ghost use Rattle.fluent_project.specs.ReadingViews.{views};
ghost use Rattle.fluent_project.specs.Resolving.{pattern_of, read_by, resolved_views};

use crate::checks::has_no_wildcard;
use crate::faults::{FaultKind, FileError};
use crate::fields::{fault, in_table};
use crate::file::Setting;
use crate::normal::joined;
use crate::part::Part;
use crate::reading::{PatternError, Variable, is_same, parts_of, trimmed};
use std::alloc::{AllocError, Global};

/// A name and the parts that it stands for.
#[derive(Drop)]
pub struct Resolved<'f> {
    /// The name.
    pub name: &'f str,
    /// The parts.
    pub parts: Vec<Part>,
}

/// What the patterns of a file are read with: the folder that they begin at, and the variables.
#[derive(Clone, Copy)]
pub struct Variables<'v, 'f> {
    /// The folder.
    pub folder: &'v str,
    /// The variables, of which the first of a name counts.
    pub list: &'v [Resolved<'f>],
}

/// Variables with those that they hold put in. The first of a name counts, so those that are given
/// come before those of a file.
///
/// # Errors
/// [`FileError::Fault`]: a variable holds itself, one that isn't there, or a wildcard.
/// [`FileError::Memory`]: memory ran out.
pub fn variables_of<'f>(
    alloc: Global,
    given: &[Setting<'f>],
    own: &[Setting<'f>],
) -> Result<Vec<Resolved<'f>>, FileError<'f>> {
    let mut settings = Vec::new(alloc);
    push_new(given, &mut settings)?;
    push_new(own, &mut settings)?;
    resolve(alloc, &settings)
}

/// Appends those of these settings whose names aren't there yet.
fn push_new<'f>(more: &[Setting<'f>], settings: &mut Vec<Setting<'f>>) -> Result<(), AllocError> {
    for setting in more {
        if !is_among(settings, setting.name.as_bytes()) {
            settings.push(*setting)?;
        }
    }
    Ok(())
}

/// The same of settings. Each turn finds all whose variables were found before.
fn resolve<'f>(
    alloc: Global,
    settings: &[Setting<'f>],
) -> Result<Vec<Resolved<'f>>, FileError<'f>> {
    let mut found = Vec::new(alloc);
    for _ in 0..settings.len() {
        for setting in settings {
            push_resolved(alloc, *setting, &mut found)?;
        }
    }
    for setting in settings {
        if !has_name(&found, setting.name) {
            return Err(unresolved(alloc, &found, settings, *setting));
        }
    }
    Ok(found)
}

/// Whether a name is among those that are found.
fn has_name(found: &[Resolved<'_>], name: &str) -> bool {
    found.iter().any(|variable| is_same(variable.name.as_bytes(), name.as_bytes()))
}

/// Appends a variable, if it isn't there and all that it holds is.
fn push_resolved<'f>(
    alloc: Global,
    setting: Setting<'f>,
    found: &mut Vec<Resolved<'f>>,
) -> Result<(), FileError<'f>> {
    let name = setting.name;
    if has_name(found, name) {
        return Ok(());
    }
    let Some(parts) = parts_with(alloc, found, setting.value)? else {
        return Ok(());
    };
    if !has_no_wildcard(&parts) {
        return Err(fault(in_table("env", 0, name), FaultKind::HasWildcard));
    }
    found.push(Resolved { name, parts })?;
    Ok(())
}

/// The parts of a text, if all variables that it holds are there.
fn parts_with(
    alloc: Global,
    found: &[Resolved<'_>],
    text: &str,
) -> Result<Option<Vec<Part>>, AllocError>
    ensures { IfOk result (λ parts. option_map (λ parts. parts.items) parts ≡ read_by found.now text.now) }
{
    let variables = lent(alloc, found)?;
    match parts_of(alloc, &variables, text.as_bytes()) {
        Ok(parts) => Ok(Some(parts)),
        Err(PatternError::NoVariable(_)) => Ok(None),
        Err(PatternError::Memory) => Err(AllocError),
    }
}

/// Why a variable isn't found: it holds one that isn't there, or by others itself.
fn unresolved<'f>(
    alloc: Global,
    found: &[Resolved<'f>],
    settings: &[Setting<'f>],
    setting: Setting<'f>,
) -> FileError<'f> {
    let Ok(variables) = lent(alloc, found) else {
        return FileError::Memory;
    };
    let place = in_table("env", 0, setting.name);
    match parts_of(alloc, &variables, setting.value.as_bytes()) {
        Err(PatternError::NoVariable(rest)) if is_among(settings, name_in(rest)) => {
            fault(place, FaultKind::HoldsItself)
        }
        Err(PatternError::NoVariable(_)) => fault(place, FaultKind::NoVariable),
        _ => FileError::Memory,
    }
}

/// Whether one of these settings has a name.
fn is_among(settings: &[Setting<'_>], name: &[u8]) -> bool {
    settings
        .iter()
        .any(|setting| is_same(setting.name.as_bytes(), name))
}

/// The name in what follows an opening brace: up to the closing one, if there is one.
fn name_in(rest: &[u8]) -> &[u8] {
    match rest.iter().position(|byte| *byte == b'}') {
        Some(len) => trimmed(&rest[..len]),
        None => rest,
    }
}

/// The same variables, lent.
fn lent<'v>(alloc: Global, found: &'v [Resolved<'_>]) -> Result<Vec<Variable<'v>>, AllocError>
    ensures { IfOk result (λ variables. views variables.items ≡ resolved_views found.now) }
{
    let mut variables = Vec::with_capacity(alloc, found.len())?;
    push_lent(found, &mut variables)?;
    Ok(variables)
}

/// Appends these variables, lent.
fn push_lent<'v>(
    found: &'v [Resolved<'_>],
    variables: &mut Vec<Variable<'v>>,
) -> Result<(), AllocError>
    ensures { OnOk result (views variables.new.items
        ≡ views variables.old.items ++ resolved_views found.now) }
{
    match found {
        [] => Ok(()),
        [variable, rest @ ..] => {
            variables.push(Variable {
                name: variable.name.as_bytes(),
                parts: &variable.parts,
            })?;
            push_lent(rest, variables)
        }
    }
}

impl Variables<'_, '_> {
    /// A pattern with variables put in, joined to the folder: without `.`, `..` and slashes that
    /// follow each other. Nothing if it holds a variable that isn't there.
    ///
    /// # Errors
    /// [`AllocError`] if memory runs out; nothing is kept.
    pub(crate) fn pattern(&self, alloc: Global, text: &str) -> Result<Option<Vec<Part>>, AllocError>
        ensures { IfOk result (λ pattern. option_map (λ parts. parts.items) pattern ≡ pattern_of self.now text.now) }
    {
        match parts_with(alloc, self.list, text)? {
            Some(parts) => Ok(Some(joined(alloc, self.folder.as_bytes(), &parts)?)),
            None => Ok(None),
        }
    }
}
