//! Taking steps, and looking at what each of them answers and leaves after.

use crate::bundle::{Bundle, read};
use crate::found::{Found, is_found};
use crate::rows::{Call, ROWS, Step};
use fluent_bundle::{
    AddFunctionError, AddResourceError, EnglishPlurals, EntryKind, FluentError, FluentResource,
};
use rows_common::Tally;
use std::alloc::{AllocError, Global};

/// What ids stand for.
type Ids<'a> = &'a [(&'static str, Found<'static>)];

/// Tries the steps of each row.
pub fn try_rows(alloc: Global) -> Tally {
    let mut tally = Tally::new();
    for steps in ROWS {
        match read_again(alloc, steps) {
            Ok(resources) => try_steps(alloc, steps, resources.as_slice(), &mut tally),
            Err(_) => tally.add(false),
        }
    }
    tally
}

/// A resource for each step. Where memory is refused, they are all read once more.
fn read_again(alloc: Global, steps: &[Step]) -> Result<Vec<FluentResource<'static>>, AllocError> {
    match read_all(alloc, steps) {
        Ok(resources) => Ok(resources),
        Err(_) => read_all(alloc, steps),
    }
}

/// A resource for each step, of no source where it adds none.
fn read_all(alloc: Global, steps: &[Step]) -> Result<Vec<FluentResource<'static>>, AllocError> {
    let mut resources = Vec::new(alloc);
    for step in steps {
        let source = match step.call {
            Call::Add(source) | Call::Override(source) => source,
            _ => "",
        };
        resources.push(read(alloc, source).ok_or(AllocError)?)?;
    }
    Ok(resources)
}

/// Takes the steps on a new bundle. Where memory is refused, the bundle has to be as before, and
/// the step is taken once more.
fn try_steps<'s>(
    alloc: Global,
    steps: &[Step],
    resources: &[FluentResource<'s>],
    tally: &mut Tally,
) {
    let mut bundle = Bundle::new(alloc, Vec::new(alloc), EnglishPlurals);
    let mut before: Ids<'static> = &[];
    for (step, resource) in steps.iter().zip(resources) {
        let mut answer = None;
        for _ in 0..2 {
            answer = match step.call {
                Call::Add(_) => answers_all(bundle.add_resource(resource), step),
                Call::Override(_) => answers_none(bundle.add_resource_overriding(resource), step),
                Call::Function(id, function) => answers_one(
                    bundle.add_function(id, function),
                    step,
                ),
                Call::Builtins => answers_one(bundle.add_builtins(), step),
            };
            if answer.is_some() || !is_as_before(&bundle, before, step.ids) {
                break;
            }
        }
        tally.add(answer == Some(true) && stands(&bundle, step.ids));
        before = step.ids;
    }
}

/// Whether each id stands for what it did; in a new bundle none stands for anything.
fn is_as_before(bundle: &Bundle<'_, '_>, before: Ids<'_>, ids: Ids<'_>) -> bool {
    if before.is_empty() {
        ids.iter()
            .all(|(id, _)| is_found(bundle, id, Found::Nothing))
    } else {
        stands(bundle, before)
    }
}

/// Whether each id stands for what it must.
fn stands(bundle: &Bundle<'_, '_>, ids: Ids<'_>) -> bool {
    ids.iter().all(|(id, what)| is_found(bundle, id, *what))
}

/// Whether a call told the notices of its step, or nothing where memory was refused.
fn answers_all(added: Result<(), AddResourceError>, step: &Step) -> Option<bool> {
    match added {
        Ok(()) => Some(step.notices.is_empty()),
        Err(AddResourceError::Overriding(told)) => Some(are_told(&told, step.notices)),
        Err(AddResourceError::Memory) => None,
    }
}

/// The same where there can be none.
fn answers_none(added: Result<(), AllocError>, step: &Step) -> Option<bool> {
    match added {
        Ok(()) => Some(step.notices.is_empty()),
        Err(_) => None,
    }
}

/// The same where there can be one.
fn answers_one(added: Result<(), AddFunctionError>, step: &Step) -> Option<bool> {
    match added {
        Ok(()) => Some(step.notices.is_empty()),
        Err(AddFunctionError::Overriding(told)) => Some(
            step.notices.len() == 1 && is_told(&told, step.notices.first()),
        ),
        Err(AddFunctionError::Memory) => None,
    }
}

/// Whether these notices were told, in this order.
fn are_told(told: &[FluentError], notices: &[(EntryKind, &str)]) -> bool {
    told.len() == notices.len()
        && told
            .iter()
            .zip(notices)
            .all(|(error, notice)| is_told(error, Some(notice)))
}

/// Whether an error is this notice.
fn is_told(error: &FluentError, notice: Option<&(EntryKind, &str)>) -> bool {
    match (error, notice) {
        (FluentError::Overriding { kind, id }, Some((wanted, name))) => kind == wanted
            && id.as_str() == *name,
        _ => false,
    }
}
