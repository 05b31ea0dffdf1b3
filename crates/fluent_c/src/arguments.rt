//! The arguments of a message, as a caller that isn't Rattle hands them over.

ghost use Rattle.std.specs.Prelude.{◌≡◌, [], IfErr, IfOk, OnOk, map};
ghost use Rattle.std.specs.List.Sorted.{IsPermutation, IsSortedByKey, IsStableByKey};
ghost use Rattle.fluent_run.specs.Dated.{dated_view};
ghost use Rattle.fluent_value.specs.Args.{all_set, order};
ghost use Rattle.fluent_c.specs.Arguments.{AreRefusedFor, AreTaken, IsRefusedFor, IsTaken, with_given};
ghost use Rattle.fluent_kept.specs.Given.{pair_of};
ghost use Rattle.fluent_c.specs.declared.arguments.ArgumentRefusal.TheVariants.{Memory};

use crate::utf8::text_in;
use fluent_dates::DateTimeValue;
use fluent_kept::{FluentArgument, value_of};
use fluent_value::FluentArgs;
use std::alloc::{AllocError, Global};
use std::borrow::CowStr;

/// Why arguments aren't taken.
#[derive(Clone, Copy)]
pub(crate) enum ArgumentRefusal {
    /// Memory ran out.
    Memory = 1,
    /// A name or a text isn't UTF-8.
    NotUtf8 = 2,
    /// A kind isn't known, a decimal is no number, or a text is no date.
    NoValue = 3,
}

impl From<AllocError> for ArgumentRefusal {
    ghost from_gives = { λ _ refusal. refusal ≡ Memory };

    fn from(_error: AllocError) -> ArgumentRefusal {
        ArgumentRefusal::Memory
    }
}

/// Sets an argument.
///
/// # Errors
/// [`ArgumentRefusal::NotUtf8`] if its name or its text isn't UTF-8, [`ArgumentRefusal::NoValue`]
/// if it has no value, and [`ArgumentRefusal::Memory`] if memory runs out; the arguments are
/// unchanged.
fn set<'a>(
    arguments: &mut FluentArgs<'a, DateTimeValue>,
    argument: &FluentArgument<'a>,
) -> Result<(), ArgumentRefusal>
    ensures set { OnOk result (dated_view arguments.new
        ≡ with_given argument.now (dated_view arguments.old)) }
    ensures taken { OnOk result (IsTaken argument.now) }
    ensures refused { IfErr result (IsRefusedFor argument.now) }
{
    let Some(name) = text_in(argument.name) else {
        return Err(ArgumentRefusal::NotUtf8);
    };
    let Some(text) = text_in(argument.text) else {
        return Err(ArgumentRefusal::NotUtf8);
    };
    let Some(value) = value_of(argument, text) else {
        return Err(ArgumentRefusal::NoValue);
    };
    match arguments.set(CowStr::Borrowed(name), value) {
        Ok(()) => Ok(()),
        Err(_) => Err(ArgumentRefusal::Memory),
    }
}

/// Sets arguments, one after the other.
///
/// # Errors
/// Those of [`set`], for the first argument that isn't taken.
fn set_all<'a>(
    alloc: Global,
    given: &[FluentArgument<'a>],
) -> Result<FluentArgs<'a, DateTimeValue>, ArgumentRefusal>
    ensures set { IfOk result (λ arguments. dated_view arguments
        ≡ all_set [] (map pair_of given.now)) }
    ensures taken { OnOk result (AreTaken given.now) }
    ensures refused { IfErr result (AreRefusedFor given.now) }
{
    let mut arguments = FluentArgs::new(alloc);
    for argument in given {
        set(&mut arguments, argument)?;
    }
    Ok(arguments)
}

/// Copies of arguments in the order of their names. Those of one name stay in their order.
///
/// # Errors
/// [`AllocError`] if memory runs out; nothing is kept.
fn in_order<'a>(
    alloc: Global,
    given: &[FluentArgument<'a>],
) -> Result<Vec<FluentArgument<'a>>, AllocError>
    ensures same { IfOk result (λ sorted. IsPermutation given.now sorted.items) }
    ensures in_order { IfOk result (λ sorted. IsSortedByKey (λ a. a.name.now) order sorted.items) }
    ensures stable { IfOk result
        (λ sorted. IsStableByKey (λ a. a.name.now) order given.now sorted.items) }
{
    let mut sorted = Vec::with_capacity(alloc, given.len())?;
    sorted.extend_from_slice(given)?;
    sorted.sort_by_key(|argument| argument.name)?;
    Ok(sorted)
}

/// More arguments than these are set in the order of their names: then none has to make room for
/// another.
pub(crate) const FEW: usize = 16;

/// The arguments by their names. Of arguments with one name the last counts.
///
/// # Errors
/// Those of [`set`], for an argument that isn't taken.
pub(crate) fn arguments_of<'a>(
    alloc: Global,
    given: &[FluentArgument<'a>],
) -> Result<FluentArgs<'a, DateTimeValue>, ArgumentRefusal>
    ensures set { IfOk result (λ arguments. dated_view arguments
        ≡ all_set [] (map pair_of given.now)) }
    ensures taken { OnOk result (AreTaken given.now) }
    ensures refused { IfErr result (AreRefusedFor given.now) }
{
    if given.len() <= FEW {
        return set_all(alloc, given);
    }
    let sorted = in_order(alloc, given)?;
    set_all(alloc, &sorted)
}
