//! Making, asking and changing arguments.

ghost use Rattle.std.specs.Prelude.{◌≡◌, ◌≤◌, [], IfOk, OnOk, OnErr, IsOk, length, option_map, option_copied};
ghost use Rattle.std.specs.List.Sorted.{IsSearchInRange};
ghost use Rattle.fluent_value.specs.Args.{argument};
ghost use Rattle.fluent_value.specs.ArgsNames.{IsPlaceOf};
ghost use Rattle.fluent_value.specs.ArgsSet.{HasName, PutsIn, SetsPair, SetsConverted};
ghost use Rattle.fluent_value.specs.ArgsView.{args_view, pairs_view};
ghost use Rattle.fluent_value.specs.View.{value_view};

use super::{Argument, FluentArgs};
use crate::custom::FluentType;
use crate::value::FluentValue;
use std::alloc::{AllocError, Global};
use std::borrow::CowStr;

impl<'args, C: FluentType> FluentArgs<'args, C> {
    /// No arguments. It doesn't allocate.
    pub fn new(alloc: Global) -> Self
        ensures { args_view C.meaning result ≡ [] }
    {
        FluentArgs {
            arguments: Vec::new(alloc),
        }
    }

    /// No arguments, with room for this many of them.
    ///
    /// # Errors
    /// [`AllocError`] if memory runs out; nothing is kept.
    pub fn with_capacity(alloc: Global, capacity: usize) -> Result<Self, AllocError>
        ensures { IfOk result (λ args. args_view C.meaning args ≡ []) }
    {
        Ok(FluentArgs {
            arguments: Vec::with_capacity(alloc, capacity)?,
        })
    }

    /// The value of a name.
    pub fn get(&self, name: &str) -> Option<&FluentValue<'args, C>>
        ensures { option_map (value_view C.meaning) (option_copied result)
            ≡ argument name.now (args_view C.meaning self.now) }
    {
        if self.arguments.len() <= FEW {
            return value_among(&self.arguments, name);
        }
        match self.place(name) {
            Ok(index) => Some(&self.arguments[index].value),
            Err(_) => None,
        }
    }

    /// Where the name stands, or where it would.
    fn place(&self, name: &str) -> Result<usize, usize>
        ensures range { IsSearchInRange result (length self.now.arguments.items) }
        ensures place { IsPlaceOf name.now self.now.arguments.items result }
    {
        self.arguments
            .binary_search_by(|argument| argument.name.as_str().cmp(name))
    }
}

/// Of no more arguments than these each is looked at for a name: most names differ in their
/// lengths.
const FEW: usize = 8;

/// The value of the first of these arguments that has a name.
fn value_among<'v, 'args, C: FluentType>(
    all: &'v [Argument<'args, C>],
    name: &str,
) -> Option<&'v FluentValue<'args, C>>
    ensures { option_map (value_view C.meaning) (option_copied result)
        ≡ argument name.now (pairs_view C.meaning all.now) }
{
    for argument in all {
        if name == argument.name.as_str() {
            return Some(&argument.value);
        }
    }
    None
}

/// Puts an argument in at an index. Only those after it are moved, of which there are none at the
/// end.
///
/// # Errors
/// [`AllocError`] if memory runs out; the arguments are unchanged.
fn put_in<'args, C: FluentType + Drop>(
    arguments: &mut Vec<Argument<'args, C>>,
    index: usize,
    argument: Argument<'args, C>,
) -> Result<(), AllocError>
    requires { index ≤ length arguments.old.items }
    ensures items { PutsIn result arguments.old.items arguments.new.items index argument.entry }
{
    if index == arguments.len() {
        arguments.push(argument)?;
    } else {
        arguments.insert(index, argument)?;
    }
    Ok(())
}

impl<'args, C: FluentType + Drop> FluentArgs<'args, C> {
    /// Gives a name a value, in the place of the one that it has, if it has one; then it doesn't
    /// allocate, and succeeds. A name is whatever converts to a [`CowStr`], and a value whatever
    /// converts to a [`FluentValue`]: `args.set("count", 3)`.
    ///
    /// ```
    /// args.set("name", "Jane")?;
    /// args.set("count", 3_u32)?;
    /// ```
    ///
    /// # Errors
    /// [`AllocError`] if memory runs out; the arguments are unchanged.
    pub fn set<K: Into<CowStr<'args>>, V: Into<FluentValue<'args, C>>>(
        &mut self,
        name: K,
        value: V,
    ) -> Result<(), AllocError>
        ensures ok { OnOk result (SetsConverted K.converts V.converts C.meaning self.old self.new
            (name, value)) }
        ensures refused { OnErr result (args_view C.meaning self.new ≡ args_view C.meaning self.old) }
        ensures succeeds { (it : _) × K.converts name it
            × (HasName C.meaning self.old it → IsOk result) }
    {
        self.set_value(name.into(), value.into())
    }

    /// Gives a name a value, as [`set`](FluentArgs::set) does, without a conversion. Code that is
    /// generic in the program's type of values sets a [`FluentValue`] by this call: no proof covers
    /// an identity conversion at a type that isn't known.
    ///
    /// # Errors
    /// [`AllocError`] if memory runs out; the arguments are unchanged.
    pub fn set_value(
        &mut self,
        name: CowStr<'args>,
        value: FluentValue<'args, C>,
    ) -> Result<(), AllocError>
        ensures ok { OnOk result (SetsPair C.meaning self.old self.new (name.entry, value.entry)) }
        ensures refused { OnErr result (args_view C.meaning self.new ≡ args_view C.meaning self.old) }
        ensures succeeds { HasName C.meaning self.old name.entry → IsOk result }
    {
        match self.place(name.as_str()) {
            Ok(index) => self.arguments[index].value = value,
            Err(index) => put_in(&mut self.arguments, index, Argument { name, value })?,
        }
        Ok(())
    }
}
