//! The arguments that a message is given.

ghost use Rattle.std.proofs.Props.{props};
ghost use Rattle.fluent_value.specs.Args.{IsAscending};
ghost use Rattle.fluent_value.specs.ArgsNames.{names_of};

mod calls;
mod into_iter;
mod iter;
mod options;
mod pairs;

use crate::custom::NoCustom;
use crate::value::FluentValue;
pub use into_iter::IntoIter;
pub use iter::Iter;
use std::borrow::CowStr;

/// A name and its value.
#[derive(Debug, Drop)]
struct Argument<'args, C> {
    name: CowStr<'args>,
    value: FluentValue<'args, C>,
}

/// The arguments of a message: values by their names, in the order of the names' bytes.
///
/// ```
/// let mut args = FluentArgs::new(alloc);
/// args.set("name", "John")?;
/// ```
#[derive(Debug, Drop)]
pub struct FluentArgs<'args, C = NoCustom> {
    arguments: Vec<Argument<'args, C>>,
    ghost ascending: { IsAscending (names_of arguments.items) } by { Prim.hlevel props },
}
