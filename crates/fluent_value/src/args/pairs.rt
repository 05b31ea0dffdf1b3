//! Arguments from pairs of a name and a value.

ghost use Rattle.std.specs.Prelude.{IfOk};
ghost use Rattle.std.specs.Iterator.{IsFinite};
ghost use Rattle.fluent_value.specs.ArgsSet.{DrainsInto};

use super::FluentArgs;
use crate::custom::FluentType;
use crate::value::FluentValue;
use std::alloc::{AllocError, Global};
use std::borrow::CowStr;

impl<'args, C: FluentType + Drop> FluentArgs<'args, C> {
    /// The arguments that these pairs of a name and a value give, set one after the other: of a
    /// name that comes twice the last value stands. Names and values are what
    /// [`set`](FluentArgs::set) takes.
    ///
    /// # Errors
    /// [`AllocError`] if memory runs out; nothing is kept.
    pub fn from_pairs<
        K: Into<CowStr<'args>>,
        V: Into<FluentValue<'args, C>>,
        I: Iterator<Item = (K, V)>,
    >(alloc: Global, pairs: I) -> Result<Self, AllocError>
        requires can { I.can_next pairs }
        requires ends { IsFinite (I.remaining pairs) }
        ensures { IfOk result (DrainsInto K.converts V.converts I.next_gives pairs C.meaning) }
    {
        let mut args = FluentArgs::new(alloc);
        'pairs: for (name, value) in pairs {
            args.set(name, value)?;
        }
        Ok(args)
    }
}
