//! Taking arguments apart, in the order of their names.

ghost use Rattle.std.specs.Prelude.{◌≡◌, length};
ghost use Rattle.std.specs.Cow.{cow_str_bytes};
ghost use Rattle.std.specs.Iterator.{at_most};
ghost use Rattle.std.specs.Map.Iter.{TakesFirst};
ghost use Rattle.std.specs.Map.{keys_of};
ghost use Rattle.std.specs.Vec.Iter.{into_iter_len};
ghost use Rattle.fluent_value.specs.Args.{IsAscending};
ghost use Rattle.fluent_value.specs.ArgsView.{args_view};
ghost use Rattle.fluent_value.specs.ArgsOwned.{owned_view};
ghost use Rattle.fluent_value.specs.View.{value_view};

use super::{Argument, FluentArgs};
use crate::custom::FluentType;
use crate::value::FluentValue;
use std::borrow::CowStr;
use std::vec;

/// The names and values of arguments, owned, in the order of the names' bytes.
///
/// ```no_run
/// for (name, value) in args {
///     renamed.set_value(CowStr::Owned(format!(in alloc; "user-{name}")?), value)?;
/// }
/// ```
#[derive(Drop)]
pub struct IntoIter<'args, C> {
    left: vec::IntoIter<Argument<'args, C>>,
}

/// The names and values, in the order of the names' bytes, each name once.
impl<'args, C: FluentType + Drop> IntoIterator for FluentArgs<'args, C> {
    type Item = (CowStr<'args>, FluentValue<'args, C>);

    type IntoIter = IntoIter<'args, C>;

    ghost into_iter_gives = { λ args it. (owned_view C.meaning it ≡ args_view C.meaning args)
        × IsAscending (keys_of (owned_view C.meaning it)) };

    fn into_iter(self) -> IntoIter<'args, C> {
        IntoIter {
            left: self.arguments.into_iter(),
        }
    }
}

impl<'args, C: FluentType + Drop> Iterator for IntoIter<'args, C> {
    type Item = (CowStr<'args>, FluentValue<'args, C>);

    ghost next_gives = { λ s given t. TakesFirst
        (λ item. (cow_str_bytes item.0, value_view C.meaning item.1)) (owned_view C.meaning s) given
        (owned_view C.meaning t) };

    ghost remaining = { λ s. at_most (into_iter_len s.left) };

    fn next(&mut self) -> Option<(CowStr<'args>, FluentValue<'args, C>)> {
        let argument = self.left.next()?;
        Some((argument.name, argument.value))
    }
}
