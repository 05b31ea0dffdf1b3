//! Going over arguments, in the order of their names.

ghost use Rattle.std.specs.Prelude.{◌≡◌, length};
ghost use Rattle.std.specs.Cow.{cow_str_bytes};
ghost use Rattle.std.specs.Iterator.{at_most};
ghost use Rattle.std.specs.Map.Iter.{TakesFirst};
ghost use Rattle.std.specs.Map.{keys_of};
ghost use Rattle.std.specs.Slice.Iter.{iter_rest};
ghost use Rattle.fluent_value.specs.Args.{IsAscending};
ghost use Rattle.fluent_value.specs.ArgsView.{args_view};
ghost use Rattle.fluent_value.specs.ArgsLeft.{left_view};
ghost use Rattle.fluent_value.specs.View.{value_view};

use super::{Argument, FluentArgs};
use crate::custom::FluentType;
use crate::value::FluentValue;
use std::slice;

/// The names and values of arguments, in the order of the names' bytes.
///
/// ```no_run
/// for (name, value) in args.iter() {
///     let is_number = matches!(value, FluentValue::Number(_));
///     println!(rt; "{name} {is_number}")?; // count true, then name false
/// }
/// ```
#[derive(Drop)]
pub struct Iter<'a, 'args, C> {
    left: slice::Iter<'a, Argument<'args, C>>,
}

impl<'args, C: FluentType> FluentArgs<'args, C> {
    /// The names and values, in the order of the names' bytes, each name once.
    pub fn iter(&self) -> Iter<'_, 'args, C>
        ensures all { left_view C.meaning result ≡ args_view C.meaning self.now }
        ensures ascending { IsAscending (keys_of (args_view C.meaning self.now)) }
    {
        Iter {
            left: self.arguments.iter(),
        }
    }
}

impl<'a, 'args, C: FluentType> Iterator for Iter<'a, 'args, C> {
    type Item = (&'a str, &'a FluentValue<'args, C>);

    ghost next_gives = { λ s given t. TakesFirst
        (λ item. (item.0.now, value_view C.meaning item.1.now)) (left_view C.meaning s) given
        (left_view C.meaning t) };

    ghost remaining = { λ s. at_most (length (iter_rest s.left)) };

    fn next(&mut self) -> Option<(&'a str, &'a FluentValue<'args, C>)> {
        let argument = self.left.next()?;
        Some((argument.name.as_str(), &argument.value))
    }
}
