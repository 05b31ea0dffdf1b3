//! Arguments as options of a number.

ghost use Rattle.std.specs.Prelude.{◌≡◌};
ghost use Rattle.fluent_value.specs.Args.{argument, text_of, number_of};
ghost use Rattle.fluent_value.specs.ArgsView.{args_view};

use super::FluentArgs;
use crate::custom::FluentType;
use crate::value::FluentValue;
use fluent_number::{FluentNumber, OptionSource};

/// The text or the number that stands under a name.
impl<'args, C: FluentType> OptionSource for FluentArgs<'args, C> {
    ghost text_under = { λ args name. text_of (argument name (args_view C.meaning args)) };

    ghost number_under = { λ args name. number_of (argument name (args_view C.meaning args)) };

    fn text(&self, name: &str) -> Option<&str> {
        match self.get(name) {
            Some(FluentValue::String(text)) => Some(text.as_str()),
            _ => None,
        }
    }

    fn number(&self, name: &str) -> Option<&FluentNumber> {
        match self.get(name) {
            Some(FluentValue::Number(number)) => Some(number),
            _ => None,
        }
    }
}
