//! Options that the named arguments of a call set.

ghost use Rattle.std.specs.Prelude.{◌≡◌, option_copied, option_map};
ghost use Rattle.fluent_dates.specs.Called.{merged_by};
ghost use Rattle.fluent_dates.specs.Only.{only_view};
ghost use Rattle.fluent_value.specs.Args.{argument, number_of, text_of};
ghost use Rattle.fluent_value.specs.ArgsView.{args_view};
ghost use Rattle.fluent_value.specs.View.{value_view};

use crate::value::DateTimeValue;
use fluent_date::FluentDateTimeOptions;
use fluent_number::{FluentNumber, OptionSource};
use fluent_value::{FluentArgs, FluentValue};

/// The only one of a call's named arguments, as a source of options.
#[derive(Clone, Copy)]
struct Only<'a, 'n> {
    name: &'a str,
    value: &'a FluentValue<'n, DateTimeValue>,
}

impl<'a, 'n> Only<'a, 'n> {
    /// Its value, if it has this name.
    #[tactic(auto, using(crate::proofs::Alone::argument_alone))]
    fn get(&self, name: &str) -> Option<&'a FluentValue<'n, DateTimeValue>>
        ensures { option_map (value_view (λ c. c.0)) (option_copied result)
            ≡ argument name.now (only_view self.now) }
    {
        if name == self.name {
            Some(self.value)
        } else {
            None
        }
    }
}

impl<'a, 'n> OptionSource for Only<'a, 'n> {
    ghost text_under = { λ only name. text_of (argument name (only_view only)) };

    ghost number_under = { λ only name. number_of (argument name (only_view only)) };

    fn text(&self, key: &str) -> Option<&str> {
        match self.get(key) {
            Some(FluentValue::String(text)) => Some(text.as_str()),
            _ => None,
        }
    }

    fn number(&self, key: &str) -> Option<&FluentNumber> {
        match self.get(key) {
            Some(FluentValue::Number(number)) => Some(number),
            _ => None,
        }
    }
}

/// Sets each option that a named argument has a value for, as `DATETIME` does. It is
/// [`FluentDateTimeOptions::merge`], which takes less time here if there is at most one argument.
///
/// ```no_run
/// merge_named(&mut date.options, &arguments);
/// ```
pub fn merge_named(options: &mut FluentDateTimeOptions, named: &FluentArgs<'_, DateTimeValue>)
    ensures { options.new ≡ merged_by (args_view (λ c. c.0) named.now) options.old }
{
    let mut all = named.iter();
    let Some((name, value)) = all.next() else {
        return;
    };
    match all.next() {
        Some(_) => options.merge(named),
        None => options.merge(&Only { name, value }),
    }
}
