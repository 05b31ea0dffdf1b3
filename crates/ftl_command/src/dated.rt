//! The text of a message with dates among its arguments.

ghost use Rattle.std.specs.Prelude.{◌≡◌, [], IfOk, OnOk, option_copied, option_map};
ghost use Rattle.std.specs.List.{flat_map, list_any};
ghost use Rattle.fluent_dates.specs.Lookup.{row_of};
ghost use Rattle.fluent_run.specs.Dated.{dated_view};
ghost use Rattle.fluent_serve.specs.RequestView.{argument_view, arguments_view};
ghost use Rattle.fluent_serve.specs.Requests.{argument_of};
ghost use Rattle.fluent_serve.specs.Text.{cut_at};
ghost use Rattle.fluent_serve.specs.Texts.{texts};
ghost use Rattle.fluent_value.specs.Args.{all_set};
ghost use Rattle.ftl_arguments.specs.CommandView.{format_view};
ghost use Rattle.ftl_command.specs.Dated.{colon, date_variable, dated_for, dates_asked, is_dated, values_of};
ghost use Rattle.ftl_command.specs.FormatView.{IsWrittenAs};
ghost use Rattle.ftl_command.specs.Plurals.{rules_view};

use crate::formatting::settings_of;
use crate::message::{Formatted, written};
use crate::plurals::RunRules;
use fluent_date::FluentDateTime;
use fluent_dates::{DateTimeValue, LocaleDates};
use fluent_run::{DateTimeCaller, Dating, StackBudget};
use fluent_value::{FluentArgs, FluentValue};
use ftl_arguments::Format;
use std::alloc::{AllocError, Global};
use std::borrow::CowStr;

/// Whether a date is among arguments, as `due:date=2026-11-28`.
pub(crate) fn has_date(arguments: &[(&str, &str)]) -> bool
    ensures { result ≡ list_any (λ a. is_dated (argument_view a)) arguments.now }
{
    arguments.iter().any(|argument| is_dated(argument))
}

/// Whether an argument is a date.
fn is_dated(argument: &(&str, &str)) -> bool
    ensures { result ≡ is_dated (argument_view argument.now) }
{
    date_variable(argument.0).is_some()
}

/// How the locale with this tag writes dates, if there is one and CLDR knows its language, and if
/// they aren't to be plain.
fn dates_of(locale: Option<&str>, plain: bool) -> Option<LocaleDates>
    ensures { row_of result ≡ dates_asked plain (option_copied locale.entry) }
{
    match locale {
        Some(tag) if !plain => LocaleDates::for_tag(tag),
        _ => None,
    }
}

/// The output for the message that is asked for with a date among the arguments: if a name ends in
/// `:date`, as `due:date`, the argument is the date of the variable `due`. A text that is no date
/// leaves its variable unset. Messages may call `DATETIME`.
///
/// # Errors
/// [`AllocError`] if memory runs out; nothing is kept.
pub(crate) fn format_dated(
    alloc: Global,
    format: &Format<'_>,
    rules: &RunRules,
    sources: &[&str],
) -> Result<Option<Formatted>, AllocError>
    ensures { IfOk result (IsWrittenAs
        (dated_for (rules_view rules.now) (format_view format.now) (texts sources.now))) }
{
    let dating = Dating {
        settings: settings_of(format, rules),
        dates: dates_of(format.locale, format.plain_numbers),
        plurals: &rules.plurals,
        caller: &DateTimeCaller,
        stack: StackBudget::PROGRAM,
        alloc,
    };
    let values = dated_arguments(alloc, &format.arguments)?;
    let reply = dating.format_sources(sources, format.id, format.attribute, &values)?;
    written(alloc, reply)
}

/// The variable whose value is a date, if an argument of this name sets one.
fn date_variable(name: &str) -> Option<&str>
    ensures { option_copied result ≡ date_variable name.now }
{
    let (variable, kind) = typed_name(name)?;
    if kind == "date" { Some(variable) } else { None }
}

/// The variable and the kind of its value, if the name of an argument has both.
fn typed_name(name: &str) -> Option<(&str, &str)>
    ensures { option_map argument_view result ≡ argument_of (λ s. s) (cut_at colon name.now) }
{
    name.split_once(':')
}

/// The values that arguments set. Of one name the last counts.
///
/// # Errors
/// [`AllocError`] if memory runs out; nothing is kept.
fn dated_arguments<'w>(
    alloc: Global,
    arguments: &[(&'w str, &'w str)],
) -> Result<FluentArgs<'w, DateTimeValue>, AllocError>
    ensures { IfOk result (λ values. dated_view values
        ≡ all_set [] (flat_map values_of (arguments_view arguments.now))) }
{
    let mut values = FluentArgs::new(alloc);
    for &(name, text) in arguments {
        set_dated(&mut values, name, text)?;
    }
    Ok(values)
}

/// Sets what an argument sets.
fn set_dated<'w>(
    values: &mut FluentArgs<'w, DateTimeValue>,
    name: &'w str,
    text: &'w str,
) -> Result<(), AllocError>
    ensures { OnOk result (dated_view values.new
        ≡ all_set (dated_view values.old) (values_of (name.now, text.now))) }
{
    let Some(variable) = date_variable(name) else {
        values.set_value(CowStr::Borrowed(name), FluentValue::try_number(text))?;
        return Ok(());
    };
    if let Ok(date) = text.parse::<FluentDateTime>() {
        let date = FluentValue::Custom(DateTimeValue(date));
        values.set_value(CowStr::Borrowed(variable), date)?;
    }
    Ok(())
}
