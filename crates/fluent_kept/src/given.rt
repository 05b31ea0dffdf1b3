//! The arguments of a message, as a caller that isn't Rattle passes them.

ghost use Rattle.std.specs.Prelude.{◌≡◌, All, List};
ghost use Rattle.fluent_date.specs.declared.date_time.FluentDateTime.{FluentDateTime as Date};
ghost use Rattle.fluent_grammar.specs.Words.{Text};
ghost use Rattle.fluent_progress.specs.Resolves.{Appends};
ghost use Rattle.fluent_value.specs.Args.{argument};
ghost use Rattle.fluent_value.specs.Shown.{shown_text};
ghost use Rattle.fluent_value.specs.Value.{Value as Plain};
ghost use Rattle.fluent_value.specs.View.{value_view};
ghost use Rattle.fluent_kept.specs.Given.{HasTexts, IsAmong, date_given, float_given, found_value, given_view, meant, number_given, pair_of, value_given, value_seen};

use crate::{
    FLUENT_DATETIME, FLUENT_DECIMAL, FLUENT_FLOAT, FLUENT_INTEGER, FLUENT_NO_VALUE, FLUENT_TEXT,
    FLUENT_UNSIGNED,
};
use fluent_date::FluentDateTime;
use fluent_dates::DateTimeValue;
use fluent_number::{FluentNumber, FluentNumberOptions};
use fluent_progress::Lookup;
use fluent_value::{FluentValue, ValueScope};
use std::alloc::{AllocError, Global};
use std::borrow::CowStr;
use std::marker::Model;
use std::str::from_utf8_unchecked;

/// An argument: its name, and a text, a number or a date, as its kind says.
///
/// ```c
/// return (struct FluentArgument){
///     .name = bytes_of(name), .name_len = strlen(name), .text = bytes_of(""), .integer = integer, .kind = FLUENT_INTEGER};
/// ```
#[repr(C)]
#[derive(Clone, Copy)]
pub struct FluentArgument<'a> {
    pub name: &'a [u8],
    /// The text, also if it looks like a number, the decimal as it is written, or the date as ISO
    /// 8601 has it.
    pub text: &'a [u8],
    pub integer: i64,
    pub unsigned: u64,
    /// [`FLUENT_TEXT`], [`FLUENT_DECIMAL`], [`FLUENT_INTEGER`], [`FLUENT_UNSIGNED`],
    /// [`FLUENT_NO_VALUE`], [`FLUENT_FLOAT`] or [`FLUENT_DATETIME`].
    pub kind: u32,
}

/// The value of an argument whose text is UTF-8, or `None` if it has none.
pub fn value_of<'a>(
    argument: &FluentArgument<'a>,
    text: &'a str,
) -> Option<FluentValue<'a, DateTimeValue>>
    requires { text.now ≡ argument.now.text.now }
    ensures { value_seen result ≡ value_given argument.now }
{
    if argument.kind == FLUENT_TEXT {
        return Some(FluentValue::String(CowStr::Borrowed(text)));
    }
    if argument.kind == FLUENT_DECIMAL {
        return number_of(text);
    }
    if argument.kind == FLUENT_INTEGER {
        return Some(FluentValue::from(argument.integer));
    }
    if argument.kind == FLUENT_UNSIGNED {
        return Some(FluentValue::from(argument.unsigned));
    }
    if argument.kind == FLUENT_NO_VALUE {
        return Some(FluentValue::Error);
    }
    if argument.kind == FLUENT_FLOAT {
        return float_of(text);
    }
    if argument.kind == FLUENT_DATETIME {
        return date_of(text);
    }
    None
}

/// The number that a text is, if it is one.
fn number_of<'a>(text: &'a str) -> Option<FluentValue<'a, DateTimeValue>>
    ensures { value_seen result ≡ number_given text.now }
{
    match text.parse::<FluentNumber>() {
        Ok(number) => Some(FluentValue::Number(number)),
        Err(_) => None,
    }
}

/// The number that a text is, if it is one. Its digits don't say how many are shown.
fn float_of<'a>(text: &'a str) -> Option<FluentValue<'a, DateTimeValue>>
    ensures { value_seen result ≡ float_given text.now }
{
    match text.parse::<FluentNumber>() {
        Ok(number) => Some(FluentValue::Number(FluentNumber::new(
            number.value,
            FluentNumberOptions::default(),
        ))),
        Err(_) => None,
    }
}

/// The date that a text is, if it is one.
fn date_of<'a>(text: &'a str) -> Option<FluentValue<'a, DateTimeValue>>
    ensures { value_seen result ≡ date_given text.now }
{
    match text.parse::<FluentDateTime>() {
        Ok(date) => Some(FluentValue::Custom(DateTimeValue(date))),
        Err(_) => None,
    }
}

/// Arguments as they were passed, whose names and texts are UTF-8. Of those of one name the last
/// counts.
///
/// ```no_run
/// let question = Question::Write {
///     place: pattern.number,
///     id,
///     attribute,
///     arguments: Given::new(arguments),
/// };
/// ```
#[derive(Drop)]
pub struct Given<'a> {
    list: &'a [FluentArgument<'a>],
}

impl<'a> Model for Given<'a> {
    ghost Value = { List (Text × Plain Date) };

    ghost view = { λ given. given_view given.list.now };

    ghost invariant = { λ given. All HasTexts given.list.now };
}

impl<'a> Given<'a> {
    /// These arguments.
    pub fn new(list: &'a [FluentArgument<'a>]) -> Given<'a>
        requires { All HasTexts list.now }
        ensures { result ≡ given_view list.now }
    {
        Given { list }
    }
}

/// The last argument of a name.
fn last_named<'g, 'a>(list: &'g [FluentArgument<'a>], name: &str) -> Option<&'g FluentArgument<'a>>
    ensures last { found_value result ≡ argument name.now (given_view list.now) }
    ensures among { IsAmong list.now result }
{
    let mut place = list.len();
    while place > 0 {
        place -= 1;
        if list[place].name == name.as_bytes() {
            return Some(&list[place]);
        }
    }
    None
}

/// The value of an argument whose name and text are UTF-8: that of a variable without a value if it
/// has none.
fn value_in<'a>(argument: &FluentArgument<'a>) -> FluentValue<'a, DateTimeValue>
    requires { HasTexts argument.now }
    ensures { value_view (λ c. c.0) result ≡ (pair_of argument.now).1 }
{
    let text = unsafe { from_utf8_unchecked(argument.text) };
    value_of(argument, text).unwrap_or(FluentValue::None)
}

/// Appends the text of an argument whose name and text are UTF-8, in a frame of its own.
///
/// # Errors
/// [`AllocError`] if memory runs out; `out` may hold a part of the text.
#[inline(never)]
fn push_value<S: ValueScope<DateTimeValue>>(
    out: &mut String,
    scope: &S,
    argument: &FluentArgument<'_>,
) -> Result<(), AllocError>
    requires { HasTexts argument.now }
    ensures { Appends result out.old out.new
        (shown_text (S.formatted scope.now) (S.shown scope.now) (meant argument.now)) }
{
    value_in(argument).append_to(out, scope)
}

/// Appends the text of an argument whose name and text are UTF-8. Most texts are written as they
/// are.
///
/// # Errors
/// [`AllocError`] if memory runs out; `out` may hold a part of the text.
fn push_argument<S: ValueScope<DateTimeValue>>(
    out: &mut String,
    scope: &S,
    argument: &FluentArgument<'_>,
) -> Result<(), AllocError>
    requires { HasTexts argument.now }
    ensures { Appends result out.old out.new
        (shown_text (S.formatted scope.now) (S.shown scope.now) (meant argument.now)) }
{
    if argument.kind == FLUENT_TEXT && scope.keeps_texts() {
        return out.push_str(unsafe { from_utf8_unchecked(argument.text) });
    }
    push_value(out, scope, argument)
}

impl<'a> Lookup<DateTimeValue> for Given<'a> {
    ghost arguments = { λ given. given };

    fn write_argument<S: ValueScope<DateTimeValue>>(
        &self,
        out: &mut String,
        scope: &S,
        name: &str,
    ) -> Result<bool, AllocError> {
        match last_named(self.list, name) {
            Some(argument) => {
                push_argument(out, scope, argument)?;
                Ok(true)
            }
            None => Ok(false),
        }
    }

    #[inline(never)]
    fn argument_copy<'v>(
        &self,
        alloc: Global,
        name: &str,
    ) -> Result<Option<FluentValue<'v, DateTimeValue>>, AllocError> {
        match last_named(self.list, name) {
            Some(argument) => Ok(Some(value_in(argument).into_owned(alloc)?)),
            None => Ok(None),
        }
    }
}
