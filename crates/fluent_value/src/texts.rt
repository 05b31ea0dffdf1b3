//! Values from texts, from numbers and from what may be absent.

ghost use Rattle.std.specs.Prelude.{◌≡◌, string_bytes};
ghost use Rattle.std.specs.Cow.{cow_str_bytes};
ghost use Rattle.fluent_number.specs.Number.{number_of};
ghost use Rattle.fluent_value.specs.Value.{text as a_text, number as a_number, none as no_value, from_option};
ghost use Rattle.fluent_value.specs.View.{value_view};

use crate::custom::FluentType;
use crate::value::FluentValue;
use fluent_number::FluentNumber;
use std::borrow::CowStr;

/// The text, owned.
impl<'a, C: FluentType> From<String> for FluentValue<'a, C> {
    ghost from_gives = { λ text value. value_view C.meaning value ≡ a_text (string_bytes text) };

    fn from(text: String) -> Self {
        FluentValue::String(CowStr::Owned(text))
    }
}

/// The text, borrowed.
impl<'a, C: FluentType> From<&'a String> for FluentValue<'a, C> {
    ghost from_gives = { λ text value. value_view C.meaning value
        ≡ a_text (string_bytes text.now) };

    fn from(text: &'a String) -> Self {
        FluentValue::String(CowStr::Borrowed(text.as_str()))
    }
}

/// The text, borrowed. It stays a text if it reads as a number: [`FluentValue::try_number`] makes a
/// number of it.
impl<'a, C: FluentType> From<&'a str> for FluentValue<'a, C> {
    ghost from_gives = { λ text value. value_view C.meaning value ≡ a_text text.now };

    fn from(text: &'a str) -> Self {
        FluentValue::String(CowStr::Borrowed(text))
    }
}

/// The text, borrowed or owned as it is.
impl<'a, C: FluentType> From<CowStr<'a>> for FluentValue<'a, C> {
    ghost from_gives = { λ text value. value_view C.meaning value ≡ a_text (cow_str_bytes text) };

    fn from(text: CowStr<'a>) -> Self {
        FluentValue::String(text)
    }
}

/// The number.
impl<'a, C: FluentType> From<FluentNumber> for FluentValue<'a, C> {
    ghost from_gives = { λ number value. value_view C.meaning value ≡ a_number (number_of number) };

    fn from(number: FluentNumber) -> Self {
        FluentValue::Number(number)
    }
}

/// The value of what is there, or [`FluentValue::None`].
impl<'a, C: FluentType, T: Into<FluentValue<'a, C>>> From<Option<T>> for FluentValue<'a, C> {
    ghost from_gives = { λ option value. from_option T.converts
        (λ v. value_view C.meaning v ≡ no_value) option value };

    fn from(option: Option<T>) -> Self {
        match option {
            Some(it) => it.into(),
            None => FluentValue::None,
        }
    }
}
