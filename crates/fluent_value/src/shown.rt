//! The texts that values are shown as.

ghost use Rattle.std.specs.Prelude.{◌≡◌, ◌++◌, false, decimal, string_bytes, Ok, IfOk, IfSome, OnOk, OnErr, IsOkAnd};
ghost use Rattle.std.specs.Cow.{cow_str_bytes, IsBorrowedStr};
ghost use Rattle.fluent_number.specs.Number.{number_of};
ghost use Rattle.fluent_number.specs.Text.{number_text};
ghost use Rattle.fluent_value.specs.Lent.{IsBorrowedText};
ghost use Rattle.fluent_value.specs.Shown.{text_in, plain_text};
ghost use Rattle.fluent_value.specs.View.{value_view};
ghost use Rattle.fluent_value.specs.declared.value.FluentValue.TheVariants as of;

use crate::custom::FluentType;
use crate::scope::ValueScope;
use crate::value::FluentValue;
use fluent_number::FluentNumber;
use fluent_text::{TextWrite, WriteError};
use itoa::Buffer;
use std::alloc::{AllocError, Global};
use std::borrow::CowStr;

/// The whole number whose digits are all of a number's text, if that has no minus and no point.
fn digits_alone(number: &FluentNumber) -> Option<u64>
    ensures { IfSome result (λ whole. number_text (number_of number.now) ≡ decimal whole) }
{
    let least = number.options.minimum_fraction_digits;
    if least.is_some() || number.value.fraction() > 0 || number.value.is_negative() {
        return None;
    }
    Some(number.value.whole())
}

/// Writes the text of a number. Digits alone are written from a buffer, which takes no memory, in a
/// frame of its own: the frames of what resolves patterns are to stay small.
#[inline(never)]
fn write_number<W: TextWrite>(
    w: &mut W,
    number: &FluentNumber,
    alloc: Global,
) -> Result<(), WriteError>
    ensures written { OnOk result (W.text w.new ≡ W.text w.old ++ number_text (number_of number.now)) }
    ensures refused { OnErr result (W.text w.new ≡ W.text w.old) }
{
    match digits_alone(number) {
        Some(whole) => {
            let mut digits = Buffer::new();
            w.write_str(digits.format(whole))?;
        }
        None => w.write_str(number.as_string(alloc)?.as_str())?,
    }
    Ok(())
}

impl<'a, C: FluentType> FluentValue<'a, C> {
    /// Writes the text that the value is shown as: the formatter's if the scope has one that
    /// answers a text; otherwise a text as it is, a number by its digits and options, a value of
    /// the program's own type by the plural source, and nothing for `None` and `Error`.
    ///
    /// # Errors
    /// [`Writer`](WriteError::Writer) if the writer refuses the text,
    /// [`Memory`](WriteError::Memory) if memory runs out. Nothing is then written.
    pub fn write<W: TextWrite, S: ValueScope<C>>(
        &self,
        w: &mut W,
        scope: &S,
    ) -> Result<(), WriteError>
        ensures written { OnOk result (W.text w.new
            ≡ W.text w.old ++ text_in S.formatted S.shown scope.now C.meaning self.now) }
        ensures refused { OnErr result (W.text w.new ≡ W.text w.old) }
    {
        if scope.is_plain(self) {
            return self.write_plainly(w, scope);
        }
        match scope.format(self)? {
            Some(formatted) => w.write_str(formatted.as_str())?,
            None => self.write_plainly(w, scope)?,
        }
        Ok(())
    }

    /// Appends the same text to a `String`. A formatter that appends its text makes no other
    /// `String` for it.
    ///
    /// # Errors
    /// [`AllocError`] if memory runs out; `out` may hold a part of the text.
    pub fn append_to<S: ValueScope<C>>(&self, out: &mut String, scope: &S) -> Result<(), AllocError>
        ensures { OnOk result (string_bytes out.new
            ≡ string_bytes out.old ++ text_in S.formatted S.shown scope.now C.meaning self.now) }
    {
        if !scope.is_plain(self) && scope.format_into(out, self)? {
            return Ok(());
        }
        match self.write_plainly(out, scope) {
            Ok(()) => Ok(()),
            Err(_) => Err(AllocError),
        }
    }

    /// Writes the text that the value is shown as without a formatter.
    fn write_plainly<W: TextWrite, S: ValueScope<C>>(
        &self,
        w: &mut W,
        scope: &S,
    ) -> Result<(), WriteError>
        ensures written { OnOk result (W.text w.new
            ≡ W.text w.old ++ plain_text (S.shown scope.now) (value_view C.meaning self.now)) }
        ensures refused { OnErr result (W.text w.new ≡ W.text w.old) }
    {
        match self {
            FluentValue::String(text) => w.write_str(text.as_str())?,
            FluentValue::Number(number) => write_number(w, number, scope.alloc())?,
            FluentValue::Custom(custom) => w.write_str(scope.stringify(custom)?.as_str())?,
            FluentValue::None | FluentValue::Error => {}
        }
        Ok(())
    }

    /// The text that the value is shown as, as [`write`](FluentValue::write) writes it. If no
    /// formatter is set, a borrowed text stays borrowed, which doesn't allocate, and succeeds.
    ///
    /// # Errors
    /// [`AllocError`] if memory runs out; nothing is kept.
    pub fn as_string<S: ValueScope<C>>(&self, scope: &S) -> Result<CowStr<'a>, AllocError>
        ensures text { IfOk result (λ text. cow_str_bytes text
            ≡ text_in S.formatted S.shown scope.now C.meaning self.now) }
        ensures borrowed { S.has_formatter scope.now ≡ false → IsBorrowedText self.now
            → IsOkAnd result IsBorrowedStr }
    {
        if let Some(text) = scope.format(self)? {
            return Ok(CowStr::Owned(text));
        }
        Ok(match self {
            FluentValue::String(CowStr::Borrowed(text)) => CowStr::Borrowed(*text),
            FluentValue::String(CowStr::Owned(text)) => {
                CowStr::Owned(String::from_str(scope.alloc(), text.as_str())?)
            }
            FluentValue::Number(number) => CowStr::Owned(number.as_string(scope.alloc())?),
            FluentValue::Custom(custom) => scope.stringify(custom)?,
            FluentValue::None | FluentValue::Error => CowStr::Borrowed(""),
        })
    }
}

impl<'a, C: FluentType + Drop> FluentValue<'a, C> {
    /// The text that the value is shown as, as [`write`](FluentValue::write) writes it. If no
    /// formatter is set, a text is returned as it is, which doesn't allocate, and succeeds.
    ///
    /// # Errors
    /// [`AllocError`] if memory runs out; nothing is kept.
    pub fn into_string<S: ValueScope<C>>(self, scope: &S) -> Result<CowStr<'a>, AllocError>
        ensures text { IfOk result (λ text. cow_str_bytes text
            ≡ text_in S.formatted S.shown scope.now C.meaning self.entry) }
        ensures handed_back { (text : _) → S.has_formatter scope.now ≡ false
            → self.entry ≡ of.String text → result ≡ Ok text }
    {
        let formatted = scope.format(&self)?;
        match (formatted, self) {
            (Some(text), _) => Ok(CowStr::Owned(text)),
            (None, FluentValue::String(text)) => Ok(text),
            (None, FluentValue::Number(number)) => {
                Ok(CowStr::Owned(number.as_string(scope.alloc())?))
            }
            (None, FluentValue::Custom(custom)) => scope.stringify(&custom),
            (None, FluentValue::None | FluentValue::Error) => Ok(CowStr::Borrowed("")),
        }
    }
}
