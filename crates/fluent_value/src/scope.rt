//! What values are compared and shown by.

ghost use Rattle.std.specs.Prelude.{◌≡◌, Bool, false, ℕ, List, Option, IfOk, IsNone, IsOkAnd, IsTrue};
ghost use Rattle.std.specs.Cow.{cow_str_bytes};
ghost use Rattle.fluent_value.specs.Matching.{Plurals};
ghost use Rattle.fluent_value.specs.OptionalText.{optional_bytes, Appends, SaysWhether};
ghost use Rattle.fluent_value.specs.Shown.{IsPlain, IsPlainBelow, KeepsTexts};
ghost use Rattle.fluent_value.specs.Value.{Value};
ghost use Rattle.fluent_value.specs.View.{value_view};

use crate::custom::FluentType;
use crate::value::FluentValue;
use fluent_number::{PluralCategory, PluralOperands, PluralRuleType};
use std::alloc::{AllocError, Global};
use std::borrow::CowStr;

/// What values are compared and shown by: a formatter, which may be absent, and a plural source. A
/// bundle is one, and so is a scope of it.
///
/// ```no_run
/// /// Whether 1 is `one` by the plural rules of a scope.
/// fn is_one<S: ValueScope<NoCustom>>(scope: &S) -> bool {
///     FluentValue::from("one").matches(&FluentValue::from(1_u8), scope)
/// }
/// ```
pub trait ValueScope<C: FluentType> {
    /// Whether a formatter is set.
    ghost has_formatter: { Self → Bool };

    /// The formatter's text of a value, if a formatter is set and answers one.
    ghost formatted: { Self → Value C.Meaning → Option (List ℕ) };

    /// The plural source.
    ghost plurals: { Self → Plurals };

    /// The text of a value of the program's own type.
    ghost shown: { Self → C.Meaning → List ℕ };

    /// The formatter's text of a value, if a formatter is set and answers one. If none is set the
    /// call doesn't allocate, and succeeds.
    ///
    /// # Errors
    /// [`AllocError`] if memory runs out; nothing is kept.
    fn format(&self, value: &FluentValue<'_, C>) -> Result<Option<String>, AllocError>
        ensures text { IfOk result (λ text. optional_bytes text
            ≡ formatted self.now (value_view C.meaning value.now)) }
        ensures unset { has_formatter self.now ≡ false → IsOkAnd result IsNone };

    /// Appends the formatter's text of a value, if a formatter is set and answers one, and says
    /// whether one was appended.
    ///
    /// # Errors
    /// [`AllocError`] if memory runs out; `out` may hold a part of the text.
    fn format_into(&self, out: &mut String, value: &FluentValue<'_, C>) -> Result<bool, AllocError>
        ensures found { SaysWhether result (formatted self.now (value_view C.meaning value.now)) }
        ensures text { Appends result out.old out.new
            (formatted self.now (value_view C.meaning value.now)) }
    {
        match self.format(value)? {
            Some(text) => {
                out.push_str(text.as_str())?;
                Ok(true)
            }
            None => Ok(false),
        }
    }

    /// Whether the rules of Fluent alone may show a value: a formatter, if one is set, changes
    /// nothing of its text. What may be shown so need not say so.
    fn is_plain(&self, value: &FluentValue<'_, C>) -> bool
        ensures { IsTrue result → IsPlain (formatted self.now) (value_view C.meaning value.now) }
    {
        let _value = value;
        false
    }

    /// Whether every text may be shown as it is.
    fn keeps_texts(&self) -> bool
        ensures { IsTrue result → KeepsTexts (formatted self.now) }
    {
        false
    }

    /// The bound below which a whole number without options may be shown by its digits alone.
    fn plain_below(&self) -> u64
        ensures { IsPlainBelow (formatted self.now) result }
    {
        0
    }

    /// The category of a number with these operands by these rules.
    fn category(&self, rule: PluralRuleType, operands: &PluralOperands) -> PluralCategory
        ensures { result ≡ plurals self.now rule operands.now };

    /// The text of a value of the program's own type.
    ///
    /// # Errors
    /// [`AllocError`] if memory runs out; nothing is kept.
    fn stringify(&self, custom: &C) -> Result<CowStr<'static>, AllocError>
        ensures { IfOk result (λ text. cow_str_bytes text
            ≡ shown self.now (C.meaning custom.now)) };

    /// The allocator of the texts that are made.
    fn alloc(&self) -> Global;
}
