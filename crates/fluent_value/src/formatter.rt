//! Formatters: how a program shows values in its own way.

ghost use Rattle.std.specs.Prelude.{◌≡◌, ℕ, List, Option, None, IfOk, IsTrue};
ghost use Rattle.fluent_value.specs.OptionalText.{optional_bytes, Appends, SaysWhether};
ghost use Rattle.fluent_value.specs.Shown.{IsPlain, IsPlainBelow, KeepsTexts};
ghost use Rattle.fluent_value.specs.Value.{Value};
ghost use Rattle.fluent_value.specs.View.{value_view};

use crate::custom::FluentType;
use crate::value::FluentValue;
use std::alloc::{AllocError, Global};

/// What a program shows values by, before the rules of Fluent. It may ask the plural source `M`.
///
/// ```
/// impl<M> ValueFormatter<NoCustom, M> for Hidden {
///     ghost formats = { λ _ _ _. Some (codes "?") };
///
///     fn format(
///         &self,
///         alloc: Global,
///         _value: &FluentValue<'_, NoCustom>,
///         _plurals: &M,
///     ) -> Result<Option<String>, AllocError> {
///         Ok(Some(String::from_str(alloc, "?")?))
///     }
/// }
/// ```
pub trait ValueFormatter<C: FluentType, M> {
    /// The text of a value, if the formatter has one for it.
    ghost formats: { Self → M → Value C.Meaning → Option (List ℕ) };

    /// The text of a value, if the formatter has one for it.
    ///
    /// # Errors
    /// [`AllocError`] if memory runs out; nothing is kept.
    fn format(
        &self,
        alloc: Global,
        value: &FluentValue<'_, C>,
        plurals: &M,
    ) -> Result<Option<String>, AllocError>
        ensures { IfOk result (λ text. optional_bytes text
            ≡ formats self.now plurals.now (value_view C.meaning value.now)) };

    /// Appends the text of a value, if the formatter has one for it, and says whether it has.
    ///
    /// # Errors
    /// [`AllocError`] if memory runs out; `out` may hold a part of the text.
    fn format_into(
        &self,
        out: &mut String,
        alloc: Global,
        value: &FluentValue<'_, C>,
        plurals: &M,
    ) -> Result<bool, AllocError>
        ensures found { SaysWhether result
            (formats self.now plurals.now (value_view C.meaning value.now)) }
        ensures text { Appends result out.old out.new
            (formats self.now plurals.now (value_view C.meaning value.now)) }
    {
        match self.format(alloc, value, plurals)? {
            Some(text) => {
                out.push_str(text.as_str())?;
                Ok(true)
            }
            None => Ok(false),
        }
    }

    /// Whether the formatter changes nothing of a value's text, whatever the plural source: it has
    /// no text for it, or that of the rules of Fluent. A formatter need not say so.
    fn is_plain(&self, value: &FluentValue<'_, C>) -> bool
        ensures { IsTrue result → (plurals : M)
            → IsPlain (formats self.now plurals) (value_view C.meaning value.now) }
    {
        let _value = value;
        false
    }

    /// Whether the formatter changes no text.
    fn keeps_texts(&self) -> bool
        ensures { IsTrue result → (plurals : M) → KeepsTexts (formats self.now plurals) }
    {
        false
    }

    /// The bound below which the formatter shows a whole number without options by its digits
    /// alone, or has no text for it.
    fn plain_below(&self) -> u64
        ensures { (plurals : M) → IsPlainBelow (formats self.now plurals) result }
    {
        0
    }
}

/// The type that stands in for a program without a formatter. Its one value has no text for any
/// value.
///
/// ```
/// type Bundle<'r, 's> = FluentBundle<'r, 's, EnglishPlurals, Day, IsOpen, NoFormatter, NoTransform>;
/// ```
#[derive(Clone, Copy, Debug, PartialEq, Eq)]
pub struct NoFormatter;

impl<C: FluentType, M> ValueFormatter<C, M> for NoFormatter {
    ghost formats = { λ _ _ _. None };

    fn format(
        &self,
        _alloc: Global,
        _value: &FluentValue<'_, C>,
        _plurals: &M,
    ) -> Result<Option<String>, AllocError> {
        Ok(None)
    }

    fn is_plain(&self, _value: &FluentValue<'_, C>) -> bool {
        true
    }

    fn keeps_texts(&self) -> bool {
        true
    }

    fn plain_below(&self) -> u64 {
        u64::MAX
    }
}
