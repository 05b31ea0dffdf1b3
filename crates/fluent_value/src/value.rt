//! What a value is, its copies and its equality.

ghost use Rattle.std.specs.Prelude.{◌≡◌, IfOk};
ghost use Rattle.std.proofs.Common.{rules};
ghost use Rattle.std.specs.Cmp.{partial_equiv_from_equiv};
ghost use Rattle.fluent_number.specs.contracts.number.FluentNumberPartialEq.TheImpl.Laws.{laws-law};
ghost use Rattle.fluent_value.specs.Equality.{value_eq-per};
ghost use Rattle.fluent_value.specs.Value.{number_or_text};
ghost use Rattle.fluent_value.specs.View.{value_view, value_eq};

use crate::custom::{FluentType, NoCustom};
use fluent_number::FluentNumber;
use std::alloc::{AllocError, Global};
use std::borrow::CowStr;

/// A value: an argument of a message, what a function takes or gives, or what a selector is
/// compared by.
///
/// ```
/// args.set("name", "Jane")?;
/// args.set("count", 3_u32)?;
/// args.set("amount", FluentValue::try_number("3.5"))?;
/// ```
#[derive(Debug, Drop)]
pub enum FluentValue<'a, C = NoCustom> {
    /// A text.
    String(CowStr<'a>),
    /// A number, and how it is to be shown.
    Number(FluentNumber),
    /// A value of the program's own type.
    Custom(C),
    /// No value. It is shown as nothing and equals nothing.
    None,
    /// What a missing or failed value is. It is shown as nothing and equals nothing.
    Error,
}

impl<'a, C: FluentType> FluentValue<'a, C> {
    /// The number that a text is, which asks for as many digits after the point as the text has, or
    /// else the text itself, borrowed. It doesn't allocate.
    ///
    /// ```
    /// args.set("amount", FluentValue::try_number("3.5"))?;
    /// ```
    pub fn try_number(text: &'a str) -> Self
        ensures { value_view C.meaning result ≡ number_or_text text.now }
    {
        match text.parse::<FluentNumber>() {
            Ok(number) => FluentValue::Number(number),
            Err(_) => FluentValue::String(CowStr::Borrowed(text)),
        }
    }

    /// The same value. A borrowed text stays borrowed.
    ///
    /// # Errors
    /// [`AllocError`] if memory runs out; nothing is kept.
    pub fn try_clone(&self, alloc: Global) -> Result<Self, AllocError>
        ensures { IfOk result (λ copy. value_view C.meaning copy ≡ value_view C.meaning self.now) }
    {
        match self {
            FluentValue::String(CowStr::Borrowed(text)) => {
                Ok(FluentValue::String(CowStr::Borrowed(*text)))
            }
            _ => self.into_owned(alloc),
        }
    }

    /// The same value, which borrows nothing.
    ///
    /// # Errors
    /// [`AllocError`] if memory runs out; nothing is kept.
    pub fn into_owned<'b>(&self, alloc: Global) -> Result<FluentValue<'b, C>, AllocError>
        ensures { IfOk result (λ copy. value_view C.meaning copy ≡ value_view C.meaning self.now) }
    {
        Ok(match self {
            FluentValue::String(text) => {
                FluentValue::String(CowStr::Owned(String::from_str(alloc, text.as_str())?))
            }
            FluentValue::Number(number) => FluentValue::Number(number.try_clone(alloc)?),
            FluentValue::Custom(custom) => FluentValue::Custom(custom.duplicate(alloc)?),
            FluentValue::None => FluentValue::None,
            FluentValue::Error => FluentValue::Error,
        })
    }
}

/// Texts are equal if they are the same, numbers if value and options are, values of the program's
/// own type by [`FluentType::equals`]. No other two values are equal: `None` and `Error` don't even
/// equal themselves.
impl<'a, C: FluentType> PartialEq for FluentValue<'a, C> {
    ghost eq = { value_eq C.meaning C.same ⟦<FluentNumber as PartialEq>⟧.eq };

    ghost laws = { value_eq-per C.meaning C.same _ (Prim.search (partial_equiv_from_equiv, rules))
        laws-law };

    fn eq(&self, other: &Self) -> bool {
        match (self, other) {
            (FluentValue::String(a), FluentValue::String(b)) => a.as_str() == b.as_str(),
            (FluentValue::Number(a), FluentValue::Number(b)) => a == b,
            (FluentValue::Custom(a), FluentValue::Custom(b)) => a.equals(b),
            _ => false,
        }
    }
}
