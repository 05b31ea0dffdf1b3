ghost use Rattle.std.specs.Prelude.{◌≡◌, Some, None, MatchResult, IfOk, IsNone, IsOk, string_bytes, codes};
ghost use Rattle.fluent_number.specs.Number.{number_of};
ghost use Rattle.fluent_number.specs.Reading.{read_number};
ghost use Rattle.fluent_number.specs.Text.{number_text};

use crate::decimal::Decimal;
use crate::options::FluentNumberOptions;
use crate::reading::read;
use crate::writing::text_of;
use std::alloc::{AllocError, Global};
use std::error::Error;
use std::fmt;
use std::str::FromStr;

/// A number: its value, and how it is to be shown.
///
/// ```no_run
/// let number = FluentNumber::from_str("7.50")?;
/// println!(rt; "{}", number.as_string(alloc)?)?; // 7.50
/// ```
#[derive(Debug, Drop, PartialEq, Eq, Hash)]
pub struct FluentNumber {
    /// The value.
    pub value: Decimal,
    /// How it is to be shown.
    pub options: FluentNumberOptions,
}

impl FluentNumber {
    /// The number of this value and these options.
    pub fn new(value: Decimal, options: FluentNumberOptions) -> Self
        ensures value { result.value ≡ value }
        ensures options { result.options ≡ options }
    {
        FluentNumber { value, options }
    }

    /// A copy. Only the text of the option `currency` is allocated.
    ///
    /// # Errors
    /// [`AllocError`] if memory runs out; nothing is kept.
    pub fn try_clone(&self, alloc: Global) -> Result<Self, AllocError>
        ensures same { IfOk result (λ copy. number_of copy ≡ number_of self.now) }
        ensures succeeds { IsNone self.now.options.currency → IsOk result }
    {
        Ok(FluentNumber::new(self.value, self.options.try_clone(alloc)?))
    }

    /// The text of the number: a minus if it is negative, the whole part and, if there are any, a
    /// point and the digits after it without zeros at the end.
    ///
    /// If `minimum_fraction_digits` is set a point is always written, and zeros are added until
    /// this many digits follow it.
    ///
    /// # Errors
    /// [`AllocError`] if memory runs out; nothing is kept. A count that no memory holds is refused
    /// at once.
    #[tactic(auto, unfolding(crate::specs::Text::number_text))]
    pub fn as_string(&self, alloc: Global) -> Result<String, AllocError>
        ensures { IfOk result (λ text. string_bytes text ≡ number_text (number_of self.now)) }
    {
        text_of(alloc, self.value, self.options.minimum_fraction_digits)
    }
}

/// Reads a number: an optional sign, and digits with at most one point among them.
///
/// At least one digit is needed, at most 18 may follow the point, and the whole part has to be
/// below 2<sup>64</sup>. If there is a point, `minimum_fraction_digits` is the count of digits
/// after it; all other options have their defaults. Every other text is [`NotANumber`].
impl FromStr for FluentNumber {
    type Err = NotANumber;

    ghost from_str_gives = { λ text read. MatchResult read
        (λ number. read_number text ≡ Some (number_of number)) (λ _. read_number text ≡ None) };

    fn from_str(text: &str) -> Result<Self, NotANumber> {
        read(text).ok_or(NotANumber)
    }
}

/// A text that is no number.
///
/// ```
/// match FluentNumber::from_str(input) {
///     Ok(number) => Ok(Some(number.as_string(alloc)?)),
///     Err(NotANumber) => Ok(None),
/// }
/// ```
#[derive(Clone, Copy, Debug, PartialEq, Eq)]
pub struct NotANumber;

impl fmt::Display for NotANumber {
    ghost output = { λ _. Some (codes "not a number") };

    fn fmt<W: fmt::Write>(&self, f: &mut fmt::Formatter<W>) -> fmt::Result {
        f.write_str("not a number")
    }
}

impl Error for NotANumber {}
