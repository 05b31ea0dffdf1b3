ghost use Rattle.std.specs.Prelude.{◌≡◌, ◌+◌, ◌*◌, ◌^◌, ◌<◌, ◌≤◌, ◌<ℤ◌, ◌↔◌, pos, unsigned_abs, IsTrue, IsSome, IfSome};
ghost use Rattle.fluent_number.specs.Decimal.{units_per_one, signed, whole_of, fraction_of};
ghost use Rattle.fluent_number.specs.Conversion.{from_integer, truncated};

use std::marker::Model;

/// How many digits a decimal has after its point.
pub(crate) const FRACTION_DIGITS: usize = 18;

/// How many units make one.
pub(crate) const UNITS_PER_ONE: u64 = 1_000_000_000_000_000_000;

/// The powers of ten up to that of all digits after the point.
const POWERS_OF_TEN: [u64; 19] = [
    1,
    10,
    100,
    1_000,
    10_000,
    100_000,
    1_000_000,
    10_000_000,
    100_000_000,
    1_000_000_000,
    10_000_000_000,
    100_000_000_000,
    1_000_000_000_000,
    10_000_000_000_000,
    100_000_000_000_000,
    1_000_000_000_000_000,
    10_000_000_000_000_000,
    100_000_000_000_000_000,
    UNITS_PER_ONE,
];

/// Ten to a power of at most 18.
pub(crate) fn power_of_ten(exponent: usize) -> u64
    requires { exponent ≤ 18 }
    ensures value { result ≡ 10 ^ exponent }
    ensures positive { 0 < result }
{
    POWERS_OF_TEN[exponent]
}

/// An exact decimal number: a sign, a whole part below 2<sup>64</sup>, and a fraction of at most 18
/// digits.
///
/// A contract sees it as an integer, the number of its units of 10<sup>-18</sup>. So zero has no
/// sign, and two decimals are equal if they are the same number.
///
/// ```no_run
/// let half = Decimal::from_parts(true, 2, 500_000_000_000_000_000).context("not a fraction")?;
/// let number = FluentNumber::new(half, FluentNumberOptions::default());
/// println!(rt; "{}", number.as_string(alloc)?)?; // -2.5
/// ```
#[derive(Clone, Copy, Debug, PartialEq, Eq, Hash)]
pub struct Decimal {
    negative: bool,
    whole: u64,
    fraction: u64,
}

impl Model for Decimal {
    ghost use Rattle.std.specs.Prelude.{ℤ, ◌+◌, ◌*◌, ◌/◌, ◌%◌, ◌<◌, ◌≡◌, true, unsigned_abs};
    ghost use Rattle.fluent_number.specs.Decimal.{units_per_one, signed, is_below_zero};

    ghost Value = { ℤ };

    ghost view = { λ d. signed d.negative (d.whole * units_per_one + d.fraction) };

    ghost invariant = { λ d. (d.fraction < units_per_one)
        × (d.negative ≡ true → 0 < d.whole + d.fraction) };

    ghost inverse = { λ z. record {
      negative = is_below_zero z;
      whole = unsigned_abs z / units_per_one;
      fraction = unsigned_abs z % units_per_one;
    } };

    ghost use Rattle.fluent_number.specs.Parts.{sign_of-signed, whole_of-signed, fraction_of-signed};

    ghost inverse_ok = { λ d h i. record {
      negative = sign_of-signed d.negative d.whole d.fraction h.1 i;
      whole = whole_of-signed d.negative d.whole d.fraction h.0 i;
      fraction = fraction_of-signed d.negative d.whole d.fraction h.0 i;
    } };
}

impl Decimal {
    /// The decimal with this sign, this whole part, and this fraction in units of 10<sup>-18</sup>;
    /// so one half has the fraction 500000000000000000. The sign of zero is dropped.
    ///
    /// It is `None` for a fraction of 10<sup>18</sup> or more, which is no part of one.
    pub fn from_parts(negative: bool, whole: u64, fraction: u64) -> Option<Self>
        ensures some { IsSome result ↔ (fraction < units_per_one) }
        ensures value { IfSome result (λ d. d ≡ signed negative
            (whole * units_per_one + fraction)) }
    {
        if fraction >= UNITS_PER_ONE {
            return None;
        }
        Some(Decimal {
            negative: negative && (whole > 0 || fraction > 0),
            whole,
            fraction,
        })
    }

    /// The integer of this sign and this absolute value.
    pub(crate) fn integer(negative: bool, magnitude: u64) -> Self
        ensures { result ≡ from_integer (signed negative magnitude) }
    {
        Decimal {
            negative: negative && magnitude > 0,
            whole: magnitude,
            fraction: 0,
        }
    }

    /// The same without its sign.
    pub(crate) fn abs(self) -> Self
        ensures { result ≡ pos (unsigned_abs self) }
    {
        Decimal {
            negative: false,
            whole: self.whole,
            fraction: self.fraction,
        }
    }

    /// The integer that is left if the digits after the point are dropped.
    pub(crate) fn truncated(self) -> i128
        ensures value { result ≡ truncated self }
        ensures small { unsigned_abs result < 2 ^ 64 }
    {
        let whole = i128::from(self.whole);
        if self.negative { -whole } else { whole }
    }

    /// Whether it is below zero.
    pub fn is_negative(self) -> bool
        ensures { IsTrue result ↔ (self <ℤ pos 0) }
    {
        self.negative
    }

    /// What stands before the point, without the sign.
    pub fn whole(self) -> u64
        ensures { result ≡ whole_of self }
    {
        self.whole
    }

    /// What is after the point, in units of 10<sup>-18</sup>.
    pub fn fraction(self) -> u64
        ensures value { result ≡ fraction_of self }
        ensures small { result < units_per_one }
    {
        self.fraction
    }
}
