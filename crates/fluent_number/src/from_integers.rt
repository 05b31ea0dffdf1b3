//! Numbers from the integers of Rust.

ghost use Rattle.std.specs.Prelude.{◌≡◌, ◌+◌, ◌*◌, ◌^◌, ◌<◌, ◌↔◌, pos, unsigned_abs, IsSome, IfSome};
ghost use Rattle.fluent_number.specs.Decimal.{units_per_one, signed};
ghost use Rattle.fluent_number.specs.Number.{number_of, number_from_integer};

use crate::decimal::Decimal;
use crate::number::FluentNumber;
use crate::options::FluentNumberOptions;

impl FluentNumber {
    /// The number that a signed integer of 128 bits is, with default options; `None` if its
    /// absolute value is above 18446744073709551615, the greatest whole part.
    pub fn try_from_i128(n: i128) -> Option<Self>
        ensures some { IsSome result ↔ (unsigned_abs n < 2 ^ 64) }
        ensures value { IfSome result (λ number. number_of number ≡ number_from_integer n) }
    {
        let magnitude = u64::try_from(n.unsigned_abs()).ok()?;
        Some(integer(n < 0, magnitude))
    }

    /// The number that an unsigned integer of 128 bits is, with default options; `None` if it is
    /// above 18446744073709551615, the greatest whole part.
    pub fn try_from_u128(n: u128) -> Option<Self>
        ensures some { IsSome result ↔ (n < 2 ^ 64) }
        ensures value { IfSome result (λ number. number_of number ≡ number_from_integer (pos n)) }
    {
        let magnitude = u64::try_from(n).ok()?;
        Some(integer(false, magnitude))
    }
}

/// The integer of this sign and this absolute value, with default options.
fn integer(negative: bool, magnitude: u64) -> FluentNumber
    ensures { number_of result ≡ number_from_integer (signed negative magnitude) }
{
    FluentNumber::new(
        Decimal::integer(negative, magnitude),
        FluentNumberOptions::default(),
    )
}

/// The number that a signed integer is, with default options.
fn from_signed(n: i64) -> FluentNumber
    ensures { number_of result ≡ number_from_integer n }
{
    integer(n < 0, n.unsigned_abs())
}

/// The number that an unsigned integer is, with default options.
fn from_unsigned(n: u64) -> FluentNumber
    ensures { number_of result ≡ number_from_integer (pos n) }
{
    integer(false, n)
}

/// The integer, with default options.
impl From<i8> for FluentNumber {
    ghost from_gives = { λ n number. number_of number ≡ number_from_integer n };

    fn from(n: i8) -> Self {
        from_signed(i64::from(n))
    }
}

/// The integer, with default options.
impl From<&i8> for FluentNumber {
    ghost from_gives = { λ n number. number_of number ≡ number_from_integer n.now };

    fn from(n: &i8) -> Self {
        FluentNumber::from(*n)
    }
}

/// The integer, with default options.
impl From<i16> for FluentNumber {
    ghost from_gives = { λ n number. number_of number ≡ number_from_integer n };

    fn from(n: i16) -> Self {
        from_signed(i64::from(n))
    }
}

/// The integer, with default options.
impl From<&i16> for FluentNumber {
    ghost from_gives = { λ n number. number_of number ≡ number_from_integer n.now };

    fn from(n: &i16) -> Self {
        FluentNumber::from(*n)
    }
}

/// The integer, with default options.
impl From<i32> for FluentNumber {
    ghost from_gives = { λ n number. number_of number ≡ number_from_integer n };

    fn from(n: i32) -> Self {
        from_signed(i64::from(n))
    }
}

/// The integer, with default options.
impl From<&i32> for FluentNumber {
    ghost from_gives = { λ n number. number_of number ≡ number_from_integer n.now };

    fn from(n: &i32) -> Self {
        FluentNumber::from(*n)
    }
}

/// The integer, with default options.
impl From<i64> for FluentNumber {
    ghost from_gives = { λ n number. number_of number ≡ number_from_integer n };

    fn from(n: i64) -> Self {
        from_signed(n)
    }
}

/// The integer, with default options.
impl From<&i64> for FluentNumber {
    ghost from_gives = { λ n number. number_of number ≡ number_from_integer n.now };

    fn from(n: &i64) -> Self {
        FluentNumber::from(*n)
    }
}

/// The integer, with default options.
impl From<isize> for FluentNumber {
    ghost from_gives = { λ n number. number_of number ≡ number_from_integer n };

    fn from(n: isize) -> Self {
        from_signed(n as i64)
    }
}

/// The integer, with default options.
impl From<&isize> for FluentNumber {
    ghost from_gives = { λ n number. number_of number ≡ number_from_integer n.now };

    fn from(n: &isize) -> Self {
        FluentNumber::from(*n)
    }
}

/// The integer, with default options.
impl From<u8> for FluentNumber {
    ghost from_gives = { λ n number. number_of number ≡ number_from_integer (pos n) };

    fn from(n: u8) -> Self {
        from_unsigned(u64::from(n))
    }
}

/// The integer, with default options.
impl From<&u8> for FluentNumber {
    ghost from_gives = { λ n number. number_of number ≡ number_from_integer (pos n.now) };

    fn from(n: &u8) -> Self {
        FluentNumber::from(*n)
    }
}

/// The integer, with default options.
impl From<u16> for FluentNumber {
    ghost from_gives = { λ n number. number_of number ≡ number_from_integer (pos n) };

    fn from(n: u16) -> Self {
        from_unsigned(u64::from(n))
    }
}

/// The integer, with default options.
impl From<&u16> for FluentNumber {
    ghost from_gives = { λ n number. number_of number ≡ number_from_integer (pos n.now) };

    fn from(n: &u16) -> Self {
        FluentNumber::from(*n)
    }
}

/// The integer, with default options.
impl From<u32> for FluentNumber {
    ghost from_gives = { λ n number. number_of number ≡ number_from_integer (pos n) };

    fn from(n: u32) -> Self {
        from_unsigned(u64::from(n))
    }
}

/// The integer, with default options.
impl From<&u32> for FluentNumber {
    ghost from_gives = { λ n number. number_of number ≡ number_from_integer (pos n.now) };

    fn from(n: &u32) -> Self {
        FluentNumber::from(*n)
    }
}

/// The integer, with default options.
impl From<u64> for FluentNumber {
    ghost from_gives = { λ n number. number_of number ≡ number_from_integer (pos n) };

    fn from(n: u64) -> Self {
        from_unsigned(n)
    }
}

/// The integer, with default options.
impl From<&u64> for FluentNumber {
    ghost from_gives = { λ n number. number_of number ≡ number_from_integer (pos n.now) };

    fn from(n: &u64) -> Self {
        FluentNumber::from(*n)
    }
}

/// The integer, with default options.
impl From<usize> for FluentNumber {
    ghost from_gives = { λ n number. number_of number ≡ number_from_integer (pos n) };

    fn from(n: usize) -> Self {
        from_unsigned(n as u64)
    }
}

/// The integer, with default options.
impl From<&usize> for FluentNumber {
    ghost from_gives = { λ n number. number_of number ≡ number_from_integer (pos n.now) };

    fn from(n: &usize) -> Self {
        FluentNumber::from(*n)
    }
}
