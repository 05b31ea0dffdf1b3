//! The integers of Rust from numbers: what is after the point is dropped, and what a type can't
//! hold becomes its nearest end.

ghost use Rattle.std.specs.Prelude.{◌≡◌, ◌≤ℤ◌};
ghost use Rattle.fluent_number.specs.Conversion.{integer_within, signed_of, unsigned_of};

use crate::number::FluentNumber;

/// The integer from `low` to `high` that is nearest to the number's whole part with its sign.
fn within(number: &FluentNumber, low: i128, high: i128) -> i128
    requires { low ≤ℤ high }
    ensures value { result ≡ integer_within low high number.now.value }
    ensures lower_bound { low ≤ℤ result }
    ensures upper_bound { result ≤ℤ high }
{
    number.value.truncated().clamp(low, high)
}

/// Cut toward zero, and the nearest end if it doesn't fit.
impl From<&FluentNumber> for i8 {
    ghost from_gives = { λ number n. n ≡ signed_of 8 number.now.value };

    fn from(number: &FluentNumber) -> i8 {
        within(number, i8::MIN as i128, i8::MAX as i128) as i8
    }
}

/// Cut toward zero, and the nearest end if it doesn't fit.
impl From<FluentNumber> for i8 {
    ghost from_gives = { λ number n. n ≡ signed_of 8 number.value };

    fn from(number: FluentNumber) -> i8 {
        i8::from(&number)
    }
}

/// Cut toward zero, and the nearest end if it doesn't fit.
impl From<&FluentNumber> for i16 {
    ghost from_gives = { λ number n. n ≡ signed_of 16 number.now.value };

    fn from(number: &FluentNumber) -> i16 {
        within(number, i16::MIN as i128, i16::MAX as i128) as i16
    }
}

/// Cut toward zero, and the nearest end if it doesn't fit.
impl From<FluentNumber> for i16 {
    ghost from_gives = { λ number n. n ≡ signed_of 16 number.value };

    fn from(number: FluentNumber) -> i16 {
        i16::from(&number)
    }
}

/// Cut toward zero, and the nearest end if it doesn't fit.
impl From<&FluentNumber> for i32 {
    ghost from_gives = { λ number n. n ≡ signed_of 32 number.now.value };

    fn from(number: &FluentNumber) -> i32 {
        within(number, i32::MIN as i128, i32::MAX as i128) as i32
    }
}

/// Cut toward zero, and the nearest end if it doesn't fit.
impl From<FluentNumber> for i32 {
    ghost from_gives = { λ number n. n ≡ signed_of 32 number.value };

    fn from(number: FluentNumber) -> i32 {
        i32::from(&number)
    }
}

/// Cut toward zero, and the nearest end if it doesn't fit.
impl From<&FluentNumber> for i64 {
    ghost from_gives = { λ number n. n ≡ signed_of 64 number.now.value };

    fn from(number: &FluentNumber) -> i64 {
        within(number, i64::MIN as i128, i64::MAX as i128) as i64
    }
}

/// Cut toward zero, and the nearest end if it doesn't fit.
impl From<FluentNumber> for i64 {
    ghost from_gives = { λ number n. n ≡ signed_of 64 number.value };

    fn from(number: FluentNumber) -> i64 {
        i64::from(&number)
    }
}

/// Cut toward zero, and the nearest end if it doesn't fit.
impl From<&FluentNumber> for i128 {
    ghost from_gives = { λ number n. n ≡ signed_of 128 number.now.value };

    fn from(number: &FluentNumber) -> i128 {
        number.value.truncated()
    }
}

/// Cut toward zero, and the nearest end if it doesn't fit.
impl From<FluentNumber> for i128 {
    ghost from_gives = { λ number n. n ≡ signed_of 128 number.value };

    fn from(number: FluentNumber) -> i128 {
        i128::from(&number)
    }
}

/// Cut toward zero, and the nearest end if it doesn't fit.
impl From<&FluentNumber> for isize {
    ghost from_gives = { λ number n. n ≡ signed_of 64 number.now.value };

    fn from(number: &FluentNumber) -> isize {
        within(number, isize::MIN as i128, isize::MAX as i128) as isize
    }
}

/// Cut toward zero, and the nearest end if it doesn't fit.
impl From<FluentNumber> for isize {
    ghost from_gives = { λ number n. n ≡ signed_of 64 number.value };

    fn from(number: FluentNumber) -> isize {
        isize::from(&number)
    }
}

/// Cut toward zero, and the nearest end if it doesn't fit.
impl From<&FluentNumber> for u8 {
    ghost from_gives = { λ number n. n ≡ unsigned_of 8 number.now.value };

    fn from(number: &FluentNumber) -> u8 {
        within(number, 0, u8::MAX as i128) as u8
    }
}

/// Cut toward zero, and the nearest end if it doesn't fit.
impl From<FluentNumber> for u8 {
    ghost from_gives = { λ number n. n ≡ unsigned_of 8 number.value };

    fn from(number: FluentNumber) -> u8 {
        u8::from(&number)
    }
}

/// Cut toward zero, and the nearest end if it doesn't fit.
impl From<&FluentNumber> for u16 {
    ghost from_gives = { λ number n. n ≡ unsigned_of 16 number.now.value };

    fn from(number: &FluentNumber) -> u16 {
        within(number, 0, u16::MAX as i128) as u16
    }
}

/// Cut toward zero, and the nearest end if it doesn't fit.
impl From<FluentNumber> for u16 {
    ghost from_gives = { λ number n. n ≡ unsigned_of 16 number.value };

    fn from(number: FluentNumber) -> u16 {
        u16::from(&number)
    }
}

/// Cut toward zero, and the nearest end if it doesn't fit.
impl From<&FluentNumber> for u32 {
    ghost from_gives = { λ number n. n ≡ unsigned_of 32 number.now.value };

    fn from(number: &FluentNumber) -> u32 {
        within(number, 0, u32::MAX as i128) as u32
    }
}

/// Cut toward zero, and the nearest end if it doesn't fit.
impl From<FluentNumber> for u32 {
    ghost from_gives = { λ number n. n ≡ unsigned_of 32 number.value };

    fn from(number: FluentNumber) -> u32 {
        u32::from(&number)
    }
}

/// Cut toward zero, and the nearest end if it doesn't fit.
impl From<&FluentNumber> for u64 {
    ghost from_gives = { λ number n. n ≡ unsigned_of 64 number.now.value };

    fn from(number: &FluentNumber) -> u64 {
        within(number, 0, u64::MAX as i128) as u64
    }
}

/// Cut toward zero, and the nearest end if it doesn't fit.
impl From<FluentNumber> for u64 {
    ghost from_gives = { λ number n. n ≡ unsigned_of 64 number.value };

    fn from(number: FluentNumber) -> u64 {
        u64::from(&number)
    }
}

/// Cut toward zero, and the nearest end if it doesn't fit.
impl From<&FluentNumber> for u128 {
    ghost from_gives = { λ number n. n ≡ unsigned_of 128 number.now.value };

    fn from(number: &FluentNumber) -> u128 {
        number.value.truncated().max(0) as u128
    }
}

/// Cut toward zero, and the nearest end if it doesn't fit.
impl From<FluentNumber> for u128 {
    ghost from_gives = { λ number n. n ≡ unsigned_of 128 number.value };

    fn from(number: FluentNumber) -> u128 {
        u128::from(&number)
    }
}

/// Cut toward zero, and the nearest end if it doesn't fit.
impl From<&FluentNumber> for usize {
    ghost from_gives = { λ number n. n ≡ unsigned_of 64 number.now.value };

    fn from(number: &FluentNumber) -> usize {
        within(number, 0, usize::MAX as i128) as usize
    }
}

/// Cut toward zero, and the nearest end if it doesn't fit.
impl From<FluentNumber> for usize {
    ghost from_gives = { λ number n. n ≡ unsigned_of 64 number.value };

    fn from(number: FluentNumber) -> usize {
        usize::from(&number)
    }
}
