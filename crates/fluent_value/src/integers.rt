//! Values from the integers of Rust: each is the number that it is, with default options.

ghost use Rattle.std.specs.Prelude.{◌≡◌, pos};
ghost use Rattle.fluent_number.specs.Number.{number_from_integer};
ghost use Rattle.fluent_value.specs.Value.{number as a_number};
ghost use Rattle.fluent_value.specs.View.{value_view};

use crate::custom::FluentType;
use crate::value::FluentValue;
use fluent_number::FluentNumber;

impl<'a, C: FluentType> From<i8> for FluentValue<'a, C> {
    ghost from_gives = { λ n value. value_view C.meaning value ≡ a_number (number_from_integer n) };

    fn from(n: i8) -> Self {
        FluentValue::Number(FluentNumber::from(n))
    }
}

impl<'a, C: FluentType> From<&i8> for FluentValue<'a, C> {
    ghost from_gives = { λ n value. value_view C.meaning value
        ≡ a_number (number_from_integer n.now) };

    fn from(n: &i8) -> Self {
        FluentValue::Number(FluentNumber::from(n))
    }
}

impl<'a, C: FluentType> From<i16> for FluentValue<'a, C> {
    ghost from_gives = { λ n value. value_view C.meaning value ≡ a_number (number_from_integer n) };

    fn from(n: i16) -> Self {
        FluentValue::Number(FluentNumber::from(n))
    }
}

impl<'a, C: FluentType> From<&i16> for FluentValue<'a, C> {
    ghost from_gives = { λ n value. value_view C.meaning value
        ≡ a_number (number_from_integer n.now) };

    fn from(n: &i16) -> Self {
        FluentValue::Number(FluentNumber::from(n))
    }
}

impl<'a, C: FluentType> From<i32> for FluentValue<'a, C> {
    ghost from_gives = { λ n value. value_view C.meaning value ≡ a_number (number_from_integer n) };

    fn from(n: i32) -> Self {
        FluentValue::Number(FluentNumber::from(n))
    }
}

impl<'a, C: FluentType> From<&i32> for FluentValue<'a, C> {
    ghost from_gives = { λ n value. value_view C.meaning value
        ≡ a_number (number_from_integer n.now) };

    fn from(n: &i32) -> Self {
        FluentValue::Number(FluentNumber::from(n))
    }
}

impl<'a, C: FluentType> From<i64> for FluentValue<'a, C> {
    ghost from_gives = { λ n value. value_view C.meaning value ≡ a_number (number_from_integer n) };

    fn from(n: i64) -> Self {
        FluentValue::Number(FluentNumber::from(n))
    }
}

impl<'a, C: FluentType> From<&i64> for FluentValue<'a, C> {
    ghost from_gives = { λ n value. value_view C.meaning value
        ≡ a_number (number_from_integer n.now) };

    fn from(n: &i64) -> Self {
        FluentValue::Number(FluentNumber::from(n))
    }
}

impl<'a, C: FluentType> From<isize> for FluentValue<'a, C> {
    ghost from_gives = { λ n value. value_view C.meaning value ≡ a_number (number_from_integer n) };

    fn from(n: isize) -> Self {
        FluentValue::Number(FluentNumber::from(n))
    }
}

impl<'a, C: FluentType> From<&isize> for FluentValue<'a, C> {
    ghost from_gives = { λ n value. value_view C.meaning value
        ≡ a_number (number_from_integer n.now) };

    fn from(n: &isize) -> Self {
        FluentValue::Number(FluentNumber::from(n))
    }
}

impl<'a, C: FluentType> From<u8> for FluentValue<'a, C> {
    ghost from_gives = { λ n value. value_view C.meaning value
        ≡ a_number (number_from_integer (pos n)) };

    fn from(n: u8) -> Self {
        FluentValue::Number(FluentNumber::from(n))
    }
}

impl<'a, C: FluentType> From<&u8> for FluentValue<'a, C> {
    ghost from_gives = { λ n value. value_view C.meaning value
        ≡ a_number (number_from_integer (pos n.now)) };

    fn from(n: &u8) -> Self {
        FluentValue::Number(FluentNumber::from(n))
    }
}

impl<'a, C: FluentType> From<u16> for FluentValue<'a, C> {
    ghost from_gives = { λ n value. value_view C.meaning value
        ≡ a_number (number_from_integer (pos n)) };

    fn from(n: u16) -> Self {
        FluentValue::Number(FluentNumber::from(n))
    }
}

impl<'a, C: FluentType> From<&u16> for FluentValue<'a, C> {
    ghost from_gives = { λ n value. value_view C.meaning value
        ≡ a_number (number_from_integer (pos n.now)) };

    fn from(n: &u16) -> Self {
        FluentValue::Number(FluentNumber::from(n))
    }
}

impl<'a, C: FluentType> From<u32> for FluentValue<'a, C> {
    ghost from_gives = { λ n value. value_view C.meaning value
        ≡ a_number (number_from_integer (pos n)) };

    fn from(n: u32) -> Self {
        FluentValue::Number(FluentNumber::from(n))
    }
}

impl<'a, C: FluentType> From<&u32> for FluentValue<'a, C> {
    ghost from_gives = { λ n value. value_view C.meaning value
        ≡ a_number (number_from_integer (pos n.now)) };

    fn from(n: &u32) -> Self {
        FluentValue::Number(FluentNumber::from(n))
    }
}

impl<'a, C: FluentType> From<u64> for FluentValue<'a, C> {
    ghost from_gives = { λ n value. value_view C.meaning value
        ≡ a_number (number_from_integer (pos n)) };

    fn from(n: u64) -> Self {
        FluentValue::Number(FluentNumber::from(n))
    }
}

impl<'a, C: FluentType> From<&u64> for FluentValue<'a, C> {
    ghost from_gives = { λ n value. value_view C.meaning value
        ≡ a_number (number_from_integer (pos n.now)) };

    fn from(n: &u64) -> Self {
        FluentValue::Number(FluentNumber::from(n))
    }
}

impl<'a, C: FluentType> From<usize> for FluentValue<'a, C> {
    ghost from_gives = { λ n value. value_view C.meaning value
        ≡ a_number (number_from_integer (pos n)) };

    fn from(n: usize) -> Self {
        FluentValue::Number(FluentNumber::from(n))
    }
}

impl<'a, C: FluentType> From<&usize> for FluentValue<'a, C> {
    ghost from_gives = { λ n value. value_view C.meaning value
        ≡ a_number (number_from_integer (pos n.now)) };

    fn from(n: &usize) -> Self {
        FluentValue::Number(FluentNumber::from(n))
    }
}
