//! Dates and times as ISO 8601 writes them: `2026-11-28`, `2026-11-28T20:26:05.123+01:00`.
ghost use Rattle.std.specs.Prelude.{◌≡◌, ◌<◌, ◌≤◌, ◌*◌, ◌-◌, ◌^◌, IfSome, length, take};
ghost use Rattle.std.specs.Char.{is_ascii_digit};
ghost use Rattle.std.specs.List.{prefix_len};
ghost use Rattle.fluent_number.specs.Digits.{digits_worth};
ghost use Rattle.fluent_date.specs.Reading.{after_date, after_sign, clock, date, found_before, fraction, iso_value, odd_seconds, offset_parts, parts, read_before, seconds, signed_offset, two_digits, utc_only, zone};

use crate::civil::CivilDate;
use crate::date_time::FluentDateTime;
use crate::error::DateError;
use crate::offset::Offset;
use crate::time::TimeOfDay;
use std::str::FromStr;

/// The number that two digits are, and what is after them.
fn two_digits(text: &[u8]) -> Option<(u8, &[u8])>
    ensures value { found_before result ≡ two_digits text.now }
    ensures few { IfSome result (λ found. found.0 < 100) }
{
    match text {
        [a, b, rest @ ..] if a.is_ascii_digit() && b.is_ascii_digit() => {
            Some(((*a - b'0') * 10 + (*b - b'0'), rest))
        }
        _ => None,
    }
}

/// The number that two digits after a sign are, and what is after them.
fn after_sign(text: &[u8], sign: u8) -> Option<(u8, &[u8])>
    ensures value { found_before result ≡ after_sign text.now sign }
    ensures few { IfSome result (λ found. found.0 < 100) }
{
    match text {
        [first, rest @ ..] if *first == sign => two_digits(rest),
        _ => None,
    }
}

/// How many digits a text begins with, and the number that they write.
fn leading_digits(text: &[u8]) -> (usize, u64)
    requires { length text.now ≤ 10 }
    ensures count { result.0 ≡ prefix_len is_ascii_digit text.now }
    ensures worth { result.1 ≡ digits_worth (take (prefix_len is_ascii_digit text.now) text.now) }
    ensures small { result.1 < 10 ^ prefix_len is_ascii_digit text.now }
{
    let mut worth = 0_u64;
    for (count, &byte) in text.iter().enumerate() {
        if !byte.is_ascii_digit() {
            return (count, worth);
        }
        worth = worth * 10 + u64::from(byte - b'0');
    }
    (text.len(), worth)
}

/// The powers of ten up to that of eight digits.
const POWERS_OF_TEN: [u64; 9] = [
    1,
    10,
    100,
    1_000,
    10_000,
    100_000,
    1_000_000,
    10_000_000,
    100_000_000,
];

/// The nanoseconds that digits after a point are, of which there are one to nine.
fn nanoseconds(worth: u64, count: usize) -> u32
    requires { (worth < 10 ^ count) × ((1 ≤ count) × (count ≤ 9)) }
    ensures { result ≡ worth * 10 ^ (9 - count) }
{
    (worth * POWERS_OF_TEN[9 - count]) as u32
}

/// The nanoseconds that digits after a point are, of which there are one to nine, and what is after
/// them.
fn fraction(text: &[u8]) -> Option<(u32, &[u8])>
    ensures { found_before result ≡ fraction text.now }
{
    let (count, worth) = leading_digits(&text[..text.len().min(10)]);
    if count < 1 || count > 9 {
        return None;
    }
    Some((nanoseconds(worth, count), &text[count..]))
}

/// The date that a text begins with, `YYYY-MM-DD`.
fn date(text: &[u8]) -> Result<(CivilDate, &[u8]), DateError>
    ensures { read_before result ≡ date text.now }
{
    let (century, rest) = two_digits(text).ok_or(DateError::Text)?;
    let (year, rest) = two_digits(rest).ok_or(DateError::Text)?;
    let (month, rest) = after_sign(rest, b'-').ok_or(DateError::Text)?;
    let (day, rest) = after_sign(rest, b'-').ok_or(DateError::Text)?;
    let year = i16::from(century) * 100 + i16::from(year);
    Ok((CivilDate::new(year, month, day)?, rest))
}

/// The fraction of a second after a point or a comma, if it is there.
fn parts(text: &[u8]) -> Result<(u32, &[u8]), DateError>
    ensures { read_before result ≡ parts text.now }
{
    match text {
        [b'.' | b',', digits @ ..] => fraction(digits).ok_or(DateError::Text),
        _ => Ok((0, text)),
    }
}

/// Seconds after a colon, and their fraction, if they are there.
fn seconds(text: &[u8]) -> Result<((u8, u32), &[u8]), DateError>
    ensures { read_before result ≡ seconds text.now }
{
    match text {
        [b':', digits @ ..] => {
            let (second, rest) = two_digits(digits).ok_or(DateError::Text)?;
            let (nanosecond, rest) = parts(rest)?;
            Ok(((second, nanosecond), rest))
        }
        _ => Ok(((0, 0), text)),
    }
}

/// The time that a text begins with, `HH:MM`, with seconds and their parts if they are there.
fn clock(text: &[u8]) -> Result<(TimeOfDay, &[u8]), DateError>
    ensures { read_before result ≡ clock text.now }
{
    let (hour, rest) = two_digits(text).ok_or(DateError::Text)?;
    let (minute, rest) = after_sign(rest, b':').ok_or(DateError::Text)?;
    let ((second, nanosecond), rest) = seconds(rest)?;
    Ok((TimeOfDay::new(hour, minute, second, nanosecond)?, rest))
}

/// The seconds of an offset, which a text may end without.
fn odd_seconds(text: &[u8]) -> Option<(u8, &[u8])>
    ensures value { found_before result ≡ odd_seconds text.now }
    ensures few { IfSome result (λ found. found.0 < 100) }
{
    match text {
        [] => Some((0, text)),
        _ => after_sign(text, b':'),
    }
}

/// The offset of these numbers, if nothing is after them.
fn offset_of(
    is_negative: bool,
    hours: u8,
    minutes: u8,
    seconds: u8,
    rest: &[u8],
) -> Result<Offset, DateError>
    ensures { result ≡ offset_parts is_negative hours minutes seconds rest.now }
{
    if !rest.is_empty() {
        return Err(DateError::Text);
    }
    if minutes >= 60 || seconds >= 60 {
        return Err(DateError::Offset);
    }
    let size = u32::from(hours) * 3600 + u32::from(minutes) * 60 + u32::from(seconds);
    Offset::from_size(is_negative, size)
}

/// The offset that a text after its sign is: `HH:MM`, with seconds if they are there.
fn signed_offset(is_negative: bool, text: &[u8]) -> Result<Offset, DateError>
    ensures { result ≡ signed_offset is_negative text.now }
{
    let (hours, rest) = two_digits(text).ok_or(DateError::Text)?;
    let (minutes, rest) = after_sign(rest, b':').ok_or(DateError::Text)?;
    let (seconds, rest) = odd_seconds(rest).ok_or(DateError::Text)?;
    offset_of(is_negative, hours, minutes, seconds, rest)
}

/// No offset, if nothing is after the `Z`.
fn utc_only(rest: &[u8]) -> Result<Offset, DateError>
    ensures { result ≡ utc_only rest.now }
{
    if rest.is_empty() {
        Ok(Offset::UTC)
    } else {
        Err(DateError::Text)
    }
}

/// The offset that a text is: none, `Z`, or `+HH:MM` with seconds if they are there.
fn zone(text: &[u8]) -> Result<Option<Offset>, DateError>
    ensures { result ≡ zone text.now }
{
    let offset = match text {
        [] => return Ok(None),
        [b'Z' | b'z', rest @ ..] => utc_only(rest)?,
        [b'+', rest @ ..] => signed_offset(false, rest)?,
        [b'-', rest @ ..] => signed_offset(true, rest)?,
        _ => return Err(DateError::Text),
    };
    Ok(Some(offset))
}

/// The value of a date and of what is after it in a text.
fn after_date(date: CivilDate, text: &[u8]) -> Result<FluentDateTime, DateError>
    ensures { result ≡ after_date date text.now }
{
    match text {
        [] => Ok(FluentDateTime::from_date(date)),
        [b'T' | b't' | b' ', rest @ ..] => {
            let (time, rest) = clock(rest)?;
            let offset = zone(rest)?;
            Ok(FluentDateTime {
                offset,
                ..FluentDateTime::new(date, time)
            })
        }
        _ => Err(DateError::Text),
    }
}

/// Reads a date, and a time and an offset if they are there, as ISO 8601 has them: `2026-11-28`,
/// `2026-11-28T20:26`, `2026-11-28T20:26:05.123+01:00`.
///
/// The year has four digits. After the date is `T`, in either case, or a space; seconds and up to
/// nine digits of their fraction may follow the minutes, and `Z` or an offset may end the text.
/// Numbers that make no date or time are the error that their constructor has, and every other text
/// is [`DateError::Text`].
impl FromStr for FluentDateTime {
    type Err = DateError;

    ghost from_str_gives = { λ text read. read ≡ iso_value text };

    fn from_str(text: &str) -> Result<Self, DateError> {
        let (date, rest) = date(text.as_bytes())?;
        after_date(date, rest)
    }
}
