ghost use Rattle.std.specs.Prelude.{Some};
ghost use Rattle.fluent_date.specs.Errors.{error_text};

use std::error::Error;
use std::fmt;

/// The first thing that is wrong with numbers or a text that make no date or time.
///
/// ```no_run
/// let date = CivilDate::new(2026, 2, 30); // Err(DateError::Day)
/// ```
#[derive(Clone, Copy, Debug, PartialEq, Eq)]
pub enum DateError {
    /// The year isn't from -9999 to 9999.
    Year,
    /// The month isn't from 1 to 12.
    Month,
    /// The month has no such day.
    Day,
    /// The hour isn't below 24.
    Hour,
    /// The minute isn't below 60.
    Minute,
    /// The second isn't below 60.
    Second,
    /// The nanosecond isn't below 1,000,000,000.
    Nanosecond,
    /// The offset is a day or more, or its minutes or seconds aren't below 60.
    Offset,
    /// The text isn't in the form that ISO 8601 has.
    Text,
}

impl fmt::Display for DateError {
    ghost output = { λ error. Some (error_text error) };

    fn fmt<W: fmt::Write>(&self, f: &mut fmt::Formatter<W>) -> fmt::Result {
        f.write_str(match self {
            DateError::Year => "the year isn't from -9999 to 9999",
            DateError::Month => "the month isn't from 1 to 12",
            DateError::Day => "the month has no such day",
            DateError::Hour => "the hour isn't below 24",
            DateError::Minute => "the minute isn't below 60",
            DateError::Second => "the second isn't below 60",
            DateError::Nanosecond => "the nanosecond isn't below 1000000000",
            DateError::Offset => "the offset isn't below a day",
            DateError::Text => "not a date in ISO 8601",
        })
    }
}

impl Error for DateError {}
