ghost use Rattle.std.specs.Prelude.{◌≡◌};
ghost use Rattle.fluent_date.specs.Civil.{time_of};

use crate::error::DateError;

/// A time of day, to the nanosecond. An earlier time is less than a later one.
///
/// ```no_run
/// let time = TimeOfDay::new(20, 26, 5, 0)?; // 20:26:05
/// ```
#[derive(Clone, Copy, Debug, PartialEq, Eq, PartialOrd, Ord, Hash)]
pub struct TimeOfDay {
    hour: u8,
    minute: u8,
    second: u8,
    nanosecond: u32,
}

impl TimeOfDay {
    /// The time of these numbers.
    ///
    /// # Errors
    /// [`DateError::Hour`] if the hour isn't below 24, otherwise [`DateError::Minute`] or
    /// [`DateError::Second`] if one of these isn't below 60, and otherwise
    /// [`DateError::Nanosecond`] if the nanosecond isn't below 1,000,000,000.
    pub fn new(hour: u8, minute: u8, second: u8, nanosecond: u32) -> Result<Self, DateError>
        ensures { result ≡ time_of hour minute second nanosecond }
    {
        if hour >= 24 {
            return Err(DateError::Hour);
        }
        if minute >= 60 {
            return Err(DateError::Minute);
        }
        if second >= 60 {
            return Err(DateError::Second);
        }
        if nanosecond >= 1_000_000_000 {
            return Err(DateError::Nanosecond);
        }
        Ok(TimeOfDay {
            hour,
            minute,
            second,
            nanosecond,
        })
    }

    /// The hour, from 0 to 23.
    pub fn hour(&self) -> u8
        ensures { result ≡ self.now.hour }
    {
        self.hour
    }

    /// The minute, from 0 to 59.
    pub fn minute(&self) -> u8
        ensures { result ≡ self.now.minute }
    {
        self.minute
    }

    /// The second, from 0 to 59.
    pub fn second(&self) -> u8
        ensures { result ≡ self.now.second }
    {
        self.second
    }

    /// The part of the second, in nanoseconds, from 0 to 999,999,999.
    pub fn nanosecond(&self) -> u32
        ensures { result ≡ self.now.nanosecond }
    {
        self.nanosecond
    }
}
