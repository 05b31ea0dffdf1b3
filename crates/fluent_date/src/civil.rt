ghost use Rattle.std.specs.Prelude.{◌≡◌};
ghost use Rattle.fluent_date.specs.Calendar.{is_before_christ, weekday, weekday_number, year_of_era};
ghost use Rattle.fluent_date.specs.Civil.{date_of};

use crate::calendar::{Weekday, days_in, in_cycle, weekday_by};
use crate::error::DateError;

/// A date of the Gregorian calendar, which here also counts before it was made. The year 0 is 1 BC.
/// An earlier date is less than a later one.
///
/// ```no_run
/// let date = CivilDate::new(2026, 11, 28)?;
/// ```
#[derive(Clone, Copy, Debug, PartialEq, Eq, PartialOrd, Ord, Hash)]
pub struct CivilDate {
    year: i16,
    month: u8,
    day: u8,
}

impl CivilDate {
    /// The date of these numbers.
    ///
    /// # Errors
    /// [`DateError::Year`] if the year isn't from -9999 to 9999, otherwise [`DateError::Month`] if
    /// the month isn't from 1 to 12, and otherwise [`DateError::Day`] if the month has no such day.
    pub fn new(year: i16, month: u8, day: u8) -> Result<Self, DateError>
        ensures { result ≡ date_of year month day }
    {
        if year < -9999 || year > 9999 {
            return Err(DateError::Year);
        }
        if month < 1 || month > 12 {
            return Err(DateError::Month);
        }
        if day < 1 || day > days_in(year, month) {
            return Err(DateError::Day);
        }
        Ok(CivilDate { year, month, day })
    }

    /// The year, from -9999 to 9999.
    pub fn year(&self) -> i16
        ensures { result ≡ self.now.year }
    {
        self.year
    }

    /// The month, from 1 to 12.
    pub fn month(&self) -> u8
        ensures { result ≡ self.now.month }
    {
        self.month
    }

    /// The day of the month, from 1 to 31.
    pub fn day(&self) -> u8
        ensures { result ≡ self.now.day }
    {
        self.day
    }

    /// The day of the week.
    pub fn weekday(&self) -> Weekday
        ensures { weekday_number result ≡ weekday self.now.year self.now.month self.now.day }
    {
        // January and February count as months 13 and 14 of the year before.
        let year = in_cycle(self.year);
        if self.month < 3 {
            weekday_by(year + 399, self.month + 12, self.day)
        } else {
            weekday_by(year, self.month, self.day)
        }
    }

    /// Whether the date is before the year 1, so that its year is shown as one BC.
    pub fn is_before_christ(&self) -> bool
        ensures { result ≡ is_before_christ self.now.year }
    {
        self.year < 1
    }

    /// The year as it is counted in its era: 1 for the year 0, which is 1 BC, and 2 for the year
    /// -1.
    pub fn year_of_era(&self) -> u16
        ensures { result ≡ year_of_era self.now.year }
    {
        if self.year < 1 {
            self.year.unsigned_abs() + 1
        } else {
            self.year.cast_unsigned()
        }
    }
}
