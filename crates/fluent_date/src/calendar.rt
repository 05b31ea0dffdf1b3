//! The Gregorian calendar.
ghost use Rattle.std.specs.Prelude.{◌≡◌, ◌<◌};
ghost use Rattle.fluent_date.specs.Calendar.{days_in, in_cycle, is_leap, weekday_by, weekday_number};

/// A day of the week.
///
/// ```no_run
/// let date = CivilDate::new(2026, 11, 28)?;
/// let is_saturday = date.weekday() == Weekday::Saturday; // true
/// ```
#[derive(Clone, Copy, Debug, PartialEq, Eq, Hash)]
pub enum Weekday {
    /// The first day, as the tables of CLDR have it.
    Sunday,
    /// The day after Sunday.
    Monday,
    /// The day after Monday.
    Tuesday,
    /// The day after Tuesday.
    Wednesday,
    /// The day after Wednesday.
    Thursday,
    /// The day after Thursday.
    Friday,
    /// The day before Sunday.
    Saturday,
}

impl Weekday {
    /// How many days it is after Sunday, from 0 to 6.
    pub fn days_from_sunday(self) -> u8
        ensures value { result ≡ weekday_number self }
        ensures few { result < 7 }
    {
        match self {
            Weekday::Sunday => 0,
            Weekday::Monday => 1,
            Weekday::Tuesday => 2,
            Weekday::Wednesday => 3,
            Weekday::Thursday => 4,
            Weekday::Friday => 5,
            Weekday::Saturday => 6,
        }
    }
}

/// The weekday that is this number of days after Sunday.
fn weekday_numbered(days: u32) -> Weekday
    requires { days < 7 }
    ensures { weekday_number result ≡ days }
{
    match days {
        0 => Weekday::Sunday,
        1 => Weekday::Monday,
        2 => Weekday::Tuesday,
        3 => Weekday::Wednesday,
        4 => Weekday::Thursday,
        5 => Weekday::Friday,
        _ => Weekday::Saturday,
    }
}

/// Whether a year has 366 days.
pub(crate) fn is_leap(year: i16) -> bool
    ensures { result ≡ is_leap (in_cycle year) }
{
    year % 4 == 0 && (year % 100 != 0 || year % 400 == 0)
}

/// The number of days that a month has; 0 if there is no such month.
pub(crate) fn days_in(year: i16, month: u8) -> u8
    ensures { result ≡ days_in (in_cycle year) month }
{
    match month {
        1 | 3 | 5 | 7 | 8 | 10 | 12 => 31,
        4 | 6 | 9 | 11 => 30,
        2 => { if is_leap(year) { 29 } else { 28 } }
        _ => 0,
    }
}

/// A year modulo 400: the days of 400 years are complete weeks.
pub(crate) fn in_cycle(year: i16) -> u32
    ensures value { result ≡ in_cycle year }
    ensures below { result < 400 }
{
    u32::from(year.rem_euclid(400).cast_unsigned())
}

/// The weekday of a day in a month from March, 3, to February, 14, of the year in which it began.
pub(crate) fn weekday_by(year: u32, month: u8, day: u8) -> Weekday
    requires { year < 800 }
    ensures { weekday_number result ≡ weekday_by year month day }
{
    let days = u32::from(day) + 13 * (u32::from(month) + 1) / 5 + year + year / 4 - year / 100
        + year / 400
        + 6;
    weekday_numbered(days % 7)
}
