ghost use Rattle.std.specs.Prelude.{◌≡◌, Some, None};
ghost use Rattle.fluent_date.specs.Options.{no_options};

use crate::civil::CivilDate;
use crate::offset::Offset;
use crate::options::FluentDateTimeOptions;
use crate::time::TimeOfDay;

/// A date, its time if it has one, the offset of its clock if that is known, and how it is to be
/// shown.
///
/// The program converts time zones: a value has the date and the time that its clock shows. Two
/// values are equal if all of this is, the options too. They have no order, since a clock whose
/// offset isn't known shows no moment; dates and times of day have one.
///
/// ```no_run
/// let mut value: FluentDateTime = "2026-11-28T20:26:05+01:00".parse()?;
/// value.options.date_style = Some(DateStyle::Long);
/// ```
#[derive(Clone, Copy, Debug, PartialEq, Eq, Hash)]
pub struct FluentDateTime {
    /// The date that is shown.
    pub date: CivilDate,
    /// The time of day; `None` if the value is a day as such.
    pub time: Option<TimeOfDay>,
    /// How far the clock is from UTC; `None` if that isn't known.
    pub offset: Option<Offset>,
    /// How the value is to be shown.
    pub options: FluentDateTimeOptions,
}

impl FluentDateTime {
    /// A date and time on a clock of which nothing else is known, without options.
    pub fn new(date: CivilDate, time: TimeOfDay) -> Self
        ensures date { result.date ≡ date }
        ensures time { result.time ≡ Some time }
        ensures offset { result.offset ≡ None }
        ensures options { result.options ≡ no_options }
    {
        FluentDateTime {
            date,
            time: Some(time),
            offset: None,
            options: FluentDateTimeOptions::default(),
        }
    }

    /// A date without a time, without options.
    pub fn from_date(date: CivilDate) -> Self
        ensures date { result.date ≡ date }
        ensures time { result.time ≡ None }
        ensures offset { result.offset ≡ None }
        ensures options { result.options ≡ no_options }
    {
        FluentDateTime {
            date,
            time: None,
            offset: None,
            options: FluentDateTimeOptions::default(),
        }
    }
}
