//! How a date or time is to be shown.
ghost use Rattle.std.specs.Prelude.{◌≡◌, ◌&&◌};
ghost use Rattle.fluent_date.specs.Options.{has_component, has_style};

/// The width of a name.
///
/// ```no_run
/// options.weekday = Some(TextWidth::Short); // Sat
/// ```
#[derive(Clone, Copy, Debug, PartialEq, Eq, Hash)]
pub enum TextWidth {
    /// Mostly one letter, as `S`.
    Narrow,
    /// An abbreviation, as `Sat`.
    Short,
    /// The complete name, as `Saturday`.
    Long,
}

/// The width of a number.
///
/// ```no_run
/// options.day = Some(NumberWidth::TwoDigit); // 05
/// ```
#[derive(Clone, Copy, Debug, PartialEq, Eq, Hash)]
pub enum NumberWidth {
    /// As many digits as there are, as `5`.
    Numeric,
    /// Two digits, as `05`; of a year the last two.
    TwoDigit,
}

/// The width of a month, which is shown by its number or by its name.
///
/// ```no_run
/// options.month = Some(MonthWidth::Text(TextWidth::Long)); // November
/// ```
#[derive(Clone, Copy, Debug, PartialEq, Eq, Hash)]
pub enum MonthWidth {
    /// By its number.
    Number(NumberWidth),
    /// By its name.
    Text(TextWidth),
}

/// How the offset of a clock is named.
///
/// ```no_run
/// options.time_zone_name = Some(ZoneName::ShortOffset); // GMT+1
/// ```
#[derive(Clone, Copy, Debug, PartialEq, Eq, Hash)]
pub enum ZoneName {
    /// `UTC`, and any other offset as `GMT+1`.
    Short,
    /// The name of UTC, as `Coordinated Universal Time`, and any other offset as `GMT+01:00`.
    Long,
    /// `GMT+1`.
    ShortOffset,
    /// `GMT+01:00`.
    LongOffset,
    /// `GMT+1`, since a value has no zone.
    ShortGeneric,
    /// `GMT+01:00`, since a value has no zone.
    LongGeneric,
}

/// A style of dates or of times, which each locale has a pattern for.
///
/// ```no_run
/// options.date_style = Some(DateStyle::Long); // November 28, 2026
/// ```
#[derive(Clone, Copy, Debug, PartialEq, Eq, Hash)]
pub enum DateStyle {
    /// The longest, for a date with its weekday.
    Full,
    /// A date with the name of its month, a time with its zone.
    Long,
    /// A date with its month abbreviated, a time with seconds.
    Medium,
    /// The shortest, mostly in digits.
    Short,
}

/// How hours are counted.
///
/// ```no_run
/// options.hour_cycle = Some(HourCycle::H23);
/// ```
#[derive(Clone, Copy, Debug, PartialEq, Eq, Hash)]
pub enum HourCycle {
    /// From 0 to 11, twice a day.
    H11,
    /// 12, and then from 1 to 11, twice a day.
    H12,
    /// From 0 to 23.
    H23,
    /// 24, and then from 1 to 23.
    H24,
}

/// How a date or time is to be shown: by the styles of the locale, or by components.
///
/// If a style is set, only `hour_cycle` and `hour12` count of the other options. If no option is
/// set but `era` and `time_zone_name`, year, month and day are shown in digits, too.
///
/// ```no_run
/// value.options.year = Some(NumberWidth::Numeric);
/// value.options.month = Some(MonthWidth::Text(TextWidth::Long)); // November 2026
/// ```
#[derive(Clone, Copy, Debug, Default, PartialEq, Eq, Hash)]
pub struct FluentDateTimeOptions {
    /// The style of the date.
    pub date_style: Option<DateStyle>,
    /// The style of the time.
    pub time_style: Option<DateStyle>,
    /// How hours are counted, unless `hour12` is set.
    pub hour_cycle: Option<HourCycle>,
    /// Whether twelve hours are counted, as the locale does, or 24 from 0.
    pub hour12: Option<bool>,
    /// The width of the weekday.
    pub weekday: Option<TextWidth>,
    /// The width of the era.
    pub era: Option<TextWidth>,
    /// The width of the year.
    pub year: Option<NumberWidth>,
    /// The width of the month.
    pub month: Option<MonthWidth>,
    /// The width of the day of the month.
    pub day: Option<NumberWidth>,
    /// The width of the part of the day, as `at night`.
    pub day_period: Option<TextWidth>,
    /// The width of the hour.
    pub hour: Option<NumberWidth>,
    /// The width of the minute.
    pub minute: Option<NumberWidth>,
    /// The width of the second.
    pub second: Option<NumberWidth>,
    /// How many digits of the second's fraction are shown, from 1 to 3; more are 3.
    pub fractional_second_digits: Option<u8>,
    /// How the offset of the clock is named.
    pub time_zone_name: Option<ZoneName>,
}

impl FluentDateTimeOptions {
    /// Whether a style of dates or of times is set.
    pub fn has_style(&self) -> bool
        ensures { result ≡ has_style self.now }
    {
        self.date_style.is_some() || self.time_style.is_some()
    }

    /// Whether a style is set, and a component that it leaves out of account.
    pub fn is_conflicting(&self) -> bool
        ensures { result ≡ (has_style self.now && has_component self.now) }
    {
        self.has_style()
            && (self.weekday.is_some()
                || self.era.is_some()
                || self.year.is_some()
                || self.month.is_some()
                || self.day.is_some()
                || self.day_period.is_some()
                || self.hour.is_some()
                || self.minute.is_some()
                || self.second.is_some()
                || self.fractional_second_digits.is_some()
                || self.time_zone_name.is_some())
    }
}
