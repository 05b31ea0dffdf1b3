//! Options by the names and values that `DATETIME` has for them.
ghost use Rattle.std.specs.Prelude.{◌≡◌, option_map, option_copied};
ghost use Rattle.fluent_number.specs.Number.{number_of};
ghost use Rattle.fluent_date.specs.Merge.{cycle_named, digits_of, merged, month_name_named, month_width_named, named, newer, number_width_named, offset_name_named, style_named, text_width_named, truth_named, with_clock, with_date, with_parts, with_styles, zone_named};

use crate::options::{
    DateStyle, FluentDateTimeOptions, HourCycle, MonthWidth, NumberWidth, TextWidth, ZoneName,
};
use fluent_number::{FluentNumber, OptionSource};

/// The width of a name that a text names, or the old one.
fn text_width(text: Option<&str>, old: Option<TextWidth>) -> Option<TextWidth>
    ensures { result ≡ named text_width_named (option_copied text.entry) old }
{
    match text {
        Some("narrow") => Some(TextWidth::Narrow),
        Some("short") => Some(TextWidth::Short),
        Some("long") => Some(TextWidth::Long),
        _ => old,
    }
}

/// The width of a number that a text names, or the old one.
fn number_width(text: Option<&str>, old: Option<NumberWidth>) -> Option<NumberWidth>
    ensures { result ≡ named number_width_named (option_copied text.entry) old }
{
    match text {
        Some("numeric") => Some(NumberWidth::Numeric),
        Some("2-digit") => Some(NumberWidth::TwoDigit),
        _ => old,
    }
}

/// The width of a month's name that a text names, if it does.
fn month_name(text: &str) -> Option<MonthWidth>
    ensures { result ≡ month_name_named text.now }
{
    match text {
        "narrow" => Some(MonthWidth::Text(TextWidth::Narrow)),
        "short" => Some(MonthWidth::Text(TextWidth::Short)),
        "long" => Some(MonthWidth::Text(TextWidth::Long)),
        _ => None,
    }
}

/// The width of a month that a text names, or the old one.
fn month_width(text: Option<&str>, old: Option<MonthWidth>) -> Option<MonthWidth>
    ensures { result ≡ named month_width_named (option_copied text.entry) old }
{
    match text {
        Some("numeric") => Some(MonthWidth::Number(NumberWidth::Numeric)),
        Some("2-digit") => Some(MonthWidth::Number(NumberWidth::TwoDigit)),
        Some(name) => newer(month_name(name), old),
        None => old,
    }
}

/// The style that a text names, or the old one.
fn style(text: Option<&str>, old: Option<DateStyle>) -> Option<DateStyle>
    ensures { result ≡ named style_named (option_copied text.entry) old }
{
    match text {
        Some("full") => Some(DateStyle::Full),
        Some("long") => Some(DateStyle::Long),
        Some("medium") => Some(DateStyle::Medium),
        Some("short") => Some(DateStyle::Short),
        _ => old,
    }
}

/// The way to count hours that a text names, or the old one.
fn cycle(text: Option<&str>, old: Option<HourCycle>) -> Option<HourCycle>
    ensures { result ≡ named cycle_named (option_copied text.entry) old }
{
    match text {
        Some("h11") => Some(HourCycle::H11),
        Some("h12") => Some(HourCycle::H12),
        Some("h23") => Some(HourCycle::H23),
        Some("h24") => Some(HourCycle::H24),
        _ => old,
    }
}

/// The name of an offset, other than `short` and `long`, that a text names, if it does.
fn offset_name(text: &str) -> Option<ZoneName>
    ensures { result ≡ offset_name_named text.now }
{
    match text {
        "shortOffset" => Some(ZoneName::ShortOffset),
        "longOffset" => Some(ZoneName::LongOffset),
        "shortGeneric" => Some(ZoneName::ShortGeneric),
        "longGeneric" => Some(ZoneName::LongGeneric),
        _ => None,
    }
}

/// The name of an offset that a text names, or the old one.
fn zone_name(text: Option<&str>, old: Option<ZoneName>) -> Option<ZoneName>
    ensures { result ≡ named zone_named (option_copied text.entry) old }
{
    match text {
        Some("short") => Some(ZoneName::Short),
        Some("long") => Some(ZoneName::Long),
        Some(name) => newer(offset_name(name), old),
        None => old,
    }
}

/// The new value, or the old one if there is none.
fn newer<T: Copy + Drop>(new: Option<T>, old: Option<T>) -> Option<T>
    ensures { result ≡ newer new old }
{
    match new {
        Some(value) => Some(value),
        None => old,
    }
}

/// Whether a text is `true` or `false`, or the old value.
fn truth(text: Option<&str>, old: Option<bool>) -> Option<bool>
    ensures { result ≡ named truth_named (option_copied text.entry) old }
{
    match text {
        Some("true") => Some(true),
        Some("false") => Some(false),
        _ => old,
    }
}

/// The count of digits, from 1 to 3, that a number is, or the old one.
fn digits(number: Option<&FluentNumber>, old: Option<u8>) -> Option<u8>
    ensures { result ≡ named digits_of (option_map number_of (option_copied number.entry)) old }
{
    let Some(number) = number else {
        return old;
    };
    match usize::from(number) {
        1 => Some(1),
        2 => Some(2),
        3 => Some(3),
        _ => old,
    }
}

impl FluentDateTimeOptions {
    /// Sets each option that the source has under its key with a value that the option takes:
    /// `fractionalSecondDigits` by a number, of which the whole part counts, and all others by a
    /// text. Every other key and value changes nothing.
    pub fn merge<S: OptionSource>(&mut self, source: &S)
        ensures { self.new ≡ merged (S.text_under source.now) (S.number_under source.now) self.old }
    {
        self.merge_styles(source);
        self.merge_date(source);
        self.merge_clock(source);
        self.merge_parts(source);
    }

    /// Sets the styles, and how hours are counted.
    fn merge_styles<S: OptionSource>(&mut self, source: &S)
        ensures { self.new ≡ with_styles (S.text_under source.now) self.old }
    {
        self.date_style = style(source.text("dateStyle"), self.date_style);
        self.time_style = style(source.text("timeStyle"), self.time_style);
        self.hour_cycle = cycle(source.text("hourCycle"), self.hour_cycle);
        self.hour12 = truth(source.text("hour12"), self.hour12);
    }

    /// Sets the components of the date.
    fn merge_date<S: OptionSource>(&mut self, source: &S)
        ensures { self.new ≡ with_date (S.text_under source.now) self.old }
    {
        self.weekday = text_width(source.text("weekday"), self.weekday);
        self.era = text_width(source.text("era"), self.era);
        self.year = number_width(source.text("year"), self.year);
        self.month = month_width(source.text("month"), self.month);
        self.day = number_width(source.text("day"), self.day);
    }

    /// Sets the components of the time but the last two.
    fn merge_clock<S: OptionSource>(&mut self, source: &S)
        ensures { self.new ≡ with_clock (S.text_under source.now) self.old }
    {
        self.day_period = text_width(source.text("dayPeriod"), self.day_period);
        self.hour = number_width(source.text("hour"), self.hour);
        self.minute = number_width(source.text("minute"), self.minute);
        self.second = number_width(source.text("second"), self.second);
    }

    /// Sets the digits of a second's fraction, and how the offset is named.
    fn merge_parts<S: OptionSource>(&mut self, source: &S)
        ensures { self.new ≡ with_parts (S.text_under source.now) (S.number_under source.now)
            self.old }
    {
        let places = source.number("fractionalSecondDigits");
        self.fractional_second_digits = digits(places, self.fractional_second_digits);
        self.time_zone_name = zone_name(source.text("timeZoneName"), self.time_zone_name);
    }
}
