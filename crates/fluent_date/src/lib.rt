//! Dates and times as values: a civil date, a time of day, an offset from UTC, and how they are to
//! be shown.
//!
//! A [`FluentDateTime`] is a [`CivilDate`], the [`TimeOfDay`] if it has one, the [`Offset`] of its
//! clock from UTC if that is known, and [`FluentDateTimeOptions`]. Constructors refuse every value
//! that no calendar and no clock has, by a [`DateError`], `parse` reads a text of ISO 8601, and
//! [`as_iso_string`](FluentDateTime::as_iso_string) writes one.
#![tactic(auto)]

mod calendar;
mod civil;
mod date_time;
mod error;
pub mod laws;
mod merging;
mod offset;
mod options;
mod reading;
mod time;
mod writing;

pub use calendar::Weekday;
pub use civil::CivilDate;
pub use date_time::FluentDateTime;
pub use error::DateError;
pub use offset::Offset;
pub use options::{
    DateStyle, FluentDateTimeOptions, HourCycle, MonthWidth, NumberWidth, TextWidth, ZoneName,
};
pub use time::TimeOfDay;
