//! Dates and times as each locale writes them.
//!
//! [`LocaleDates::for_tag`] finds how a locale writes dates by its tag, such as `de` or `pt-PT`.
//! The text of a date is defined in `specs/Writing.antt`, by the rules of ECMA-402's
//! `DateTimeFormat` and of UTS 35; the tables are generated from Unicode's CLDR.
//!
//! In messages a date is a value of the program's own, a [`DateTimeValue`]. The function
//! [`DATETIME`], which a bundle calls by a [`DateTimeFunction`], sets its options, and a
//! [`LocaleFormatter`] shows dates and numbers as a locale writes them.
#![tactic(auto)]

mod adjusting;
mod best;
mod dates;
mod fields;
mod formatter;
mod function;
mod items;
mod joining;
pub mod laws;
mod matching;
mod merging;
mod names;
mod numbers;
mod patterns;
mod places;
mod streaming;
mod value;
mod wanted;
mod writing;

pub use dates::LocaleDates;
pub use formatter::LocaleFormatter;
pub use function::{DATETIME, DateTimeFunction};
pub use merging::merge_named;
pub use value::DateTimeValue;
