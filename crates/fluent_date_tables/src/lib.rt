//! The tables that dates and times are written by, one row for all locales that write alike.
//!
//! [`row_for`] finds the number of a locale's row by a tag, [`row_numbered`] the row, and
//! [`text_numbered`], [`list_numbered`] and [`skeleton_numbered`] what a row has numbers of.
//! `tools/dates` writes the tables from Unicode's CLDR, and the same as definitions; each call is
//! proved to return what its definition does. [`part`] takes one name from a text of several.
#![tactic(auto)]

mod digits;
mod lists;
mod parts;
mod rows;
mod skeletons;
mod tables;
mod tags;
mod texts;

pub use lists::list_numbered;
pub use parts::part;
pub use tables::{Measures, Pair, Row, Skeleton, row_numbered, skeleton_numbered};
pub use tags::row_for;
pub use texts::text_numbered;
