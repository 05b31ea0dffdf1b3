//! Checks sources: the syntax errors of each, and the messages and terms whose id an earlier one
//! has.
//!
//! [`check`] reads all sources whole, once each and comments included, and gives a [`Report`].
//! [`check_text`] returns it as text: a line for each error of a source, as
//! `source 1: bytes 18..19: ExpectedToken`, and then a line for each message and term whose id was
//! there before it, as `Attempt to override an existing message: "hello".`
#![tactic(auto)]

mod error_lines;
mod notice_lines;
mod notices;
mod report;
mod report_text;
mod whole;

pub use report::{Report, check};
pub use report_text::check_text;
