//! What the test crates have in common: rows, trials, which are made once more where memory is
//! refused, and the counts of those that were wrong.
#![tactic(auto)]

pub mod lines;
pub mod row;
pub mod tally;
pub mod trial;

pub use lines::{Lines, tell, try_lines};
pub use row::Row;
pub use tally::Tally;
pub use trial::{Trial, is_right_again};
