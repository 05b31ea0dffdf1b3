//! What stands in the bytes of a source, for readers that make a tree of it: tokens, lines and
//! escapes.
//!
//! A token is how many bytes it takes at the start of a text. [`line_table`] goes over a text once
//! and makes a [`Row`] for each line: where it begins and ends, how many spaces stand at its front,
//! whether it can begin an entry or ends a pattern, and whether it is plain, with no brace.
//! [`Lines`] looks rows up by place: the search begins at the line of the last one, so a reader
//! that goes forward passes over each row about once. [`unicode`] has the escapes of string
//! literals.
//!
//! What a line is, is defined in `fluent_grammar` (`Words`, `Lines`); `docs/reference/grammar.md`
//! has it in words.
#![tactic(auto)]

mod blanks;
mod comments;
mod cut;
mod escape;
mod first_bytes;
mod identifiers;
mod lanes;
mod lines;
mod lookup;
mod numbers;
mod patterns;
mod plain;
mod row;
mod strings;
mod sweep;
mod table;
mod unescape;
pub mod unicode;

pub use blanks::{blank_block_len, blank_inline_len, blank_len};
pub use comments::{comment_level, is_comment_line};
pub use cut::{from, front};
pub use first_bytes::{
    begins_arrow, begins_crlf, begins_literal, begins_number, begins_text, begins_value,
    begins_with, begins_with_letter, char_len,
};
pub use identifiers::identifier_len;
pub use lines::{ends_line, line_end_len, line_len};
pub use lookup::Lines;
pub use numbers::number_len;
pub use patterns::{pattern_ends, text_len};
pub use plain::{PlainLine, PlainLines};
pub use row::{Row, begins_entry};
pub use strings::{StringEnd, string_end};
pub use sweep::{FrontLine, LineMasks, measure_line};
pub use table::line_table;
