//! Fluent for programs in C and Rust: the texts of messages, from a bundle that is kept
//! ([`fluent_bundle_new`]) or from sources, line by line ([`fluent_answer`]); which of a program's
//! languages suit a user ([`fluent_negotiate`]); what a source has, in numbers and by names; and
//! its tree as text, written back or as JSON, which is taken back, too.
//!
//! No call takes much of the machine's stack: a source or an answer that nests too deep for 1.5 MB
//! is refused as out of memory, so a thread with a stack of 2 MB can make each call. A bundle made
//! by [`fluent_bundle_new_within`] has another budget.
//!
//! A text that is returned is in memory of the library, which the caller frees by
//! [`fluent_free_text`]; a bundle is freed by [`fluent_bundle_free`]. A program that calls the
//! library links C's `malloc`, `realloc` and `free`, as `bindings/c/run.sh` does. `fluent_c.h`,
//! next to this crate's folder `src`, declares the calls for C.
#![tactic(auto)]

mod answering;
mod arguments;
mod buffers;
mod bundles;
mod calling;
mod counts;
mod dates;
mod files;
mod filling;
mod formatting;
mod gathering;
mod languages;
mod laws;
mod linting;
mod listing;
mod locales;
mod names;
mod nodes;
mod occurrences;
mod options;
mod outline;
mod patterns;
mod promised;
mod text;
mod threads;
mod tidying;
mod trees;
mod utf8;
mod variables;
mod version;
mod writing;

pub use answering::{FluentSource, fluent_answer, fluent_answer_plain};
pub use bundles::{
    fluent_bundle_errors, fluent_bundle_free, fluent_bundle_has, fluent_bundle_new,
    fluent_bundle_new_plain, fluent_bundle_new_within,
};
pub use calling::{fluent_bundle_call, fluent_bundle_new_calling};
pub use counts::{FluentCounts, fluent_parse, fluent_parse_runtime};
pub use dates::{FluentDate, fluent_write_date};
pub use files::FluentFile;
pub use fluent_kept::{
    FLUENT_DATETIME, FLUENT_DECIMAL, FLUENT_FLOAT, FLUENT_INTEGER, FLUENT_NO_VALUE, FLUENT_TEXT,
    FLUENT_UNSIGNED, FluentArgument, FluentBundle,
};
pub use formatting::fluent_bundle_format;
pub use gathering::fluent_bundle_calls;
pub use languages::fluent_negotiate;
pub use laws::plain_bundles_reply_alike;
pub use linting::{FluentLintOptions, fluent_lint};
pub use listing::{fluent_bundle_attributes, fluent_bundle_messages};
pub use locales::fluent_has_plural_rules;
pub use nodes::fluent_nodes;
pub use occurrences::fluent_occurrences;
pub use options::{FluentBundleOptions, fluent_bundle_new_with};
pub use outline::fluent_outline;
pub use patterns::{FluentPattern, fluent_bundle_find, fluent_bundle_write};
pub use text::{FluentText, fluent_free_text};
pub use threads::texts_are_send;
pub use tidying::{FluentPlace, fluent_tidy};
pub use trees::fluent_write_tree;
pub use variables::fluent_bundle_variables;
pub use version::fluent_version;
pub use writing::{fluent_write, fluent_write_json};

/// The version of the library: a million for the first number, a thousand for the second, and one
/// for the third.
pub const FLUENT_VERSION: u32 = 1000;
/// What a call returns that did what it is for. A source that was read may still have errors.
pub const FLUENT_READ: u32 = 0;
/// What a call returns that was given a text that isn't UTF-8.
pub const FLUENT_NOT_UTF8: u32 = 1;
/// What a call returns that was refused memory, or was asked for what nests too deep for its budget
/// of the machine's stack.
pub const FLUENT_NO_MEMORY: u32 = 2;
/// What a call returns whose locale is no tag of a language.
pub const FLUENT_UNKNOWN_LOCALE: u32 = 3;
/// What a call returns that asks for a message that isn't there.
pub const FLUENT_NO_MESSAGE: u32 = 4;
/// What a call returns that asks for a value or an attribute that the message doesn't have.
pub const FLUENT_NO_PATTERN: u32 = 5;
/// What a call returns that has an argument whose kind isn't known, whose decimal is no number, or
/// whose text is no date, that names no strategy, that has options of another size than
/// [`FLUENT_BUNDLE_OPTIONS_SIZE`], or whose numbers make no date.
pub const FLUENT_BAD_ARGUMENT: u32 = 6;
/// What a call returns that asks a bundle that isn't there.
pub const FLUENT_NO_BUNDLE: u32 = 7;
/// What [`fluent_lint`] returns if its report has an error, or if warnings count and it has one:
/// the report is there.
pub const FLUENT_HAS_ERRORS: u32 = 8;
/// What a call returns that is given a source with a stretch that can't be read.
pub const FLUENT_DAMAGED: u32 = 9;
/// What a call returns that is given a source with a carriage return that ends no line.
pub const FLUENT_CARRIAGE_RETURN: u32 = 10;
/// What a call returns whose source has no tidy text.
pub const FLUENT_NOT_TIDY: u32 = 11;
/// What a call returns that met a call of a function which has no answer yet: the text of that call
/// is there.
pub const FLUENT_CALL: u32 = 12;
/// What a call returns whose JSON text isn't JSON, is nested more than 127 deep, or has a number
/// past the range of a 64-bit float.
pub const FLUENT_NOT_JSON: u32 = 13;
/// What a call returns whose JSON text has a value that no tree has.
pub const FLUENT_NOT_TREE: u32 = 14;
/// What a call returns whose text has more bytes than it was given room for.
pub const FLUENT_NO_ROOM: u32 = 15;
/// The strategy that finds all languages that suit any of the user's.
pub const FLUENT_FILTERING: u32 = 0;
/// The strategy that finds the best language for each of the user's.
pub const FLUENT_MATCHING: u32 = 1;
/// The strategy that finds one language: the best for the first of the user's that any suits.
pub const FLUENT_LOOKUP: u32 = 2;
/// The size of [`FluentBundleOptions`] in bytes.
pub const FLUENT_BUNDLE_OPTIONS_SIZE: usize = 40;
