//! Projects: which files are the sources of which language, by patterns of paths, and the file of a
//! project, `l10n.toml`: what it says, and what is wrong with it.
//!
//! [`table_of`] reads the text of such a file, and [`file_of`] its tables, which are a
//! [`ProjectFile`]. Then [`rules_of`] has the patterns of its files, with variables put in, and
//! [`filters_of`] what becomes of files and messages that a language lacks. A [`Fault`] is at a
//! [`Place`], whose line [`line_of`] has. [`Tree::pairs`] says by the rules which files of a
//! language are translated from which.
#![tactic(auto)]

mod checks;
mod faults;
mod fields;
mod file;
mod filters;
mod folders;
pub mod laws;
mod links;
mod locales;
mod matching;
mod normal;
mod pairs;
mod part;
mod path_rules;
mod places;
mod putting;
mod reading;
mod relative;
mod resolved;
mod rules;
mod settings;
mod text;
mod values;
mod variables;
mod words;

pub use checks::{has_locale, has_no_wildcard, have_same_wildcards};
pub use faults::{Fault, FaultKind, FileError};
pub use file::{Action, Filter, Head, Links, PathRule, ProjectFile, Setting, Settings, file_of};
pub use filters::{FilterRule, Key, filters_of};
pub use folders::folder_of;
pub use links::linked_path;
pub use locales::{locale_in, with_star};
pub use matching::{after, is_match, is_none, texts_in};
pub use normal::{joined, normalised, plain_pattern};
pub use pairs::{Rule, Source, Tree, references_of};
pub use part::{Part, Wildcard};
pub use path_rules::rules_of;
pub use places::{Place, line_of};
pub use putting::path_of;
pub use reading::{PatternError, Variable, is_same, parts_of, trimmed};
pub use relative::relative_path;
pub use resolved::{Resolved, Variables, variables_of};
pub use text::{TextError, table_of};
pub use values::is_tag;
pub use words::push_fault;
