//! All findings of the files of a catalog, and their report.
//!
//! [`report_files`] is what `ftl lint` calls, and `fluent_lint` for C: it reads every file once,
//! and takes time that is linear in the sources. But with a reference, a chain of n messages of
//! which each refers to the next takes n² steps, as the definition lists for each message all that
//! it leads to.
//!
//! [`language_findings`] finds what is wrong with the files of a language, each of which may be
//! translated from a file of a [`ReferenceCatalog`]: messages are compared within the two files,
//! and references are looked up in all files of the language. [`counts_of`] gives the counts of a
//! table, from what is found, and [`report_found`] reports it.
//!
//! `Findings.antt` of `lint_findings` says which findings there are, `specs/LintReport.antt` which
//! report, `specs/Pairs.antt` and `specs/Translated.antt` what is found in a language; and
//! `docs/reference/lint.md` has the rules in plain words.
#![tactic(auto)]

mod alike;
mod counts;
mod differences;
mod findings;
mod gaps;
mod ids;
mod known;
mod language;
pub mod laws;
mod lone;
mod looked;
mod message_places;
mod missing;
mod original;
mod own;
mod pairs;
mod read;
mod reference;
mod refers;
mod reported;
mod reports;
mod scopes;
mod silence;
mod table;
mod taken;
mod terms;
mod tiles;
mod totals;

pub use language::language_findings;
pub use lone::{missing_file, missing_locale};
pub use looked::Looked;
pub use original::{LanguageFindings, Messages, Original};
pub use read::{ReadFiles, read_files};
pub use reference::ReferenceCatalog;
pub use reported::keep_reported;
pub use reports::{Options, Output, Report, report_files, report_found};
pub use silence::hear;
pub use table::{Counts, counts_of};
pub use totals::push_totals;
