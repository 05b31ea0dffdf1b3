//! Findings as `ftl lint` writes them: for each a text for people, a line, an object of JSON, a
//! command of a GitHub workflow, a result of SARIF, or an issue of a report for GitLab.
//!
//! [`push_finding_text`] appends a finding for people:
//! `FILE:LINE:COLUMN: SEVERITY: ENTRY: TEXT [CODE]`, the line that it is on with a caret below it,
//! and its hint. Control characters and marks that change the direction of text are masked:
//! [`push_masked`] appends any text so. [`report`] writes all findings of a catalog in one
//! [`Format`], and a [`Summary`] for each file if there is a reference; [`summaries`] counts these.
//! [`has_failed`] says whether the status is that of a failure. [`text_codes`] are the codes of the
//! notes that are only shown if they are asked for.
//!
//! The texts are those of `Report.antt`, `ShownLine.antt`, `Output.antt` and `Summary.antt` in
//! `crates/lint_findings/specs`; `docs/reference/lint.md` shows them.
#![tactic(auto)]

mod commands;
mod counts;
mod excerpts;
mod files;
mod gitlab;
mod groups;
mod json;
mod lines;
mod listed;
mod masked;
mod reports;
mod sarif;
mod shown;
mod summary;

pub use files::{FileMessages, summaries};
pub use groups::text_codes;
pub use lines::{push_finding_line, severity_name};
pub use masked::push_masked;
pub use reports::{Format, has_failed, report};
pub use shown::push_finding_text;
pub use summary::Summary;
