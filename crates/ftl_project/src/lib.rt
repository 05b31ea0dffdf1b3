//! A project: its file, the files of its languages, and what `ftl` says of them.
//!
//! [`lint_project`] reports what is found in its reference and in each of its languages, and
//! [`project_status`] gives the table of what is counted. Both find the file of the project, or
//! take patterns in its place, and read each file once.
#![tactic(auto)]

mod baseline;
mod chosen;
mod config;
mod filtered;
mod groups;
mod json;
mod language;
mod loading;
mod locating;
mod planned;
mod project;
mod reference;
mod report;
mod sources;
mod table;
mod work;
mod wrong;

pub use baseline::write_baseline;
pub use work::{ProjectEnd, lint_project, project_status};
pub use wrong::ProjectError;
