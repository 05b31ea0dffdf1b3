//! The command-line arguments of the program `ftl`, read by `clap`.
//!
//! [`command`] returns what the arguments ask for, an [`Invocation`]: a [`Command`], help, the
//! version or the explanation of a code. If they ask for nothing, a [`CommandError`] says what is
//! wrong with them.
#![tactic(auto)]

mod advising;
mod codes;
mod colours;
mod commands;
mod elsewhere;
mod errors;
mod explaining;
mod explanations;
mod formatting;
mod linting;
mod program;
mod projects;
mod reading;
mod refusals;
mod status;
mod tidying;
mod version;

pub use commands::{
    Command, Format, Invocation, Lint, ProjectLint, ProjectWords, Status, TableFormat, Tidy,
    TidyFiles,
};
pub use errors::CommandError;
pub use lint_report::Format as ReportFormat;
pub use linting::DATETIME;
pub use reading::command;
pub use version::VERSION;
