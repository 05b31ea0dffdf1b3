//! The command `ftl`: its commands, its files, its streams and its faults.
//!
//! [`program`] does what the command-line arguments ask for, and returns the status that it ends
//! with. These arguments are read by [`command`].
//!
//! The text of one message of Fluent sources, as `ftl format` writes it.
//!
//! [`format_message`] returns the text with a line feed, and a line for each error, as
//! `ftl: Unknown variable: $name`.
#![tactic(auto)]

pub mod borrowed;
pub mod checking;
pub mod commands;
mod dated;
pub mod ended;
pub mod fault;
pub mod files;
pub mod formatting;
pub mod in_place;
pub mod input;
pub mod linting;
mod meant;
mod message;
mod message_errors;
pub mod output;
pub mod plurals;
pub mod projects;
pub mod running;
pub mod telling;
pub mod terminals;
pub mod tidying;

pub use commands::{program, program_shown};
pub use ftl_arguments::{
    Command, CommandError, Format, Invocation, Lint, ProjectLint, ProjectWords, ReportFormat,
    Status, TableFormat, Tidy, TidyFiles, VERSION, command,
};
pub use message::{Formatted, format_message};
pub use terminals::{Terminals, are_for_people};
