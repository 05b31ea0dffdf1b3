//! Answers a stream of request lines from Fluent sources: the whole of Fluent, from bytes to bytes.
//!
//! [`run`] reads the sources, and then answers each line of the input as soon as it is complete. A
//! line is an id, with a dot and the name of an attribute if that is asked for, then arguments
//! `name=value`, separated by tabs; `docs/reference/protocol.md` has the rules. What is written is
//! `answers` of `fluent_answers`, and nothing else.
#![tactic(auto)]

mod answering;
mod arguments;
mod caller;
mod catalog;
mod dated;
mod desk;
mod listing;
mod memory;
mod reply;
mod settings;

pub use answering::{run, run_before_exit};
pub use arguments::valued_arguments;
pub use caller::Caller;
pub use catalog::ids_of;
pub use dated::{DateTimeCaller, Dating};
pub use desk::Desk;
pub use fluent_serve::serve::RunError;
pub use fluent_serve::stream::{FromRead, FromWrite, Sink, Source};
pub use fluent_text::stack::StackBudget;
pub use memory::answers;
pub use reply::{Reply, resolve};
pub use settings::Settings;
