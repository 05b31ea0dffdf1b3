//! Resolving patterns, and formatting one pattern for one request.
//!
//! [`answer::answer`] returns the text of a pattern, and [`answer::write_answer`] writes it piece
//! by piece. Both take the caller's list of errors for the time of the call, and put it back with
//! those that were reported. A program that opens placeables itself calls
//! [`pattern::write_opened`], [`pattern::write_referred`] and the module [`steps`].
//!
//! Below them stand the functions that call each other: [`pattern::write_pattern`] writes a pattern
//! to a text, with the budget, the path and the errors that its [`Progress`] holds. A
//! [`Surroundings`] lends what it is resolved in for the call alone: ids, settings and the
//! arguments of the request may be the caller's own local values. Texts of patterns live as long as
//! their sources, and so do the values that expressions give: what comes from the request's
//! arguments is copied first. What enters no pattern is in `fluent_progress`. Contracts state what
//! each function writes or finds by the definitions of `fluent_meaning`, which speak of plain data.
//!
//! Values that nest past the budget of the machine's stack are refused as if memory ran out, which
//! the [`Progress`] notes, and [`answer::answer_within`] tells apart. A function that returns `Ok`
//! leaves as much of the stack open as before, so values side by side take none.
//!
//! [`Surroundings`]: fluent_progress::Surroundings
//! [`Progress`]: fluent_progress::Progress
#![tactic(auto)]

pub mod answer;
pub mod arguments;
pub mod expression;
mod fault;
pub mod pattern;
pub mod steps;
pub mod value;
mod written;

pub use fault::Fault;
