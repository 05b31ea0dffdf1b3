//! Messages that call functions of a program, without a call back into the program.
//!
//! A [`FunctionDesk`] formats a message with answers to calls, by the calls' texts. If it meets a
//! call that has no answer yet, that call is its outcome: the program answers it and asks again,
//! until the outcome is a text. So a function is called once for each different call of an answer,
//! in the order in which the answer meets them, and only if the answer meets it. It may ask for all
//! calls that are met whatever their answers are, and answer them before it asks again.
#![tactic(auto)]

mod call;
mod callee;
mod calls;
mod catalog;
mod desk;
mod gathering;
mod otherwise;
mod plain;
mod text;

pub use callee::Callee;
pub use desk::{FunctionDesk, Outcome};
pub use otherwise::{Otherwise, Unanswered};
