//! Serves a stream of request lines: each line of the input is answered as soon as it is complete,
//! by an engine of the caller.
//!
//! [`serve::serve`] moves the bytes, between a [`stream::Source`] and a [`stream::Sink`]. A
//! [`serve::Engine`] answers one line: [`request::Asked::of`] returns what the line asks for,
//! [`request::Arguments`] its arguments, one after the other, and [`answer::Answer`] frames what it
//! found.
//!
//! `specs/Requests.antt` says what a line asks for, `specs/Frames.antt` what its frame is, and
//! `specs/Lines.antt` which lines a stream has. What there is to answer is left open: both take it
//! as a function. Streams can be cut after any line feed, and each part answered by itself
//! (`laws::streams_join`).
#![tactic(auto)]

pub mod answer;
pub mod cut;
mod errors;
mod find;
pub mod laws;
pub mod request;
pub mod serve;
pub mod stream;
