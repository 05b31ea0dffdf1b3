#![tactic(auto)]

//! The resolver's state, and its steps that don't enter a pattern.
//!
//! [`Progress`] is that state: it starts with [`Progress::within`], and returns the errors that it
//! was given and those reported since. A [`Surroundings`] lends the rest for as long as a pattern
//! is resolved: the messages and terms, the arguments of the request, and a [`Context`], which says
//! what functions give and how texts and values are shown. Whoever has a plural source and settings
//! lends them as a [`BorrowedSettings`], which is such a context. The modules have the steps that
//! work on all this: counting, the path, fallbacks, values, variables, targets of references and
//! choices among variants.
//!
//! Whoever has the arguments of a request in a form of its own implements [`Lookup`], which writes
//! or copies the argument of a name from where it stands. [`WithArguments`] is another context with
//! such arguments: a request that brings none has those. So none of them has to be put into
//! `FluentArgs` first.
//!
//! A value of a term's own arguments is borrowed from the sources of the messages and terms. A
//! value of the request's arguments may live shorter than they do, so it is written from where it
//! stands, and copied where it becomes a selector or an argument. Contracts state each step by the
//! definitions of `fluent_meaning`.

pub mod braces;
mod call;
mod context;
pub mod fallback;
mod frames;
mod lent;
mod lookup;
pub mod marks;
mod path;
mod place;
mod progress;
pub mod target;
pub mod text;
pub mod value;
pub mod variable;
pub mod variant;
mod with;

pub use context::Context;
pub use frames::Frames;
pub use lent::BorrowedSettings;
pub use lookup::Lookup;
pub use path::Path;
pub use place::Surroundings;
pub use progress::Progress;
pub use target::Target;
pub use with::WithArguments;
