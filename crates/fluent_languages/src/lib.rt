//! Languages: the tags that name them, and which of a program's languages suit a user.
#![tactic(auto)]

mod canonical;
pub mod laws;
mod likely;
mod locale;
mod negotiation;
mod parts;
mod placing;
mod posix;
mod steps;
mod table;
mod tag;
mod variants;
mod walking;

pub use negotiation::{NegotiationStrategy, negotiate, negotiate_bytes, negotiate_languages};
pub use posix::tag_of_posix;
pub use tag::LanguageTag;
pub use variants::Variants;
