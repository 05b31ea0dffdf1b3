//! Callers of the public libraries, with contracts of their own: each module has what a program may
//! want to know of one library.
//!
//! The pages `CALLING.md` of the libraries quote them. [`localization`] is a whole program, of
//! several languages, which the program `examples` runs with its own.
#![tactic(auto)]

pub mod bundle;
pub mod desk;
pub mod json;
pub mod localization;
pub mod number;
pub mod numerals;
pub mod plurals;
pub mod syntax;
