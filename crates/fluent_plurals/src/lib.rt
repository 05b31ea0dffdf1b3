//! The plural rules of every language that Unicode CLDR has rules for, as a plural source for
//! bundles.
//!
//! [`LanguagePlurals::for_tag`] finds the rules of a language by its tag, such as `pl` or `pt-PT`.
//! The rules are generated from CLDR's data by `tools/plurals`, as definitions in CLDR's own words
//! and as functions that are proved to meet them. `docs/reference/plurals.md` has all of it in
//! plain words.
#![tactic(auto)]

mod cardinal;
mod language;
pub mod laws;
mod ordinal;
mod plurals;
mod sets;
mod table;
mod tag;

pub use language::begins_with_tag;
pub use plurals::LanguagePlurals;
pub use tag::is_tag;
