#![tactic(auto)]

//! The values of Fluent: what arguments are, what functions take and give, and what a selector is
//! compared by.
//!
//! A [`FluentValue`] is a text, a number or a value of the program's own type, which implements
//! [`FluentType`]. It may also be [`None`](FluentValue::None) or [`Error`](FluentValue::Error),
//! which are shown as nothing and equal nothing. [`FluentArgs`] are values by name, and
//! [`builtins`] has the function `NUMBER`. `docs/reference/values.md` has the rules in plain words,
//! and `specs/` the same rules as definitions, by which each contract is stated.

mod args;
pub mod builtins;
mod custom;
mod formatter;
mod function;
mod integers;
pub mod laws;
mod matching;
mod plurals;
mod scope;
mod shown;
mod texts;
mod transform;
mod value;

pub use args::{FluentArgs, IntoIter, Iter};
pub use custom::{FluentType, NoCustom};
pub use formatter::{NoFormatter, ValueFormatter};
pub use function::{FluentFunction, NoFunction};
pub use plurals::{EnglishPlurals, MemoizerKind};
pub use scope::ValueScope;
pub use transform::{NoTransform, TextTransform};
pub use value::FluentValue;
