#![tactic(auto)]

//! Bundles: the messages of a program's resources, and all that is needed to ask for them.
//!
//! A [`FluentResource`] is a source that was read. A [`FluentBundle`] holds the messages and terms
//! of resources and the functions of the program by their ids, with the plural source and the
//! settings that patterns are resolved by.
//!
//! ```
//! let resource = FluentResource::try_new(alloc, SOURCE)?;
//! ..
//! let mut bundle = LanguageBundle::for_tag(alloc, "en-US").context("unknown locale")?;
//! ..
//! bundle.add_resource(&resource)?;
//! ..
//! let message = bundle.get_message("hello-world").context("no such message")?;
//! ..
//! let mut errors = Vec::new(alloc);
//! let pattern = message.value().context("the message has no value")?;
//! let text = bundle.format_pattern(pattern, None, &mut errors)?;
//! println!(rt; "{text}")?; // Hello, world!
//! ```
//!
//! `crates/examples/src/hello.rt` is this program, whole, and `bundle.rt` next to it one with a
//! function and a type of its own. A program with several languages has a bundle for each, and asks
//! them in turn by [`localization`]. Contracts speak of a bundle through what it holds, the record
//! of `specs/Contents.antt`, and of patterns by the definitions of `fluent_meaning`.
//! `docs/reference/bundles.md` has the rules in plain words.

pub mod builtins;
pub mod bundle;
pub mod laws;
pub mod localization;
pub mod memoizer;
pub mod resolver;
pub mod types;

pub use bundle::{EnglishBundle, FluentBundle, LanguageBundle, LocalizedBundle};
pub use fluent_errors::{EntryKind, FluentError};
pub use fluent_ids::{
    AddFunctionError, AddResourceError, Attributes, Entry, FluentAttribute, FluentMessage,
    FunctionRef, GetEntry,
};
pub use fluent_numerals::LocaleNumerals;
pub use fluent_plurals::LanguagePlurals;
pub use fluent_resolver::Fault;
pub use fluent_resource::{Entries, FluentResource, ResourceError};
pub use fluent_text::{TextWrite, WriteError};
pub use fluent_value::{
    EnglishPlurals, FluentArgs, FluentFunction, FluentValue, IntoIter, Iter, NoCustom, NoFormatter,
    NoFunction, NoTransform, TextTransform, ValueFormatter, ValueScope,
};
