//! A source that was read, for use at run time. A [`FluentResource`] borrows the source and holds
//! its entries, and [`parse_sources`] reads several.
#![tactic(auto)]

mod entries;
mod error;
mod resource;
mod sources;

pub use entries::Entries;
pub use error::ResourceError;
pub use resource::FluentResource;
pub use sources::parse_sources;
