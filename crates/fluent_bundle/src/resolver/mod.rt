//! Resolving patterns.

pub mod errors;
mod scope;

pub use errors::ResolverError;
pub use scope::Scope;
