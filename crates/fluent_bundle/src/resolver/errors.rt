//! What resolving a pattern reports beside its text.

pub use fluent_errors::{ReferenceKind, ResolverError};
