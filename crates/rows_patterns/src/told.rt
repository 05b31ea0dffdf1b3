//! The errors that are told.

use fluent_bundle::FluentError;
use serde_json::Value as Json;
use std::alloc::{AllocError, Global};

/// Whether an error is one of resolving, of this text. The only error is that memory runs out.
pub fn is_told(alloc: Global, error: &FluentError, text: &Json) -> Result<bool, AllocError> {
    match error {
        FluentError::ResolverError(error) => {
            let told = error.to_string(alloc)?;
            Ok(text.as_str() == Some(told.as_str()))
        }
        _ => Ok(false),
    }
}
