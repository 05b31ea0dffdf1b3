//! What a pattern must give, and the errors that are told.

use crate::json::text_in;
use crate::told::is_told;
use fluent_bundle::FluentError;
use serde_json::Value as Json;
use std::alloc::{AllocError, Global};

/// What a pattern must give.
#[derive(Clone, Copy)]
pub struct Wanted<'row> {
    /// What `format_pattern` gives.
    pub text: &'row str,
    /// What is written.
    pub written: &'row str,
    /// The texts of the errors.
    pub errors: &'row [Json],
}

impl<'row> Wanted<'row> {
    /// What an object says that its pattern must give, if there is one.
    pub fn of(json: &'row Json) -> Option<Wanted<'row>> {
        let text = match json.get("text") {
            Some(text) => text.as_str()?,
            None => "",
        };
        Some(Wanted {
            text,
            written: text_in(json, "written").unwrap_or(text),
            errors: json.get("errors")?.as_array()?,
        })
    }

    /// Whether these are all the errors, in their order. The only error is that memory runs out.
    pub fn are_all(self, alloc: Global, told: &[FluentError]) -> Result<bool, AllocError> {
        Ok(told.len() == self.errors.len() && self.are_first(alloc, told)?)
    }

    /// Whether these are the first of the errors, in their order. The only error is that memory
    /// runs out.
    pub fn are_first(self, alloc: Global, told: &[FluentError]) -> Result<bool, AllocError> {
        for (error, text) in told.iter().zip(self.errors) {
            if !is_told(alloc, error, text)? {
                return Ok(false);
            }
        }
        Ok(told.len() <= self.errors.len())
    }
}
