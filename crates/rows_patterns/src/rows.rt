//! Rows, as the files have them: an object a line.

use crate::patterns;
use rows_common::Lines;
use serde_json::Value as Json;
use std::alloc::{AllocError, Global};

/// The lines of the files.
#[derive(Clone, Copy)]
pub struct Rows;

impl Lines for Rows {
    fn is_right(self, alloc: Global, line: &str) -> Result<bool, AllocError> {
        match Json::from_str(alloc, line) {
            Ok(json) => patterns::is_right(alloc, &json),
            Err(_) => Err(AllocError),
        }
    }
}
