//! What each call gives, in one form. The only error is that memory runs out.

use fluent_desk::{
    CleanError, ImportError, NormalizeError, clean, export, import, join, normalize,
};
use serde_json::Value;
use std::alloc::{AllocError, Global};

/// What a call gives: a text, or why there is none.
#[derive(PartialEq, Eq, Drop)]
pub enum Outcome {
    Text(String),
    CarriageReturn,
    NotNormal,
    Shape,
}

impl Outcome {
    /// Whether it is this text.
    pub fn is_text(&self, text: &str) -> bool {
        match self {
            Outcome::Text(found) => found.as_str() == text,
            _ => false,
        }
    }

    /// The message of a refusal, or nothing.
    pub fn refusal(&self) -> &'static str {
        match self {
            Outcome::Text(_) => "",
            Outcome::CarriageReturn => "carriage return",
            Outcome::NotNormal => "not normal",
            Outcome::Shape => "not a tree",
        }
    }
}

/// Whether a call gave this outcome.
pub fn gives(answer: Result<Outcome, AllocError>, wanted: &Outcome) -> Result<bool, AllocError> {
    Ok(answer? == *wanted)
}

/// Whether a call gave this text.
pub fn gives_text(answer: Result<Outcome, AllocError>, text: &str) -> Result<bool, AllocError> {
    Ok(answer?.is_text(text))
}

fn cleaned(answer: Result<String, CleanError>) -> Result<Outcome, AllocError> {
    match answer {
        Ok(text) => Ok(Outcome::Text(text)),
        Err(CleanError::Memory) => Err(AllocError),
        Err(CleanError::CarriageReturn) => Ok(Outcome::CarriageReturn),
    }
}

/// What `clean` gives.
pub fn clean_source(alloc: Global, source: &str) -> Result<Outcome, AllocError> {
    cleaned(clean(alloc, source))
}

/// What `join` gives.
pub fn join_sources(alloc: Global, sources: &[&str]) -> Result<Outcome, AllocError> {
    cleaned(join(alloc, sources))
}

/// What `normalize` gives.
pub fn normalize_source(alloc: Global, source: &str) -> Result<Outcome, AllocError> {
    match normalize(alloc, source) {
        Ok(text) => Ok(Outcome::Text(text)),
        Err(NormalizeError::Memory) => Err(AllocError),
        Err(NormalizeError::CarriageReturn) => Ok(Outcome::CarriageReturn),
        Err(NormalizeError::NotNormal) => Ok(Outcome::NotNormal),
    }
}

/// The compact JSON text of what is exported.
pub fn export_source(alloc: Global, source: &str) -> Result<Outcome, AllocError> {
    match export(alloc, source) {
        Ok(value) => Ok(Outcome::Text(value.to_string(alloc)?)),
        Err(CleanError::Memory) => Err(AllocError),
        Err(CleanError::CarriageReturn) => Ok(Outcome::CarriageReturn),
    }
}

/// What `import` gives.
pub fn import_value(alloc: Global, value: &Value) -> Result<Outcome, AllocError> {
    match import(alloc, value) {
        Ok(text) => Ok(Outcome::Text(text)),
        Err(ImportError::Memory) => Err(AllocError),
        Err(ImportError::NotNormal) => Ok(Outcome::NotNormal),
        Err(ImportError::Shape) => Ok(Outcome::Shape),
    }
}

/// What is imported of what is exported.
pub fn import_export(alloc: Global, source: &str) -> Result<Outcome, AllocError> {
    match export(alloc, source) {
        Ok(value) => import_value(alloc, &value),
        Err(CleanError::Memory) => Err(AllocError),
        Err(CleanError::CarriageReturn) => Ok(Outcome::CarriageReturn),
    }
}
