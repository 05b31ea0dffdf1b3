//! The text of a project's file.
ghost use Rattle.std.specs.Prelude.{◌≡◌, IfErr, IfOk, Some};
ghost use Rattle.toml.specs.Errors.{IsWithin};
ghost use Rattle.toml.specs.Parse.{parse_document};
ghost use Rattle.toml.specs.View.{table_view};
ghost use Rattle.fluent_project.specs.TextViews.{IsNoToml, IsToldBy, last_line};

use std::alloc::Global;
use toml::Table;
use toml::de::Error;

/// Why a text has no tables.
#[derive(Clone, Copy)]
pub enum TextError {
    /// Memory ran out.
    Memory,
    /// It isn't TOML.
    NotToml {
        /// The line where it can't be read on, from 1.
        line: usize,
    },
}

/// The tables of a text in TOML.
///
/// # Errors
/// [`TextError::NotToml`]: it isn't TOML. [`TextError::Memory`]: memory ran out.
pub fn table_of(alloc: Global, text: &str) -> Result<Table, TextError>
    ensures table { IfOk result (λ table. parse_document text.now ≡ Some (table_view table)) }
    ensures refused { IfErr result (IsNoToml text.now) }
{
    match toml::table_from_str(alloc, text) {
        Ok(table) => Ok(table),
        Err(error) => Err(text_error(text, &error)),
    }
}

/// The error of the toolchain's reader.
fn text_error(text: &str, error: &Error) -> TextError
    requires { IsWithin text.now error.now }
    ensures { IsToldBy text.now error.now result }
{
    match error.span() {
        None => TextError::Memory,
        Some(span) => TextError::NotToml {
            line: last_line(&text.as_bytes()[..span.start]),
        },
    }
}

/// The line on which a text ends, from 1.
fn last_line(text: &[u8]) -> usize
    ensures { result ≡ last_line text.now }
{
    text.iter().filter(|byte| **byte == b'\n').count() + 1
}
