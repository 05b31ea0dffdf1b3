//! Taking out of a source what can't be read.

ghost use Rattle.std.specs.Prelude.{◌≡◌, ◌++◌, IfOk, OnOk, map, string_bytes};
ghost use Rattle.std.specs.Str.{IsUtf8};
ghost use Rattle.fluent_grammar.specs.Tiling.{errors};
ghost use Rattle.fluent_parsed.specs.ErrorView.{error_view, error_told};
ghost use Rattle.fluent_tidy_laws.specs.Cut.{cut};

use fluent_parser::{Error, ParserError, parse};
use std::alloc::{AllocError, Global};

/// Adds the cut text of a source.
///
/// # Errors
/// [`AllocError`] if memory runs out; the text may then hold a part of the cut text.
pub fn push_cut(alloc: Global, text: &mut String, source: &str) -> Result<(), AllocError>
    ensures text { OnOk result (string_bytes text.new ≡ string_bytes text.old ++ cut source.now) }
    ensures utf8 { IsUtf8 source.now }
{
    let errors = read_errors(alloc, source)?;
    push_kept(text, source, &errors)
}

/// The errors of a source.
fn read_errors(alloc: Global, source: &str) -> Result<Vec<ParserError>, AllocError>
    ensures { IfOk result (λ found. map error_view found.items
        ≡ map error_told (errors source.now)) }
{
    match parse(alloc, source) {
        Ok(_) => Ok(Vec::new(alloc)),
        Err(Error::Broken(_, errors)) => Ok(errors),
        Err(Error::Memory) => Err(AllocError),
    }
}

/// Adds what stands in a source between the slices of its errors.
fn push_kept(text: &mut String, source: &str, found: &[ParserError]) -> Result<(), AllocError>
    requires { map error_view found.now ≡ map error_told (errors source.now) }
    ensures { OnOk result (string_bytes text.new ≡ string_bytes text.old ++ cut source.now) }
{
    let mut end = 0;
    for error in found {
        if let Some(slice) = &error.slice {
            text.push_str(&source[end..slice.start])?;
            end = slice.end;
        }
    }
    text.push_str(&source[end..])
}
