//! Joining sources.

ghost use Rattle.std.specs.Prelude.{◌≡◌, ◌++◌, ◌∷◌, ◌↔◌, [], IfOk, IsTrue, OnOk, IsErrOf, string_bytes};
ghost use Rattle.std.specs.List.{list_any};
ghost use Rattle.fluent_grammar.specs.Tiling.{errors, list};
ghost use Rattle.fluent_tidy_laws.specs.Joined.{joined, lists, line_ended, AreUtf8};
ghost use Rattle.fluent_tidy.specs.Sources.{texts, holds_return, notices_in};
ghost use Rattle.fluent_tidy.specs.declared.error.CleanError.TheVariants.{CarriageReturn};

use crate::cutting::push_cut;
use crate::error::CleanError;
use crate::returns::has_return;
use fluent_tokens::ends_line;
use std::alloc::{AllocError, Global};

/// Several sources as one: each without the stretches that can't be read, and on lines of its own,
/// in their order.
///
/// The text has the messages and terms of the sources, one source after the other, and the notices
/// that the sources have if the first entry of an id counts. Of no sources it is empty.
///
/// # Errors
/// `CarriageReturn` exactly if a source holds one, before anything is allocated. `Memory` if memory
/// runs out.
#[tactic(auto, using(crate::proofs::NoReturn::any_text))]
pub fn join(alloc: Global, sources: &[&str]) -> Result<String, CleanError>
    ensures text { IfOk result (λ text. string_bytes text ≡ joined (texts sources.now)) }
    ensures no_errors { IfOk result (λ text. errors (string_bytes text) ≡ []) }
    ensures same_lists { IfOk result (λ text. list (string_bytes text)
        ≡ lists (texts sources.now)) }
    ensures same_notices { IfOk result (λ text. notices_in (string_bytes text ∷ [])
        ≡ notices_in (texts sources.now)) }
    ensures carriage_return { IsErrOf result CarriageReturn ↔ IsTrue
        (list_any holds_return (texts sources.now)) }
{
    if any_return(sources) {
        return Err(CleanError::CarriageReturn);
    }
    let mut text = String::new(alloc);
    push_all(alloc, &mut text, sources)?;
    Ok(text)
}

/// Whether a source holds a carriage return.
fn any_return(sources: &[&str]) -> bool
    ensures { result ≡ list_any (λ source. holds_return source.now) sources.now }
{
    sources.iter().any(|source| has_return(source))
}

/// Adds the cut texts of sources, each on lines of its own, to an empty text.
fn push_all(alloc: Global, text: &mut String, sources: &[&str]) -> Result<(), AllocError>
    requires { string_bytes text.old ≡ [] }
    ensures text { OnOk result (string_bytes text.new ≡ joined (texts sources.now)) }
    ensures utf8 { OnOk result (AreUtf8 (texts sources.now)) }
{
    for source in sources {
        push_cut(alloc, text, source)?;
        end_line(text)?;
    }
    Ok(())
}

/// Adds a line feed to a text that isn't empty and doesn't end in one.
fn end_line(text: &mut String) -> Result<(), AllocError>
    ensures { OnOk result (string_bytes text.new ≡ line_ended (string_bytes text.old)) }
{
    if text.is_empty() || ends_line(text.as_bytes()) {
        return Ok(());
    }
    text.push('\n')
}
