//! Cleaning a source.

ghost use Rattle.std.specs.Prelude.{◌≡◌, ◌↔◌, [], IsTrue, IfOk, IsErrOf, string_bytes};
ghost use Rattle.fluent_grammar.specs.Tiling.{errors, list};
ghost use Rattle.fluent_tidy_laws.specs.Cut.{cut};
ghost use Rattle.fluent_tidy.specs.Sources.{holds_return};
ghost use Rattle.fluent_tidy.specs.declared.error.CleanError.TheVariants.{CarriageReturn};

use crate::cutting::push_cut;
use crate::error::CleanError;
use crate::returns::has_return;
use std::alloc::Global;

/// The source without the stretches that can't be read: without the slices of its errors.
///
/// Each message and term stays, in its order. Comments stay too, but if junk is gone between a
/// comment and a message, the message takes it. A source without errors comes back as it is.
///
/// ```
/// let cleaned = clean(alloc, SOURCE)?; // key1 = Value 1, an empty line, key2={ $x }
/// ```
///
/// # Errors
/// `CarriageReturn` exactly if the source holds one, before anything is allocated. `Memory` if
/// memory runs out.
pub fn clean(alloc: Global, source: &str) -> Result<String, CleanError>
    ensures text { IfOk result (λ text. string_bytes text ≡ cut source.now) }
    ensures no_errors { IfOk result (λ text. errors (string_bytes text) ≡ []) }
    ensures same_list { IfOk result (λ text. list (string_bytes text) ≡ list source.now) }
    ensures no_damage { errors source.now ≡ [] → IfOk result
        (λ text. string_bytes text ≡ source.now) }
    ensures carriage_return { IsErrOf result CarriageReturn ↔ IsTrue (holds_return source.now) }
{
    if has_return(source) {
        return Err(CleanError::CarriageReturn);
    }
    let mut text = String::new(alloc);
    push_cut(alloc, &mut text, source)?;
    Ok(text)
}
