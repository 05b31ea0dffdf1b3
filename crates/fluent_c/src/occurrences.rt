//! Where the symbols of a source are defined and referred to.

ghost use Rattle.std.specs.Prelude.{◌≡◌, ◌≢◌, IfOk};
ghost use Rattle.fluent_symbols.specs.Sources.{occurrence_lines};
ghost use Rattle.fluent_c.specs.Made.{Holds};
ghost use Rattle.fluent_c.specs.Statuses.{ReadsSource};
ghost use Rattle.fluent_c.specs.declared.TheConstants.{FLUENT_READ};

use crate::text::FluentText;
use crate::{FLUENT_NO_MEMORY, FLUENT_NOT_UTF8, FLUENT_READ};
use fluent_symbols::occurrence_lines;
use fluent_text::stack::StackBudget;
use simdutf8::basic::from_utf8;
use std::alloc::{AllocError, Global};

/// The lines of a source, in memory that the caller frees.
///
/// # Errors
/// [`AllocError`] if memory runs out, or the source nests too deep; nothing is kept.
fn lines_text(alloc: Global, source: &str) -> Result<FluentText, AllocError>
    ensures { IfOk result (λ made. Holds made (occurrence_lines source.now)) }
{
    let lines = occurrence_lines(alloc, source, StackBudget::THREAD)?;
    FluentText::of(alloc, lines)
}

/// Says where the symbols of a source are: a line of JSON for each definition of a message, a term
/// or an attribute, and for each reference to one, to a variable or to a function, in the order of
/// their offsets.
///
/// `text` is the source's bytes. `docs/reference/occurrences.md` has the keys of a line. A stretch
/// that can't be read has no lines, and the entries around it have theirs. The call returns
/// [`FLUENT_READ`], also if the source has errors: then `made` holds the lines, and what it held
/// before is freed. It returns [`FLUENT_NOT_UTF8`] or [`FLUENT_NO_MEMORY`] otherwise, and `made` is
/// unchanged then. All other memory is freed when it returns.
#[unsafe(no_mangle)]
pub extern "C" fn fluent_occurrences(alloc: Global, text: &[u8], made: &mut FluentText) -> u32
    ensures status { ReadsSource text.now result }
    ensures lines { result ≡ FLUENT_READ → Holds made.new (occurrence_lines text.now) }
    ensures unchanged { result ≢ FLUENT_READ → made.new ≡ made.old }
{
    let Ok(source) = from_utf8(text) else {
        return FLUENT_NOT_UTF8;
    };
    match lines_text(alloc, source) {
        Ok(text) => {
            made.put(alloc, text);
            FLUENT_READ
        }
        Err(_) => FLUENT_NO_MEMORY,
    }
}
