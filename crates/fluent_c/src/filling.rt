//! A text in the place of another, in the same box.

ghost use Rattle.std.specs.Prelude.{◌≡◌, ◌<◌, suc, vec_items, vec_len, MatchResult};
ghost use Rattle.fluent_c.specs.Made.{Holds, HoldsBuffers, HoldsBytes, HoldsSame};

use crate::buffers::Buffers;
use crate::text::FluentText;
use fluent_kept::RawBox;
use std::alloc::{AllocError, Global};

/// The text of this many bytes, after which the last is the byte 0, in a box that held others,
/// whose memory is spare then.
fn refilled(owner: RawBox<Buffers, Global>, bytes: Vec<u8>, len: usize) -> FluentText
    requires { vec_len bytes ≡ suc len }
    ensures { HoldsBytes result (vec_items bytes) }
{
    let first = bytes.as_ptr();
    let mut owner = owner.into_box();
    owner.spare = std::mem::replace(&mut owner.bytes, bytes);
    FluentText::holding(first, len, RawBox::of(owner))
}

/// The text of a box again, and its spare memory.
fn without_spare(owner: RawBox<Buffers, Global>, alloc: Global) -> (FluentText, Vec<u8>)
    requires { 0 < vec_len owner.value.bytes }
    ensures { HoldsBuffers result.0 owner.value }
{
    let mut owner = owner.into_box();
    let spare = std::mem::replace(&mut owner.spare, Vec::new(alloc));
    let first = owner.bytes.as_ptr();
    let len = owner.bytes.len() - 1;
    (FluentText::holding(first, len, RawBox::of(owner)), spare)
}

/// An empty text, in memory that held something.
fn emptied(mut memory: Vec<u8>) -> String {
    memory.clear();
    unsafe { String::from_utf8_unchecked(memory) }
}

/// The spare memory of a text, whose bytes stay where they are.
pub(crate) fn take_spare(text: &mut FluentText, alloc: Global) -> String
    ensures { HoldsSame text.new text.old }
{
    match std::mem::replace(text, FluentText::none()).take(alloc) {
        Some(owner) => {
            let (same, spare) = without_spare(owner, alloc);
            text.put(alloc, same);
            emptied(spare)
        }
        None => String::new(alloc),
    }
}

/// Puts the text of these bytes in the place of a text, whose memory is spare then. If there is
/// one, it allocates nothing for it but the room of a byte 0 after the bytes.
///
/// # Errors
/// [`AllocError`] if memory runs out; the text is as it was.
pub(crate) fn fill(
    text: &mut FluentText,
    alloc: Global,
    mut bytes: Vec<u8>,
) -> Result<(), AllocError>
    ensures { MatchResult result (λ _. Holds text.new (vec_items bytes))
        (λ _. HoldsSame text.new text.old) }
{
    let len = bytes.len();
    bytes.push(0)?;
    match std::mem::replace(text, FluentText::none()).take(alloc) {
        Some(owner) => text.put(alloc, refilled(owner, bytes, len)),
        None => {
            let made = FluentText::ended(alloc, bytes, len)?;
            text.put(alloc, made);
        }
    }
    Ok(())
}
