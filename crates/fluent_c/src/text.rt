//! A text in memory of the library, for a caller that isn't Rattle.

ghost use Rattle.std.specs.Prelude.{◌≡◌, ℕ, suc, List, true, false, vec_items, vec_len, IfOk};
ghost use Rattle.std.specs.Vec.{vec_ptr};
ghost use Rattle.std.specs.Option.{MatchOption};
ghost use Rattle.fluent_c.specs.Texts.{HeldBy, text_owns, with_nul};

use crate::buffers::Buffers;
use fluent_kept::RawBox;
use std::alloc::{AllocError, Global};
use std::marker::Model;

/// A text that was written, or none.
///
/// Only this crate makes one that holds a text. A caller in C reads the fields; the text is freed
/// by [`fluent_free_text`].
///
/// ```c
/// struct FluentText answers = {0};
/// ```
#[repr(C)]
pub struct FluentText {
    /// Whether there is a text. If there is none, the other fields say nothing.
    held: bool,
    /// The first byte.
    bytes: *const u8,
    /// How many bytes the text has. A byte 0 is after them.
    len: usize,
    /// The vector of the bytes and that of the spare memory, in a box.
    owner: *mut u8,
    pub ghost text: { List ℕ },
}

impl Model for FluentText {
    ghost also_owns = { λ t. text_owns t.held t.owner t.bytes t.len t.text };
}

unsafe impl Send for FluentText {}

impl FluentText {
    /// No text.
    pub(crate) fn none() -> FluentText
        ensures { result.held ≡ false }
    {
        FluentText {
            held: false,
            bytes: std::ptr::null(),
            len: 0,
            owner: std::ptr::null_mut(),
        }
    }

    /// The text of buffers in a box, whose first byte this is. After this many the last is the
    /// byte 0.
    pub(crate) fn holding(
        bytes: *const u8,
        len: usize,
        owner: RawBox<Buffers, Global>,
    ) -> FluentText
        requires { (vec_ptr owner.value.bytes ≡ bytes) × (vec_len owner.value.bytes ≡ suc len) }
        ensures { HeldBy result.held result.bytes result.len result.text owner.value }
    {
        let RawBox { at, alloc: _ } = owner;
        FluentText {
            held: true,
            bytes,
            len,
            owner: at as *mut u8,
        }
    }

    /// The buffers' box, if there is a text.
    pub(crate) fn take(self, alloc: Global) -> Option<RawBox<Buffers, Global>>
        ensures { MatchOption result (self.held ≡ false)
            (λ owner. HeldBy self.held self.bytes self.len self.text owner.value) }
    {
        let FluentText {
            held,
            bytes: _,
            len: _,
            owner,
        } = self;
        if held {
            Some(RawBox {
                at: owner as *mut Buffers,
                alloc,
            })
        } else {
            None
        }
    }

    /// The text of these bytes.
    ///
    /// # Errors
    /// [`AllocError`] if memory runs out; nothing is kept.
    pub(crate) fn of(alloc: Global, mut bytes: Vec<u8>) -> Result<FluentText, AllocError>
        ensures { IfOk result (λ text. (text.held ≡ true) × (text.text ≡ with_nul (vec_items bytes))) }
    {
        let len = bytes.len();
        bytes.push(0)?;
        FluentText::ended(alloc, bytes, len)
    }

    /// The text of this many bytes, after which the last is the byte 0.
    ///
    /// # Errors
    /// [`AllocError`] if memory runs out; nothing is kept.
    pub(crate) fn ended(alloc: Global, bytes: Vec<u8>, len: usize) -> Result<FluentText, AllocError>
        requires { vec_len bytes ≡ suc len }
        ensures { IfOk result (λ text. (text.held ≡ true) × (text.text ≡ vec_items bytes)) }
    {
        let first = bytes.as_ptr();
        let spare = Vec::new(alloc);
        let owner = Box::new(alloc, Buffers { bytes, spare })?;
        Ok(FluentText::holding(first, len, RawBox::of(owner)))
    }

    /// The bytes with the byte 0 after them, if there is a text.
    pub(crate) fn into_bytes(self, alloc: Global) -> Option<Vec<u8>>
        ensures { MatchOption result (self.held ≡ false) (λ bytes. vec_items bytes ≡ self.text) }
    {
        let owner = self.take(alloc)?;
        let Buffers { bytes, spare: _ } = Box::into_inner(owner.into_box());
        Some(bytes)
    }

    /// Puts another text in the place of this one, which is freed.
    pub(crate) fn put(&mut self, alloc: Global, text: FluentText)
        ensures { self.new ≡ text }
    {
        let _freed = std::mem::replace(self, text).into_bytes(alloc);
    }
}

/// Frees the text that `made` holds, if it holds one. It holds none then.
#[unsafe(no_mangle)]
pub extern "C" fn fluent_free_text(alloc: Global, made: &mut FluentText)
    ensures { made.new.held ≡ false }
{
    made.put(alloc, FluentText::none());
}
