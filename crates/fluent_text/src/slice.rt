//! The text types that a tree of a Fluent source can be made of.
//!
//! [`Slice`] is what a caller needs. [`Texts`] has the same calls on a value, and [`Slices`] is
//! that value, for functions that call each other. Lengths and offsets are in bytes.
ghost use Rattle.std.specs.Prelude.{◌≡◌, ℕ, ◌≤◌, ◌==◌, List, length, slice_range, IfOk, IsOk, refl, string_bytes};
ghost use Rattle.std.specs.Str.{IsCharBoundary, trim_end};
ghost use Rattle.std.specs.Cmp.Lexicographic.{pointwise};

use std::alloc::{AllocError, Global};
use std::marker::PhantomData;
use std::ops::Range;

/// A text of a source that lives for `'s`. Contracts see it as its bytes. Lengths and offsets are
/// bytes.
///
/// ```no_run
/// /// What is before the first space of a text.
/// fn first_word<'s, S: Slice<'s>>(alloc: Global, text: S) -> Result<S, AllocError> {
///     let end = text.as_str().find(' ').unwrap_or(text.as_str().len());
///     text.slice(alloc, 0..end)
/// }
/// ```
pub trait Slice<'s>: PartialEq + Drop {
    /// The bytes of the text, in UTF-8.
    ghost text: { Self → List ℕ };

    /// The text.
    fn as_str(&self) -> &str
        ensures { result.now ≡ text self.now };

    /// The part of the text in `range`, whose ends stand in order within the text, each at the
    /// boundary of a character.
    ///
    /// # Errors
    /// [`AllocError`] if memory runs out; nothing is kept.
    fn slice(&self, alloc: Global, range: Range<usize>) -> Result<Self, AllocError>
        requires ordered { range.start ≤ range.end }
        requires start_boundary { IsCharBoundary (text self.now) range.start }
        requires end_boundary { IsCharBoundary (text self.now) range.end }
        ensures { IfOk result (λ part. text part ≡ slice_range (text self.now) range.start
            range.end) };

    /// Cuts off the white space (Unicode White_Space) at the end of the text.
    fn trim(&mut self)
        ensures { text self.new ≡ trim_end (text self.old) };

    /// The same text.
    ///
    /// # Errors
    /// [`AllocError`] if memory runs out; nothing is kept.
    fn try_clone(&self, alloc: Global) -> Result<Self, AllocError>
        ensures { IfOk result (λ copy. text copy ≡ text self.now) };

    // `==` compares the texts.
    ghost equality: { (a b : Self) → Self.eq a b ≡ pointwise ◌==◌ (text a) (text b) };
}

impl<'s> Slice<'s> for &'s str {
    ghost text = { λ s. s.now };

    ghost equality = { λ a b. refl };

    fn as_str(&self) -> &str {
        self
    }

    /// Borrows from the source: it doesn't allocate, and succeeds.
    fn slice(&self, _alloc: Global, range: Range<usize>) -> Result<&'s str, AllocError>
        requires ordered { range.start ≤ range.end }
        requires start_boundary { IsCharBoundary self.now.now range.start }
        requires end_boundary { IsCharBoundary self.now.now range.end }
        ensures part { IfOk result (λ part. part.now
            ≡ slice_range self.now.now range.start range.end) }
        ensures succeeds { IsOk result }
    {
        let text: &'s str = *self;
        Ok(&text[range])
    }

    fn trim(&mut self) {
        let text: &'s str = *self;
        *self = text.trim_end();
    }

    /// Borrows from the source: it doesn't allocate, and succeeds.
    fn try_clone(&self, _alloc: Global) -> Result<&'s str, AllocError>
        ensures copy { IfOk result (λ copy. copy.now ≡ self.now.now) }
        ensures succeeds { IsOk result }
    {
        Ok(*self)
    }
}

impl<'s> Slice<'s> for String {
    ghost text = { λ s. string_bytes s };

    ghost equality = { λ a b. refl };

    fn as_str(&self) -> &str {
        self.as_str()
    }

    fn slice(&self, alloc: Global, range: Range<usize>) -> Result<String, AllocError> {
        String::from_str(alloc, &self.as_str()[range])
    }

    fn trim(&mut self) {
        let kept = self.as_str().trim_end().len();
        self.truncate(kept);
    }

    fn try_clone(&self, alloc: Global) -> Result<String, AllocError> {
        String::from_str(alloc, self.as_str())
    }
}

/// The calls of [`Slice`] through a value, under a bound that names no lifetime: functions that
/// call each other take a `&T` under `T: Texts<S>` in place of the bound `S: Slice<'s>`.
pub trait Texts<S> {
    /// The bytes of a text, in UTF-8.
    ghost text: { S → List ℕ };

    /// The same as [`Slice::as_str`].
    fn as_str<'a>(&self, whole: &'a S) -> &'a str
        ensures { result.now ≡ text whole.now };

    /// The same as [`Slice::slice`].
    ///
    /// # Errors
    /// [`AllocError`] if memory runs out; nothing is kept.
    fn slice(&self, whole: &S, alloc: Global, range: Range<usize>) -> Result<S, AllocError>
        requires ordered { range.start ≤ range.end }
        requires start_boundary { IsCharBoundary (text whole.now) range.start }
        requires end_boundary { IsCharBoundary (text whole.now) range.end }
        ensures { IfOk result (λ part. text part ≡ slice_range (text whole.now) range.start
            range.end) };

    /// The same as [`Slice::trim`].
    fn trim(&self, cut: &mut S)
        ensures { text cut.new ≡ trim_end (text cut.old) };

    /// The same as [`Slice::try_clone`].
    ///
    /// # Errors
    /// [`AllocError`] if memory runs out; nothing is kept.
    fn try_clone(&self, original: &S, alloc: Global) -> Result<S, AllocError>
        ensures { IfOk result (λ copy. text copy ≡ text original.now) };
}

/// The text types of `Slice<'s>`, as a value.
#[derive(Drop)]
pub struct Slices<'s>(PhantomData<&'s ()>);

impl Slices<'_> {
    pub fn new() -> Self {
        Slices(PhantomData)
    }
}

impl<'s, S: Slice<'s>> Texts<S> for Slices<'s> {
    ghost text = { S.text };

    fn as_str<'a>(&self, whole: &'a S) -> &'a str {
        whole.as_str()
    }

    fn slice(&self, whole: &S, alloc: Global, range: Range<usize>) -> Result<S, AllocError> {
        whole.slice(alloc, range)
    }

    fn trim(&self, cut: &mut S) {
        cut.trim();
    }

    fn try_clone(&self, original: &S, alloc: Global) -> Result<S, AllocError> {
        original.try_clone(alloc)
    }
}
