//! What becomes of the texts of messages.

ghost use Rattle.std.specs.Prelude.{◌≡◌, ℕ, List, IfOk};
ghost use Rattle.std.specs.Cow.{cow_str_bytes};

use std::alloc::{AllocError, Global};
use std::borrow::CowStr;

/// What a program makes of the texts of messages before they are shown: a pseudolocalization, say.
///
/// ```
/// impl TextTransform for Capitals {
///     ghost transformed = { λ _ text. map to_ascii_uppercase text };
///
///     fn transform<'t>(&self, alloc: Global, text: &'t str) -> Result<CowStr<'t>, AllocError> {
///         Ok(CowStr::Owned(text.to_ascii_uppercase(alloc)?))
///     }
/// }
/// ```
pub trait TextTransform: Drop {
    /// What becomes of a text.
    ghost transformed: { Self → List ℕ → List ℕ };

    /// What becomes of a text.
    ///
    /// # Errors
    /// [`AllocError`] if memory runs out; nothing is kept.
    fn transform<'t>(&self, alloc: Global, text: &'t str) -> Result<CowStr<'t>, AllocError>
        ensures { IfOk result (λ new. cow_str_bytes new ≡ transformed self.now text.now) };
}

impl TextTransform for Box<dyn TextTransform> {
    ghost transformed = { λ it. (TextTransform-box it).transformed it.value };

    fn transform<'t>(&self, alloc: Global, text: &'t str) -> Result<CowStr<'t>, AllocError> {
        (**self).transform(alloc, text)
    }
}

/// The type that stands in for a program without a transform. Its one value leaves each text as it
/// is.
///
/// ```
/// type Bundle<'r, 's> = FluentBundle<'r, 's, EnglishPlurals, Day, IsOpen, NoFormatter, NoTransform>;
/// ```
#[derive(Clone, Copy, Debug, PartialEq, Eq)]
pub struct NoTransform;

impl TextTransform for NoTransform {
    ghost transformed = { λ _ text. text };

    fn transform<'t>(&self, _alloc: Global, text: &'t str) -> Result<CowStr<'t>, AllocError> {
        Ok(CowStr::Borrowed(text))
    }
}
