//! Writers of texts.

ghost use Rattle.std.specs.Prelude.{◌≡◌, ℕ, List, ◌++◌, OnOk, OnErr, string_bytes};

use std::fmt;

/// A writer of texts. Contracts see what it holds.
///
/// ```
/// impl TextWrite for Pieces {
///     ghost text = { λ pieces. string_bytes pieces.text };
///
///     fn write_str(&mut self, piece: &str) -> fmt::Result {
///         if self.left == 0 {
///             return Err(fmt::Error);
///         }
///         self.text.push_str(piece)?;
///         self.left -= 1;
///         Ok(())
///     }
/// }
/// ```
pub trait TextWrite {
    /// The bytes that the writer holds, in the order of the pieces that it took.
    ghost text: { Self → List ℕ };

    /// Takes a piece after what was written before, or refuses it whole.
    ///
    /// # Errors
    /// [`fmt::Error`] if the writer refuses the piece; what it holds is unchanged.
    fn write_str(&mut self, piece: &str) -> fmt::Result
        ensures taken { OnOk result (text self.new ≡ text self.old ++ piece.now) }
        ensures refused { OnErr result (text self.new ≡ text self.old) };
}

/// A piece is refused only if memory runs out.
impl TextWrite for String {
    ghost text = { λ s. string_bytes s };

    fn write_str(&mut self, piece: &str) -> fmt::Result {
        self.push_str(piece)?;
        Ok(())
    }
}
