//! Texts cut at a separator.
ghost use Rattle.std.specs.Prelude.{◌≡◌, ◌<◌, Some, None, option_copied};
ghost use Rattle.fluent_serve.specs.Text.{cut_at};

use crate::find::first_place;

/// What stands before the first `separator`, an ASCII character, and what stands after it, if it
/// occurs.
#[inline(always)]
pub fn cut(text: &str, separator: char) -> (&str, Option<&str>)
    requires { separator < 128 }
    ensures { (result.0.now, option_copied result.1) ≡ cut_at separator text.now }
{
    match first_place(separator as u8, text.as_bytes()) {
        Some(place) => (&text[..place], Some(&text[place + 1..])),
        None => (text, None),
    }
}
