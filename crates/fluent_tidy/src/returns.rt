//! Carriage returns.

ghost use Rattle.std.specs.Prelude.{◌≡◌};
ghost use Rattle.fluent_tidy.specs.Sources.{holds_return};

use memchr::memchr;

/// Whether a text holds a carriage return. It doesn't allocate.
pub fn has_return(text: &str) -> bool
    ensures { result ≡ holds_return text.now }
{
    memchr(b'\r', text.as_bytes()).is_some()
}
