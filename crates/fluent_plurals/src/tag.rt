//! Which texts are tags.
ghost use Rattle.std.specs.Prelude.{◌≡◌};
ghost use Rattle.fluent_plurals.specs.Tags.{begins_posix, ends_part, is_separator, is_tag, suits_part};

/// Whether a text has the form of a language's tag, such as `oc`, `zh_Hant_TW` or `de-u-nu-latn`.
///
/// The parts are between `-` or `_`: first the language, of two to eight letters, and then parts of
/// one to eight letters and digits. A codeset or a modifier of POSIX may follow, as in
/// `oc_FR.UTF-8` and `sr@latin`.
pub fn is_tag(text: &[u8]) -> bool
    ensures { result ≡ is_tag text.now }
{
    let mut is_first = true;
    let mut count = 0;
    for byte in text {
        if is_separator(*byte) {
            if !ends_part(is_first, count) {
                return false;
            }
            is_first = false;
            count = 0;
        } else if begins_posix(*byte) {
            return ends_part(is_first, count);
        } else if suits_part(is_first, *byte) && count < 8 {
            count += 1;
        } else {
            return false;
        }
    }
    ends_part(is_first, count)
}

fn is_separator(byte: u8) -> bool
    ensures { result ≡ is_separator byte }
{
    byte == b'-' || byte == b'_'
}

/// Whether a byte begins a codeset or a modifier of POSIX.
fn begins_posix(byte: u8) -> bool
    ensures { result ≡ begins_posix byte }
{
    byte == b'.' || byte == b'@'
}

/// Whether a byte may be in the first part, or in another one.
fn suits_part(is_first: bool, byte: u8) -> bool
    ensures { result ≡ suits_part is_first byte }
{
    if is_first {
        byte.is_ascii_alphabetic()
    } else {
        byte.is_ascii_alphanumeric()
    }
}

/// Whether the first part, or another one, may end after this many bytes.
fn ends_part(is_first: bool, count: usize) -> bool
    ensures { result ≡ ends_part is_first count }
{
    if is_first { count >= 2 } else { count >= 1 }
}
