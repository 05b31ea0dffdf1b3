//! Where a message or a term begins.
#![tactic(auto)]

ghost use Rattle.std.specs.Prelude.{◌≡◌, true};
ghost use Rattle.lint_entries.specs.Starts as starts;

/// The source from its next message or term on, if only blank lines and comments come before that.
/// Otherwise it is from the first place on, at the start of a line, that could begin one.
pub fn next_start(text: &[u8]) -> &[u8]
    ensures { result.now ≡ starts.next_start true text.now }
{
    let mut column_zero = true;
    let mut start = 0;
    while start < text.len() && !(column_zero && starts_entry(text[start])) {
        column_zero = text[start] == b'\n';
        start += 1;
    }
    &text[start..]
}

/// Whether a message or a term can begin with this byte, at the start of a line.
fn starts_entry(byte: u8) -> bool
    ensures { result ≡ starts.starts_entry byte }
{
    matches!(byte, b'a'..=b'z' | b'A'..=b'Z' | b'-')
}
