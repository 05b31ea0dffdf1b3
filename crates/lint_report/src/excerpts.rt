//! The part of a line that is shown: at most 120 characters of it, around a finding.

ghost use Rattle.std.specs.Prelude.{◌≡◌};
ghost use Rattle.lint_report.specs.Excerpts.{IsEnd, IsFront, IsWindow, is_at_line_end};

/// Some characters of a line, one after the other.
#[derive(Clone, Copy)]
pub(crate) struct Excerpt<'a> {
    pub(crate) text: &'a str,
    /// How many characters it has.
    pub(crate) count: usize,
    /// Whether the line goes on at the side that is away from the finding.
    pub(crate) is_cut: bool,
}

/// The part of a line that is shown: before a finding, and from the finding on.
#[derive(Clone, Copy)]
pub(crate) struct Window<'a> {
    pub(crate) before: Excerpt<'a>,
    pub(crate) after: Excerpt<'a>,
}

/// The most characters that are shown.
const SHOWN: usize = 120;

/// How many of them are after the finding, if the line has as many on both sides.
const SHOWN_AFTER: usize = 60;

impl<'a> Window<'a> {
    /// The part of a line that is shown, of which `front` is before a finding, and `rest` is the
    /// text from the finding on.
    pub(crate) fn around(front: &'a str, rest: &'a str) -> Window<'a>
        ensures { IsWindow front.now rest.now result }
    {
        let near = first_characters(rest, SHOWN_AFTER);
        let before = last_characters(front, SHOWN - near.count);
        let after = first_characters(rest, SHOWN - before.count);
        Window { before, after }
    }
}

/// The first characters of a text, at most this many, and none after its first line end.
fn first_characters(text: &str, most: usize) -> Excerpt
    ensures { IsFront text.now most result }
{
    let mut rest = text.chars();
    let mut count = 0;
    while count < most && !is_at_line_end(rest.as_str()) {
        rest.next();
        count += 1;
    }
    let rest = rest.as_str();
    Excerpt {
        text: &text[..text.len() - rest.len()],
        count,
        is_cut: !is_at_line_end(rest),
    }
}

/// The last characters of a text, at most this many.
fn last_characters(text: &str, most: usize) -> Excerpt
    ensures { IsEnd text.now most result }
{
    let mut front = text.chars();
    let mut count = 0;
    while count < most && !front.as_str().is_empty() {
        front.next_back();
        count += 1;
    }
    let front = front.as_str();
    Excerpt {
        text: &text[front.len()..],
        count,
        is_cut: !front.is_empty(),
    }
}

/// Whether a line ends here: at a line end, or at the end of the text.
fn is_at_line_end(text: &str) -> bool
    ensures { result ≡ is_at_line_end text.now }
{
    matches!(text.as_bytes(), [] | [b'\n', ..] | [b'\r', b'\n', ..])
}
