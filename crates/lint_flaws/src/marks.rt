//! Marks of direction: what they open and end.
#![tactic(auto)]

ghost use Rattle.std.specs.Prelude.{◌≡◌, ◌==◌, ◌&&◌};
ghost use Rattle.lint_findings.specs.Letters as l;

use crate::characters::{closes, opens};
use fluent_tokens::begins_with;
use lint_nodes::skip;

/// How many marks may be open at once, by Unicode's rules.
const DEEPEST: usize = 125;

/// How many marks are open after the byte at the front, if this many are before it.
pub fn depth_after(depth: usize, text: &[u8]) -> usize
    ensures { result ≡ l.depth_after depth text.now }
{
    if begins_with(text, b'\n') {
        0
    } else if opens(text) {
        deeper(depth)
    } else if closes(text) {
        depth.saturating_sub(1)
    } else {
        depth
    }
}

fn deeper(depth: usize) -> usize
    ensures { result ≡ l.deeper depth }
{
    if depth < DEEPEST { depth + 1 } else { depth }
}

/// Whether nothing ends the mark at the front, before which this many are open. If there are too
/// many, it isn't looked at: so a line full of marks isn't read anew for each.
pub fn is_left_open(depth: usize, text: &[u8]) -> bool
    ensures { result ≡ l.is_left_open depth text.now }
{
    depth < DEEPEST && !is_ended(skip(text, 3))
}

/// Whether a mark is ended in what follows it.
fn is_ended(text: &[u8]) -> bool
    ensures { result ≡ l.is_ended 0 text.now }
{
    let mut depth = 0;
    for place in 0..text.len() {
        let rest = skip(text, place);
        if begins_with(rest, b'\n') {
            return false;
        }
        if ends(depth, rest) {
            return true;
        }
        depth = depth_after(depth, rest);
    }
    false
}

/// Whether a mark that ends one is at the front, and none is open that it could end.
fn ends(depth: usize, text: &[u8]) -> bool
    ensures { result ≡ (l.closes text.now && depth == 0) }
{
    closes(text) && depth == 0
}
