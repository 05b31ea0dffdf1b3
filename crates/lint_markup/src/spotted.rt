//! What is said of a text, and of which piece of it.
#![tactic(auto, using(fluent_tokens::proofs::Counted::cuts))]

ghost use Rattle.std.specs.Prelude.{◌≡◌, IfOk, OnOk, take};
ghost use Rattle.fluent_tokens.specs.Counted.{Cuts};
ghost use Rattle.lint_findings.specs.View.{remark_view};
ghost use Rattle.lint_findings.specs.Runs as r;
ghost use Rattle.lint_markup.specs.InCode.{AddsSaid, said_at, said_on_text, spotted_view};
ghost use Rattle.lint_markup.specs.Pieces.{ends_piece};

use lint_findings::Remark;
use lint_nodes::skip;
use std::alloc::{AllocError, Global};

/// A remark on a piece of a text. If the piece is empty, it is on the text.
#[derive(Debug, Drop)]
pub struct Spotted {
    pub remark: Remark,
    pub piece: String,
}

impl Spotted {
    /// A remark on what is at the front of an end of a text: up to the end of its line, or to the
    /// next placeable.
    ///
    /// # Errors
    /// [`AllocError`] if memory runs out; nothing is kept.
    pub fn at(alloc: Global, text: &str, remark: Remark) -> Result<Self, AllocError>
        ensures { IfOk result (λ made. spotted_view made ≡ said_at text.now (remark_view remark)) }
    {
        let piece = String::from_str(alloc, piece(text))?;
        Ok(Spotted { remark, piece })
    }

    /// A remark on a text.
    pub fn on_text(alloc: Global, remark: Remark) -> Self
        ensures { spotted_view result ≡ said_on_text (remark_view remark) }
    {
        Spotted {
            remark,
            piece: String::new(alloc),
        }
    }
}

/// What stands before the next line or placeable.
fn piece(text: &str) -> &str
    ensures { result.now ≡ r.piece text.now }
{
    &text[..piece_len(text.as_bytes())]
}

fn piece_len(text: &[u8]) -> usize
    ensures value { take result text.now ≡ r.piece text.now }
    ensures cuts { Cuts text.now result }
{
    for place in 0..text.len() {
        if ends_piece(skip(text, place)) {
            return place;
        }
    }
    text.len()
}

/// Whether a line ends at the front, or the sign of a placeable stands there.
fn ends_piece(text: &[u8]) -> bool
    ensures { result ≡ ends_piece text.now }
{
    match text {
        [b'\n', ..] | [0xEF, 0xBF, 0xBC, ..] => true,
        _ => false,
    }
}

/// Adds what is said of a text.
///
/// # Errors
/// [`AllocError`] if memory runs out; nothing is added then.
pub fn push_spotted(spotted: Spotted, found: &mut Vec<Spotted>) -> Result<(), AllocError>
    ensures { OnOk result (AddsSaid found.old found.new (spotted_view spotted)) }
{
    found.push(spotted)?;
    Ok(())
}
