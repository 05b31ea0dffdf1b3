//! The lines of a text, one after the other: 64 bytes are read at once, however many lines they
//! hold.
#![tactic(auto, using(crate::proofs::Counted::cuts))]

ghost use Rattle.std.specs.Prelude.{◌≡◌, ◌+◌, ◌<◌, ◌≤◌, List, ℕ, length, drop, take};
ghost use Rattle.fluent_tokens.specs.Counted.{Cuts, IsLine, is_plain};
ghost use Rattle.fluent_tokens.specs.Swept.{Tells, IsNext};

use crate::lanes::{LINE_LANES, braces, line_feeds};
use crate::lines::{before_feed, measure_long_line};
use crate::{from, line_end_len};
use std::simd::prelude::*;

/// Which of the first bytes of a text are line feeds, and which are braces: bit `k` is that of byte
/// `k`.
#[derive(Clone, Copy)]
pub struct LineMasks {
    /// How many bytes were read: at most 64.
    count: usize,
    feeds: u64,
    braces: u64,
}

/// The line at the front of a text.
#[derive(Clone, Copy)]
pub struct FrontLine {
    /// How many bytes it has without its line end.
    pub len: usize,
    /// Whether it is plain: no brace stands in it.
    pub is_plain: bool,
    /// Where the next line begins. None after the last one.
    pub next: Option<usize>,
    /// What is known of the next line.
    pub told: LineMasks,
}

impl LineMasks {
    /// Of no bytes.
    pub fn nothing() -> Self
        ensures { (text : List ℕ) → Tells result text }
    {
        LineMasks {
            count: 0,
            feeds: 0,
            braces: 0,
        }
    }

    /// Of the first 64 bytes.
    #[inline(always)]
    fn of(text: &[u8]) -> Self
        requires { 64 ≤ length text.now }
        ensures tells { Tells result text.now }
        ensures count { result.count ≡ 64 }
    {
        let bytes = u8x64::from_slice(text);
        LineMasks {
            count: LINE_LANES,
            feeds: line_feeds(bytes),
            braces: braces(bytes),
        }
    }

    /// Of what follows the byte at this offset.
    #[inline(always)]
    fn behind(&self, place: usize) -> Self
        requires place { place < self.now.count }
        requires short { self.now.count ≤ 64 }
        ensures { (text : List ℕ) → Tells self.now text → Tells result (drop (place + 1) text) }
    {
        LineMasks {
            count: self.count - place - 1,
            feeds: (self.feeds >> place) >> 1,
            braces: (self.braces >> place) >> 1,
        }
    }
}

/// The line at the front of a text, of which this much is known.
#[inline(always)]
pub fn measure_line(text: &[u8], told: LineMasks) -> FrontLine
    requires { Tells told text.now }
    ensures line { IsLine text.now result.len }
    ensures cuts { Cuts text.now result.len }
    ensures plain { result.is_plain ≡ is_plain (take result.len text.now) }
    ensures next { IsNext text.now result.len result.next result.told }
{
    let mut told = told;
    let mut seen = 0;
    let mut is_plain = true;
    while told.feeds == 0 {
        is_plain &= told.braces == 0;
        seen += told.count;
        let behind = from(text, seen);
        if behind.len() < LINE_LANES {
            return measure_last_line(text);
        }
        told = LineMasks::of(behind);
    }
    let feed = told.feeds.trailing_zeros() as usize;
    let brace = told.braces.trailing_zeros() as usize;
    FrontLine {
        len: before_feed(text, seen + feed),
        is_plain: is_plain & (brace >= feed),
        next: Some(seen + feed + 1),
        told: told.behind(feed),
    }
}

/// The same for a line near the end of the text.
fn measure_last_line(text: &[u8]) -> FrontLine
    ensures line { IsLine text.now result.len }
    ensures cuts { Cuts text.now result.len }
    ensures plain { result.is_plain ≡ is_plain (take result.len text.now) }
    ensures next { IsNext text.now result.len result.next result.told }
{
    let (len, is_plain) = measure_long_line(text);
    let line_end = line_end_len(from(text, len));
    let next = if line_end == 0 {
        None
    } else {
        Some(len + line_end)
    };
    FrontLine {
        len,
        is_plain,
        next,
        told: LineMasks::nothing(),
    }
}
