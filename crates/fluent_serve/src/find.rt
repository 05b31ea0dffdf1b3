//! The first place of a byte, sixteen bytes at once.
ghost use Rattle.std.specs.Prelude.{◌≡◌, ◌+◌, length, map};
ghost use Rattle.std.specs.Simd.Lanes.{mask_l};
ghost use Rattle.memchr.specs.Find.{IsFirstByte, Nowhere, Passes, is_byte};

use memchr::memchr;
use std::simd::prelude::*;

/// How many bytes are compared at once.
const LANES: usize = 16;
/// The longest text that is searched sixteen bytes at a time. Longer ones are left to `memchr`,
/// which is slower on short texts.
const NEAR: usize = 64;

/// The first place of a byte in a text.
pub(crate) fn first_place(byte: u8, text: &[u8]) -> Option<usize>
    ensures { IsFirstByte (is_byte byte) text.now result }
{
    let len = text.len();
    if len < LANES || len > NEAR {
        return memchr(byte, text);
    }
    let last = len - LANES;
    let mut place = 0;
    while place < last {
        let found = places(byte, u8x16::from_slice(&text[place..]));
        if found != 0 {
            return Some(place + found.trailing_zeros() as usize);
        }
        place += LANES;
    }
    last_place(byte, text, last)
}

/// The first place of a byte in a text whose first sixteen bytes from `last` on are its last, and
/// that has none before them.
#[inline(always)]
fn last_place(byte: u8, text: &[u8], last: usize) -> Option<usize>
    requires end { last + 16 ≡ length text.now }
    requires before { Nowhere (Passes (is_byte byte) text.now) 0 last }
    ensures { IsFirstByte (is_byte byte) text.now result }
{
    let found = places(byte, u8x16::from_slice(&text[last..]));
    if found == 0 {
        return None;
    }
    Some(last + found.trailing_zeros() as usize)
}

/// Where the byte is among these: bit `k` is that of byte `k`.
#[inline(always)]
fn places(byte: u8, bytes: u8x16) -> u64
    ensures { result ≡ mask_l (map (is_byte byte) bytes) }
{
    bytes.simd_eq(u8x16::splat(byte)).to_bitmask()
}
