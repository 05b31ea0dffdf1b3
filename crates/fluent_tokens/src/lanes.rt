//! The bytes of a text, sixteen or 64 read at once.
#![tactic(auto)]

ghost use Rattle.std.specs.Prelude.{◌≡◌, map};
ghost use Rattle.std.specs.Simd.Lanes.{mask_l};
ghost use Rattle.fluent_tokens.specs.Bytes.{is_no_name_byte, is_no_space, is_line_feed, is_brace, is_stop};

use std::simd::prelude::*;

/// How many bytes are read at once.
pub(crate) const LANES: usize = 16;
/// How many bytes are read at once for line feeds and braces.
pub(crate) const LINE_LANES: usize = 64;

/// Which of the bytes no identifier has: bit `k` is that of byte `k`.
#[inline(always)]
pub(crate) fn no_name_bytes(bytes: u8x16) -> u64
    ensures { result ≡ mask_l (map is_no_name_byte bytes) }
{
    // A letter in lower case is at most 25 from `a`, and the bytes below it are far behind.
    let from_a = (bytes | u8x16::splat(0x20)) - u8x16::splat(b'a');
    let from_zero = bytes - u8x16::splat(b'0');
    let no_letter = from_a.simd_ge(u8x16::splat(26));
    let no_digit = from_zero.simd_ge(u8x16::splat(10));
    let no_sign = bytes.simd_ne(u8x16::splat(b'-')) & bytes.simd_ne(u8x16::splat(b'_'));
    (no_letter & no_digit & no_sign).to_bitmask()
}

/// Which of the bytes are no spaces: bit `k` is that of byte `k`.
#[inline(always)]
pub(crate) fn no_spaces(bytes: u8x16) -> u64
    ensures { result ≡ mask_l (map is_no_space bytes) }
{
    bytes.simd_ne(u8x16::splat(b' ')).to_bitmask()
}

/// Which of the bytes are line feeds: bit `k` is that of byte `k`.
#[inline(always)]
pub(crate) fn line_feeds(bytes: u8x64) -> u64
    ensures { result ≡ mask_l (map is_line_feed bytes) }
{
    bytes.simd_eq(u8x64::splat(b'\n')).to_bitmask()
}

/// Which of the bytes are braces: bit `k` is that of byte `k`.
#[inline(always)]
pub(crate) fn braces(bytes: u8x64) -> u64
    ensures { result ≡ mask_l (map is_brace bytes) }
{
    (bytes.simd_eq(u8x64::splat(b'{')) | bytes.simd_eq(u8x64::splat(b'}'))).to_bitmask()
}

/// Which of the bytes are braces or line feeds: bit `k` is that of byte `k`.
#[inline(always)]
pub(crate) fn stops(bytes: u8x16) -> u64
    ensures { result ≡ mask_l (map is_stop bytes) }
{
    let is_brace = bytes.simd_eq(u8x16::splat(b'{')) | bytes.simd_eq(u8x16::splat(b'}'));
    (is_brace | bytes.simd_eq(u8x16::splat(b'\n'))).to_bitmask()
}
