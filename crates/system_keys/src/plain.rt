//! How many bytes at the front of a text are characters that stand for themselves, found 8 or 16
//! at once.

ghost use Rattle.std.specs.Prelude.{◌≡◌, ◌+◌, ◌<◌, ◌≤◌, length};
ghost use Rattle.system_keys.specs.Text.{ArePlain, first_set_bit};

use crate::text::is_plain;
use std::simd::prelude::*;

/// How many characters are tested at once, of a text that has as many.
pub const PLAIN_LANES: usize = 16;

/// How many characters are tested at once, of a shorter text.
const HALF_LANES: usize = 8;

/// How many characters at the front of the text stand for themselves.
#[inline(always)]
pub fn plain_front_length(text: &[u8]) -> usize
    ensures within { result ≤ length text.now }
    ensures plain { ArePlain text.now 0 result }
{
    if text.len() < HALF_LANES {
        plain_front_by_ones(text)
    } else if text.len() < PLAIN_LANES {
        plain_front_by_eights(text)
    } else {
        plain_front_by_sixteens(text)
    }
}

/// The same, one character at a time.
#[inline(always)]
fn plain_front_by_ones(text: &[u8]) -> usize
    ensures within { result ≤ length text.now }
    ensures plain { ArePlain text.now 0 result }
{
    let mut length = 0usize;
    while length < text.len() && is_plain(text[length]) {
        length += 1;
    }
    length
}

/// The same, eight characters at a time. The last eight may overlap those before.
#[inline(always)]
fn plain_front_by_eights(text: &[u8]) -> usize
    requires { HALF_LANES ≤ length text.now }
    ensures within { result ≤ length text.now }
    ensures plain { ArePlain text.now 0 result }
{
    let mut length = 0usize;
    while HALF_LANES < text.len() - length {
        let run = plain_run_of_eight(text, length);
        length += run;
        if run < HALF_LANES {
            return length;
        }
    }
    let last = text.len() - HALF_LANES;
    length.max(last + plain_run_of_eight(text, last))
}

/// The same, sixteen characters at a time. The last sixteen may overlap those before.
#[inline(always)]
fn plain_front_by_sixteens(text: &[u8]) -> usize
    requires { PLAIN_LANES ≤ length text.now }
    ensures within { result ≤ length text.now }
    ensures plain { ArePlain text.now 0 result }
{
    let mut length = 0usize;
    while PLAIN_LANES < text.len() - length {
        let run = plain_run(text, length);
        length += run;
        if run < PLAIN_LANES {
            return length;
        }
    }
    let last = text.len() - PLAIN_LANES;
    length.max(last + plain_run(text, last))
}

/// How many of the eight characters from `at` on stand for themselves, before one that does not.
#[inline(always)]
fn plain_run_of_eight(text: &[u8], at: usize) -> usize
    requires { at + HALF_LANES ≤ length text.now }
    ensures within { result ≤ HALF_LANES }
    ensures plain { ArePlain text.now at (at + result) }
{
    let characters = u8x8::from_slice(&text[at..]);
    let others = (characters - u8x8::splat(b'!')).simd_ge(u8x8::splat(94))
        | characters.simd_eq(u8x8::splat(b'"'))
        | characters.simd_eq(u8x8::splat(b'\\'));
    first_set_bit(others.to_bitmask(), HALF_LANES)
}

/// How many of the sixteen characters from `at` on stand for themselves, before one that does not.
#[inline(always)]
pub fn plain_run(text: &[u8], at: usize) -> usize
    requires { at + PLAIN_LANES ≤ length text.now }
    ensures within { result ≤ PLAIN_LANES }
    ensures plain { ArePlain text.now at (at + result) }
{
    let characters = u8x16::from_slice(&text[at..]);
    let others = (characters - u8x16::splat(b'!')).simd_ge(u8x16::splat(94))
        | characters.simd_eq(u8x16::splat(b'"'))
        | characters.simd_eq(u8x16::splat(b'\\'));
    first_set_bit(others.to_bitmask(), PLAIN_LANES)
}

/// The place of the lowest bit that is set, or `lanes` if none is.
#[inline(always)]
fn first_set_bit(mask: u64, lanes: usize) -> usize
    ensures { result ≡ first_set_bit mask lanes }
{
    if mask == 0 {
        lanes
    } else {
        mask.trailing_zeros() as usize
    }
}
