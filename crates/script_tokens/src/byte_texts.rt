//! Texts of bytes (this project's profile), straight to the bytes that they spell.

ghost use Rattle.std.specs.Prelude.{◌≡◌, ℕ, ◌+◌, ◌<◌, ◌≤◌, ◌++◌, List, IfSome, Some, drop, length};
ghost use Rattle.std.specs.Prelude.{take};
ghost use Rattle.json.specs.Token as tokens;
ghost use Rattle.system_keys.specs.Text.{bytes_of};
ghost use Rattle.script_tokens.specs.LeftTokens.{StandsFirst};
ghost use Rattle.script_tokens.specs.Spelled.{Spells, SpellsUpTo};

use crate::escapes::{ESCAPE_LENGTH, escaped_byte};
use crate::lexemes::byte_at;
use std::alloc::Global;
use std::simd::prelude::*;
use system_keys::{Bytes, PLAIN_LANES, plain_front_length, plain_run};

/// The length of the room in which bytes are decoded before they are kept. Up to 96 always fit: sixteen
/// are written at once.
const ROOM: usize = 112;

/// The bytes that the text at this place spells, and where the script goes on behind its quote.
/// Returns `None` if it spells none, if it has another escape of JSON than two backslashes, or if
/// an allocation fails.
#[inline(always)]
pub(crate) fn byte_text(alloc: Global, text: &[u8], start: usize) -> Option<(Bytes, usize)>
    ensures { IfSome result (λ found. (content : List ℕ)
        × StandsFirst (drop start text.now) (tokens.string content) (drop found.1 text.now)
        × (bytes_of content ≡ Some found.0)) }
{
    if byte_at(text, start) != b'"' {
        return None;
    }
    let mut room = [0u8; ROOM];
    match short_text(text, start + 1, &mut room) {
        Some((count, end)) => Some((Bytes::from_slice(alloc, &room[..count]).ok()?, end)),
        None => long_text(alloc, text, start + 1),
    }
}

/// The bytes that the text from this place to its quote spells, at the front of the room: how many
/// they are, and where the script goes on behind the quote. Returns `None` if they spell none, if the
/// room is too small, or near the end of the script.
#[inline(always)]
fn short_text(text: &[u8], start: usize, room: &mut [u8; ROOM]) -> Option<(usize, usize)>
    requires { start ≤ length text.now }
    ensures within { IfSome result (λ found. found.0 ≤ ROOM) }
    ensures spelled { IfSome result (λ found.
        Spells (drop start text.now) (take found.0 room.new) (drop found.1 text.now)) }
{
    let mut count = 0usize;
    let mut at = start;
    while byte_at(text, at) != b'"' {
        if text.len() - at < PLAIN_LANES || ROOM - count < PLAIN_LANES {
            return None;
        }
        let (next, more) = copy_part(text, at, room, count)?;
        at = next;
        count = more;
    }
    Some((count, at + 1))
}

/// Writes into the room, behind `count` bytes, what the characters at this place stand for: those
/// of the next sixteen that stand for themselves, or one escape. Returns where the text goes on, and
/// how many bytes the room then has, or `None` as [`byte_text`] does.
#[inline(always)]
fn copy_part(text: &[u8], at: usize, room: &mut [u8; ROOM], count: usize) -> Option<(usize, usize)>
    requires text { at + PLAIN_LANES ≤ length text.now }
    requires room { count + PLAIN_LANES ≤ ROOM }
    ensures on { IfSome result (λ next. (at < next.0) × (next.0 ≤ length text.now)) }
    ensures within { IfSome result (λ next. next.1 ≤ ROOM) }
    ensures part { IfSome result (λ next. (part : List ℕ)
        × (take next.1 room.new ≡ take count room.old ++ part) × SpellsUpTo text.now at part next.0) }
{
    let run = plain_run(text, at);
    if 0 < run {
        u8x16::from_slice(&text[at..]).copy_to_slice(&mut room[count..]);
        Some((at + run, count + run))
    } else {
        room[count] = escaped_byte(text, at)?;
        Some((at + ESCAPE_LENGTH, count + 1))
    }
}

/// The bytes that the text from this place to its quote spells, and where the script goes on
/// behind the quote. Returns `None` as [`byte_text`] does.
#[inline(never)]
fn long_text(alloc: Global, text: &[u8], start: usize) -> Option<(Bytes, usize)>
    requires { start ≤ length text.now }
    ensures { IfSome result
        (λ found. Spells (drop start text.now) found.0 (drop found.1 text.now)) }
{
    let mut bytes = Vec::new(alloc);
    let mut at = start;
    while byte_at(text, at) != b'"' {
        at = push_part(text, at, &mut bytes)?;
    }
    Some((Bytes::from(bytes), at + 1))
}

/// Appends what the characters at this place stand for: all those that stand for themselves, or
/// one escape. Returns where the text goes on, or `None` as [`byte_text`] does.
fn push_part(text: &[u8], at: usize, bytes: &mut Vec<u8>) -> Option<usize>
    requires { at ≤ length text.now }
    ensures on { IfSome result (λ next. (at < next) × (next ≤ length text.now)) }
    ensures part { IfSome result (λ next. (part : List ℕ)
        × (bytes.new.items ≡ bytes.old.items ++ part) × SpellsUpTo text.now at part next) }
{
    let rest = &text[at..];
    let count = plain_front_length(rest);
    if 0 < count {
        bytes.extend_from_slice(&rest[..count]).ok()?;
        Some(at + count)
    } else {
        bytes.push(escaped_byte(text, at)?).ok()?;
        Some(at + ESCAPE_LENGTH)
    }
}
