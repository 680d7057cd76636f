//! The characters that a string of JSON stands for, where it has escapes.

ghost use Rattle.std.specs.Prelude.{◌≡◌, ℕ, ◌∷◌, [], ◌+◌, ◌<◌, ◌≤◌, List, IfSome, Some, drop, get_or, length};
ghost use Rattle.std.specs.Char.{digit_value};
ghost use Rattle.json.specs.Text.{code_unit, short_escape};
ghost use Rattle.script_tokens.specs.Spelled.{Closes, StandsUpTo};

use crate::lexemes::{byte_at, is_own_byte};
use std::alloc::Global;

/// The characters from this place up to a quote, without escapes, and where the script goes on behind
/// the quote. Returns `None` if they are no string, if an escape stands for a character that is
/// not ASCII, or if an allocation fails.
pub(crate) fn characters(alloc: Global, text: &[u8], start: usize) -> Option<(Vec<u8>, usize)>
    requires { start ≤ length text.now }
    ensures { IfSome result
        (λ found. Closes (drop start text.now) found.0.items (drop found.1 text.now)) }
{
    let mut found = Vec::new(alloc);
    let mut at = start;
    while byte_at(text, at) != b'"' {
        let (character, next) = next_character(text, at)?;
        found.push(character).ok()?;
        at = next;
    }
    Some((found, at + 1))
}

/// The byte that stands for itself at this place, or that an escape stands for, and where the text goes
/// on. Returns `None` as [`characters`] does.
fn next_character(text: &[u8], at: usize) -> Option<(u8, usize)>
    requires { at ≤ length text.now }
    ensures on { IfSome result (λ found. (at < found.1) × (found.1 ≤ length text.now)) }
    ensures stands { IfSome result (λ found. StandsUpTo text.now at (found.0 ∷ []) found.1) }
{
    if at == text.len() {
        return None;
    }
    let first = text[at];
    if is_own_byte(first) {
        Some((first, at + 1))
    } else if first == b'\\' {
        escaped_character(text, at)
    } else {
        None
    }
}

/// The byte that the escape at this place stands for, and where the text goes on.
fn escaped_character(text: &[u8], at: usize) -> Option<(u8, usize)>
    requires within { at < length text.now }
    requires backslash { get_or text.now at 0 ≡ 92 }
    ensures on { IfSome result (λ found. (at < found.1) × (found.1 ≤ length text.now)) }
    ensures stands { IfSome result (λ found. StandsUpTo text.now at (found.0 ∷ []) found.1) }
{
    if text.len() - at < 2 {
        return None;
    }
    if text[at + 1] != b'u' {
        return Some((short_escape(text[at + 1])?, at + 2));
    }
    if text.len() - at < 6 {
        return None;
    }
    Some((ascii_of_digits(text, at + 2)?, at + 6))
}

/// What a backslash and this byte stand for, if the byte is no `u`.
#[tactic(auto, unfolding(json::specs::Text::short_escape))]
fn short_escape(letter: u8) -> Option<u8>
    ensures { result ≡ short_escape letter }
{
    match letter {
        b'"' | b'\\' | b'/' => Some(letter),
        b'b' => Some(8),
        b'f' => Some(12),
        b'n' => Some(b'\n'),
        b'r' => Some(b'\r'),
        b't' => Some(b'\t'),
        _ => None,
    }
}

/// The ASCII character whose code the four hexadecimal digits at this place spell.
fn ascii_of_digits(text: &[u8], at: usize) -> Option<u8>
    requires { at + 4 ≤ length text.now }
    ensures ascii { IfSome result (λ code. code < 128) }
    ensures code { IfSome result (λ code. code_unit (get_or text.now at 0) (get_or text.now (at + 1) 0)
        (get_or text.now (at + 2) 0) (get_or text.now (at + 3) 0) ≡ Some code) }
{
    if text[at] != b'0' || text[at + 1] != b'0' {
        return None;
    }
    let high = hex_digit(text[at + 2])?;
    let low = hex_digit(text[at + 3])?;
    if high < 8 {
        Some(16 * high + low)
    } else {
        None
    }
}

/// The value of a hexadecimal digit of either case.
fn hex_digit(character: u8) -> Option<u8>
    ensures value { IfSome result (λ value. digit_value character ≡ value) }
    ensures digit { IfSome result (λ value. value < 16) }
{
    match character {
        b'0'..=b'9' => Some(character - b'0'),
        b'a'..=b'f' => Some(character - b'a' + 10),
        b'A'..=b'F' => Some(character - b'A' + 10),
        _ => None,
    }
}
