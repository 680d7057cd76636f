//! Bytes as text, and back: printing, decoding, and the lengths of both.

ghost use Rattle.std.specs.Prelude.{◌≡◌, ℕ, ◌+◌, ◌-◌, ◌^◌, ◌<◌, ◌≤◌, ◌++◌, true, get_or, length};
ghost use Rattle.std.specs.Prelude.{min, string_bytes};
ghost use Rattle.std.specs.Prelude.{IfOk, IfSome, OnOk, IsSome, IsTrue, Some, option_map, drop, take};
ghost use Rattle.std.specs.Char.{digit_char};
ghost use Rattle.system_keys.specs.AsSpecified.{IsAsSpecified};
ghost use Rattle.system_keys.specs.Refusals.{row_fault};
ghost use Rattle.system_keys.specs.Text.{text_of, byte_text, bytes_of, bytes_read, first_of};
ghost use Rattle.system_keys.specs.Text.{is_plain, is_escape, is_lower_hex_digit};
ghost use Rattle.system_keys.specs.Text.{value_of_hex_digit, byte_of_hex_digits};

use crate::bytes::{Bytes, SHORT_LENGTH};
use crate::memory::OutOfMemory;
use crate::plain::plain_front_length;
use crate::refusal::RowFault;
use std::alloc::Global;

/// How many characters are counted at once: as many as fit in a byte.
const PART: usize = 255;

/// Returns the text of the bytes. Fails only with `OutOfMemory`.
pub fn print_bytes(alloc: Global, bytes: &[u8]) -> Result<String, OutOfMemory>
    ensures value { IfOk result (λ text. string_bytes text ≡ text_of bytes.now) }
    ensures round_trip { IfOk result (λ text. bytes_of (string_bytes text) ≡ Some bytes.now) }
{
    let mut text = String::with_capacity(alloc, text_length(bytes))?;
    for byte in bytes {
        push_byte_text(&mut text, *byte)?;
    }
    Ok(text)
}

/// How many characters the text of the bytes has, or `usize::MAX` if there are more.
fn text_length(bytes: &[u8]) -> usize
    ensures { result ≡ min (length (text_of bytes.now)) (2 ^ 64 - 1) }
{
    let mut length = 0usize;
    for byte in bytes {
        length = length.saturating_add(text_length_of_byte(*byte));
    }
    length
}

/// How many characters the text of the byte has.
fn text_length_of_byte(byte: u8) -> usize
    ensures { result ≡ length (byte_text byte) }
{
    if is_plain(byte) { 1 } else { 4 }
}

/// Whether the byte is its own character in a text of bytes.
#[inline(always)]
pub fn is_plain(byte: u8) -> bool
    ensures { result ≡ is_plain byte }
{
    byte.is_ascii_graphic() && byte != b'"' && byte != b'\\'
}

fn push_byte_text(text: &mut String, byte: u8) -> Result<(), OutOfMemory>
    ensures { OnOk result (string_bytes text.new ≡ string_bytes text.old ++ byte_text byte) }
{
    if is_plain(byte) {
        text.push(char::from(byte))?;
        Ok(())
    } else {
        text.push_str("\\x")?;
        text.push(hex_digit(byte / 16))?;
        text.push(hex_digit(byte % 16))?;
        Ok(())
    }
}

/// The lower-case hexadecimal digit of a number below 16.
pub fn hex_digit(value: u8) -> char
    requires { value < 16 }
    ensures value { result ≡ digit_char value }
    ensures ascii { result < 128 }
{
    match char::from_digit(u32::from(value), 16) {
        Some(digit) => digit,
        None => unreachable!(),
    }
}

/// Returns the bytes of the text, as a vector.
///
/// Fails with `BadText` for another character, an escape with another letter, a missing or
/// upper-case digit, or an escape of a byte that has its own character. Fails with `OutOfMemory`
/// only for a text of bytes.
pub fn read_bytes(alloc: Global, text: &str) -> Result<Vec<u8>, RowFault>
    ensures value { IsAsSpecified row_fault (λ bytes. bytes.items) result (bytes_read text.now) }
    ensures spelled { IfOk result (λ bytes. text_of bytes.items ≡ text.now) }
{
    Ok(Bytes::from_text(alloc, text)?.into_vec()?)
}

impl Bytes {
    /// Returns the bytes of the text: those of [`read_bytes`], without a block of memory if there are
    /// up to 24. Fails as `read_bytes` does.
    pub fn from_text(alloc: Global, text: &str) -> Result<Bytes, RowFault>
        ensures value { IsAsSpecified row_fault (λ bytes. bytes) result (bytes_read text.now) }
        ensures spelled { IfOk result (λ bytes. text_of bytes ≡ text.now) }
    {
        match decode_text(alloc, text.as_bytes()) {
            Ok(Some(bytes)) => Ok(bytes),
            Ok(None) => Err(RowFault::BadText),
            Err(OutOfMemory) => match decoded_length(text.as_bytes()) {
                Some(_) => Err(RowFault::OutOfMemory),
                None => Err(RowFault::BadText),
            },
        }
    }
}

/// How many bytes the text stands for.
fn decoded_length(text: &[u8]) -> Option<usize>
    ensures { result ≡ option_map length (bytes_of text.now) }
{
    let mut length = 0usize;
    let mut rest = text;
    while !rest.is_empty() {
        let (_byte, behind) = decode_first_byte(rest)?;
        length += 1;
        rest = behind;
    }
    Some(length)
}

/// The bytes that the text stands for, decoded in one pass.
fn decode_text(alloc: Global, text: &[u8]) -> Result<Option<Bytes>, OutOfMemory>
    ensures { IfOk result (λ found. found ≡ bytes_of text.now) }
{
    let mut bytes = Bytes::with_capacity(alloc, room_to_decode(text))?;
    let mut rest = text;
    while !rest.is_empty() {
        let (plain, behind) = rest.split_at(plain_front_length(rest));
        bytes.extend_from_slice(plain)?;
        if behind.is_empty() {
            return Ok(Some(bytes));
        }
        let Some((byte, after)) = decode_first_byte(behind) else {
            return Ok(None);
        };
        bytes.push(byte)?;
        rest = after;
    }
    Ok(Some(bytes))
}

/// How much room to make for the bytes of the text. It is exact for a long text that stands for bytes, so
/// that up to 24 bytes take no block of memory; no contract rests on it.
fn room_to_decode(text: &[u8]) -> usize {
    if text.len() <= SHORT_LENGTH {
        text.len()
    } else {
        expected_length(text)
    }
}

/// How many bytes the text stands for, if each backslash begins an escape.
fn expected_length(text: &[u8]) -> usize {
    let mut length = text.len();
    for part in text.chunks(PART) {
        length = length.saturating_sub(3 * usize::from(count_backslashes(part)));
    }
    length
}

/// How many backslashes there are, of up to 255 characters.
fn count_backslashes(part: &[u8]) -> u8 {
    let mut escapes = 0u8;
    for character in part {
        if *character == b'\\' {
            escapes = escapes.wrapping_add(1);
        }
    }
    escapes
}

/// The first byte that the text stands for, and the rest of the text. Every byte of a script goes
/// through here, so it is not called.
#[inline(always)]
fn decode_first_byte(text: &[u8]) -> Option<(u8, &[u8])>
    ensures value { option_map (λ next. (next.0, next.1.now)) result ≡ first_of text.now }
    ensures shorter { IfSome result (λ next. length next.1.now + 1 ≤ length text.now) }
{
    match text {
        [byte, rest @ ..] if is_plain(*byte) => Some((*byte, rest)),
        [slash, x, high, low, rest @ ..] if is_escape(*slash, *x, *high, *low) => {
            Some((byte_of_hex_digits(*high, *low), rest))
        }
        _ => None,
    }
}

fn is_escape(slash: u8, x: u8, high: u8, low: u8) -> bool
    ensures value { result ≡ is_escape slash x high low }
{
    slash == b'\\'
        && x == b'x'
        && is_lower_hex_digit(high)
        && is_lower_hex_digit(low)
        && !is_plain(byte_of_hex_digits(high, low))
}

/// Whether the character is a digit or one of the letters `a` to `f`.
#[inline(always)]
pub fn is_lower_hex_digit(character: u8) -> bool
    ensures { result ≡ is_lower_hex_digit character }
{
    matches!(character, b'0'..=b'9' | b'a'..=b'f')
}

/// The byte that has these two lower-case hexadecimal digits.
#[inline(always)]
pub fn byte_of_hex_digits(high: u8, low: u8) -> u8
    requires high { IsTrue (is_lower_hex_digit high) }
    requires low { IsTrue (is_lower_hex_digit low) }
    ensures { result ≡ byte_of_hex_digits high low }
{
    16 * value_of_hex_digit(high) + value_of_hex_digit(low)
}

#[inline(always)]
fn value_of_hex_digit(character: u8) -> u8
    requires { IsTrue (is_lower_hex_digit character) }
    ensures value { result ≡ value_of_hex_digit character }
    ensures digit { result < 16 }
{
    match character {
        b'0'..=b'9' => character - b'0',
        _ => character - b'a' + 10,
    }
}
