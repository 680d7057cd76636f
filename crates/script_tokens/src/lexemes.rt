//! What stands at a place of a text: spaces, brackets, texts without escapes, truth values.

ghost use Rattle.std.specs.Prelude.{◌≡◌, ◌≢◌, ◌+◌, ◌<◌, ◌||◌, IfSome, drop, false, length};
ghost use Rattle.std.specs.Prelude.{slice_range};
ghost use Rattle.json.specs.Lex.{begins_colon, between, lex};
ghost use Rattle.json.specs.Token as tokens;
ghost use Rattle.json.specs.Word.{head, is_operator, is_space};
ghost use Rattle.script_tokens.specs.LeftTokens.{MayBegin, StandsFirst, ends_value, is_own_byte};

use crate::place::Place;

/// The byte at this place, or a space behind the end.
#[inline(always)]
pub(crate) fn byte_at(text: &[u8], at: usize) -> u8
    ensures value { result ≡ head (drop at text.now) }
    ensures inside { result ≢ 32 → at < length text.now }
{
    if at < text.len() { text[at] } else { b' ' }
}

/// Where the first byte is, from this place on, that is no space.
#[inline(always)]
pub(crate) fn skip_spaces(text: &[u8], at: usize) -> usize
    ensures { lex between (drop result text.now) ≡ lex between (drop at text.now) }
{
    let mut end = at;
    while end < text.len() && is_space(text[end]) {
        end += 1;
    }
    end
}

#[inline(always)]
fn is_space(byte: u8) -> bool
    ensures { result ≡ is_space byte }
{
    byte == b' ' || byte == b'\t' || byte == b'\n' || byte == b'\r'
}

/// Where a value or a key may begin. Returns `None` if a comma is missing in front of it.
#[inline(always)]
pub(crate) fn value_start(text: &[u8], at: usize, place: Place) -> Option<usize>
    ensures { IfSome result
        (λ start. MayBegin place (drop at text.now) (drop start text.now)) }
{
    let first = skip_spaces(text, at);
    match place {
        Place::Fresh => Some(first),
        Place::AfterValue => {
            if byte_at(text, first) == b',' {
                Some(skip_spaces(text, first + 1))
            } else {
                None
            }
        }
    }
}

/// Where the comma or the bracket is that follows a value. Returns `None` if neither does.
#[inline(always)]
pub(crate) fn value_end(text: &[u8], at: usize) -> Option<usize>
    ensures same { IfSome result
        (λ end. lex between (drop end text.now) ≡ lex between (drop at text.now)) }
    ensures no_colon { IfSome result
        (λ end. begins_colon (lex between (drop end text.now)) ≡ false) }
{
    let end = skip_spaces(text, at);
    if ends_value(byte_at(text, end)) {
        Some(end)
    } else {
        None
    }
}

#[inline(always)]
fn ends_value(byte: u8) -> bool
    ensures { result ≡ ends_value byte }
{
    byte == b',' || byte == b']' || byte == b'}'
}

/// Where the quote is that closes the text at this place. Returns `None` if there is none, or if
/// the text has an escape.
#[inline(always)]
pub(crate) fn text_end(text: &[u8], start: usize) -> Option<usize>
    ensures first { IfSome result (λ end. StandsFirst (drop start text.now)
        (tokens.string (slice_range text.now (start + 1) end)) (drop (end + 1) text.now)) }
    ensures within { IfSome result (λ end. (start < end) × (end < length text.now)) }
{
    if byte_at(text, start) != b'"' {
        return None;
    }
    let mut end = start + 1;
    while end < text.len() && is_own_byte(text[end]) {
        end += 1;
    }
    if byte_at(text, end) == b'"' {
        Some(end)
    } else {
        None
    }
}

/// Whether the byte stands for itself in a text.
#[inline(always)]
pub(crate) fn is_own_byte(byte: u8) -> bool
    ensures { result ≡ is_own_byte byte }
{
    byte >= b' ' && byte != b'"' && byte != b'\\'
}

/// The truth value at this place, and where the text goes on behind it.
pub(crate) fn truth_value(text: &[u8], start: usize) -> Option<(bool, usize)>
    ensures { IfSome result (λ found. StandsFirst (drop start text.now)
        (tokens.boolean found.0) (drop found.1 text.now)) }
{
    let rest = text.get(start..)?;
    if rest.starts_with(b"true") && ends_word(byte_at(text, start + 4)) {
        Some((true, start + 4))
    } else if rest.starts_with(b"false") && ends_word(byte_at(text, start + 5)) {
        Some((false, start + 5))
    } else {
        None
    }
}

/// Whether a word ends in front of this byte.
#[inline(always)]
pub(crate) fn ends_word(byte: u8) -> bool
    ensures { result ≡ (is_operator byte || is_space byte) }
{
    matches!(
        byte,
        b',' | b']' | b'}' | b' ' | b'\n' | b'\r' | b'\t' | b':' | b'[' | b'{'
    )
}
