//! Texts and texts of bytes, with and without escapes of JSON.

ghost use Rattle.std.specs.Prelude.{◌≡◌, ℕ, List, IfSome, Some, drop};
ghost use Rattle.std.specs.Cow.{cow_str_bytes};
ghost use Rattle.std.specs.String.{string_bytes};
ghost use Rattle.json.specs.Token as tokens;
ghost use Rattle.system_keys.specs.Text.{bytes_of};
ghost use Rattle.script_tokens.specs.LeftTokens.{StandsFirst};

use crate::byte_texts::byte_text;
use crate::characters::characters;
use crate::lexemes::{byte_at, text_end};
use std::alloc::Global;
use std::borrow::CowStr;
use system_keys::Bytes;

/// The text at this place, lent if it has no escape, and where the script goes on behind its quote.
/// Returns `None` if there is none, if an escape stands for a character that is not ASCII, or if an
/// allocation fails.
#[inline(always)]
pub(crate) fn text_at<'a>(alloc: Global, text: &'a str, start: usize) -> Option<(CowStr<'a>, usize)>
    ensures { IfSome result (λ found. StandsFirst (drop start text.now)
        (tokens.string (cow_str_bytes found.0)) (drop found.1 text.now)) }
{
    match text_end(text.as_bytes(), start) {
        Some(end) => Some((CowStr::Borrowed(text.get(start + 1..end)?), end + 1)),
        None => {
            let (unescaped, end) = unescaped_text(alloc, text.as_bytes(), start)?;
            Some((CowStr::Owned(unescaped), end))
        }
    }
}

/// The bytes that the text at this place spells (this project's profile), and where the script goes on
/// behind its quote. Returns `None` if it spells none, and otherwise as [`text_at`] does.
#[inline(always)]
pub(crate) fn bytes_at(alloc: Global, text: &[u8], start: usize) -> Option<(Bytes, usize)>
    ensures { IfSome result (λ found. (content : List ℕ)
        × StandsFirst (drop start text.now) (tokens.string content) (drop found.1 text.now)
        × (bytes_of content ≡ Some found.0)) }
{
    match byte_text(alloc, text, start) {
        Some(found) => Some(found),
        None => unescaped_bytes(alloc, text, start),
    }
}

/// The same, where the escapes are taken away first.
#[inline(never)]
fn unescaped_bytes(alloc: Global, text: &[u8], start: usize) -> Option<(Bytes, usize)>
    ensures { IfSome result (λ found. (content : List ℕ)
        × StandsFirst (drop start text.now) (tokens.string content) (drop found.1 text.now)
        × (bytes_of content ≡ Some found.0)) }
{
    let (unescaped, end) = unescaped_text(alloc, text, start)?;
    let bytes = Bytes::from_text(alloc, unescaped.as_str()).ok()?;
    Some((bytes, end))
}

/// The text at this place without its escapes, and where the script goes on behind its quote.
#[inline(never)]
fn unescaped_text(alloc: Global, text: &[u8], start: usize) -> Option<(String, usize)>
    ensures { IfSome result (λ found. StandsFirst (drop start text.now)
        (tokens.string (string_bytes found.0)) (drop found.1 text.now)) }
{
    if byte_at(text, start) != b'"' {
        return None;
    }
    let (found, end) = characters(alloc, text, start + 1)?;
    let unescaped = String::from_utf8(found).ok()?;
    Some((unescaped, end))
}
