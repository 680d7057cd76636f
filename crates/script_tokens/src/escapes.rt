//! Escapes of bytes that have no character of their own: in a script two backslashes, `x` and two
//! lower-case hexadecimal digits.

ghost use Rattle.std.specs.Prelude.{◌≡◌, ◌<◌, ◌≤◌, ◌+◌, IfSome, IsTrue, length};
ghost use Rattle.script_tokens.specs.Spelled.{HasMarks, IsEscapeAt};

use system_keys::{byte_of_hex_digits, is_lower_hex_digit, is_plain};

/// How many characters of a script an escape has.
pub(crate) const ESCAPE_LENGTH: usize = 5;

/// The byte whose escape stands at this place.
#[inline(always)]
pub(crate) fn escaped_byte(text: &[u8], at: usize) -> Option<u8>
    requires { at ≤ length text.now }
    ensures within { IfSome result (λ _. at + ESCAPE_LENGTH ≤ length text.now) }
    ensures escape { IfSome result (IsEscapeAt text.now at) }
{
    if text.len() - at < ESCAPE_LENGTH || !has_marks(text, at) {
        return None;
    }
    let (high, low) = (text[at + 3], text[at + 4]);
    if !is_lower_hex_digit(high) || !is_lower_hex_digit(low) {
        return None;
    }
    let byte = byte_of_hex_digits(high, low);
    if is_plain(byte) { None } else { Some(byte) }
}

/// Whether two backslashes and `x` stand at this place.
#[inline(always)]
fn has_marks(text: &[u8], at: usize) -> bool
    requires { at + ESCAPE_LENGTH ≤ length text.now }
    ensures { IsTrue result → HasMarks text.now at }
{
    text[at] == b'\\' && text[at + 1] == b'\\' && text[at + 2] == b'x'
}
