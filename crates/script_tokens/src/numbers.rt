//! Whole numbers of up to nineteen digits.

ghost use Rattle.std.specs.Prelude.{◌≡◌, ℕ, ◌^◌, ◌<◌, ◌≤◌, List, IfSome, IsTrue, Some, drop, length};
ghost use Rattle.std.specs.Prelude.{take};
ghost use Rattle.std.specs.Str.Parse.{AllDigits, digits_value};
ghost use Rattle.json.specs.Token as tokens;
ghost use Rattle.serde_json.specs.Data.{unsigned};
ghost use Rattle.serde_json.specs.Read.{number_of};
ghost use Rattle.script_tokens.specs.LeftTokens.{StandsFirst};

use crate::lexemes::{byte_at, ends_word};

/// A number below this one takes another digit.
const SHORT_NUMBER: u64 = 1_000_000_000_000_000_000;

/// The number that the digits at this place write, and where the text goes on behind them. Returns
/// `None` if there are none, if a zero stands in front, if there are more than nineteen, or if the
/// number goes on otherwise.
#[inline(always)]
pub(crate) fn number(text: &[u8], start: usize) -> Option<(u64, usize)>
    ensures { IfSome result (λ found. (digits : List ℕ)
        × StandsFirst (drop start text.now) (tokens.number digits) (drop found.1 text.now)
        × (number_of digits ≡ Some (unsigned found.0))) }
{
    let rest = text.get(start..)?;
    let (number, count) = front_number(rest);
    if has_plain_digits(byte_at(rest, 0), count) && ends_word(byte_at(rest, count)) {
        Some((number, start + count))
    } else {
        None
    }
}

/// Whether so many digits are a number: at least one, and no zero in front of others.
#[inline(always)]
fn has_plain_digits(first: u8, count: usize) -> bool
    ensures some { IsTrue result → 0 < count }
    ensures no_zero { IsTrue result → first ≡ 48 → count ≡ 1 }
{
    count == 1 || (count > 1 && first != b'0')
}

/// The number that the digits at the front write, and how many these are: no more than nineteen.
#[inline(always)]
fn front_number(text: &[u8]) -> (u64, usize)
    ensures value { result.0 ≡ digits_value 10 (take result.1 text.now) }
    ensures digits { AllDigits 10 (take result.1 text.now) }
    ensures within { result.1 ≤ length text.now }
    ensures small { result.0 < 10 ^ 19 }
{
    let mut number = 0u64;
    let mut count = 0usize;
    while count < text.len() && text[count].is_ascii_digit() && number < SHORT_NUMBER {
        number = number * 10 + u64::from(text[count] - b'0');
        count += 1;
    }
    (number, count)
}
