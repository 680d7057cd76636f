//! Pieces of lines: numbers, bytes between quotes, tags and refusals.

ghost use Rattle.std.specs.Prelude.{◌≡◌, ◌++◌, ◌∷◌, [], ◌<◌, ◌/◌, ◌%◌, OnOk, Some, codes};
ghost use Rattle.std.specs.Prelude.{drop, string_bytes, take};
ghost use Rattle.std.specs.Fmt.{decimal};
ghost use Rattle.std.specs.Char.{digit_char};
ghost use Rattle.system_keys.specs.Text.{byte_text, text_of};
ghost use Rattle.pages.specs.Printing.{Prints};
ghost use Rattle.scripts.specs.Lines.{number_or_none, quoted, refused_text, spaced, tag_text};

use crate::text_lines::take_page;
use crate::words::Word;
use itoa::Buffer;
use pages::Page;
use std::str;
use system_keys::{OutOfMemory, Tag, hex_digit, is_plain, plain_front_length};

/// Appends the words, and after them the number.
#[tactic(auto, using(pages::proofs::Prints::prints_both))]
pub fn push_numbered<P: Page>(page: &mut P, words: &str, number: u64)
    ensures { Prints P.has_printed page.old page.new (words.now ++ decimal number) }
{
    page.push(words);
    page.push(Buffer::new().format(number));
}

/// Appends the word after a space.
pub fn push_word<P: Page>(page: &mut P, word: &str)
    ensures { Prints P.has_printed page.old page.new (spaced word.now) }
{
    page.push(" ");
    page.push(word);
}

impl Word for Tag {
    ghost word = { tag_text };

    // Its locality, a colon, its id.
    #[tactic(auto, using(pages::proofs::Prints::prints_both))]
    fn push_to<P: Page>(&self, page: &mut P) {
        page.push(Buffer::new().format(self.locality));
        page.push(":");
        page.push(Buffer::new().format(self.id));
    }
}

/// Appends the text of the bytes between double quotes.
pub fn push_quoted<P: Page>(page: &mut P, bytes: &[u8])
    ensures { Prints P.has_printed page.old page.new (quoted bytes.now) }
{
    page.push("\"");
    push_bytes(page, bytes);
    page.push("\"");
}

/// Appends the text of the bytes. Those before one that is escaped are appended at once.
fn push_bytes<P: Page>(page: &mut P, bytes: &[u8])
    ensures { Prints P.has_printed page.old page.new (text_of bytes.now) }
{
    let mut rest = bytes;
    while !rest.is_empty() {
        let (plain, behind) = split_plain(rest);
        page.push(plain);
        rest = push_first(page, behind);
    }
}

/// Splits off the bytes at the front that are their own characters.
#[tactic(auto, using(crate::proofs::PlainBytes::plain_text, crate::proofs::PlainBytes::split_whole))]
fn split_plain(bytes: &[u8]) -> (&str, &[u8])
    ensures whole { result.0.now ++ result.1.now ≡ bytes.now }
    ensures plain { text_of result.0.now ≡ result.0.now }
{
    let (plain, behind) = bytes.split_at(plain_front_length(bytes));
    match str::from_utf8(plain) {
        Ok(characters) => (characters, behind),
        Err(_) => unreachable!(),
    }
}

/// Appends the text of the first byte, if there is one, and returns the bytes after it.
#[tactic(auto, using(pages::proofs::Prints::prints_nothing))]
fn push_first<'a, P: Page>(page: &mut P, bytes: &'a [u8]) -> &'a [u8]
    ensures printed { Prints P.has_printed page.old page.new (text_of (take 1 bytes.now)) }
    ensures rest { result.now ≡ drop 1 bytes.now }
{
    match bytes.split_first() {
        Some((byte, behind)) => {
            push_byte(page, *byte);
            behind
        }
        None => bytes,
    }
}

/// Appends the text of a byte.
fn push_byte<P: Page>(page: &mut P, byte: u8)
    ensures { Prints P.has_printed page.old page.new (byte_text byte) }
{
    if is_plain(byte) {
        push_ascii(page, char::from(byte));
    } else {
        push_escape(page, byte);
    }
}

/// Appends `\x` and the two hexadecimal digits of a byte.
#[tactic(auto, using(pages::proofs::Prints::prints_both))]
fn push_escape<P: Page>(page: &mut P, byte: u8)
    ensures { Prints P.has_printed page.old page.new
        (92 ∷ 120 ∷ digit_char (byte / 16) ∷ digit_char (byte % 16) ∷ []) }
{
    page.push("\\x");
    push_ascii(page, hex_digit(byte / 16));
    push_ascii(page, hex_digit(byte % 16));
}

/// Appends a character of one byte.
fn push_ascii<P: Page>(page: &mut P, character: char)
    requires { character < 128 }
    ensures { Prints P.has_printed page.old page.new (character ∷ []) }
{
    let mut bytes = [0u8; 4];
    page.push(character.encode_utf8(&mut bytes));
}

/// Appends the number of a refusal, or `none`, and its name.
pub fn push_refused<P: Page>(page: &mut P, number: Option<u32>, name: &str)
    ensures { Prints P.has_printed page.old page.new (refused_text number name.now) }
{
    push_refused_number(page, number);
    push_word(page, name);
}

/// Appends the number of a refusal, or `none`.
fn push_refused_number<P: Page>(page: &mut P, number: Option<u32>)
    ensures { Prints P.has_printed page.old page.new (codes "refused " ++ number_or_none number) }
{
    match number {
        Some(number) => push_numbered(page, "refused ", u64::from(number)),
        None => page.push("refused none"),
    }
}

/// Appends the number and the name of a refusal to a text as `push_refused` does to a page. Fails only
/// with `OutOfMemory`.
pub fn print_refused(text: &mut String, number: u32, name: &str) -> Result<(), OutOfMemory>
    ensures { OnOk result (string_bytes text.new
        ≡ string_bytes text.old ++ refused_text (Some number) name.now) }
{
    let mut page = take_page(*text.allocator(), text);
    push_refused(&mut page, Some(number), name);
    *text = page.into_text()?;
    Ok(())
}
