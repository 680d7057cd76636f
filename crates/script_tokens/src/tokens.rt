//! The reader itself: the tokens of a script that are left, taken from the front.

ghost use Rattle.std.specs.Prelude.{◌≡◌, ◌∷◌, [], ℕ, List, IfSome, IsTrue, None, Some};
ghost use Rattle.std.specs.Bool.{MatchBool};
ghost use Rattle.std.specs.Cow.{cow_str_bytes};
ghost use Rattle.json.specs.Json.{after_end_array, read_key};
ghost use Rattle.json.specs.Lex as lexer;
ghost use Rattle.json.specs.Token as tokens;
ghost use Rattle.serde_json.specs.Data.{unsigned};
ghost use Rattle.serde_json.specs.Read.{number_of};
ghost use Rattle.system_keys.specs.Text.{bytes_of};

use crate::lexemes::{byte_at, skip_spaces, truth_value, value_end, value_start};
use crate::numbers::number;
use crate::place::Place;
use crate::texts::{bytes_at, text_at};
use std::alloc::Global;
use std::borrow::CowStr;
use std::marker::Model;
use system_keys::Bytes;

/// A reader of a script, which contracts see as the list of the tokens that are left.
///
/// After a call that returns `None` the reader may stand anywhere in the script.
#[derive(Drop)]
pub struct Tokens<'a> {
    text: &'a str,
    at: usize,
    place: Place,
}

impl<'a> Model for Tokens<'a> {
    ghost use Rattle.std.specs.Prelude.{List, drop};
    ghost use Rattle.json.specs.Token.{Token, tokens_code};

    ghost Value = { List Token };

    ghost coded = { tokens_code };

    ghost use Rattle.script_tokens.specs.LeftTokens.{tokens_left};

    ghost view = { λ t. tokens_left t.place (drop t.at t.text.now) };
}

impl<'a> Tokens<'a> {
    /// The tokens of a script.
    pub fn new(text: &'a str) -> Tokens<'a>
        ensures { result ≡ lexer.tokens text.now }
    {
        Tokens {
            text,
            at: 0,
            place: Place::Fresh,
        }
    }

    /// Whether nothing is left but spaces. The answer `false` decides nothing.
    pub fn is_at_end(&self) -> bool
        ensures { IsTrue result → self.now ≡ [] }
    {
        skip_spaces(self.text.as_bytes(), self.at) >= self.text.len()
    }

    /// Takes the bracket that opens a list, if it comes next.
    #[inline(always)]
    pub fn take_begin_array(&mut self) -> bool
        ensures { MatchBool result (self.old ≡ tokens.begin_array ∷ self.new) (self.new ≡ self.old) }
    {
        let text = self.text.as_bytes();
        match value_start(text, self.at, self.place) {
            Some(start) if byte_at(text, start) == b'[' => {
                self.at = start + 1;
                self.place = Place::Fresh;
                true
            }
            _ => false,
        }
    }

    /// Takes the brace that opens an object, if it comes next.
    #[inline(always)]
    pub fn take_begin_object(&mut self) -> bool
        ensures { MatchBool result (self.old ≡ tokens.begin_object ∷ self.new)
            (self.new ≡ self.old) }
    {
        let text = self.text.as_bytes();
        match value_start(text, self.at, self.place) {
            Some(start) if byte_at(text, start) == b'{' => {
                self.at = start + 1;
                self.place = Place::Fresh;
                true
            }
            _ => false,
        }
    }

    /// Takes the bracket that closes a list, if it comes next.
    #[inline(always)]
    pub fn take_end_array(&mut self) -> bool
        ensures { MatchBool result (after_end_array self.old ≡ Some self.new)
            (self.new ≡ self.old) }
    {
        let text = self.text.as_bytes();
        let end = skip_spaces(text, self.at);
        if byte_at(text, end) != b']' {
            return false;
        }
        self.at = end + 1;
        self.place = Place::AfterValue;
        true
    }

    /// Takes the brace that closes an object, if it comes next.
    #[inline(always)]
    pub fn take_end_object(&mut self) -> bool
        ensures { MatchBool result (read_key self.old ≡ Some (None, self.new))
            (self.new ≡ self.old) }
    {
        let text = self.text.as_bytes();
        let end = skip_spaces(text, self.at);
        if byte_at(text, end) != b'}' {
            return false;
        }
        self.at = end + 1;
        self.place = Place::AfterValue;
        true
    }

    /// Takes the name of a field of an object, with its colon. Returns `None` if none comes next, if
    /// an escape of the name stands for a character that is not ASCII, or if an allocation fails.
    #[inline(always)]
    pub fn take_key(&mut self, alloc: Global) -> Option<CowStr<'a>>
        ensures { IfSome result
            (λ key. read_key self.old ≡ Some (Some (cow_str_bytes key), self.new)) }
    {
        let text = self.text.as_bytes();
        let start = value_start(text, self.at, self.place)?;
        let (key, end) = text_at(alloc, self.text, start)?;
        let colon = skip_spaces(text, end);
        if byte_at(text, colon) != b':' {
            return None;
        }
        self.at = colon + 1;
        self.place = Place::Fresh;
        Some(key)
    }

    /// Takes a text. Returns `None` if none comes next, if an escape stands for a character that is
    /// not ASCII, or if an allocation fails.
    #[inline(always)]
    pub fn take_text(&mut self, alloc: Global) -> Option<CowStr<'a>>
        ensures { IfSome result
            (λ text. self.old ≡ tokens.string (cow_str_bytes text) ∷ self.new) }
    {
        let text = self.text.as_bytes();
        let start = value_start(text, self.at, self.place)?;
        let (inside, end) = text_at(alloc, self.text, start)?;
        let after = value_end(text, end)?;
        self.at = after;
        self.place = Place::AfterValue;
        Some(inside)
    }

    /// Takes a text, and returns the bytes that it spells (this project's profile). Returns `None`
    /// if no text comes next, if it spells none, or if an allocation fails.
    #[inline(always)]
    pub fn take_bytes(&mut self, alloc: Global) -> Option<Bytes>
        ensures { IfSome result (λ bytes. (text : List ℕ)
            × (self.old ≡ tokens.string text ∷ self.new) × (bytes_of text ≡ Some bytes)) }
    {
        let text = self.text.as_bytes();
        let start = value_start(text, self.at, self.place)?;
        let (bytes, end) = bytes_at(alloc, text, start)?;
        let after = value_end(text, end)?;
        self.at = after;
        self.place = Place::AfterValue;
        Some(bytes)
    }

    /// Takes a whole number. Returns `None` if none comes next, or if it is not written in up to
    /// nineteen digits alone.
    #[inline(always)]
    pub fn take_number(&mut self) -> Option<u64>
        ensures { IfSome result (λ n. (digits : List ℕ)
            × (self.old ≡ tokens.number digits ∷ self.new)
            × (number_of digits ≡ Some (unsigned n))) }
    {
        let text = self.text.as_bytes();
        let start = value_start(text, self.at, self.place)?;
        let (number, end) = number(text, start)?;
        self.at = end;
        self.place = Place::AfterValue;
        Some(number)
    }

    /// Takes a truth value. Returns `None` if none comes next.
    #[inline(always)]
    pub fn take_bool(&mut self) -> Option<bool>
        ensures { IfSome result (λ value. self.old ≡ tokens.boolean value ∷ self.new) }
    {
        let text = self.text.as_bytes();
        let start = value_start(text, self.at, self.place)?;
        let (value, end) = truth_value(text, start)?;
        self.at = end;
        self.place = Place::AfterValue;
        Some(value)
    }
}
