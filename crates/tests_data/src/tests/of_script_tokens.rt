//! Tests of script_tokens: each token of a script, texts of bytes of every length, and what is not taken.

use script_tokens::Tokens;
use std::alloc::Global;
use std::borrow::CowStr;
use std::test::Fail;
use system_keys::print_bytes;
use testing::is_memory_refused;

/// The greatest number of nineteen digits.
const NUMBER: u64 = 9_999_999_999_999_999_999;

/// Whether this text was taken.
fn is_text(taken: Option<CowStr<'_>>, expected: &str) -> bool {
    match taken {
        Some(text) => text.as_str() == expected,
        None => false,
    }
}

#[test]
fn each_token_of_a_script_is_taken(rt: HostRuntime) {
    let mut tokens = Tokens::new("{ \"a\" : [1, \"set\",\ttrue],\n\"b\":false } ");
    assert!(rt; tokens.take_begin_object());
    assert!(rt; is_text(tokens.take_key(rt.alloc()), "a"));
    assert!(rt; tokens.take_begin_array());
    assert!(rt; !tokens.take_end_array());
    assert!(rt; matches!(tokens.take_number(), Some(1)));
    assert!(rt; is_text(tokens.take_text(rt.alloc()), "set"));
    assert!(rt; matches!(tokens.take_bool(), Some(true)));
    assert!(rt; tokens.take_end_array());
    assert!(rt; !tokens.take_end_object());
    assert!(rt; is_text(tokens.take_key(rt.alloc()), "b"));
    assert!(rt; matches!(tokens.take_bool(), Some(false)));
    assert!(rt; !tokens.is_at_end());
    assert!(rt; tokens.take_end_object());
    assert!(rt; tokens.is_at_end());
}

/// A script of a list of the text of the bytes, and a number.
fn script_of(alloc: Global, bytes: &[u8]) -> Result<String, Fail> {
    let mut script = String::new(alloc);
    script.push_str("[\"")?;
    for character in print_bytes(alloc, bytes)?.chars() {
        if character == '\\' {
            script.push('\\')?;
        }
        script.push(character)?;
    }
    script.push_str("\",9999999999999999999]")?;
    Ok(script)
}

/// Whether the bytes, and the number behind them, are taken from their script.
fn are_taken(alloc: Global, script: &str, bytes: &[u8]) -> bool {
    let mut tokens = Tokens::new(script);
    if !tokens.take_begin_array() {
        return false;
    }
    match tokens.take_bytes(alloc) {
        Some(taken) => taken.as_slice() == bytes && matches!(tokens.take_number(), Some(NUMBER)),
        None => false,
    }
}

/// The same, at the second try if an allocation failed at the first.
fn are_taken_again(alloc: Global, bytes: &[u8]) -> Result<bool, Fail> {
    let script = script_of(alloc, bytes)?;
    let taken = are_taken(alloc, script.as_str(), bytes);
    Ok(taken || (is_memory_refused(alloc) && are_taken(alloc, script.as_str(), bytes)))
}

#[test]
fn texts_of_every_length_are_taken(rt: HostRuntime) -> Result<(), Fail> {
    let mut plain = Vec::new(rt.alloc());
    let mut mixed = Vec::new(rt.alloc());
    for length in 0..300u32 {
        assert!(rt; are_taken_again(rt.alloc(), plain.as_slice())?);
        assert!(rt; are_taken_again(rt.alloc(), mixed.as_slice())?);
        plain.push(b'a')?;
        mixed.push((length * 37 % 256) as u8)?;
    }
    Ok(())
}

/// A text with each escape of JSON by a letter, and with escapes by their codes in digits of either case.
const ESCAPED: &str = r#""\"\\\/\b\f\n\r\t\u0041\u007F\u006a","#;

/// The same text without escapes.
const UNESCAPED: &str = "\"\\/\x08\x0c\n\r\tA\x7fj";

/// Texts with an escape that stands for no character of ASCII, or that is none.
const OTHER_ESCAPES: &[&str] = &[
    r#""\u0080","#,
    r#""\u00e9","#,
    r#""\uD834\uDD1E","#,
    r#""\u004","#,
    r#""\u00g1","#,
    r#""\x41","#,
    r#""\"#,
];

/// Whether the text with escapes is taken without them.
fn is_unescaped(alloc: Global) -> bool {
    is_text(Tokens::new(ESCAPED).take_text(alloc), UNESCAPED)
}

#[test]
fn escapes_of_ascii_are_taken(rt: HostRuntime) {
    assert!(rt;
        is_unescaped(rt.alloc()) || is_memory_refused(rt.alloc()) && is_unescaped(rt.alloc())
    );
    for text in OTHER_ESCAPES {
        assert!(rt; Tokens::new(*text).take_text(rt.alloc()).is_none());
    }
}

/// Numbers in forms that are not known.
const NUMBERS: &[&str] = &[
    "",
    "01",
    "1.5",
    "-1",
    "1e3",
    "1a",
    "\"1\"",
    "10000000000000000000",
];

/// Texts of bytes in forms that are not known, and texts that spell none.
const TEXTS: &[&str] = &[
    "",
    "\"a",
    "\"a\"",
    "\"a\":",
    "\"\\u0080\",",
    "\"\\u0020\",",
    "\"\\\\x4\",",
    "\"\\\\x41\",",
    "\"\\\\xFF\",",
    "\" \",",
];

#[test]
fn other_forms_are_not_taken(rt: HostRuntime) {
    for text in NUMBERS {
        assert!(rt; Tokens::new(*text).take_number().is_none());
    }
    for text in TEXTS {
        assert!(rt; Tokens::new(*text).take_bytes(rt.alloc()).is_none());
    }
}
