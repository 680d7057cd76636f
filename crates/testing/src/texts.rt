//! Joined texts, and whether values are shown as given texts.

use std::alloc::{AllocError, Global};
use std::fmt::Display;

/// The texts, one after the other.
pub fn join_texts(alloc: Global, texts: &[&str]) -> Result<String, AllocError> {
    let mut joined = String::new(alloc);
    for text in texts {
        joined.push_str(text)?;
    }
    Ok(joined)
}

/// An empty text with room for `count` bytes.
pub fn text_room(alloc: Global, count: usize) -> Result<String, AllocError> {
    String::with_capacity(alloc, count)
}

/// Whether the value is shown as this text.
fn is_shown_as<T: Display>(alloc: Global, value: &T, text: &str) -> Result<bool, AllocError> {
    let shown = format!(in alloc; "{value}")?;
    Ok(shown.as_str() == text)
}

/// Whether each value is shown as its text.
pub fn are_shown_as<T: Display>(alloc: Global, texts: &[(T, &str)]) -> Result<bool, AllocError> {
    for (value, text) in texts {
        if !is_shown_as(alloc, value, *text)? {
            return Ok(false);
        }
    }
    Ok(true)
}
