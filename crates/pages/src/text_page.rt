//! A page in memory.
ghost use Rattle.std.specs.Prelude.{◌≡◌, ◌++◌, [], ℕ, List, false, IfOk, string_bytes};
ghost use Rattle.pages.specs.TextPages.{HasText};

use crate::page::Page;
use system_keys::OutOfMemory;

/// A page in memory: its text, unless an allocation failed for some of it.
#[derive(Drop)]
pub struct TextPage {
    text: String,
    is_lost: bool,
}

impl TextPage {
    /// A page with this text.
    pub fn of(text: String) -> TextPage
        ensures { HasText result (string_bytes text) [] }
    {
        TextPage {
            text,
            is_lost: false,
        }
    }

    /// The text. Fails only if an allocation failed for some of it.
    pub fn into_text(self) -> Result<String, OutOfMemory>
        ensures { (first printed : List ℕ) → HasText self first printed
            → IfOk result (λ text. string_bytes text ≡ first ++ printed) }
    {
        if self.is_lost {
            return Err(OutOfMemory);
        }
        Ok(self.text)
    }
}

impl Page for TextPage {
    ghost Beginning = { List ℕ };

    ghost has_printed = { HasText };

    fn push(&mut self, text: &str) {
        if !self.is_lost && self.text.push_str(text).is_err() {
            self.is_lost = true;
        }
    }
}
