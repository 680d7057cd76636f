//! A page in memory that goes on with a text.

ghost use Rattle.std.specs.Prelude.{[], string_bytes};
ghost use Rattle.pages.specs.TextPages.{HasText};

use pages::TextPage;
use std::alloc::Global;
use std::mem;

/// Takes the text, in place of which an empty one is left, onto a page.
pub fn take_page(alloc: Global, text: &mut String) -> TextPage
    ensures { HasText result (string_bytes text.old) [] }
{
    TextPage::of(mem::replace(text, String::new(alloc)))
}
