//! Words of a line, and lists of them.

ghost use Rattle.std.specs.Prelude.{◌≡◌, ◌++◌, ℕ, List, OnOk, flat_map, map, string_bytes};
ghost use Rattle.pages.specs.Printing.{Prints};
ghost use Rattle.scripts.specs.Lines.{list_text, spaced};

use crate::text_lines::take_page;
use pages::Page;
use system_keys::OutOfMemory;

/// What is printed as a word of a line.
pub trait Word {
    ghost word: { Self → List ℕ };

    /// Appends the word.
    fn push_to<P: Page>(&self, page: &mut P)
        ensures { Prints P.has_printed page.old page.new (word self.now) };
}

/// Appends the words with one space between, or `none` if there are none.
#[tactic(auto, using(pages::proofs::Prints::prints_both))]
pub fn push_list<W: Word, P: Page>(page: &mut P, words: &[W])
    ensures { Prints P.has_printed page.old page.new (list_text (map W.word words.now)) }
{
    match words.split_first() {
        Some((first, rest)) => {
            first.push_to(page);
            push_spaced(page, rest);
        }
        None => page.push("none"),
    }
}

/// Appends each word after a space.
fn push_spaced<W: Word, P: Page>(page: &mut P, words: &[W])
    ensures { Prints P.has_printed page.old page.new (flat_map spaced (map W.word words.now)) }
{
    for word in words {
        page.push(" ");
        word.push_to(page);
    }
}

/// Appends the words to a text as `push_list` does to a page. Fails only with `OutOfMemory`.
pub fn print_list<W: Word>(text: &mut String, words: &[W]) -> Result<(), OutOfMemory>
    ensures { OnOk result (string_bytes text.new
        ≡ string_bytes text.old ++ list_text (map W.word words.now)) }
{
    let mut page = take_page(*text.allocator(), text);
    push_list(&mut page, words);
    *text = page.into_text()?;
    Ok(())
}
