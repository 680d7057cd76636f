//! The page in memory to which an answer is printed.

ghost use Rattle.std.specs.Prelude.{◌≡◌, ◌<◌, [], ℕ, List, IfOk, MatchOption, length};
ghost use Rattle.session_texts.specs.Pages.{HoldsAnswer};

use pages::Page;
use std::alloc::Global;
use system_keys::OutOfMemory;

/// A page in memory with room for so many bytes: the answer that was printed on it, unless an
/// allocation failed for some of a longer one.
#[derive(Drop)]
pub(crate) struct AnswerPage {
    bytes: Vec<u8>,
    is_lost: bool,
}

impl AnswerPage {
    /// An empty page with this room. Fails only with `OutOfMemory`.
    pub(crate) fn new(alloc: Global, room: usize) -> Result<AnswerPage, OutOfMemory>
        ensures { IfOk result (λ page. HoldsAnswer page room []) }
    {
        Ok(AnswerPage {
            bytes: Vec::with_capacity(alloc, room)?,
            is_lost: false,
        })
    }

    /// The answer. Returns None only if it is longer than the room.
    pub(crate) fn into_bytes(self) -> Option<Vec<u8>>
        ensures { (room : ℕ) (printed : List ℕ) → HoldsAnswer self room printed
            → MatchOption result (room < length printed) (λ bytes. bytes.items ≡ printed) }
    {
        if self.is_lost {
            return None;
        }
        Some(self.bytes)
    }
}

impl Page for AnswerPage {
    ghost Beginning = { ℕ };

    ghost has_printed = { HoldsAnswer };

    #[tactic(auto, using(crate::proofs::PageLemmas::printed_lost, crate::proofs::PageLemmas::printed_kept, crate::proofs::PageLemmas::printed_failed))]
    fn push(&mut self, text: &str) {
        if self.is_lost {
            return;
        }
        match self.bytes.extend_from_slice(text.as_bytes()) {
            Ok(()) => {}
            Err(_) => self.is_lost = true,
        }
    }
}
