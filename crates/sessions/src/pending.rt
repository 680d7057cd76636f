//! The bytes of a line that is not whole yet.
ghost use Rattle.std.specs.Prelude.{◌≡◌, ◌++◌, ◌∷◌, [], ℕ, List, IsTrue, length, ◌<◌, ◌↔◌};
ghost use Rattle.sessions.specs.Pending.{Holds};

use std::alloc::Global;

/// The bytes of a line so far.
#[derive(Debug, Drop)]
pub struct Pending {
    pub(crate) bytes: Vec<u8>,
    // There was no memory for some byte of the line.
    pub(crate) lost: bool,
}

impl Pending {
    pub(crate) fn new(alloc: Global) -> Pending
        ensures { Holds result [] }
    {
        Pending {
            bytes: Vec::new(alloc),
            lost: false,
        }
    }

    pub(crate) fn is_empty(&self) -> bool
        ensures { (open_line : List ℕ) → Holds self.now open_line
            → IsTrue result ↔ (open_line ≡ []) }
    {
        !self.lost && self.bytes.is_empty()
    }

    pub(crate) fn push(&mut self, byte: u8)
        ensures { (open_line : List ℕ) → Holds self.old open_line
            → Holds self.new (open_line ++ byte ∷ []) }
    {
        if !self.lost && self.bytes.push(byte).is_err() {
            self.lost = true;
        }
    }

    pub(crate) fn clear(&mut self)
        ensures { Holds self.new [] }
    {
        self.bytes.clear();
        self.lost = false;
    }
}
