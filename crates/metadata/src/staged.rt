//! The keys that rows of a journal clear and the entries that they put, before the metadata is
//! changed.

ghost use Rattle.std.specs.Prelude.{◌≡◌, []};

use crate::kept_entries::KeptEntries;
use crate::key_set::KeySet;
use std::alloc::Global;

/// What rows of a journal change: they remove the entries at the cleared keys, and put others.
#[derive(Drop)]
pub(crate) struct Staged {
    /// A key that is cleared and put afterwards may be among these too.
    pub(crate) cleared: KeySet,
    pub(crate) puts: KeptEntries,
}

impl Staged {
    /// No change. Does not allocate.
    pub(crate) fn new(alloc: Global) -> Staged
        ensures cleared { result.cleared ≡ [] }
        ensures puts { result.puts ≡ [] }
    {
        Staged {
            cleared: KeySet::new(alloc),
            puts: KeptEntries::new(alloc),
        }
    }
}
