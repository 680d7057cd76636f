//! A journal is folded, and the metadata that it gives is asked for the tags of a key.

ghost use Rattle.std.specs.Prelude.{◌≡◌, IfOk};
ghost use Rattle.model.specs.Metadata.{metadata, tags_of_key};

use proxy_state::{JournalRow, Metadata};
use std::alloc::Global;
use system_keys::{Items, OutOfMemory, Tag};

/// The tags of a key in the metadata that the journal gives, applied row by row. Fails only with
/// `OutOfMemory`.
#[tactic(auto, unfolding(model::specs::Metadata::metadata))]
pub fn tags_after_journal(
    alloc: Global,
    journal: &[JournalRow],
    key: &[u8],
) -> Result<Items<Tag>, OutOfMemory>
    ensures { IfOk result (λ tags. tags ≡ tags_of_key (metadata journal.now) key.now) }
{
    let folded = Metadata::new(alloc).fold_rows(journal)?;
    folded.tags_of_key(key)
}
