//! The metadata after a finished batch, and the answer.
//!
//! Release 7.1, `CommitProxyServer.actor.cpp`, commitBatch; what differs is marked *profile*.

ghost use Rattle.std.specs.Prelude.{◌≡◌, IfOk, OnOk, OnErr};
ghost use Rattle.model.specs.Metadata.{is_locked};
ghost use Rattle.proxy_state.specs.Learning.{AskedAreKept};
ghost use Rattle.proxy_state.specs.Finishing.{after_told, after_batch, finished_by_columns};

use crate::begun_record::BegunRecord;
use crate::learned::Learned;
use crate::outcomes::finished_by_columns;
use metadata::Metadata;
use model::{Config, Finished};
use std::alloc::Global;
use system_keys::OutOfMemory;

/// Applies the rows that the replies tell and then the record's own row, and returns the finished
/// batch, into which the changes of the record are taken. Fails only with `OutOfMemory`; the metadata
/// and the record are then unchanged.
///
/// The rows are started, and taken back if the answer cannot be allocated. What they remove is hidden
/// while the answer is made, and removed when nothing can fail any more.
pub(crate) fn finish_batch(
    alloc: Global,
    metadata: &mut Metadata,
    config: &Config,
    begun: &mut BegunRecord,
    learned: &Learned,
) -> Result<Finished, OutOfMemory>
    requires { AskedAreKept config.now begun.old }
    ensures ok { OnOk result (metadata.new ≡ after_batch metadata.old learned.now) }
    ensures finished { let locked = is_locked (after_told metadata.old learned.now) in
        IfOk result (λ finished. finished
        ≡ finished_by_columns config.now learned.now.columns.items locked metadata.new begun.old.rec) }
    ensures err { OnErr result (metadata.new ≡ metadata.old) }
    ensures kept { OnErr result (begun.new ≡ begun.old) }
{
    let started = metadata.start_rows(&learned.told, &learned.own)?;
    let locked = started.was_locked_before_last_row();
    let entries = metadata.entries_after(&started);
    match finished_by_columns(alloc, config, &learned.columns, locked, &entries, begun) {
        Ok(finished) => {
            metadata.finish_rows(started);
            Ok(finished)
        }
        Err(OutOfMemory) => {
            metadata.take_back_rows(started);
            Err(OutOfMemory)
        }
    }
}
