//! What the cluster keeps of each record: its proxy, the version that this proxy had finished,
//! and its requests until it is finished.

ghost use Rattle.turn_world.specs.Kept.{HasDroppedRequests};

use crate::past_record::PastRecord;
use crate::sent_requests::{PastRequests, SentRequests};
use model::{ProxyNumber, RowNumber, Version};
use std::alloc::Global;

/// A record that was sequenced and begun.
#[derive(Drop)]
pub(crate) struct KeptRecord {
    /// The record, for contracts alone: its proxy has it until it is finished.
    pub(crate) rec: PastRecord,
    /// Its proxy.
    pub(crate) proxy: ProxyNumber,
    /// The version that its proxy had finished when it began the record, or 0.
    pub(crate) received: Version,
    /// The requests that its proxy sent, one to each resolver, for contracts alone.
    pub(crate) sent: PastRequests,
    /// These requests, until the record is finished. Then there are none: each resolver has judged
    /// its request, and answers it again by its numbers.
    pub(crate) kept: SentRequests,
}

/// Drops the requests for the record in this row, if there is one. Does not allocate.
pub(crate) fn drop_requests_at(rows: &mut Vec<KeptRecord>, row: RowNumber, alloc: Global)
    ensures { HasDroppedRequests row rows.old.items rows.new.items }
{
    if let Some(one) = rows.get_mut(row) {
        one.kept = SentRequests {
            requests: Vec::new(alloc),
        };
    }
}
