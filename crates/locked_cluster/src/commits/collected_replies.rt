//! Collecting the replies to a record.

ghost use Rattle.std.specs.Prelude.{◌≡◌, ◌+◌, length, IfOk};
ghost use Rattle.model.specs.Records.{IsHistory};
ghost use Rattle.locked_cluster.specs.Ready.{AreRepliesOfAll, IsReady};

use crate::proxies::Columns;
use agreed_ledger::{Naming, Records};
use locked_resolvers::NotedReply;
use model::{Config, RowNumber};
use proxy_state::Replies;
use std::alloc::Global;
use system_keys::OutOfMemory;

/// The replies to a record, each in the place of its resolver, and the columns that came with them.
#[derive(Drop)]
pub(crate) struct CollectedReplies<N: Naming> {
    pub(crate) replies: Replies,
    pub(crate) columns: Columns<N>,
}

/// Collects the replies of all resolvers to the last of the records, in the order of the resolvers.
/// Fails only with `OutOfMemory`.
pub(crate) fn collect_replies<N: Naming>(
    alloc: Global,
    config: &Config,
    row: RowNumber,
    records: &Records<N>,
    replies: &[NotedReply<N>],
) -> Result<CollectedReplies<N>, OutOfMemory>
    requires config { config.now ≡ N.cells.config }
    requires first { records.now.first ≡ 0 }
    requires history { IsHistory N.cells.config records.now.known }
    requires last { length records.now.known ≡ row + 1 }
    requires replied { AreRepliesOfAll N.cells.config row replies.now }
    ensures { IfOk result (λ made. IsReady N.cells.config (record {
      row = row;
      replies = made.replies;
      records = records.now.known;
      columns = made.columns;
    })) }
{
    let mut kept = Replies::new(alloc, config)?;
    let mut columns = Columns::none(alloc);
    for reply in replies {
        records.agree(reply.records());
        columns.push(reply.column().copy()?)?;
        let Ok(()) = kept.put(reply.value().copy()?) else {
            unreachable!();
        };
    }
    Ok(CollectedReplies {
        replies: kept,
        columns,
    })
}
