//! What a proxy learns from the replies to one of its records.

ghost use Rattle.std.specs.Prelude.{◌≡◌, IfOk};
ghost use Rattle.model.specs.Journal.{journal_row};
ghost use Rattle.model.specs.Finishing.{rows_by_replies};
ghost use Rattle.proxy_state.specs.Learning.{columns_of_replies, by_columns};

use crate::begun_record::BegunRecord;
use crate::columns::columns_of_replies;
use crate::own_row::own_row;
use crate::rows_by_replies::rows_by_replies;
use model::{Config, JournalRow, Reply, Verdict};
use std::alloc::Global;
use system_keys::{Items, OutOfMemory};

/// What a proxy learns from the replies to one of its records.
#[derive(Drop)]
pub(crate) struct Learned {
    /// The rows of the journal that the proxy has not seen, before the record.
    pub(crate) told: Vec<JournalRow>,
    /// The row of the record.
    pub(crate) own: JournalRow,
    /// The verdicts of each resolver on the record.
    pub(crate) columns: Vec<Items<Verdict>>,
}

impl Learned {
    /// What the replies tell. Fails only with `OutOfMemory`.
    pub(crate) fn of_replies(
        alloc: Global,
        config: &Config,
        begun: &BegunRecord,
        replies: &[Option<Reply>],
    ) -> Result<Learned, OutOfMemory>
        ensures told { IfOk result (λ learned.
            learned.told.items ≡ rows_by_replies config.now.resolvers replies.now) }
        ensures own { IfOk result (λ learned.
            learned.own ≡ journal_row config.now (by_columns learned.columns.items) begun.now.rec) }
        ensures columns { IfOk result (λ learned. learned.columns.items
            ≡ columns_of_replies config.now.resolvers begun.now.asked replies.now) }
    {
        let told = rows_by_replies(alloc, config.resolvers(), replies)?;
        let columns = columns_of_replies(
            alloc,
            config.resolvers(),
            begun.asked.as_slice(),
            replies,
        )?;
        let own = own_row(alloc, config, &columns, &begun.rec)?;
        Ok(Learned { told, own, columns })
    }
}
