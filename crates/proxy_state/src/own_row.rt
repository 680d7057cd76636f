//! The journal row of a proxy's own record.
//!
//! Release 7.1, `CommitProxyServer.actor.cpp`, applyMetadataToCommittedTransactions; what differs is
//! marked *profile*.

ghost use Rattle.std.specs.Prelude.{◌≡◌, IfOk};
ghost use Rattle.model.specs.Journal.{journal_row, states_from, state_of};
ghost use Rattle.proxy_state.specs.Learning.{by_columns};

use crate::columns::verdicts_in_columns;
use model::{Config, JournalRow, StateTxn, TransactionNumber, Verdict};
use mutation::Stamped;
use request_builder::Record;
use std::alloc::Global;
use system_keys::{Items, OutOfMemory, SharedItems};

/// The journal row of the record, by the verdicts of the columns. Fails only with `OutOfMemory`.
#[tactic(auto, unfolding(model::specs::Journal::journal_row))]
pub(crate) fn own_row(
    alloc: Global,
    config: &Config,
    columns: &[Items<Verdict>],
    rec: &Record,
) -> Result<JournalRow, OutOfMemory>
    ensures { IfOk result (λ row.
        row ≡ journal_row config.now (by_columns columns.now) rec.now) }
{
    Ok(JournalRow {
        version: rec.version(),
        states: Items::from(own_states(alloc, config, columns, rec)?),
    })
}

/// The state transactions of the record.
fn own_states(
    alloc: Global,
    config: &Config,
    columns: &[Items<Verdict>],
    rec: &Record,
) -> Result<Vec<StateTxn>, OutOfMemory>
    ensures { IfOk result (λ states. states.items
        ≡ states_from config.now (by_columns columns.now) rec.now 0 rec.now.batch) }
{
    let batch = rec.batch();
    let mut states = Vec::new(alloc);
    for (number, transaction) in batch.iter().enumerate() {
        if transaction.is_state() {
            states.push(own_state(alloc, config, columns, rec, number, transaction)?)?;
        }
    }
    Ok(states)
}

/// A state transaction of the record, with this number.
fn own_state(
    alloc: Global,
    config: &Config,
    columns: &[Items<Verdict>],
    _rec: &Record,
    number: TransactionNumber,
    transaction: &Stamped,
) -> Result<StateTxn, OutOfMemory>
    ensures { IfOk result (λ state. state
        ≡ state_of config.now (by_columns columns.now) _rec.now number transaction.now) }
{
    let verdicts = verdicts_in_columns(alloc, config.resolvers(), columns, number)?;
    Ok(StateTxn {
        mutations: SharedItems::new(alloc, transaction.state_mutations(alloc)?)?,
        lock_aware: transaction.lock_aware(),
        verdicts: Items::from(verdicts),
    })
}
