//! The checks of a fold script: its state transactions and rows, in the order of its lists.

ghost use Rattle.fold_run.specs.Checks.{checked_state, checked_row, checked_script};

use crate::script::{FoldScript, RawFold, RawRow, RawState};
use model::{JournalRow, StateTxn};
use scripts::{Checked, ScriptFault, check_each};
use std::alloc::Global;
use system_keys::SharedItems;

impl Checked<RawState> for StateTxn {
    ghost checked = { checked_state };

    fn check(alloc: Global, raw: RawState) -> Result<StateTxn, ScriptFault> {
        Ok(StateTxn {
            mutations: SharedItems::new(alloc, check_each(alloc, raw.mutations)?)?,
            lock_aware: raw.lock_aware,
            verdicts: raw.verdicts,
        })
    }
}

impl Checked<RawRow> for JournalRow {
    ghost checked = { checked_row };

    fn check(alloc: Global, raw: RawRow) -> Result<JournalRow, ScriptFault> {
        Ok(JournalRow {
            version: raw.version,
            states: check_each(alloc, raw.states)?,
        })
    }
}

impl Checked<RawFold> for FoldScript {
    ghost checked = { checked_script };

    fn check(alloc: Global, raw: RawFold) -> Result<FoldScript, ScriptFault> {
        Ok(FoldScript {
            rows: check_each(alloc, raw.rows)?,
            ask: raw.ask,
        })
    }
}
