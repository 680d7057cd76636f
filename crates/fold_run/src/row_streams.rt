//! State transactions and rows of a fold script from its tokens.

ghost use Rattle.std.specs.Prelude.{◌≡◌, ◌+◌, codes};
ghost use Rattle.serde_json.specs.Find.{as_bool};
ghost use Rattle.scripts.specs.ChangeShapes.{change_shape};
ghost use Rattle.scripts.specs.Shapes.{count_members, list_shape, number_shape, verdict_shape};
ghost use Rattle.scripts.specs.Streams.{Slot, one};
ghost use Rattle.fold_run.specs.Shapes.{state_shape};

use crate::script::{RawRow, RawState};
use model::Verdict;
use script_tokens::Tokens;
use scripts::{Fields, RawChange, Streamed, take_into_slot, take_object};
use std::alloc::Global;
use system_keys::Items;

impl Streamed for RawState {
    fn from_tokens(alloc: Global, reader: &mut Tokens<'_>, depth: usize) -> Option<RawState> {
        let fields: StateFields = take_object(alloc, reader, depth)?;
        Some(RawState {
            mutations: fields.mutations?,
            lock_aware: fields.lock_aware?,
            verdicts: fields.verdicts?,
        })
    }
}

impl Streamed for RawRow {
    fn from_tokens(alloc: Global, reader: &mut Tokens<'_>, depth: usize) -> Option<RawRow> {
        let fields: RowFields = take_object(alloc, reader, depth)?;
        Some(RawRow {
            version: fields.version?,
            states: fields.states?,
        })
    }
}

// The fields of a state transaction, as they come.
#[derive(Drop)]
struct StateFields {
    mutations: Option<Items<RawChange>>,
    lock_aware: Option<bool>,
    verdicts: Option<Items<Verdict>>,
}

impl Fields for StateFields {
    ghost holds = { λ f ms. Slot (list_shape change_shape) (codes "mutations") f.mutations ms
        × Slot as_bool (codes "lock_aware") f.lock_aware ms
        × Slot (list_shape verdict_shape) (codes "verdicts") f.verdicts ms
        × (count_members ms ≡ one f.mutations + one f.lock_aware + one f.verdicts) };

    fn none() -> StateFields {
        StateFields {
            mutations: None,
            lock_aware: None,
            verdicts: None,
        }
    }

    fn take_field(
        &mut self,
        alloc: Global,
        reader: &mut Tokens<'_>,
        depth: usize,
        name: &str,
    ) -> Option<()> {
        match name {
            "mutations" => take_into_slot(&mut self.mutations, alloc, reader, depth),
            "lock_aware" => take_into_slot(&mut self.lock_aware, alloc, reader, depth),
            "verdicts" => take_into_slot(&mut self.verdicts, alloc, reader, depth),
            _ => None,
        }
    }
}

// The fields of a row, as they come.
#[derive(Drop)]
struct RowFields {
    version: Option<u64>,
    states: Option<Items<RawState>>,
}

impl Fields for RowFields {
    ghost holds = { λ f ms. Slot number_shape (codes "version") f.version ms
        × Slot (list_shape state_shape) (codes "states") f.states ms
        × (count_members ms ≡ one f.version + one f.states) };

    fn none() -> RowFields {
        RowFields {
            version: None,
            states: None,
        }
    }

    fn take_field(
        &mut self,
        alloc: Global,
        reader: &mut Tokens<'_>,
        depth: usize,
        name: &str,
    ) -> Option<()> {
        match name {
            "version" => take_into_slot(&mut self.version, alloc, reader, depth),
            "states" => take_into_slot(&mut self.states, alloc, reader, depth),
            _ => None,
        }
    }
}
