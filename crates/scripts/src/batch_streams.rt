//! Ranges and transactions of a batch from tokens.

ghost use Rattle.std.specs.Prelude.{◌≡◌, ◌+◌, codes};
ghost use Rattle.serde_json.specs.Find.{as_bool};
ghost use Rattle.scripts.specs.BatchShapes.{range_shape};
ghost use Rattle.scripts.specs.ChangeShapes.{mutation_shape};
ghost use Rattle.scripts.specs.Shapes.{count_members, list_shape, number_shape};
ghost use Rattle.scripts.specs.Streams.{Slot, one};

use crate::stream_objects::{Fields, take_into_slot, take_object};
use crate::stream_shapes::take_pair;
use crate::streams::Streamed;
use mutation::{GivenRange, Mutation, Transaction};
use script_tokens::Tokens;
use std::alloc::Global;
use system_keys::Items;

impl Streamed for GivenRange {
    fn from_tokens(alloc: Global, reader: &mut Tokens<'_>, depth: usize) -> Option<GivenRange> {
        let (begin, end) = take_pair(alloc, reader, depth)?;
        Some(GivenRange { begin, end })
    }
}

impl Streamed for Transaction {
    fn from_tokens(alloc: Global, reader: &mut Tokens<'_>, depth: usize) -> Option<Transaction> {
        let fields: TransactionFields = take_object(alloc, reader, depth)?;
        Some(Transaction {
            snapshot: fields.snapshot?,
            reads: fields.reads?,
            writes: fields.writes?,
            mutations: fields.mutations?,
            lock_aware: fields.lock_aware?,
        })
    }
}

// The fields of a transaction, as they come.
#[derive(Drop)]
struct TransactionFields {
    snapshot: Option<u64>,
    reads: Option<Items<GivenRange>>,
    writes: Option<Items<GivenRange>>,
    mutations: Option<Items<Mutation>>,
    lock_aware: Option<bool>,
}

impl Fields for TransactionFields {
    ghost holds = { λ f ms. Slot number_shape (codes "snapshot") f.snapshot ms
        × Slot (list_shape range_shape) (codes "reads") f.reads ms
        × Slot (list_shape range_shape) (codes "writes") f.writes ms
        × Slot (list_shape mutation_shape) (codes "mutations") f.mutations ms
        × Slot as_bool (codes "lock_aware") f.lock_aware ms
        × (count_members ms ≡ one f.snapshot + one f.reads + one f.writes + one f.mutations
        + one f.lock_aware) };

    fn none() -> TransactionFields {
        TransactionFields {
            snapshot: None,
            reads: None,
            writes: None,
            mutations: None,
            lock_aware: None,
        }
    }

    fn take_field(
        &mut self,
        alloc: Global,
        reader: &mut Tokens<'_>,
        depth: usize,
        name: &str,
    ) -> Option<()> {
        match name {
            "snapshot" => take_into_slot(&mut self.snapshot, alloc, reader, depth),
            "reads" => take_into_slot(&mut self.reads, alloc, reader, depth),
            "writes" => take_into_slot(&mut self.writes, alloc, reader, depth),
            "mutations" => take_into_slot(&mut self.mutations, alloc, reader, depth),
            "lock_aware" => take_into_slot(&mut self.lock_aware, alloc, reader, depth),
            _ => None,
        }
    }
}
