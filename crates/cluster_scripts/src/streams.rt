//! Moves from the tokens of a script.

ghost use Rattle.std.specs.Prelude.{◌≡◌, ◌+◌, codes};
ghost use Rattle.scripts.specs.BatchShapes.{range_shape};
ghost use Rattle.scripts.specs.Shapes.{count_members, number_shape};
ghost use Rattle.scripts.specs.Streams.{Slot, one};

use crate::given_move::GivenMove;
use mutation::GivenRange;
use script_tokens::Tokens;
use scripts::{Fields, Streamed, take_into_slot, take_object};
use std::alloc::Global;

impl Streamed for GivenMove {
    fn from_tokens(alloc: Global, reader: &mut Tokens<'_>, depth: usize) -> Option<GivenMove> {
        let fields: MoveFields = take_object(alloc, reader, depth)?;
        Some(GivenMove {
            range: fields.range?,
            dest: fields.resolver?,
        })
    }
}

// The fields of a move of a range, as they come.
#[derive(Drop)]
struct MoveFields {
    range: Option<GivenRange>,
    resolver: Option<usize>,
}

impl Fields for MoveFields {
    ghost holds = { λ f ms. Slot range_shape (codes "range") f.range ms
        × Slot number_shape (codes "resolver") f.resolver ms
        × (count_members ms ≡ one f.range + one f.resolver) };

    fn none() -> MoveFields {
        MoveFields {
            range: None,
            resolver: None,
        }
    }

    fn take_field(
        &mut self,
        alloc: Global,
        reader: &mut Tokens<'_>,
        depth: usize,
        name: &str,
    ) -> Option<()> {
        match name {
            "range" => take_into_slot(&mut self.range, alloc, reader, depth),
            "resolver" => take_into_slot(&mut self.resolver, alloc, reader, depth),
            _ => None,
        }
    }
}
