//! The fields of a fold script from its tokens, in any order, and what its rows become.

ghost use Rattle.std.specs.Prelude.{◌≡◌, List, IfSome, Some, None};
ghost use Rattle.scripts.specs.Shapes.{list_shape};
ghost use Rattle.scripts.specs.Streams.{Takes};
ghost use Rattle.fold_run.specs.Shapes.{row_shape};
ghost use Rattle.fold_run.specs.Streams.{HoldsFields};
ghost use Rattle.fold_run.specs.declared.script.RawRow.{RawRow as TheRawRow};

use crate::limits::is_within_limits;
use crate::script::{RawFold, RawRow};
use script_tokens::Tokens;
use scripts::{Fields, Streamed, take_into_slot, take_object};
use std::alloc::Global;
use system_keys::{Bytes, Items};

impl Streamed for RawFold {
    fn from_tokens(alloc: Global, reader: &mut Tokens<'_>, depth: usize) -> Option<RawFold> {
        let fields: FoldFields<Items<RawRow>> = take_object(alloc, reader, depth)?;
        let script = RawFold {
            resolvers: fields.resolvers?,
            rows: fields.rows?,
            ask: fields.ask?,
        };
        if !is_within_limits(&script) {
            return None;
        }
        Some(script)
    }
}

/// What is made of the rows of a script as their tokens come.
pub(crate) trait FromFoldRows: Drop {
    ghost is_from: { Self → List TheRawRow → Type 0 };

    /// Takes the tokens of a list of rows, for `resolvers` resolvers if their number came before it.
    /// Returns `None` as `Streamed` does.
    fn take(
        alloc: Global,
        reader: &mut Tokens<'_>,
        depth: usize,
        resolvers: Option<u64>,
    ) -> Option<Self>
        ensures { IfSome result (λ made. (raws : List TheRawRow)
            × Takes (list_shape row_shape) depth reader.old raws reader.new
            × is_from made raws) };
}

impl FromFoldRows for Items<RawRow> {
    ghost is_from = { λ rows raws. rows ≡ raws };

    fn take(
        alloc: Global,
        reader: &mut Tokens<'_>,
        depth: usize,
        _resolvers: Option<u64>,
    ) -> Option<Items<RawRow>> {
        Items::from_tokens(alloc, reader, depth)
    }
}

/// The fields of a fold script, as they come.
#[derive(Drop)]
pub(crate) struct FoldFields<R: Drop> {
    /// How many resolvers there are.
    pub(crate) resolvers: Option<u64>,
    /// What is made of the rows.
    pub(crate) rows: Option<R>,
    /// The keys whose tags are asked.
    pub(crate) ask: Option<Items<Bytes>>,
}

impl<R: FromFoldRows> FoldFields<R> {
    // Takes the rows, if none were taken before.
    fn take_rows(&mut self, alloc: Global, reader: &mut Tokens<'_>, depth: usize) -> Option<()>
        ensures { IfSome result (λ _. (raws : List TheRawRow) × (made : R)
            × Takes (list_shape row_shape) depth reader.old raws reader.new
            × R.is_from made raws
            × (self.old.rows ≡ None)
            × (self.new ≡ record self.old { rows = Some made })) }
    {
        if self.rows.is_some() {
            return None;
        }
        let made = R::take(alloc, reader, depth, self.resolvers)?;
        self.rows = Some(made);
        Some(())
    }
}

impl<R: FromFoldRows> Fields for FoldFields<R> {
    ghost holds = { λ f ms. HoldsFields R.is_from f ms };

    fn none() -> FoldFields<R> {
        FoldFields {
            resolvers: None,
            rows: None,
            ask: None,
        }
    }

    fn take_field(
        &mut self,
        alloc: Global,
        reader: &mut Tokens<'_>,
        depth: usize,
        name: &str,
    ) -> Option<()> {
        match name {
            "resolvers" => take_into_slot(&mut self.resolvers, alloc, reader, depth),
            "rows" => self.take_rows(alloc, reader, depth),
            "ask" => take_into_slot(&mut self.ask, alloc, reader, depth),
            _ => None,
        }
    }
}
