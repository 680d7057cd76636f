//! Setting a cell, with the fact about it, or the note of what it held before.

ghost use Rattle.std.specs.Prelude.{◌≡◌, IfErr, IfOk};
ghost use Rattle.once_cell.specs.Once.{cell_name};
ghost use Rattle.facts.specs.Unsets.{IfTaken};

use crate::fact::Fact;
use once_cell::race::OnceBox;
use std::alloc::Global;

/// Why a cell was not set. `K` is what tells the value of a cell that was taken, as a fact does.
#[derive(Drop)]
pub enum NotSet<K> {
    /// An allocation failed. The cell is as it was.
    OutOfMemory,
    /// The cell held a value before: this one.
    Taken(K),
}

/// Sets the cell, and returns the fact. Otherwise returns the value, and if the cell was taken, the
/// fact about it.
pub(crate) fn set<T: Drop>(
    alloc: Global,
    cell: &OnceBox<T>,
    value: T,
) -> Result<Fact<T>, (NotSet<Fact<T>>, T)>
    ensures fact { IfOk result (λ fact. (fact.cell ≡ cell_name cell.now) × (fact.value ≡ value)) }
    ensures back { IfErr result (λ refused. refused.1 ≡ value) }
    ensures taken { IfErr result (λ refused. IfTaken refused.0 (λ fact.
        fact.cell ≡ cell_name cell.now)) }
{
    let boxed = match Box::new(alloc, value) {
        Ok(boxed) => boxed,
        Err(failed) => return Err((NotSet::OutOfMemory, failed.value)),
    };
    let mut note = cell.note();
    match cell.set_as(boxed, &mut note) {
        Ok(()) => Ok(Fact::of(&mut note)),
        Err(back) => Err((NotSet::Taken(Fact::of(&mut note)), Box::into_inner(back))),
    }
}
