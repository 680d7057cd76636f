//! The facts about one resolver's verdicts in consecutive rows, and setting the next verdicts.

ghost use Rattle.std.specs.Prelude.{
  ◌≡◌,
  ◌<◌,
  ◌≤◌,
  ◌⊎◌,
  [],
  length,
  slice_get,
  MatchResult,
  MatchOption,
  IfErr,
  IfOk,
  IfSome,
};
ghost use Rattle.std.specs.declared.option.Option.TheVariants.{Some};
ghost use Rattle.facts.specs.Stretches.{HasAt, Lacks, StretchesAgree, appended, end_of, extended};
ghost use Rattle.facts.specs.Stretches.{part_of, rows_limit};
ghost use Rattle.facts.specs.Unsets.{IfTaken};
ghost use Rattle.agreed_ledger.specs.Cells.{AreKnownAt, IsWithin, verdict_cells, with_rows};
ghost use Rattle.agreed_ledger.specs.declared.refusal.Refusal.TheVariants as refusals;

use crate::ledger::Ledger;
use crate::naming::Naming;
use crate::notes::VerdictNote;
use crate::refusal::Refusal;
use facts::{Fact, NotSet, Stretch};
use model::{ResolverNumber, RowNumber};
use share_judge::Verdicts;
use std::alloc::Global;
use std::marker::{Model, PhantomData};
use system_keys::OutOfMemory;

/// The known verdicts of one resolver in consecutive rows of a ledger, from a first row on. It
/// takes no bytes for verdicts: the ledger lends them.
#[derive(Drop)]
pub struct Column<N: Naming> {
    resolver: ResolverNumber,
    stretch: Stretch<Verdicts>,
    of: PhantomData<N>,
}

impl<N: Naming> Model for Column<N> {
    ghost use Rattle.facts.specs.Stretches.{values_of};
    ghost use Rattle.agreed_ledger.specs.Cells.{AreAbout, ColumnView, verdict_cells};

    ghost Value = { ColumnView };

    ghost view = { λ c. record { resolver = c.resolver; rows = values_of c.stretch } };

    ghost invariant = { λ c. AreAbout (verdict_cells N.cells c.resolver) c.stretch };
}

impl<N: Naming> Column<N> {
    /// Returns an empty column of the resolver, from row 0. It needs no memory.
    pub fn new(alloc: Global, resolver: ResolverNumber) -> Column<N>
        ensures { result ≡ record { resolver = resolver; rows = record { first = 0; known = [] } } }
    {
        Column {
            resolver,
            stretch: Stretch::new(alloc),
            of: PhantomData,
        }
    }

    /// The number of the resolver.
    pub fn resolver(&self) -> usize
        ensures { result ≡ self.now.resolver }
    {
        self.resolver
    }

    /// The first row.
    pub fn first(&self) -> usize
        ensures value { result ≡ self.now.rows.first }
        ensures limit { end_of self.now.rows ≤ rows_limit }
    {
        self.stretch.first()
    }

    /// The row after the last one. The ledger has a verdict cell for each row before it.
    pub fn end(&self) -> usize
        ensures value { result ≡ end_of self.now.rows }
        ensures within { IsWithin
            (length (verdict_cells N.cells self.now.resolver)) self.now.rows }
        ensures limit { end_of self.now.rows ≤ rows_limit }
    {
        self.stretch.end()
    }

    /// Returns the verdicts known of the row, or `None` if the column lacks the row. It never waits
    /// and needs no memory.
    pub fn get<'a>(&self, ledger: &'a Ledger<N>, row: RowNumber) -> Option<&'a Verdicts>
        ensures { MatchOption result
            (Lacks self.now.rows row) (λ verdicts. HasAt self.now.rows row verdicts.now) }
    {
        let fact = self.fact(row)?;
        Some(fact.value(ledger.verdict_cell(row, self.resolver)))
    }

    /// Returns the fact about the row's verdicts, or `None` if the column lacks the row.
    pub(crate) fn fact(&self, row: RowNumber) -> Option<Fact<Verdicts>>
        ensures value { MatchOption result
            (Lacks self.now.rows row) (λ fact. HasAt self.now.rows row fact.value) }
        ensures cell { IfSome result (λ fact.
            slice_get (verdict_cells N.cells self.now.resolver) row ≡ Some fact.cell) }
    {
        self.stretch.get(row)
    }

    /// Returns a copy. It copies no verdicts. Fails only with `OutOfMemory`.
    pub fn copy(&self) -> Result<Column<N>, OutOfMemory>
        ensures { IfOk result (λ copy. copy ≡ self.now) }
    {
        Ok(Column {
            resolver: self.resolver,
            stretch: self.stretch.copy()?,
            of: PhantomData,
        })
    }

    /// Returns a copy of the rows from `start` up to, not including, `end`, as far as the column
    /// has these. Fails only with `OutOfMemory`.
    pub fn part(&self, start: usize, end: usize) -> Result<Column<N>, OutOfMemory>
        ensures { IfOk result (λ part. part ≡ with_rows self.now (part_of start end self.now.rows)) }
    {
        Ok(Column {
            resolver: self.resolver,
            stretch: self.stretch.part(start, end)?,
            of: PhantomData,
        })
    }

    /// Appends what the other has from this one's end on; nothing if the other lacks that row.
    ///
    /// Fails only with `OutOfMemory`, and then leaves this one unchanged.
    pub fn extend_from(&mut self, other: &Column<N>) -> Result<(), OutOfMemory>
        requires { self.old.resolver ≡ other.now.resolver }
        ensures { MatchResult result
            (λ _. self.new ≡ with_rows self.old (extended self.old.rows other.now.rows))
            (λ _. self.new ≡ self.old) }
    {
        let Ok(()) = self.stretch.extend_from(&other.stretch) else {
            return Err(OutOfMemory);
        };
        Ok(())
    }

    /// Two columns of one resolver are equal wherever both have a row.
    pub fn agree(&self, other: &Column<N>)
        requires { self.now.resolver ≡ other.now.resolver }
        ensures { StretchesAgree self.now.rows other.now.rows }
    {
        self.stretch.agree(&other.stretch);
    }

    /// Sets the verdict cell of the next row, and appends what it then holds.
    ///
    /// Otherwise returns the verdicts and leaves the column unchanged: with `CellTaken` if the cell
    /// held verdicts, or with `OutOfMemory`.
    pub fn set(&mut self, ledger: &Ledger<N>, verdicts: Verdicts) -> Result<(), (Refusal, Verdicts)>
        requires { end_of self.old.rows < length (verdict_cells N.cells self.old.resolver) }
        ensures gained { IfOk result (λ _.
            self.new ≡ with_rows self.old (appended self.old.rows verdicts)) }
        ensures back { IfErr result (λ refused. (self.new ≡ self.old) × (refused.1 ≡ verdicts)) }
        ensures refused { IfErr result (λ refused.
            (refused.0 ≡ refusals.CellTaken) ⊎ (refused.0 ≡ refusals.OutOfMemory)) }
    {
        // (its contract says that a ledger has few rows, so the column can grow)
        let _rows = ledger.rows();
        let cell = ledger.verdict_cell(self.stretch.end(), self.resolver);
        match self.stretch.set_next(cell, verdicts) {
            Ok(()) => {}
            Err((why, verdicts)) => return Err((Refusal::of(&why), verdicts)),
        }
        Ok(())
    }

    /// Sets the verdict cell of the next row as [`Column::set`] does, and returns a copy of all
    /// that is then known. Nothing is allocated once the cell is set.
    ///
    /// Otherwise returns the verdicts and leaves the column unchanged: with `Taken` and a note that
    /// knows the cell's verdicts if it held some, or with `OutOfMemory`.
    pub fn set_and_copy(
        &mut self,
        ledger: &Ledger<N>,
        verdicts: Verdicts,
    ) -> Result<Column<N>, (NotSet<VerdictNote<N>>, Verdicts)>
        requires { end_of self.old.rows < length (verdict_cells N.cells self.old.resolver) }
        ensures gained { IfOk result (λ _.
            self.new ≡ with_rows self.old (appended self.old.rows verdicts)) }
        ensures copied { IfOk result (λ copy. copy ≡ self.new) }
        ensures back { IfErr result (λ refused. (self.new ≡ self.old) × (refused.1 ≡ verdicts)) }
        ensures taken { IfErr result (λ refused.
            IfTaken refused.0 (AreKnownAt (end_of self.old.rows) self.old.resolver)) }
    {
        // (its contract says that a ledger has few rows, so the column can grow)
        let _rows = ledger.rows();
        let row = self.stretch.end();
        let cell = ledger.verdict_cell(row, self.resolver);
        let stretch = match self.stretch.set_next_and_copy(cell, verdicts) {
            Ok(stretch) => stretch,
            Err((why, verdicts)) => {
                let why = VerdictNote::from_not_set(row, self.resolver, cell, why);
                return Err((why, verdicts));
            }
        };
        Ok(Column {
            resolver: self.resolver,
            stretch,
            of: PhantomData,
        })
    }
}
