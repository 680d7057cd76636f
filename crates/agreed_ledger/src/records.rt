//! The facts about the records of consecutive rows, and setting the next record.

ghost use Rattle.std.specs.Prelude.{
  ◌≡◌,
  ◌<◌,
  ◌≤◌,
  [],
  length,
  slice_get,
  MatchResult,
  MatchOption,
  IfErr,
  IfOk,
  IfSome,
};
ghost use Rattle.std.specs.declared.option.Option.TheVariants.{Some};
ghost use Rattle.facts.specs.Stretches.{HasAt, Lacks, StretchesAgree, appended, end_of, extended};
ghost use Rattle.facts.specs.Stretches.{part_of, rows_limit};
ghost use Rattle.facts.specs.Unsets.{IfTaken};
ghost use Rattle.agreed_ledger.specs.Cells.{IsKnownAt, IsWithin};

use crate::ledger::Ledger;
use crate::naming::Naming;
use crate::notes::RecordNote;
use facts::{Fact, NotSet, Stretch};
use model::RowNumber;
use request_builder::Record;
use std::alloc::Global;
use std::marker::{Model, PhantomData};
use system_keys::OutOfMemory;

/// The known records of consecutive rows of a ledger, from a first row on. It takes no bytes for a
/// record: the ledger lends them.
#[derive(Drop)]
pub struct Records<N: Naming> {
    stretch: Stretch<Record>,
    of: PhantomData<N>,
}

impl<N: Naming> Model for Records<N> {
    ghost use Rattle.facts.specs.Stretches.{Stretch, values_of};
    ghost use Rattle.model.specs.Records.{Record};
    ghost use Rattle.agreed_ledger.specs.Cells.{AreAbout};

    ghost Value = { Stretch Record };

    ghost view = { λ r. values_of r.stretch };

    ghost invariant = { λ r. AreAbout N.cells.records r.stretch };
}

impl<N: Naming> Records<N> {
    /// Returns an empty stretch from row 0. It needs no memory.
    pub fn new(alloc: Global) -> Records<N>
        ensures { result ≡ record { first = 0; known = [] } }
    {
        Records {
            stretch: Stretch::new(alloc),
            of: PhantomData,
        }
    }

    /// The first row.
    pub fn first(&self) -> usize
        ensures value { result ≡ self.now.first }
        ensures limit { end_of self.now ≤ rows_limit }
    {
        self.stretch.first()
    }

    /// The row after the last one, which is no row beyond the ledger's end.
    pub fn end(&self) -> usize
        ensures value { result ≡ end_of self.now }
        ensures within { IsWithin (length N.cells.records) self.now }
        ensures limit { end_of self.now ≤ rows_limit }
    {
        self.stretch.end()
    }

    /// Returns the record known of the row, or `None` if the stretch lacks the row. It never waits
    /// and needs no memory.
    pub fn get<'a>(&self, ledger: &'a Ledger<N>, row: RowNumber) -> Option<&'a Record>
        ensures { MatchOption result (Lacks self.now row) (λ rec. HasAt self.now row rec.now) }
    {
        let fact = self.fact(row)?;
        Some(fact.value(ledger.record_cell(row)))
    }

    /// Returns the fact about the row's record, or `None` if the stretch lacks the row.
    pub(crate) fn fact(&self, row: RowNumber) -> Option<Fact<Record>>
        ensures value { MatchOption result
            (Lacks self.now row) (λ fact. HasAt self.now row fact.value) }
        ensures cell { IfSome result (λ fact. slice_get N.cells.records row ≡ Some fact.cell) }
    {
        self.stretch.get(row)
    }

    /// Returns a copy. It copies no record. Fails only with `OutOfMemory`.
    pub fn copy(&self) -> Result<Records<N>, OutOfMemory>
        ensures { IfOk result (λ copy. copy ≡ self.now) }
    {
        Ok(Records {
            stretch: self.stretch.copy()?,
            of: PhantomData,
        })
    }

    /// Returns a copy of the rows from `start` up to, not including, `end`, as far as the stretch
    /// has these. Fails only with `OutOfMemory`.
    pub fn part(&self, start: usize, end: usize) -> Result<Records<N>, OutOfMemory>
        ensures { IfOk result (λ part. part ≡ part_of start end self.now) }
    {
        Ok(Records {
            stretch: self.stretch.part(start, end)?,
            of: PhantomData,
        })
    }

    /// Appends what the other has from this one's end on; nothing if the other lacks that row.
    ///
    /// Fails only with `OutOfMemory`, and then leaves this one unchanged.
    pub fn extend_from(&mut self, other: &Records<N>) -> Result<(), OutOfMemory>
        ensures { MatchResult result
            (λ _. self.new ≡ extended self.old other.now)
            (λ _. self.new ≡ self.old) }
    {
        let Ok(()) = self.stretch.extend_from(&other.stretch) else {
            return Err(OutOfMemory);
        };
        Ok(())
    }

    /// Two stretches are equal wherever both have a row.
    pub fn agree(&self, other: &Records<N>)
        ensures { StretchesAgree self.now other.now }
    {
        self.stretch.agree(&other.stretch);
    }

    /// Sets the record cell of the next row, and returns a copy of all that is then known.
    ///
    /// Otherwise returns the record and leaves the stretch unchanged: with `Taken` and a note that
    /// knows the cell's record if it held one, or with `OutOfMemory`.
    pub(crate) fn set(
        &mut self,
        ledger: &Ledger<N>,
        rec: Record,
    ) -> Result<Records<N>, (NotSet<RecordNote<N>>, Record)>
        requires { end_of self.old < length N.cells.records }
        ensures gained { IfOk result (λ _. self.new ≡ appended self.old rec) }
        ensures copied { IfOk result (λ copy. copy ≡ self.new) }
        ensures back { IfErr result (λ refused. (self.new ≡ self.old) × (refused.1 ≡ rec)) }
        ensures taken { IfErr result (λ refused.
            IfTaken refused.0 (IsKnownAt (end_of self.old))) }
    {
        // (its contract says that a ledger has few rows, so the stretch can grow)
        let _rows = ledger.rows();
        let row = self.stretch.end();
        let cell = ledger.record_cell(row);
        let stretch = match self.stretch.set_next_and_copy(cell, rec) {
            Ok(stretch) => stretch,
            Err((why, rec)) => return Err((RecordNote::from_not_set(row, cell, why), rec)),
        };
        Ok(Records {
            stretch,
            of: PhantomData,
        })
    }
}
