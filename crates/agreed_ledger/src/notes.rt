//! What a caller learnt by looking at a cell of the ledger, and the calls of the ledger that
//! look.

ghost use Rattle.std.specs.Prelude.{◌≡◌, ◌<◌, ◌≤◌, length, slice_get, MatchOption};
ghost use Rattle.std.specs.declared.option.Option.TheVariants.{Some};
ghost use Rattle.once_cell.specs.Once.{cell_name};
ghost use Rattle.facts.specs.Unsets.{IfTaken};
ghost use Rattle.agreed_ledger.specs.Refusals.{refusal_of};
ghost use Rattle.agreed_ledger.specs.Cells.{AreKnownAt, IsKnownAt};
ghost use Rattle.agreed_ledger.specs.Cells.{HasVerdictCell, LacksVerdictCell, NoteAgreesWith};
ghost use Rattle.agreed_ledger.specs.Cells.{NotesAgree, Shows, ShowsNoVerdicts, ShowsNothing};
ghost use Rattle.agreed_ledger.specs.Cells.{ShowsVerdicts, new_note, new_verdict_note, row_note};
ghost use Rattle.agreed_ledger.specs.Cells.{verdict_cells};

use crate::column::Column;
use crate::ledger::Ledger;
use crate::naming::Naming;
use crate::records::Records;
use facts::{Fact, NotSet};
use model::{ResolverNumber, RowNumber};
use once_cell::race::{Note, OnceBox};
use request_builder::Record;
use share_judge::Verdicts;
use std::marker::{Model, PhantomData};

/// What a caller has learnt of the record of one row. A contract sees the row, and the record once
/// it was seen. It takes no bytes for the record.
#[derive(Drop)]
pub struct RecordNote<N: Naming> {
    row: RowNumber,
    note: Note<Record>,
    of: PhantomData<N>,
}

impl<N: Naming> Model for RecordNote<N> {
    ghost use Rattle.std.specs.Prelude.{◌≡◌, slice_get};
    ghost use Rattle.std.specs.declared.option.Option.TheVariants.{Some};
    ghost use Rattle.model.specs.Records.{Record};
    ghost use Rattle.agreed_ledger.specs.Cells.{NoteView};

    ghost Value = { NoteView Record };

    ghost view = { λ n. record { row = n.row; known = n.note.known } };

    ghost invariant = { λ n. slice_get N.cells.records n.row ≡ Some n.note.cell };
}

/// What a caller has learnt of the verdicts of one resolver in one row.
#[derive(Drop)]
pub struct VerdictNote<N: Naming> {
    row: RowNumber,
    resolver: ResolverNumber,
    note: Note<Verdicts>,
    of: PhantomData<N>,
}

impl<N: Naming> Model for VerdictNote<N> {
    ghost use Rattle.std.specs.Prelude.{◌≡◌, slice_get};
    ghost use Rattle.std.specs.declared.option.Option.TheVariants.{Some};
    ghost use Rattle.agreed_ledger.specs.Cells.{NotedVerdicts, verdict_cells};

    ghost Value = { NotedVerdicts };

    ghost view = { λ n. record { row = n.row; resolver = n.resolver; known = n.note.known } };

    ghost invariant = { λ n.
        slice_get (verdict_cells N.cells n.resolver) n.row ≡ Some n.note.cell };
}

impl<N: Naming> RecordNote<N> {
    /// The note that knows what the fact says of the row's record.
    pub(crate) fn from_fact(
        row: RowNumber,
        cell: &OnceBox<Record>,
        fact: &Fact<Record>,
    ) -> RecordNote<N>
        requires row { slice_get N.cells.records row ≡ Some (cell_name cell.now) }
        requires cell { fact.now.cell ≡ cell_name cell.now }
        ensures { result ≡ record { row = row; known = Some fact.now.value } }
    {
        let mut note = cell.note();
        fact.tell(&mut note);
        RecordNote {
            row,
            note,
            of: PhantomData,
        }
    }

    /// Why the row's record cell was not set, with a note in place of the fact.
    pub(crate) fn from_not_set(
        row: RowNumber,
        cell: &OnceBox<Record>,
        why: NotSet<Fact<Record>>,
    ) -> NotSet<RecordNote<N>>
        requires row { slice_get N.cells.records row ≡ Some (cell_name cell.now) }
        requires taken { IfTaken why (λ fact. fact.cell ≡ cell_name cell.now) }
        ensures same { refusal_of result ≡ refusal_of why }
        ensures taken { IfTaken result (IsKnownAt row) }
    {
        match why {
            NotSet::OutOfMemory => NotSet::OutOfMemory,
            NotSet::Taken(fact) => NotSet::Taken(RecordNote::from_fact(row, cell, &fact)),
        }
    }

    /// If both notes are of one row, and both know a record, they know the same one. Each stays as
    /// it was.
    pub fn agree(&mut self, other: &mut RecordNote<N>)
        ensures kept { (self.new ≡ self.old) × (other.new ≡ other.old) }
        ensures agree { NotesAgree self.old other.old }
    {
        if self.row != other.row {
            return;
        }
        self.note.compare(other.note.again());
    }

    /// If the records have the note's row, and the note knows a record, it is the same one. The
    /// note stays as it was.
    pub fn agree_with(&mut self, records: &Records<N>)
        ensures kept { self.new ≡ self.old }
        ensures agree { NoteAgreesWith self.old records.now }
    {
        let Some(fact) = records.fact(self.row) else {
            return;
        };
        fact.agrees_with(&mut self.note);
    }
}

impl<N: Naming> VerdictNote<N> {
    /// The note that knows what the fact says of the resolver's verdicts in the row.
    pub(crate) fn from_fact(
        row: RowNumber,
        resolver: ResolverNumber,
        cell: &OnceBox<Verdicts>,
        fact: &Fact<Verdicts>,
    ) -> VerdictNote<N>
        requires row { slice_get (verdict_cells N.cells resolver) row ≡ Some (cell_name cell.now) }
        requires cell { fact.now.cell ≡ cell_name cell.now }
        ensures { result
            ≡ record { row = row; resolver = resolver; known = Some fact.now.value } }
    {
        let mut note = cell.note();
        fact.tell(&mut note);
        VerdictNote {
            row,
            resolver,
            note,
            of: PhantomData,
        }
    }

    /// Why the verdict cell of the row and the resolver was not set, with a note in place of the
    /// fact.
    pub(crate) fn from_not_set(
        row: RowNumber,
        resolver: ResolverNumber,
        cell: &OnceBox<Verdicts>,
        why: NotSet<Fact<Verdicts>>,
    ) -> NotSet<VerdictNote<N>>
        requires row { slice_get (verdict_cells N.cells resolver) row ≡ Some (cell_name cell.now) }
        requires taken { IfTaken why (λ fact. fact.cell ≡ cell_name cell.now) }
        ensures same { refusal_of result ≡ refusal_of why }
        ensures taken { IfTaken result (AreKnownAt row resolver) }
    {
        match why {
            NotSet::OutOfMemory => NotSet::OutOfMemory,
            NotSet::Taken(fact) => {
                NotSet::Taken(VerdictNote::from_fact(row, resolver, cell, &fact))
            }
        }
    }

    /// If both notes are of one row and one resolver, and both know verdicts, they know the same
    /// ones. Each stays as it was.
    pub fn agree(&mut self, other: &mut VerdictNote<N>)
        ensures kept { (self.new ≡ self.old) × (other.new ≡ other.old) }
        ensures agree { self.old.resolver ≡ other.old.resolver
            → NotesAgree (row_note self.old) (row_note other.old) }
    {
        if self.row != other.row || self.resolver != other.resolver {
            return;
        }
        self.note.compare(other.note.again());
    }

    /// If the column is of the note's resolver and has its row, and the note knows verdicts, they
    /// are the same ones. The note stays as it was.
    pub fn agree_with(&mut self, column: &Column<N>)
        ensures kept { self.new ≡ self.old }
        ensures agree { self.old.resolver ≡ column.now.resolver
            → NoteAgreesWith (row_note self.old) column.now.rows }
    {
        if self.resolver != column.resolver() {
            return;
        }
        let Some(fact) = column.fact(self.row) else {
            return;
        };
        fact.agrees_with(&mut self.note);
    }
}

impl<N: Naming> Ledger<N> {
    /// Returns a note of the row's record that knows nothing yet, or `None` past the rows.
    pub fn record_note(&self, row: RowNumber) -> Option<RecordNote<N>>
        ensures { MatchOption result
            (length N.cells.records ≤ row)
            (λ note. (row < length N.cells.records) × (note ≡ new_note row)) }
    {
        if self.rows() <= row {
            return None;
        }
        Some(RecordNote {
            row,
            note: self.record_cell(row).note(),
            of: PhantomData,
        })
    }

    /// Looks at the record of the row. It never waits and needs no memory.
    ///
    /// A note that knows a record gives that record ever after. `None` means that the note knows
    /// nothing yet and that the cell was empty, or that the note is of another row, and then it
    /// learns nothing.
    pub fn record_at<'a>(&'a self, row: RowNumber, note: &mut RecordNote<N>) -> Option<&'a Record>
        ensures row { note.new.row ≡ note.old.row }
        ensures value { MatchOption result
            (ShowsNothing row note.old note.new)
            (λ rec. Shows row note.old note.new rec.now) }
    {
        if row != note.row {
            return None;
        }
        self.record_cell(row).get_as(&mut note.note)
    }

    /// Returns a note of the resolver's verdicts in the row that knows nothing yet, or `None` past
    /// the rows or the resolvers.
    pub fn verdict_note(&self, row: RowNumber, resolver: ResolverNumber) -> Option<VerdictNote<N>>
        ensures { MatchOption result
            (LacksVerdictCell N.cells row resolver)
            (λ note. HasVerdictCell N.cells row resolver × (note ≡ new_verdict_note row resolver)) }
    {
        if self.rows() <= row || self.config().resolvers() <= resolver {
            return None;
        }
        Some(VerdictNote {
            row,
            resolver,
            note: self.verdict_cell(row, resolver).note(),
            of: PhantomData,
        })
    }

    /// Looks at the resolver's verdicts in the row, as [`Ledger::record_at`] looks at a record.
    pub fn verdicts_at<'a>(
        &'a self,
        row: RowNumber,
        resolver: ResolverNumber,
        note: &mut VerdictNote<N>,
    ) -> Option<&'a Verdicts>
        ensures place { (note.new.row ≡ note.old.row) × (note.new.resolver ≡ note.old.resolver) }
        ensures value { MatchOption result
            (ShowsNoVerdicts row resolver note.old note.new)
            (λ verdicts. ShowsVerdicts row resolver note.old note.new verdicts.now) }
    {
        if row != note.row || resolver != note.resolver {
            return None;
        }
        self.verdict_cell(row, resolver).get_as(&mut note.note)
    }
}
