//! What the sequencer returns for a batch: its row, and the records up to it.

ghost use Rattle.std.specs.Prelude.{◌≡◌, ◌-◌, ◌<◌, length};
ghost use Rattle.model.specs.Records.{IsHistory};
ghost use Rattle.agreed_ledger.specs.Sequencing.{IsTicket};

use crate::naming::Naming;
use crate::records::Records;
use model::RowNumber;
use std::marker::Model;

/// The row of a batch, and the records up to it, its own among them.
#[derive(Drop)]
pub struct Ticket<N: Naming> {
    row: RowNumber,
    records: Records<N>,
}

impl<N: Naming> Model for Ticket<N> {
    ghost use Rattle.std.specs.Prelude.{◌≡◌};
    ghost use Rattle.agreed_ledger.specs.Sequencing.{IsTicket, TicketView};

    ghost Value = { TicketView };

    ghost view = { λ t. record { row = t.row; records = t.records.known } };

    ghost invariant = { λ t. (t.records.first ≡ 0)
        × IsTicket N.cells.config (record { row = t.row; records = t.records.known }) };
}

impl<N: Naming> Ticket<N> {
    /// The ticket of the last of the records.
    pub(crate) fn of(records: Records<N>) -> Ticket<N>
        requires first { records.first ≡ 0 }
        requires last { 0 < length records.known }
        requires history { IsHistory N.cells.config records.known }
        ensures { result ≡ record { row = length records.known - 1; records = records.known } }
    {
        Ticket {
            row: records.end() - 1,
            records,
        }
    }

    /// The row.
    pub fn row(&self) -> usize
        ensures value { result ≡ self.now.row }
        ensures within { self.now.row < length N.cells.records }
        ensures kept { IsTicket N.cells.config self.now }
    {
        // (its contract says that the records lie within the ledger)
        let _end = self.records.end();
        self.row
    }

    /// The records up to the row, its own among them.
    pub fn records(&self) -> &Records<N>
        ensures value { result.now ≡ record { first = 0; known = self.now.records } }
        ensures kept { IsTicket N.cells.config self.now }
    {
        &self.records
    }
}
