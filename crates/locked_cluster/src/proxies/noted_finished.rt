//! A finished batch with the records and verdict cells that it follows from.

ghost use Rattle.std.specs.Prelude.{◌≡◌};
ghost use Rattle.locked_cluster.specs.Answers.{IsNotedFinished};

use crate::proxies::columns::Columns;
use agreed_ledger::{Naming, Records};
use model::Finished;
use std::marker::Model;

/// A finished batch, with the records up to its row and the verdict cells of each resolver.
///
/// By its type the outcomes, the tags and the private copies are the definition's for the record of
/// the row, after these records: tags and copies are those of the metadata after the whole batch. Each
/// of the cells holds the verdicts of the definition.
#[derive(Drop)]
pub struct NotedFinished<N: Naming> {
    finished: Finished,
    records: Records<N>,
    columns: Columns<N>,
}

impl<N: Naming> Model for NotedFinished<N> {
    ghost use Rattle.std.specs.Prelude.{◌≡◌};
    ghost use Rattle.locked_cluster.specs.Answers.{IsNotedFinished, NotedFinishedView};

    ghost Value = { NotedFinishedView };

    ghost view = { λ n. record {
      finished = n.finished;
      records = n.records.known;
      columns = n.columns;
    } };

    ghost invariant = { λ n. (n.records.first ≡ 0)
        × IsNotedFinished N.cells.config (record {
          finished = n.finished;
          records = n.records.known;
          columns = n.columns;
        }) };
}

impl<N: Naming> NotedFinished<N> {
    /// The finished batch of the last of the records.
    pub(crate) fn of(
        finished: Finished,
        records: Records<N>,
        columns: Columns<N>,
    ) -> NotedFinished<N>
        requires first { records.first ≡ 0 }
        requires is { IsNotedFinished N.cells.config (record {
          finished = finished;
          records = records.known;
          columns = columns;
        }) }
        ensures { result ≡ record {
          finished = finished;
          records = records.known;
          columns = columns;
        } }
    {
        NotedFinished {
            finished,
            records,
            columns,
        }
    }

    /// The finished batch.
    pub fn value(&self) -> &Finished
        ensures value { result.now ≡ self.now.finished }
        ensures kept { IsNotedFinished N.cells.config self.now }
    {
        &self.finished
    }

    /// The records up to the row of the batch.
    pub fn records(&self) -> &Records<N>
        ensures value { result.now ≡ record { first = 0; known = self.now.records } }
        ensures kept { IsNotedFinished N.cells.config self.now }
    {
        &self.records
    }

    /// The verdict cells of each resolver, those of the records among them.
    pub fn columns(&self) -> &Columns<N>
        ensures { result.now ≡ self.now.columns }
    {
        &self.columns
    }
}
