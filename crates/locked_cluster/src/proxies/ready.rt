//! The replies by which a proxy may finish a record.

ghost use Rattle.std.specs.Prelude.{◌≡◌};
ghost use Rattle.locked_cluster.specs.Ready.{IsReady};

use crate::proxies::columns::Columns;
use agreed_ledger::{Naming, Records};
use model::RowNumber;
use proxy_state::Replies;
use std::marker::Model;

/// The replies of all resolvers to a record, with the records up to it and the verdict cells of each
/// resolver.
///
/// By its type the replies are those that the resolvers give to the record by the definition's
/// verdicts, and each of the cells holds these verdicts.
#[derive(Drop)]
pub struct Ready<N: Naming> {
    row: RowNumber,
    replies: Replies,
    records: Records<N>,
    columns: Columns<N>,
}

impl<N: Naming> Model for Ready<N> {
    ghost use Rattle.std.specs.Prelude.{◌≡◌};
    ghost use Rattle.locked_cluster.specs.Ready.{IsReady, ReadyView};

    ghost Value = { ReadyView };

    ghost view = { λ r. record {
      row = r.row;
      replies = r.replies;
      records = r.records.known;
      columns = r.columns;
    } };

    ghost invariant = { λ r. (r.records.first ≡ 0)
        × IsReady N.cells.config (record {
          row = r.row;
          replies = r.replies;
          records = r.records.known;
          columns = r.columns;
        }) };
}

impl<N: Naming> Ready<N> {
    /// The replies to the last of the records.
    pub(crate) fn of(
        row: RowNumber,
        replies: Replies,
        records: Records<N>,
        columns: Columns<N>,
    ) -> Ready<N>
        requires first { records.first ≡ 0 }
        requires is { IsReady N.cells.config (record {
          row = row;
          replies = replies;
          records = records.known;
          columns = columns;
        }) }
        ensures { result ≡ record {
          row = row;
          replies = replies;
          records = records.known;
          columns = columns;
        } }
    {
        Ready {
            row,
            replies,
            records,
            columns,
        }
    }

    /// The row of the record.
    pub fn row(&self) -> RowNumber
        ensures value { result ≡ self.now.row }
        ensures kept { IsReady N.cells.config self.now }
    {
        self.row
    }

    /// The records up to the row, its own among them.
    pub fn records(&self) -> &Records<N>
        ensures value { result.now ≡ record { first = 0; known = self.now.records } }
        ensures kept { IsReady N.cells.config self.now }
    {
        &self.records
    }

    /// The verdict cells of each resolver, those of the records among them.
    pub fn columns(&self) -> &Columns<N>
        ensures { result.now ≡ self.now.columns }
    {
        &self.columns
    }

    /// Its parts without the row.
    pub(crate) fn into_parts(self) -> (Replies, Records<N>, Columns<N>)
        ensures replies { result.0 ≡ self.replies }
        ensures records { result.1 ≡ record { first = 0; known = self.records } }
        ensures columns { result.2 ≡ self.columns }
    {
        let Ready {
            row: _,
            replies,
            records,
            columns,
        } = self;
        (replies, records, columns)
    }
}
