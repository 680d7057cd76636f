//! A routing with the records and verdict cells that it follows from.

ghost use Rattle.std.specs.Prelude.{◌≡◌};
ghost use Rattle.locked_cluster.specs.Answers.{IsNotedRouting};

use crate::proxies::columns::Columns;
use agreed_ledger::{Naming, Records};
use model::Routing;
use std::marker::Model;

/// A routing, with records and the verdict cells of each resolver, at least those up to its version.
///
/// By its type the routing is the definition's at its version, for these records. Each of the cells
/// up to this version holds the verdicts of the definition.
#[derive(Drop)]
pub struct NotedRouting<N: Naming> {
    routing: Routing,
    records: Records<N>,
    columns: Columns<N>,
}

impl<N: Naming> Model for NotedRouting<N> {
    ghost use Rattle.std.specs.Prelude.{◌≡◌};
    ghost use Rattle.locked_cluster.specs.Answers.{IsNotedRouting, NotedRoutingView};

    ghost Value = { NotedRoutingView };

    ghost view = { λ n. record {
      routing = n.routing;
      records = n.records.known;
      columns = n.columns;
    } };

    ghost invariant = { λ n. (n.records.first ≡ 0)
        × IsNotedRouting N.cells.config (record {
          routing = n.routing;
          records = n.records.known;
          columns = n.columns;
        }) };
}

impl<N: Naming> NotedRouting<N> {
    /// The routing by these records and columns.
    pub(crate) fn of(routing: Routing, records: Records<N>, columns: Columns<N>) -> NotedRouting<N>
        requires first { records.first ≡ 0 }
        requires is { IsNotedRouting N.cells.config (record {
          routing = routing;
          records = records.known;
          columns = columns;
        }) }
        ensures { result ≡ record {
          routing = routing;
          records = records.known;
          columns = columns;
        } }
    {
        NotedRouting {
            routing,
            records,
            columns,
        }
    }

    /// The routing.
    pub fn value(&self) -> &Routing
        ensures value { result.now ≡ self.now.routing }
        ensures kept { IsNotedRouting N.cells.config self.now }
    {
        &self.routing
    }

    /// The records, those up to the version of the routing among them.
    pub fn records(&self) -> &Records<N>
        ensures value { result.now ≡ record { first = 0; known = self.now.records } }
        ensures kept { IsNotedRouting N.cells.config self.now }
    {
        &self.records
    }

    /// The verdict cells of each resolver.
    pub fn columns(&self) -> &Columns<N>
        ensures { result.now ≡ self.now.columns }
    {
        &self.columns
    }
}
