//! A reply with the records and verdict cells that it follows from.

ghost use Rattle.std.specs.Prelude.{◌≡◌};
ghost use Rattle.locked_resolvers.specs.NotedReplies.{IsNotedReply};

use agreed_ledger::{Column, Naming, Records};
use model::Reply;
use std::marker::Model;

/// A reply, with the records up to its row and the verdict cells of its resolver in these rows.
///
/// By its type the reply is the one that the definition gives for the record of its row, after these
/// records, and each of the cells holds the verdicts of the definition.
#[derive(Drop)]
pub struct NotedReply<N: Naming> {
    reply: Reply,
    records: Records<N>,
    column: Column<N>,
}

impl<N: Naming> Model for NotedReply<N> {
    ghost use Rattle.std.specs.Prelude.{◌≡◌};
    ghost use Rattle.locked_resolvers.specs.NotedReplies.{IsNotedReply, NotedReplyView};

    ghost Value = { NotedReplyView };

    ghost view = { λ n. record {
      reply = n.reply;
      records = n.records.known;
      column = n.column.rows.known;
    } };

    ghost invariant = { λ n. (n.records.first ≡ 0) × (n.column.rows.first ≡ 0)
        × (n.column.resolver ≡ n.reply.resolver)
        × IsNotedReply N.cells.config (record {
          reply = n.reply;
          records = n.records.known;
          column = n.column.rows.known;
        }) };
}

impl<N: Naming> NotedReply<N> {
    /// The reply to the last of the records.
    pub(crate) fn of(reply: Reply, records: Records<N>, column: Column<N>) -> NotedReply<N>
        requires first { (records.first ≡ 0) × (column.rows.first ≡ 0) }
        requires resolver { column.resolver ≡ reply.resolver }
        requires is { IsNotedReply N.cells.config (record {
          reply = reply;
          records = records.known;
          column = column.rows.known;
        }) }
        ensures { result ≡ record {
          reply = reply;
          records = records.known;
          column = column.rows.known;
        } }
    {
        NotedReply {
            reply,
            records,
            column,
        }
    }

    /// The reply.
    pub fn value(&self) -> &Reply
        ensures value { result.now ≡ self.now.reply }
        ensures kept { IsNotedReply N.cells.config self.now }
    {
        &self.reply
    }

    /// The records up to the row of the reply.
    pub fn records(&self) -> &Records<N>
        ensures { result.now ≡ record { first = 0; known = self.now.records } }
    {
        &self.records
    }

    /// The verdict cells of the resolver, those of the records among them.
    pub fn column(&self) -> &Column<N>
        ensures { result.now ≡ record {
          resolver = self.now.reply.resolver;
          rows = record { first = 0; known = self.now.column };
        } }
    {
        &self.column
    }

    /// The reply, the records and the verdict cells.
    pub fn into_parts(self) -> (Reply, Records<N>, Column<N>)
        ensures reply { result.0 ≡ self.reply }
        ensures records { result.1 ≡ record { first = 0; known = self.records } }
        ensures column { result.2 ≡ record {
          resolver = self.reply.resolver;
          rows = record { first = 0; known = self.column };
        } }
        ensures kept { IsNotedReply N.cells.config self }
    {
        let NotedReply {
            reply,
            records,
            column,
        } = self;
        (reply, records, column)
    }
}
