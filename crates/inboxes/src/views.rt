//! What the rule of an inbox sees of a message, and what a pass of an inbox knows. No value of
//! these types is made: they stand in contracts alone.

use model::{ProxyNumber, RowNumber};
use std::collections::LinkedList;

/// What a message is.
pub enum MessageKind {
    /// A request to the resolver.
    Request,
    /// A proxy gives up: the resolver is to be closed.
    Close,
    /// The last message of a proxy.
    End,
}

/// A message, as contracts see it: its proxy, its kind, and for a request the number of the
/// resolver that it is to and the row of its record. For the other kinds these two are 0.
pub struct MessageView {
    /// The number of the proxy that sent it.
    pub proxy: ProxyNumber,
    /// What it is.
    pub kind: MessageKind,
    /// The number of the resolver that the request is to.
    pub to: usize,
    /// The row of the request's record.
    pub row: RowNumber,
}

/// What a pass knows. A pass is either one proxy's, or the worker's, or spent.
pub struct View {
    /// Whether it is a proxy's.
    pub sends: bool,
    /// The number of that proxy.
    pub from: usize,
    /// The messages that the proxy sent to this inbox, oldest first.
    pub put: LinkedList<MessageView>,
    /// Whether it is the worker's.
    pub gets: bool,
    /// The messages that the worker took, of all proxies, oldest first.
    pub got: LinkedList<MessageView>,
    /// For how many proxies a pass was made: for those from 0 on.
    pub made: usize,
    /// The proxy whose pass was joined to the worker's last, and what it sent, if one was joined.
    pub told: Option<(usize, LinkedList<MessageView>)>,
}
