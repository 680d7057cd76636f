//! The ruled inboxes through which proxies reach the threads of resolvers.
//!
//! Each resolver has one inbox: a bounded channel, whose worker takes the messages of all proxies.
//! Its rule says that what the worker took of a proxy, and then what is queued of it, is what the
//! proxy sent, in its order. Each thread has a *pass*, a value of no bytes that knows what it sent or
//! took; when a proxy has ended, its pass is joined to the worker's, and the two lists are compared.
//!
//! Types tell that two ends are of one set of inboxes: the naming parameter `M` stands for their
//! channels, as `N` does for the cells of the ledger.
//!
//! Source: *this project's profile*. In FoundationDB release 7.1 a resolver's requests come over
//! the network (`ResolverInterface.h`).
#![tactic(auto)]

mod blank;
mod blank_inboxes;
mod channels;
mod edges;
mod inbox_end;
mod inbox_room;
mod message;
mod proxy_senders;
mod question;
mod refusal;
mod rule;
mod sender_end;
mod views;
mod worker_pass;

pub use blank_inboxes::BlankInboxes;
pub use channels::Channels;
pub use edges::ended_sender_edges;
pub use inbox_end::{FreshEnd, InboxEnd};
pub use inbox_room::InboxRoom;
pub use message::{Body, Message};
pub use proxy_senders::ProxySenders;
pub use question::Question;
pub use refusal::Refusal;
pub use rule::{InOrder, Inbox};
pub use sender_end::{EndedSender, SenderEnd};
pub use views::{MessageKind, MessageView};
pub use worker_pass::{Counts, WorkerPass};
