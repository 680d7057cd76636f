//! The whole cluster under one name: the one that threads share, which locked_cluster has, with the
//! inboxes and the workers of its resolvers, and the one without threads, which turn_world has.
//!
//! Each is proved in a crate of its own, so that no proof waits for another. Whoever makes a cluster
//! also names agreed_ledger, mutation and system_keys.
#![tactic(auto)]

pub use inboxes::{
    BlankInboxes, Body, Channels, Counts, EndedSender, FreshEnd, Inbox, InboxEnd, InboxRoom,
    Message, ProxySenders, Question, Refusal as InboxRefusal, WorkerPass,
};
pub use locked_cluster::{
    AllResolvers, Asking, Begun, BehindBy, Columns, CommitFault, LockedProxy, LockedResolver,
    Meeting, NotedFinished, NotedReply, NotedRouting, ProxyGuard, Ready, Refusal, Refused, Request,
    ResolverGuard, SharedProxy, SharedResolver, audit, meet, metadata_of_two,
};
pub use metadata::{Metadata, RowTags};
pub use model::{
    Config, Finished, JournalRow, Move, Outcome, PrivateCopy, ProxyNumber,
    Refusal as ConfigRefusal, Reply, ResolverNumber, Route, Routing, RowNumber, StateTxn, Tagged,
    TransactionNumber, Verdict, Version,
};
pub use turn_world::{Answer, Event, OfferAnswer, Refusal as TurnRefusal, Stopped, TurnWorld};
pub use workers::{
    EndedWorker, Gate, Open, PendingRequest, Place, ProxyInboxes, ResolverWorker, SendersGuard,
};
