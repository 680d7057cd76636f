//! The cluster that threads share, made of the real parts behind locks: proxies, beside the resolvers
//! of locked_resolvers, which it names again; whole commits; meetings and audits.
//!
//! A value behind a lock is a plain struct whose type keeps what is known of it whenever the lock is
//! free. Facts cross threads in the types of what is passed.
//!
//! A call that waits for a resolver's lock holds no other lock. A commit that waits for the
//! sequencer's lock holds the proxy's; no call takes these two the other way round.
//!
//! Source: FoundationDB release 7.1, `CommitProxyServer.actor.cpp` (commitBatch), for what happens
//! under the lock; the locks are *this project's profile*.
#![tactic(auto)]

mod audits;
mod commits;
mod proxies;

pub use audits::{BehindBy, audit, meet, metadata_of_two};
pub use commits::{CommitFault, ProxyGuard, SharedProxy};
pub use locked_resolvers::{
    AllResolvers, Asking, LockedResolver, NotedReply, Refusal, Refused, Request, ResolverGuard,
    SharedResolver,
};
pub use proxies::{Begun, Columns, LockedProxy, Meeting, NotedFinished, NotedRouting, Ready};
