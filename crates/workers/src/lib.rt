//! Each resolver runs in a thread and takes requests from an inbox. A worker holds no lock while it
//! waits for a message. A proxy holds only the lock of its sending ends while it sends, and none while
//! it waits for answers.
//!
//! Source: *this project's profile*. In release 7.1 each resolver is a process, and holds a batch
//! back until the batch before it is resolved (`Resolver.actor.cpp`, resolveBatch).
#![tactic(auto)]

mod awaited_replies;
mod desk;
mod edges;
mod ended_worker;
mod gate;
mod pending_request;
mod proxy_inboxes;
mod refusing;
mod told;
mod worker;
mod worker_answer;

pub use edges::ended_worker_edges;
pub use ended_worker::EndedWorker;
pub use gate::{Gate, Open, Place};
pub use pending_request::PendingRequest;
pub use proxy_inboxes::{ProxyInboxes, SendersGuard};
pub use worker::ResolverWorker;
