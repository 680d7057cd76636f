//! Resolvers behind locks, which many threads may enter, and the requests and replies between them and
//! the proxies.
//!
//! A value behind a lock is a plain struct whose type keeps what is known of it whenever the lock is
//! free. Facts cross threads in the types of what is passed: a [`Request`] keeps the records up to
//! its row, and a [`NotedReply`] the records and verdict cells that it was made by.
//!
//! Source: FoundationDB release 7.1, `Resolver.actor.cpp` (resolveBatch), for what happens under the
//! lock; the locks are *this project's profile*.
#![tactic(auto)]

mod all_resolvers;
mod asking;
mod locked_resolver;
mod noted_reply;
mod refusal;
mod refused;
mod request;
mod shared_resolver;

pub use all_resolvers::AllResolvers;
pub use asking::Asking;
pub use locked_resolver::LockedResolver;
pub use noted_reply::NotedReply;
pub use refusal::Refusal;
pub use refused::Refused;
pub use request::Request;
pub use shared_resolver::{ResolverGuard, SharedResolver};
