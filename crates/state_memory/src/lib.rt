//! One resolver, which judges the requests of the proxies in their order, replies what each proxy has
//! not seen, and gives a repeated request the reply that it got.
//!
//! Source: FoundationDB release 7.1, `Resolver.actor.cpp` (resolveBatch); what differs is marked
//! *this project's profile*.
#![tactic(auto)]

mod answer;
mod proxy_memory;
mod refusal;
mod resolver;
mod rows;

pub use answer::Answer;
pub use model::{Carried, Reply, StateMark, UnseenRow, UnseenState, Verdict};
pub use refusal::Refusal;
pub use request_builder::Request;
pub use resolver::Resolver;
pub use share_judge::{NotJudged, Verdicts};
