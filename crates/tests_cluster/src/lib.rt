//! The tests of locked_cluster, inboxes and workers, by their public calls.
//!
//! Those in `asking`, of inboxes that several threads ask through at once, of requests that come again,
//! and of an inbox that is full, are run with ample memory: a thread that were refused memory would leave
//! others waiting.
#![tactic(auto)]

#[cfg(test)]
mod asking;
#[cfg(test)]
mod tests;
