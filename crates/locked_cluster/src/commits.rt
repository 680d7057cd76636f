//! Committing batches, and collecting the replies to them.

mod collected_replies;
mod commit_fault;
mod shared_proxy;

pub use commit_fault::CommitFault;
pub use shared_proxy::{ProxyGuard, SharedProxy};
