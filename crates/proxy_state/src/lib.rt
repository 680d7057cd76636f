//! A commit proxy over time, which begins records and finishes them by the replies of the resolvers.
//!
//! Sources: FoundationDB release 7.1 (how a commit proxy finishes its batches) and this project's
//! profile (the refusals).
#![tactic(auto)]

mod begun_record;
mod columns;
mod disagreements;
mod finishing;
mod joined_verdict;
mod learned;
mod moving;
mod outcomes;
mod own_row;
mod owned_moves;
mod proxy;
mod proxy_owners;
mod refusal;
mod replies;
mod rows_by_replies;

pub use joined_verdict::join;
pub use metadata::Metadata;
pub use model::{
    Finished, JournalRow, Outcome, PrivateCopy, Route, Routing, StateTxn, Tagged, Verdict,
};
pub use owned_moves::OwnedMoves;
pub use proxy::Proxy;
pub use refusal::Refusal;
pub use replies::Replies;
