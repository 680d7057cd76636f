//! The specification of the cluster: its data, its definitions, and laws that check the
//! definitions.
#![tactic(auto)]

mod config;
mod edges;
mod finish_edges;
mod journal;
pub mod laws;
mod moves;
mod numbers;
mod outcome;
mod part;
mod places;
mod ranges;
mod refusal;
mod reply;
mod routing;
mod unseen;
mod verdict;

pub use config::{Config, RESOLVERS_LIMIT, VERSION_LIMIT, is_from_one_to};
pub use edges::{
    lock_edges, missing_verdict_edges, record_edges, refusal_edges, stamp_edges, tag_edges,
};
pub use finish_edges::{disagreement_edges, other_record_edges, reply_edges};
pub use journal::{JournalRow, StateTxn};
pub use moves::Move;
pub use numbers::{ProxyNumber, ResolverNumber, RowNumber, TransactionNumber, Version};
pub use outcome::{Finished, Outcome, PrivateCopy, Tagged};
pub use part::Part;
pub use places::Places;
pub use ranges::Ranges;
pub use refusal::Refusal;
pub use reply::Reply;
pub use routing::{Route, Routing};
pub use unseen::{Carried, StateMark, UnseenRow, UnseenState};
pub use verdict::Verdict;
