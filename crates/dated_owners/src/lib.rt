//! Which resolver owns which keys since when, and which resolvers are asked about a range.
//!
//! At first resolver 0 owns every key. A move gives the keys of its range to another resolver, from
//! a version on that is called its date. A read of a range asks the owners of its keys back to its
//! snapshot; a write asks the last owner of each key.
//!
//! Source: FoundationDB release 7.1, `CommitProxyServer.actor.cpp` (keyResolvers and
//! ResolutionRequestBuilder); what differs is marked *this project's profile*.
#![tactic(auto)]

mod flags;
mod later_owners;
pub mod laws;
mod merging;
mod owner_map;
mod pieces;
mod refusal;
mod resolver_set;
mod walks;

pub use flags::ResolverFlags;
pub use owner_map::OwnerMap;
pub use refusal::Refusal;
pub use resolver_set::ResolverSet;
