//! Records, and the requests of a proxy to the resolvers for a record.
//!
//! Source: FoundationDB release 7.1, `CommitProxyServer.actor.cpp` (ResolutionRequestBuilder); what
//! differs is marked *profile*.
#![tactic(auto)]

mod asked_resolvers;
mod building;
mod header;
mod marks;
mod moves;
mod parts;
mod places;
mod record;
mod request;
mod requests;
mod share;

pub use building::build;
pub use header::RequestHeader;
pub use model::{Carried, Config, Move, Part, Refusal, StateMark};
pub use moves::Moves;
pub use record::Record;
pub use request::Request;
pub use requests::Requests;
pub use share::Share;
