//! What scripts of clusters share: the numbers of a cluster, and moves of ranges to resolvers.
//!
//! Source: this project's profile (scripts).
#![tactic(auto)]

mod given_move;
mod shapes;
mod streams;

pub use given_move::GivenMove;
pub use shapes::config;
