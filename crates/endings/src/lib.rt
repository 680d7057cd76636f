//! How schedules end. Whatever the order in which resolvers judge and proxies finish, nothing gets
//! stuck, and all orders end in the same world. No code: laws of the definitions of `model`.
#![tactic(auto)]

pub mod laws;
mod stories;

pub use stories::{order_scenarios, rounds_needed_scenarios};
