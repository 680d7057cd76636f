//! A session behind one pointer, which C may keep in its memory. The code is unsafe, and its proofs are
//! written by hand.
//!
//! Source: this project's profile (sessions for C).
#![tactic(auto)]

mod handle;
mod loose;

pub use handle::Handle;
