//! Facts about cells that are set once: which value a cell holds for good.
//!
//! A `Note` of `once_cell` is for looking at a cell, and a proof reaches it only through `&mut`. A
//! [`Fact`] is for keeping: it takes no bytes, and threads share it through `&`. So values behind
//! locks can keep facts, and two holders learn through `&` alone that they know one value. A
//! [`Stretch`] keeps the facts about consecutive cells.
//!
//! Source: *this project's profile*, after the tokens of the kit's `boxcar`.
#![tactic(auto)]

mod fact;
mod setting;
mod stretch;

pub use fact::Fact;
pub use setting::NotSet;
pub use stretch::Stretch;
