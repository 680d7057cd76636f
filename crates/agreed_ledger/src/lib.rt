//! What the threads of a cluster share: a ledger of cells that are set once, and the sequencer.
//!
//! For each row the ledger has a cell for the record and one for the verdicts of each resolver. Its
//! naming parameter `N` stands for the cells, so that values about one ledger have one type.
//! *Notes* are for looking at a cell, *stretches* (`Records`, `Column`) for keeping what it holds.
//!
//! Source: FoundationDB release 7.1, `masterserver.actor.cpp`, getVersion, for the sequencer; the
//! rest is *this project's profile*.
#![tactic(auto)]

mod column;
pub mod laws;
mod ledger;
mod naming;
mod notes;
mod records;
mod refusal;
mod sequenced;
mod sequencer;
mod ticket;

pub use column::Column;
pub use ledger::{BlankLedger, Ledger};
pub use naming::Naming;
pub use notes::{RecordNote, VerdictNote};
pub use records::Records;
pub use refusal::Refusal;
pub use sequenced::Sequenced;
pub use sequencer::{Sequencer, SequencerGuard};
pub use ticket::Ticket;
