//! Callers of this repository's libraries, as a user would write them. The contract of each is
//! proved from the public contracts of what it calls. No program uses this library.
#![tactic(auto)]

mod asking;
mod committing;
mod comparing;
mod finishing;
mod folding;
mod refused;
mod resolving;
mod running;
mod sequencing;
mod whole_cluster;

pub use asking::{ask_each, resolve_with_one_retry};
pub use committing::commit_and_resume_once;
pub use comparing::routings_of_two;
pub use finishing::{commit_two, finish_two};
pub use folding::tags_after_journal;
pub use refused::Refused;
pub use resolving::{offer_and_look, offer_twice, resolve_and_look};
pub use running::{
    config_of_cluster, metadata_after, metadata_at_end, metadata_if_same_version,
    run_and_resume_once, step_of,
};
pub use sequencing::{record_of_ticket, sequence_around_move, sequence_two};
pub use whole_cluster::{Shown, whole_cluster_from_nothing};
