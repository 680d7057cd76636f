//! Callers of what this project promises of proxies: of `metadata_of_two`, of answers, meetings and
//! audits. The contract of each says in plain terms what a user takes from one definition of
//! locked_cluster. It is proved from that definition, so a weaker one leaves it unproved. No program
//! uses this library.
#![tactic(auto)]

mod answering;
mod auditing;
mod committing;
mod promising;
mod showing;

pub use answering::{has_reached, records_of_answer, sent_mutations, tags_by_proxy};
pub use auditing::{columns_of_proxy, judged_by_audit, resolver_to_wait_for};
pub use committing::commit_by_own_inboxes;
pub use promising::{metadata_at_one_version, records_of_proxy, routing_of_history};
pub use showing::{columns_of_answer, journal_of_other, records_of_routing};
