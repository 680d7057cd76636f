//! The metadata that every commit proxy keeps the same: the entries that it keeps, how a row of the
//! journal changes them, the lock, the tags of the keys, and the private copies of changes.
//!
//! Sources: FoundationDB release 7.1 (how commit proxies apply the state transactions, and which
//! tags and private copies a mutation gets) and this project's profile (the values of entries, a
//! server without a serverTag entry).
#![tactic(auto)]

mod applying;
mod entry_key;
mod entry_map;
mod entry_view;
mod journal_fold;
mod kept_entries;
mod key_runs;
mod key_set;
mod metadata;
mod order;
mod private_copies;
mod route_walk;
mod row;
mod row_names;
mod row_tags;
mod server_table;
mod sets;
mod staged;
mod started_rows;
mod tag_list;
mod tagging;

pub use entry_view::EntryView;
pub use journal_fold::JournalFold;
pub use metadata::Metadata;
pub use private_copies::find_private_copy;
pub use route_walk::RouteWalk;
pub use row_tags::RowTags;
pub use started_rows::StartedRows;
pub use tagging::tags_of;
