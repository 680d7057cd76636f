//! The lowest layer: keys and ranges of keys, changes of single rows and ranges, the values of the
//! rows that the metadata keeps, and bytes as text.
//!
//! Sources: FoundationDB release 7.1 (the system keyspace, which mutations touch the metadata) and
//! this project's profile (limits, the values of rows, the text of bytes).
#![tactic(auto)]

mod bytes;
mod change;
mod checks;
mod items;
mod kind;
mod laws;
mod location;
mod memory;
mod order;
mod ordered_key;
mod plain;
mod range;
mod refusal;
mod server;
mod server_rows;
mod shared_items;
mod state;
mod tag;
mod tag_rows;
mod tag_teams;
mod teams;
mod text;

pub use bytes::Bytes;
pub use change::Change;
pub use checks::{END_LIMIT, KEY_LIMIT, KEY_SPACE_END, VALUE_LIMIT, check_range, check_set};
pub use items::Items;
pub use kind::{
    KEY_SERVERS_PREFIX, LOCKED_KEY, METADATA_VERSION_KEY, RowKind, SERVER_ID_LENGTH,
    SERVER_KEYS_PREFIX, SERVER_TAG_PREFIX, classify, is_kept_key,
};
pub use laws::{
    one_kind_law, one_location_encoding_law, one_row_encoding_law, one_text_law, tag_order_law,
};
pub use location::{Location, decode_location};
pub use memory::OutOfMemory;
pub use ordered_key::{OrderedKey, SHORT_KEY};
pub use plain::{PLAIN_LANES, plain_front_length, plain_run};
pub use range::KeyRange;
pub use refusal::{Refusal, RowFault};
pub use server::ServerId;
pub use server_rows::{decode_key_servers, decode_tag, encode_key_servers, encode_tag};
pub use shared_items::SharedItems;
pub use state::is_state;
pub use tag::Tag;
pub use tag_rows::encode_tag_teams;
pub use tag_teams::{TAGS_LIMIT, TagTeams, TagTeamsFault};
pub use teams::{SERVERS_LIMIT, Teams, TeamsFault};
pub use text::{
    byte_of_hex_digits, hex_digit, is_lower_hex_digit, is_plain, print_bytes, read_bytes,
};
