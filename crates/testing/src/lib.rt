//! What the tests of several crates are made of, from plain data: byte strings, ranges,
//! transactions, batches, parts of shares, replies and rows of a journal. It stands in no program.
//!
//! What these functions take memory for is not taken again if it is refused: a test that wants
//! memory for its data ends with that error. The calls that are tested are made again, by `twice`, if
//! `tests/memory` made an allocation fail.
#![tactic(auto)]

mod again;
mod key_ranges;
mod lists;
mod random;
mod replies;
mod shares;
mod texts;
mod transactions;

pub use again::is_memory_refused;
pub use key_ranges::{Ends, given_range, given_ranges, range, ranges};
pub use lists::{bytes, list, none, one, repeat_byte, room};
pub use random::Random;
pub use replies::{
    ReplyLine, StateLine, UnseenLine, UnseenRowLine, content_if_wanted, content_of_line,
    journal_row, reply, reply_with_content, unseen_rows,
};
pub use shares::{PartLine, part, parts};
pub use texts::{are_shown_as, join_texts, text_room};
pub use transactions::{
    Content, EMPTY_TRANSACTION, MutationLine, TransactionLine, admit_line, batch, batch_of, change,
    changes, content_batch, mutation, mutations, plain_batch, transaction, transaction_of,
};
