//! A batch of as many transactions as one may have: a reader that gives up past some length of its text is
//! proved, and only a test at such a length finds it.

use scripts::read_batch;
use std::alloc::{AllocError, Global};
use std::test::Fail;

/// How many transactions a batch has at most.
const TRANSACTIONS: usize = 1_024;

/// The text of a transaction.
const TRANSACTION: &[u8] = br#"{"snapshot":7,"reads":[["a","b"]],"writes":[["c","d"]],
"mutations":[{"set":["e","f"]}],"lock_aware":false}"#;

/// The text of a batch of that many of these transactions.
fn longest_text(alloc: Global) -> Result<Vec<u8>, AllocError> {
    let mut text = Vec::new(alloc);
    text.push(b'[')?;
    text.extend_from_slice(TRANSACTION)?;
    for _ in 1..TRANSACTIONS {
        text.push(b',')?;
        text.extend_from_slice(TRANSACTION)?;
    }
    text.push(b']')?;
    Ok(text)
}

#[test]
fn the_greatest_batch_is_read(rt: HostRuntime) -> Result<(), Fail> {
    let text = longest_text(rt.alloc())?;
    let batch = read_batch(rt.alloc(), text.as_slice())?;
    assert!(rt; batch.transactions().len() == TRANSACTIONS);
    Ok(())
}
