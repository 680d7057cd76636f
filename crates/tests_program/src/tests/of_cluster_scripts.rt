//! Tests of cluster_scripts: that a copy of a move has its values.

use super::are;
use cluster_scripts::GivenMove;
use std::test::Fail;
use system_keys::OutOfMemory;
use testing::{given_range, twice};

/// The move is that of `[m, t)` to resolver 3.
fn is_given_move(given: &GivenMove) -> bool {
    are(&given.range.begin, b"m") && are(&given.range.end, b"t") && given.dest == 3
}

#[test]
fn given_moves_are_copied(rt: HostRuntime) -> Result<(), Fail> {
    let given = GivenMove {
        range: given_range(rt.alloc(), b"m", b"t")?,
        dest: 3,
    };
    let copied = twice!(rt.alloc(); given.copy(), OutOfMemory)?;
    assert!(rt; is_given_move(&given) && is_given_move(&copied));
    Ok(())
}
