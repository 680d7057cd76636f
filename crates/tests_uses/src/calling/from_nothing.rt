//! The tests of a cluster that starts from nothing.

use crate::calling::values::{FIRST, SECOND, has_rows, seen};
use model::Config;
use std::alloc::Global;
use std::sync::Wait;
use std::test::Fail;
use testing::batch;
use uses::{Refused, whole_cluster_from_nothing};

#[test]
fn two_proxies_of_a_cluster_from_nothing_show_their_metadata(rt: HostRuntime) -> Result<(), Fail> {
    let alloc = rt.alloc();
    let config = Config::new(2, 3, 1000, 10)?;
    let (first, second) = (batch(alloc, FIRST)?, batch(alloc, SECOND)?);
    let shown = whole_cluster_from_nothing(&rt, alloc, 2, config, first, second)?;
    assert!(rt; has_rows(&shown.mine) == [true, false]);
    assert!(rt; has_rows(&shown.theirs) == [true, true]);
    assert!(rt; seen(&shown.finished) == (10, 2, true));
    assert!(rt; seen(&shown.next_finished) == (20, 2, true));
    Ok(())
}

/// Why a cluster of these numbers of rows and proxies shows nothing.
fn refused<R: Wait>(
    rt: &R,
    alloc: Global,
    rows: usize,
    proxies: usize,
) -> Result<Option<Refused>, Fail> {
    let config = Config::new(proxies, 3, 1000, 10)?;
    let (first, second) = (batch(alloc, FIRST)?, batch(alloc, SECOND)?);
    Ok(whole_cluster_from_nothing(rt, alloc, rows, config, first, second).err())
}

#[test]
fn a_cluster_without_room_or_without_a_second_proxy_shows_nothing(
    rt: HostRuntime,
) -> Result<(), Fail> {
    let alloc = rt.alloc();
    let full = agreed_ledger::Refusal::LedgerFull { rows: 1 };
    assert!(rt; refused(&rt, alloc, 1, 2)? == Some(Refused::ByLedger(full)));
    let alone = locked_cluster::Refusal::NoSuchProxy;
    assert!(rt; refused(&rt, alloc, 2, 1)? == Some(Refused::ByCluster(alone)));
    Ok(())
}

#[test]
fn a_ledger_has_from_1_to_4096_rows(rt: HostRuntime) -> Result<(), Fail> {
    let alloc = rt.alloc();
    let bad = Some(Refused::ByLedger(agreed_ledger::Refusal::BadConfig));
    assert!(rt; refused(&rt, alloc, 0, 2)? == bad);
    assert!(rt; refused(&rt, alloc, 4_097, 2)? == bad);
    Ok(())
}

#[test]
fn a_wrong_count_of_rows_is_told_before_a_missing_proxy(rt: HostRuntime) -> Result<(), Fail> {
    let bad = Some(Refused::ByLedger(agreed_ledger::Refusal::BadConfig));
    assert!(rt; refused(&rt, rt.alloc(), 0, 1)? == bad);
    Ok(())
}
