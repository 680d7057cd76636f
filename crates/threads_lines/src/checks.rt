//! What must hold of the whole history of a run, once all batches are answered and the proxies and the
//! resolvers are locked. No run is known to find otherwise; one that does fails.

ghost use Rattle.std.specs.Prelude.{◌≡◌, ◌≢◌, ◌-◌, length, map, Some, All, MatchBool};
ghost use Rattle.std.specs.Prelude.{IfErr, OnOk};
ghost use Rattle.model.specs.Records.{last_version, records_of_proxy};
ghost use Rattle.threads_lines.specs.Faults.{FailsCheckOf};
ghost use Rattle.threads_lines.specs.Histories.{HasFinishedAll, HasJudgedAll};
ghost use Rattle.threads_lines.specs.Moves.{AreAfterMoves, dated};

use crate::faults::RunFault;
use crate::run_history::RunHistory;
use agreed_ledger::{Ledger, Naming};
use locked_cluster::{ProxyGuard, ResolverGuard};
use model::{Move, ProxyNumber, Version};
use request_builder::{Moves, Record};
use system_keys::KeyRange;
use threads_scripts::UndatedMove;

/// Each record of the history is of a batch that was seen finished: there are as many. Fails exactly if
/// that is not so, with `Refused`.
pub fn check_answered<N: Naming>(history: &RunHistory<N>) -> Result<(), RunFault>
    ensures checked { OnOk result (history.now.finished ≡ length history.now.records) }
    ensures err { IfErr result (FailsCheckOf (history.now.finished ≡ length history.now.records)) }
{
    if history.finished_count() == history.records().end() {
        Ok(())
    } else {
        Err(RunFault::Refused)
    }
}

/// Each proxy has finished its records of the history. Fails exactly if one has not, with `Refused`.
pub fn check_proxies<N: Naming>(
    history: &RunHistory<N>,
    ledger: &Ledger<N>,
    proxies: &[ProxyGuard<'_, N>],
) -> Result<(), RunFault>
    ensures checked { OnOk result (All (HasFinishedAll history.now.records) proxies.now) }
    ensures err { IfErr result (FailsCheckOf (All (HasFinishedAll history.now.records) proxies.now)) }
{
    for proxy in proxies {
        check_proxy(history, ledger, proxy)?;
    }
    Ok(())
}

/// The proxy has finished its records of the history. Fails exactly if it has not, with `Refused`.
fn check_proxy<N: Naming>(
    history: &RunHistory<N>,
    ledger: &Ledger<N>,
    proxy: &ProxyGuard<'_, N>,
) -> Result<(), RunFault>
    ensures checked { OnOk result (HasFinishedAll history.now.records proxy.now) }
    ensures err { IfErr result (FailsCheckOf (HasFinishedAll history.now.records proxy.now)) }
{
    let last = last_version_of(history, ledger, proxy.number());
    if proxy.version() == last {
        Ok(())
    } else {
        Err(RunFault::Refused)
    }
}

/// Each resolver has judged as many records as the history has. Fails exactly if one has not, with
/// `Refused`.
pub fn check_resolvers<N: Naming>(
    history: &RunHistory<N>,
    resolvers: &[ResolverGuard<'_, N>],
) -> Result<(), RunFault>
    ensures checked { OnOk result (All (HasJudgedAll history.now.records) resolvers.now) }
    ensures err { IfErr result (FailsCheckOf (All (HasJudgedAll history.now.records) resolvers.now)) }
{
    for resolver in resolvers {
        check_resolver(history, resolver)?;
    }
    Ok(())
}

/// The resolver has judged as many records as the history has. Fails exactly if it has not, with
/// `Refused`.
fn check_resolver<N: Naming>(
    history: &RunHistory<N>,
    resolver: &ResolverGuard<'_, N>,
) -> Result<(), RunFault>
    ensures checked { OnOk result (HasJudgedAll history.now.records resolver.now) }
    ensures err { IfErr result (FailsCheckOf (HasJudgedAll history.now.records resolver.now)) }
{
    if resolver.records().end() == history.records().end() {
        Ok(())
    } else {
        Err(RunFault::Refused)
    }
}

/// The version of the last record of the proxy, or 0 if it has none.
fn last_version_of<N: Naming>(
    history: &RunHistory<N>,
    ledger: &Ledger<N>,
    proxy: ProxyNumber,
) -> Version
    ensures { result ≡ last_version (records_of_proxy proxy history.now.records) }
{
    let records = history.records();
    let mut version = 0;
    for row in 0..records.end() {
        let Some(rec) = records.get(ledger, row) else {
            unreachable!();
        };
        version = version_if_own(rec, proxy, version);
    }
    version
}

/// The version of the record if it is one of the proxy, and otherwise that before.
fn version_if_own(rec: &Record, proxy: ProxyNumber, before: Version) -> Version
    ensures own { rec.now.proxy ≡ proxy → result ≡ rec.now.version }
    ensures other { (rec.now.proxy ≡ proxy → ⊥) → result ≡ before }
{
    if rec.proxy() == proxy {
        rec.version()
    } else {
        before
    }
}

/// Each record of the history has the moves of the script, and no others. Fails exactly if one has not,
/// with `Refused`.
pub fn check_moves<N: Naming>(
    history: &RunHistory<N>,
    ledger: &Ledger<N>,
    moves: &[UndatedMove],
) -> Result<(), RunFault>
    ensures checked { OnOk result (AreAfterMoves moves.now history.now.records) }
    ensures err { IfErr result (FailsCheckOf (AreAfterMoves moves.now history.now.records)) }
{
    let records = history.records();
    let Some(last) = records.end().checked_sub(1) else {
        return Ok(());
    };
    // (its contract says that the step is at least 1: so a move behind a record would be dated above 1,
    // and the moves of the last record tell those of each)
    let _step = ledger.config().step();
    let Some(rec) = records.get(ledger, last) else {
        unreachable!();
    };
    if are_dated_one(rec.moves(), moves) {
        Ok(())
    } else {
        Err(RunFault::Refused)
    }
}

/// Whether these are the moves, each with date 1.
fn are_dated_one(moves: &Moves, undated: &[UndatedMove]) -> bool
    ensures { MatchBool result (moves.now ≡ map (dated 1) undated.now)
        (moves.now ≢ map (dated 1) undated.now) }
{
    if moves.len() != undated.len() {
        return false;
    }
    for place in 0..undated.len() {
        let Some(one) = moves.get(place) else {
            return false;
        };
        let same = is_dated_one(one, &undated[place]);
        if !same {
            return false;
        }
    }
    true
}

/// Whether this is the move, with date 1.
fn is_dated_one(one: &Move, undated: &UndatedMove) -> bool
    ensures { MatchBool result (one.now ≡ dated 1 undated.now) (one.now ≢ dated 1 undated.now) }
{
    one.date == 1 && one.dest == undated.dest && are_same_ranges(&one.range, &undated.range)
}

/// Whether the ranges begin and end alike.
fn are_same_ranges(range: &KeyRange, other: &KeyRange) -> bool
    ensures { MatchBool result (range.now ≡ other.now) (range.now ≢ other.now) }
{
    range.begin() == other.begin() && range.end() == other.end()
}
