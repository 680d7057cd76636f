//! Tests of the ledger and of the sequencer, with threads and without.

mod stretches;

ghost use Rattle.std.specs.Prelude.{◌≡◌};

use agreed_ledger::{BlankLedger, Ledger, Naming, RecordNote, Refusal, Sequencer, Ticket};
use model::Config;
use mutation::Batch;
use std::alloc::Global;
use std::marker::Brand;
use std::process::Abort;
use std::sync::Wait;
use std::test::Fail;
use std::thread::{Threads, join};
use testing::twice;

/// How often a thread looks at a row before it goes on to the next.
const LOOKS: usize = 1_000;

/// A ledger of two proxies and two resolvers, made once more after a failed allocation.
fn blank(alloc: Global, rows: usize, step: u64) -> Result<BlankLedger, Fail> {
    let config = Config::new(2, 2, 100, step)?;
    Ok(twice!(alloc; Ledger::new(alloc, rows, config), Refusal::OutOfMemory)?)
}

/// What a ticket tells: its row, the version of the row's record and the number of its moves, and
/// the row after the last record.
type Told = (usize, u64, usize, usize);

/// What the tickets of eight rows tell, with a step of ten and without moves.
const ROWS: &[Told] = &[
    (0, 10, 0, 1),
    (1, 20, 0, 2),
    (2, 30, 0, 3),
    (3, 40, 0, 4),
    (4, 50, 0, 5),
    (5, 60, 0, 6),
    (6, 70, 0, 7),
    (7, 80, 0, 8),
];

fn told<N: Naming>(ledger: &Ledger<N>, ticket: &Ticket<N>) -> Option<Told> {
    let rec = ticket.records().get(ledger, ticket.row())?;
    Some((
        ticket.row(),
        rec.version(),
        rec.moves().len(),
        ticket.records().end(),
    ))
}

/// Sequences an empty batch. The lock is held no longer than that.
fn sequence_once<N: Naming, R: Wait>(
    rt: &R,
    alloc: Global,
    ledger: &Ledger<N>,
    sequencer: &Sequencer<'_, N>,
    proxy: usize,
) -> Result<Option<Told>, Refusal> {
    let Ok(batch) = Batch::new(Vec::new(alloc)) else {
        return Err(Refusal::OutOfMemory);
    };
    let answer = sequencer.lock(rt).sequence(proxy, batch);
    match answer {
        Ok(ticket) => Ok(told(ledger, &ticket)),
        Err((refusal, _batch)) => Err(refusal),
    }
}

/// Sequences an empty batch, once more after a failed allocation.
fn sequence<N: Naming, R: Wait>(
    rt: &R,
    alloc: Global,
    ledger: &Ledger<N>,
    sequencer: &Sequencer<'_, N>,
    proxy: usize,
) -> Result<Option<Told>, Refusal> {
    twice!(
        alloc;
        sequence_once(rt, alloc, ledger, sequencer, proxy),
        Refusal::OutOfMemory
    )
}

/// Whether a batch for the row is sequenced, and its ticket tells this.
fn is_sequenced<N: Naming, R: Wait>(
    rt: &R,
    alloc: Global,
    ledger: &Ledger<N>,
    sequencer: &Sequencer<'_, N>,
    row: Told,
) -> bool {
    sequence(rt, alloc, ledger, sequencer, row.0 % 2) == Ok(Some(row))
}

/// Whether a batch for each of these rows is sequenced.
fn are_sequenced<N: Naming, R: Wait>(
    rt: &R,
    alloc: Global,
    ledger: &Ledger<N>,
    sequencer: &Sequencer<'_, N>,
    rows: &[Told],
) -> bool {
    for row in rows {
        if !is_sequenced(rt, alloc, ledger, sequencer, *row) {
            return false;
        }
    }
    true
}

/// The version of the record that the note shows.
fn shown<N: Naming>(ledger: &Ledger<N>, row: usize, note: &mut RecordNote<N>) -> Option<u64> {
    let rec = ledger.record_at(row, note)?;
    Some(rec.version())
}

/// The version of the row's record as a note of its own shows it after this number of looks, or 0 if it
/// shows none. `None` if there is no such row, or if one more look shows another record or none.
fn seen<N: Naming>(ledger: &Ledger<N>, row: usize, looks: usize) -> Option<u64> {
    let mut note = ledger.record_note(row)?;
    let mut seen = 0;
    for _look in 0..looks {
        if let Some(version) = shown(ledger, row, &mut note) {
            seen = version;
        }
    }
    let again = shown(ledger, row, &mut note);
    if seen == 0 || again == Some(seen) {
        Some(seen)
    } else {
        None
    }
}

/// Whether each of eight rows shows its record to one who looks at it so often, or may show none if
/// not all are set.
fn shows_rows<N: Naming>(ledger: &Ledger<N>, looks: usize, are_set: bool) -> bool {
    for row in ROWS {
        let seen = seen(ledger, row.0, looks);
        if seen != Some(row.1) && (are_set || seen != Some(0)) {
            return false;
        }
    }
    true
}

/// Whether the rows show themselves so to each of two threads.
fn shows_rows_to_two<N: Naming + Send + Sync, R: Threads + Wait + Abort + Sync>(
    rt: &R,
    ledger: &Ledger<N>,
    looks: usize,
    are_set: bool,
) -> bool {
    let (one, other) = join(
        rt,
        || shows_rows(ledger, looks, are_set),
        || shows_rows(ledger, looks, are_set),
    );
    one && other
}

/// Whether the rows show themselves so to each of four threads.
fn shows_rows_to_four<N: Naming + Send + Sync, R: Threads + Wait + Abort + Sync>(
    rt: &R,
    ledger: &Ledger<N>,
    looks: usize,
    are_set: bool,
) -> bool {
    let (two, others) = join(
        rt,
        || shows_rows_to_two(rt, ledger, looks, are_set),
        || shows_rows_to_two(rt, ledger, looks, are_set),
    );
    two && others
}

/// Whether all rows are sequenced while four threads look at them, and each row shows its record to
/// each of these, or none.
fn is_seen_by_four<N: Naming + Send + Sync, R: Threads + Wait + Abort + Sync>(
    rt: &R,
    alloc: Global,
    ledger: &Ledger<N>,
    sequencer: &Sequencer<'_, N>,
) -> bool {
    let (is_done, is_seen) = join(
        rt,
        || are_sequenced(rt, alloc, ledger, sequencer, ROWS),
        || shows_rows_to_four(rt, ledger, LOOKS, false),
    );
    is_done && is_seen
}

fn look_in_threads<N: Naming + Send + Sync, R: Threads + Wait + Abort + Sync>(
    rt: &R,
    alloc: Global,
    blank: BlankLedger,
) -> Result<(), Fail>
    requires { blank ≡ N.cells }
{
    let ledger = blank.named::<N>();
    let sequencer = Sequencer::new(alloc, &ledger)?;
    assert!(rt; is_seen_by_four(rt, alloc, &ledger, &sequencer));
    assert!(rt; shows_rows_to_four(rt, &ledger, 1, true));
    Ok(())
}

#[test]
fn four_threads_see_the_records_that_a_fifth_sequences(rt: HostRuntime) -> Result<(), Fail> {
    let alloc = rt.alloc();
    look_in_threads::<Brand, _>(&rt, alloc, blank(alloc, 8, 10)?)
}

/// Whether the ledger of three rows has no note of a row or of a resolver past the last one.
fn lacks_notes_past_the_end<N: Naming>(ledger: &Ledger<N>) -> bool {
    ledger.record_note(3).is_none()
        && ledger.verdict_note(3, 0).is_none()
        && ledger.verdict_note(0, 2).is_none()
}

/// Whether a new note of the one row shows a record of the other.
fn shows_record<N: Naming>(ledger: &Ledger<N>, of: usize, at: usize) -> Option<bool> {
    let mut note = ledger.record_note(of)?;
    Some(shown(ledger, at, &mut note).is_some())
}

/// Looks at notes of a ledger whose first row alone has a record.
fn look_at_notes<N: Naming, R: Abort>(rt: &R, ledger: &Ledger<N>) {
    assert!(rt; lacks_notes_past_the_end(ledger));
    assert!(rt; shows_record(ledger, 1, 0) == Some(false));
    assert!(rt; shows_record(ledger, 1, 1) == Some(false));
    assert!(rt; shows_record(ledger, 0, 0) == Some(true));
}

/// What a second sequencer of the ledger answers.
fn answer_of_second<N: Naming, R: Wait>(
    rt: &R,
    alloc: Global,
    ledger: &Ledger<N>,
) -> Result<Option<Told>, Refusal> {
    let second = Sequencer::new(alloc, ledger)?;
    sequence(rt, alloc, ledger, &second, 0)
}

/// Sequences a batch for each of three rows, and is refused each other one.
fn sequence_in_order<N: Naming, R: Wait + Abort>(
    rt: &R,
    alloc: Global,
    ledger: &Ledger<N>,
    sequencer: &Sequencer<'_, N>,
) {
    let no_such_proxy = Err(Refusal::NoSuchProxy);
    assert!(rt; sequence(rt, alloc, ledger, sequencer, 2) == no_such_proxy);
    assert!(rt; are_sequenced(rt, alloc, ledger, sequencer, &ROWS[..1]));
    look_at_notes(rt, ledger);
    assert!(rt; are_sequenced(rt, alloc, ledger, sequencer, &ROWS[1..3]));
    assert!(rt; sequence(rt, alloc, ledger, sequencer, 2) == no_such_proxy);
    let full = Err(Refusal::LedgerFull { rows: 3 });
    assert!(rt; sequence(rt, alloc, ledger, sequencer, 0) == full);
    let of_second = twice!(alloc; answer_of_second(rt, alloc, ledger), Refusal::OutOfMemory);
    assert!(rt; of_second == Err(Refusal::CellTaken));
}

fn look_at_ledger<N: Naming + Send + Sync, R: Wait + Abort>(
    rt: &R,
    alloc: Global,
    blank: BlankLedger,
) -> Result<(), Fail>
    requires { blank ≡ N.cells }
{
    let ledger = blank.named::<N>();
    let sequencer = Sequencer::new(alloc, &ledger)?;
    sequence_in_order(rt, alloc, &ledger, &sequencer);
    let guard = sequencer.lock(rt);
    stretches::look_at_records(rt, alloc, &ledger, guard.records());
    stretches::look_at_verdicts(rt, alloc, &ledger);
    Ok(())
}

#[test]
fn each_cell_of_a_ledger_is_set_once(rt: HostRuntime) -> Result<(), Fail> {
    let alloc = rt.alloc();
    look_at_ledger::<Brand, _>(&rt, alloc, blank(alloc, 3, 10)?)
}

/// Half of all versions.
const HALF: u64 = 4_611_686_018_427_387_904;

/// The first batch gets half of all versions, and for the second none is left.
fn sequence_to_the_end<N: Naming + Send + Sync, R: Wait + Abort>(
    rt: &R,
    alloc: Global,
    blank: BlankLedger,
) -> Result<(), Fail>
    requires { blank ≡ N.cells }
{
    let ledger = blank.named::<N>();
    let sequencer = Sequencer::new(alloc, &ledger)?;
    let first = sequence(rt, alloc, &ledger, &sequencer, 0);
    assert!(rt; first == Ok(Some((0, HALF, 0, 1))));
    let second = sequence(rt, alloc, &ledger, &sequencer, 1);
    assert!(rt; second == Err(Refusal::VersionsEnd));
    Ok(())
}

#[test]
fn a_batch_past_the_last_version_is_refused(rt: HostRuntime) -> Result<(), Fail> {
    let alloc = rt.alloc();
    sequence_to_the_end::<Brand, _>(&rt, alloc, blank(alloc, 3, HALF)?)
}

/// Why there is no ledger of `rows` rows.
fn refusal_of_rows(alloc: Global, rows: usize, config: Config) -> Option<Refusal> {
    Ledger::new(alloc, rows, config).err()
}

#[test]
fn a_ledger_has_1_to_4096_rows(rt: HostRuntime) -> Result<(), Fail> {
    let config = Config::new(2, 2, 100, 10)?;
    assert!(&rt; refusal_of_rows(rt.alloc(), 0, config) == Some(Refusal::BadConfig));
    assert!(&rt; refusal_of_rows(rt.alloc(), 4_097, config) == Some(Refusal::BadConfig));
    Ok(())
}

/// Each refusal with the number and the name that are printed.
const PRINTED: &[(Refusal, Option<u32>, &str)] = &[
    (Refusal::BadConfig, Some(17), "BadConfig"),
    (Refusal::NoSuchResolver, Some(20), "NoSuchResolver"),
    (Refusal::NoSuchProxy, Some(32), "NoSuchProxy"),
    (Refusal::LedgerFull { rows: 1 }, Some(50), "LedgerFull"),
    (Refusal::VersionsEnd, Some(51), "VersionsEnd"),
    (Refusal::CellTaken, Some(52), "CellTaken"),
    (Refusal::OutOfMemory, None, "OutOfMemory"),
];

#[test]
fn refusals_have_their_numbers_and_names(rt: HostRuntime) {
    for (refusal, number, name) in PRINTED {
        assert!(rt;
            refusal.number() == *number && refusal.name() == *name,
            "{name}"
        );
    }
}
