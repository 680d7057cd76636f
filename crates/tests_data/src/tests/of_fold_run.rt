//! Tests of fold_run: how often devices are called, that each call of ours is one call of the standard
//! library's reader or writer and none follows one that failed, and that scripts are read by their
//! tokens alone. No clause says so. A copy of a script has the same values in all fields.

use super::devices::{Faltering, Halting};
use super::{are, assert_copied, is_range};
use fold_run::{FoldScript, read_fold, run_fold, stream_fold};
use model::{StateTxn, Verdict};
use scripts::{Reader, RunStatus, ScriptFault, Sink, Source, Writer};
use std::alloc::{AllocError, Global};
use std::io::ErrorKind;
use std::process::Abort;
use std::test::Fail;
use system_keys::{Change, OutOfMemory};
use testing::{MutationLine, bytes, is_memory_refused, journal_row, list, one, repeat_byte, twice};

/// 37 bytes.
const SCRIPT: &[u8] = br#"{"resolvers":1,"rows":[],"ask":["a"]}"#;

/// 56 bytes.
const TEXT: &[u8] = b"version 0\nlocked no\nmetadata_version none\ntags \"a\" none\n";

/// A script, what is to be written, how many bytes a call gives or takes at most, which read and which
/// write fail, or none at 0, and how. A write that fails without an error takes no byte.
#[derive(Clone, Copy)]
struct Trial<'a> {
    script: &'a [u8],
    text: &'a [u8],
    most: usize,
    failing_read: u64,
    failing_write: u64,
    error: Option<ErrorKind>,
}

/// Ten bytes a call: the script takes four reads and the one that meets the end, and the text six
/// writes.
const TEN_A_CALL: Trial<'static> = Trial {
    script: SCRIPT,
    text: TEXT,
    most: 10,
    failing_read: 0,
    failing_write: 0,
    error: None,
};

/// How a run ended, the calls that the reader and the writer got, and the failures that our devices
/// counted.
#[derive(Clone, Copy, PartialEq, Eq)]
struct Ended {
    status: RunStatus,
    reads: u64,
    writes: u64,
    failed_reads: u64,
    failed_writes: u64,
}

/// A run over both: how it ended, and the failures that our devices counted.
fn run_over(
    alloc: Global,
    reader: &mut Faltering<'_>,
    writer: &mut Halting<'_>,
) -> (RunStatus, u64, u64) {
    let mut source = Reader::new(reader);
    let mut sink = Writer::new(writer);
    let status = run_fold(alloc, &mut source, &mut sink);
    (status, source.failures(), sink.failures())
}

fn run_once(alloc: Global, trial: Trial<'_>) -> Ended {
    let mut reader = Faltering {
        rest: trial.script,
        most: trial.most,
        fails_at: trial.failing_read,
        error: trial.error.unwrap_or(ErrorKind::Other),
        calls: 0,
    };
    let mut writer = Halting {
        expected: trial.text,
        most: trial.most,
        fails_at: trial.failing_write,
        error: trial.error,
        calls: 0,
    };
    let (status, failed_reads, failed_writes) = run_over(alloc, &mut reader, &mut writer);
    Ended {
        status,
        reads: reader.calls,
        writes: writer.calls,
        failed_reads,
        failed_writes,
    }
}

/// The run, and once more after `OutOfMemory`.
fn run(alloc: Global, trial: Trial<'_>) -> Ended {
    let ended = run_once(alloc, trial);
    match ended.status {
        RunStatus::OutOfMemory if is_memory_refused(alloc) => run_once(alloc, trial),
        _ => ended,
    }
}

#[test]
fn a_script_is_folded(rt: HostRuntime) {
    let done = Ended {
        status: RunStatus::Done,
        reads: 5,
        writes: 6,
        failed_reads: 0,
        failed_writes: 0,
    };
    assert!(rt; run(rt.alloc(), TEN_A_CALL) == done);
}

/// Scripts, and what is written. Rows are folded as they come where the number of resolvers stands
/// before them, and else when they are all there; a late fault is told in both cases.
const FOLDED: &[(&[u8], &[u8], RunStatus)] = &[
    (
        br#"{"resolvers":1,"rows":[{"version":1,"states":[]},{"version":2,"states":[]}],"ask":[]}"#,
        b"version 2\nlocked no\nmetadata_version none\n",
        RunStatus::Done,
    ),
    (
        br#"{"ask":["a"],"resolvers":1,"rows":[{"version":3,"states":[{"mutations":[
        {"set":["\\xff/dbLocked","L"]}],"lock_aware":true,"verdicts":["committed"]}]}]}"#,
        b"version 3\nlocked yes\nmetadata_version none\ntags \"a\" none\n",
        RunStatus::Done,
    ),
    (
        br#"{"rows":[{"version":3,"states":[{"mutations":[
        {"set":["\\xff/dbLocked","L"]}],"lock_aware":true,"verdicts":["committed"]}]}],
        "ask":["a"],"resolvers":1}"#,
        b"version 3\nlocked yes\nmetadata_version none\ntags \"a\" none\n",
        RunStatus::Done,
    ),
    (
        br#"{"resolvers":1,"rows":[{"version":2,"states":[]},{"version":2,"states":[]}],"ask":[]}"#,
        b"refused 71 BadShape\n",
        RunStatus::ScriptRefused,
    ),
    (
        br#"{"resolvers":2,"ask":[],"rows":[{"version":1,"states":[]},{"version":2,"states":[{
        "mutations":[],"lock_aware":true,"verdicts":["committed"]}]}]}"#,
        b"refused 71 BadShape\n",
        RunStatus::ScriptRefused,
    ),
    (
        br#"{"resolvers":1,"ask":[],"rows":[{"version":1,"states":[]},{"version":2,"states":[{
        "mutations":[{"clear":["b","a"]}],"lock_aware":true,"verdicts":["committed"]}]}]}"#,
        b"refused 13 EmptyRange\n",
        RunStatus::ScriptRefused,
    ),
];

#[test]
fn rows_are_folded_in_whatever_place_they_stand(rt: HostRuntime) {
    for (script, text, status) in FOLDED {
        let trial = Trial {
            script: *script,
            text: *text,
            most: 5_000,
            ..TEN_A_CALL
        };
        let expected = Ended {
            status: *status,
            reads: 2,
            writes: 1,
            failed_reads: 0,
            failed_writes: 0,
        };
        assert!(rt; run(rt.alloc(), trial) == expected);
    }
}

/// The read and the write that fail, or none at 0, and how many calls of each there are then: none
/// follows one that failed. Where both would fail, the read is told.
const FAILURES: &[(u64, u64, u64, u64)] = &[
    (1, 0, 1, 0),
    (4, 0, 4, 0),
    (5, 0, 5, 0),
    (0, 1, 5, 1),
    (0, 2, 5, 2),
    (0, 6, 5, 6),
    (5, 1, 5, 0),
];

/// Each of the calls fails by this error.
fn assert_failures(rt: &(impl Abort + AllocGlobal), error: Option<ErrorKind>) {
    for (failing_read, failing_write, reads, writes) in FAILURES {
        let trial = Trial {
            failing_read: *failing_read,
            failing_write: *failing_write,
            error,
            ..TEN_A_CALL
        };
        let failed = Ended {
            status: RunStatus::DeviceFailed,
            reads: *reads,
            writes: *writes,
            failed_reads: u64::from(*writes == 0),
            failed_writes: u64::from(*writes != 0),
        };
        assert!(rt;
            run(rt.alloc(), trial) == failed,
            "at read {reads} and write {writes}"
        );
    }
}

#[test]
fn no_call_follows_one_that_failed(rt: HostRuntime) {
    assert_failures(&rt, None);
    for error in [
        ErrorKind::Interrupted,
        ErrorKind::WouldBlock,
        ErrorKind::UnexpectedEof,
        ErrorKind::Other,
    ] {
        assert_failures(&rt, Some(error));
    }
}

const NOT_JSON: &[u8] = b"refused 70 NotJson\n";

/// How many spaces a script has, how many bytes a call gives or takes at most, how many reads and
/// writes there are, and how the run ends. A read asks for 4,096 bytes, and there are at most 1,048,576
/// reads. The line of the refusal has 19 bytes.
const SPACES: &[(usize, usize, u64, u64, RunStatus)] = &[
    (0, 5_000, 1, 1, RunStatus::ScriptRefused),
    (4_095, 5_000, 2, 1, RunStatus::ScriptRefused),
    (4_096, 5_000, 2, 1, RunStatus::ScriptRefused),
    (4_097, 5_000, 3, 1, RunStatus::ScriptRefused),
    (1_048_577, 5_000, 258, 1, RunStatus::ScriptRefused),
    (1_048_575, 1, 1_048_576, 19, RunStatus::ScriptRefused),
    (1_048_576, 1, 1_048_576, 0, RunStatus::DeviceFailed),
    (1_048_577, 1, 1_048_576, 0, RunStatus::DeviceFailed),
];

#[test]
fn reads_ask_for_4_096_bytes_up_to_a_limit_on_reads(rt: HostRuntime) -> Result<(), Fail> {
    for (count, most, reads, writes, status) in SPACES {
        let script = repeat_byte(rt.alloc(), b' ', *count)?;
        let trial = Trial {
            script: &script,
            text: NOT_JSON,
            most: *most,
            ..TEN_A_CALL
        };
        let expected = Ended {
            status: *status,
            reads: *reads,
            writes: *writes,
            failed_reads: 0,
            failed_writes: 0,
        };
        assert!(rt; run(rt.alloc(), trial) == expected, "{count} spaces");
    }
    Ok(())
}

/// Reads the script by its tokens, at the second try if an allocation failed at the first.
fn is_streamed(alloc: Global, script: &[u8]) -> bool {
    stream_fold(alloc, script).is_some()
        || is_memory_refused(alloc) && stream_fold(alloc, script).is_some()
}

/// Right scripts, with their fields in any order and each form of a field.
const STREAMED: &[&str] = &[
    r#"{"resolvers":1,"rows":[],"ask":[]}"#,
    r#"{"resolvers":1,"ask":[],"rows":[]}"#,
    r#"{"rows":[],"resolvers":1,"ask":[]}"#,
    r#"{"rows":[],"ask":[],"resolvers":1}"#,
    r#"{"ask":[],"resolvers":1,"rows":[]}"#,
    r#"{"ask":[],"rows":[],"resolvers":1}"#,
    r#"{"resolvers":1,"ask":[],"rows":[{"states":[],"version":1}]}"#,
    r#"{"resolvers":1,"ask":[],"rows":[{"version":1,"states":[
    {"mutations":[],"lock_aware":true,"verdicts":["too_old"]},
    {"mutations":[],"verdicts":["too_old"],"lock_aware":true},
    {"lock_aware":true,"mutations":[],"verdicts":["too_old"]},
    {"lock_aware":true,"verdicts":["too_old"],"mutations":[]},
    {"verdicts":["too_old"],"mutations":[],"lock_aware":true},
    {"verdicts":["too_old"],"lock_aware":true,"mutations":[]}]}]}"#,
    " \t\r\n{ \"resolvers\" : 64 , \"rows\" : [ ] , \"ask\" : [ ] } \n",
    r#"{"\u0061sk":["\u0061","","\\x00\\xff","\/"],"resolvers":1,"rows":[]}"#,
    r#"{"resolvers":1,"ask":[],"rows":[{"version":9223372036854775807,"states":[]}]}"#,
    r#"{"resolvers":3,"ask":[],"rows":[{"version":1,"states":[{"lock_aware":true,
    "verdicts":["conflict","too_old","committed"],
    "mutations":[{"clear":["a","b"]},{"set":["a",""]}]}]}]}"#,
];

#[test]
fn right_scripts_are_streamed(rt: HostRuntime) {
    for script in STREAMED {
        assert!(rt; is_streamed(rt.alloc(), script.as_bytes()), "{script}");
    }
}

#[test]
fn a_script_with_a_long_key_is_streamed(rt: HostRuntime) -> Result<(), Fail> {
    let mut script = list(rt.alloc(), br#"{"resolvers":1,"rows":[],"ask":[""#)?;
    let key = repeat_byte(rt.alloc(), b'a', 100_000)?;
    script.extend_from_slice(&key)?;
    script.extend_from_slice(br#""]}"#)?;
    assert!(rt; is_streamed(rt.alloc(), &script));
    Ok(())
}

/// A right script, of two rows and three keys, with a field twice: its tokens alone do not give it.
const READ_AS_A_TREE: &[u8] = br#"{"resolvers":2,"resolvers":1,"ask":["a","m","z"],"rows":[
{"version":10,"states":[]},{"version":20,"states":[]}]}"#;

#[test]
fn a_script_is_read_as_a_tree_where_a_field_stands_twice(rt: HostRuntime) -> Result<(), Fail> {
    let script = twice!(
        rt.alloc();
        read_fold(rt.alloc(), READ_AS_A_TREE),
        ScriptFault::OutOfMemory
    )?;
    assert!(rt; script.rows.as_slice().len() == 2 && script.ask.as_slice().len() == 3);
    Ok(())
}

/// A script of one row with one state transaction, and of one key.
fn fold_script(alloc: Global) -> Result<FoldScript, Fail> {
    let steps = &[
        MutationLine::Set(b"a", b"1"),
        MutationLine::Clear(b"m", b"t"),
    ];
    let row = journal_row(
        alloc,
        10,
        &[(&[Verdict::TooOld, Verdict::Conflict], (steps, true))],
    )?;
    let key = bytes(alloc, b"n")?;
    Ok(FoldScript {
        rows: one(alloc, row)?,
        ask: one(alloc, key)?,
    })
}

/// The changes are those of that script.
fn are_changes(changes: &[Change]) -> bool {
    match changes {
        [Change::Set { key, value }, Change::Clear { range }] => {
            are(key, b"a") && are(value, b"1") && is_range(range, b"m", b"t")
        }
        _ => false,
    }
}

/// The only state transaction is that of that script.
fn is_only_state(states: &[StateTxn]) -> bool {
    match states {
        [state] => {
            are_changes(state.mutations.as_slice())
                && state.lock_aware
                && matches!(
                    state.verdicts.as_slice(),
                    [Verdict::TooOld, Verdict::Conflict]
                )
        }
        _ => false,
    }
}

/// The script is that one, in every field.
fn is_fold_script(script: &FoldScript) -> bool {
    match (script.rows.as_slice(), script.ask.as_slice()) {
        ([row], [key]) => {
            row.version == 10 && is_only_state(row.states.as_slice()) && are(key, b"n")
        }
        _ => false,
    }
}

#[test]
fn fold_scripts_are_copied(rt: HostRuntime) -> Result<(), Fail> {
    let script = fold_script(rt.alloc())?;
    let copied = twice!(rt.alloc(); script.copy(), OutOfMemory)?;
    assert!(rt; is_fold_script(&script) && is_fold_script(&copied));
    Ok(())
}

/// A script of three rows and of two keys.
const THREE_ROWS: &[u8] = br#"{"resolvers":3,"ask":["a","n"],"rows":[
{"version":10,"states":[{"mutations":[{"set":["\\xff/dbLocked","L"]},{"clear":["a","z"]}],
"lock_aware":true,"verdicts":["committed","conflict","too_old"]}]},
{"version":20,"states":[]},
{"version":30,"states":[{"mutations":[{"set":["n","1"]}],
"lock_aware":false,"verdicts":["committed","committed","committed"]}]}]}"#;

#[test]
fn a_fold_script_of_three_rows_is_copied(rt: HostRuntime) -> Result<(), Fail> {
    let script = twice!(
        rt.alloc();
        read_fold(rt.alloc(), THREE_ROWS),
        ScriptFault::OutOfMemory
    )?;
    assert_copied(&rt, &script);
    Ok(())
}

// ---- long scripts

const HEAD: &str = r#"{"resolvers":1,"ask":["a"],"rows":[{"version":1,"states":["#;

const STATE: &str =
    r#"{"mutations":[{"set":["a","b"]}],"lock_aware":true,"verdicts":["committed"]},"#;

const END: &str = r#"{"mutations":[],"lock_aware":true,"verdicts":["too_old"]}]}]}"#;

/// The last state transaction has a verdict that there is not.
const WRONG_END: &str = r#"{"mutations":[],"lock_aware":true,"verdicts":["too_new"]}]}]}"#;

/// How many state transactions a long script has before its last one.
const STATES: usize = 400;

/// A script of one row with many state transactions, which ends like this.
fn long_script(alloc: Global, end: &str) -> Result<String, AllocError> {
    let mut script = String::new(alloc);
    script.push_str(HEAD)?;
    for _ in 0..STATES {
        script.push_str(STATE)?;
    }
    script.push_str(end)?;
    Ok(script)
}

/// How many state transactions the first row has.
fn count_states(script: &FoldScript) -> usize {
    match script.rows.as_slice() {
        [row, ..] => row.states.as_slice().len(),
        [] => 0,
    }
}

#[test]
fn a_long_fold_script_is_read(rt: HostRuntime) -> Result<(), Fail> {
    let text = long_script(rt.alloc(), END)?;
    let script = twice!(
        rt.alloc();
        read_fold(rt.alloc(), text.as_bytes()),
        ScriptFault::OutOfMemory
    )?;
    assert!(rt; count_states(&script) == STATES + 1);
    Ok(())
}

fn fault_at_once(alloc: Global, script: &str) -> Option<ScriptFault> {
    read_fold(alloc, script.as_bytes()).err()
}

#[test]
fn a_long_fold_script_with_a_fault_is_refused(rt: HostRuntime) -> Result<(), Fail> {
    let text = long_script(rt.alloc(), WRONG_END)?;
    let fault = match fault_at_once(rt.alloc(), text.as_str()) {
        Some(ScriptFault::OutOfMemory) if is_memory_refused(rt.alloc()) => {
            fault_at_once(rt.alloc(), text.as_str())
        }
        fault => fault,
    };
    assert!(rt; fault == Some(ScriptFault::BadShape));
    Ok(())
}
