//! Tests of threads scripts: that right ones are read, and by their tokens alone, and that a copy has the
//! values of its original. What is read is right by the contracts.

use super::{GIVEN, is_asked, is_batch, is_config, is_range};
use model::Config;
use mutation::Batch;
use scripts::ScriptFault;
use std::alloc::Global;
use std::test::Fail;
use system_keys::{Items, OutOfMemory};
use testing::{batch, bytes, is_memory_refused, one, range, twice};
use threads_scripts::{ThreadsScript, UndatedMove, read_threads, stream_threads};

/// Right scripts: two moves and three batches, fields in any order, and each form of a move and of a
/// batch.
const STREAMED: &[&str] = &[
    r#"{"proxies":2,"resolvers":3,"window":100,"step":10,"rows":5,"ask":["n","\\xff"],
    "work":[[[{"snapshot":7,"reads":[],"writes":[["n","n\\x00"]],"mutations":[{"set":["n","1"]}],
    "lock_aware":false}],[]],[[]]],
    "moves":[{"range":["m","t"],"resolver":1},{"resolver":2,"range":["","\\xff"]}]}"#,
    r#"{"proxies":1,"resolvers":2,"window":3,"step":4,
    "rows":5,"moves":[],"work":[[]],"ask":["a"]}"#,
    r#"{"resolvers":2,"window":3,"step":4,"rows":5,
    "moves":[],"work":[[]],"ask":["a"],"proxies":1}"#,
    r#"{"window":3,"step":4,"rows":5,"moves":[],
    "work":[[]],"ask":["a"],"proxies":1,"resolvers":2}"#,
    r#"{"step":4,"rows":5,"moves":[],"work":[[]],
    "ask":["a"],"proxies":1,"resolvers":2,"window":3}"#,
    r#"{"rows":5,"moves":[],"work":[[]],"ask":["a"],
    "proxies":1,"resolvers":2,"window":3,"step":4}"#,
    r#"{"moves":[],"work":[[]],"ask":["a"],"proxies":1,
    "resolvers":2,"window":3,"step":4,"rows":5}"#,
    r#"{"work":[[]],"ask":["a"],"proxies":1,"resolvers":2,
    "window":3,"step":4,"rows":5,"moves":[]}"#,
    r#"{"ask":["a"],"work":[[]],"moves":[],"rows":5,
    "step":4,"window":3,"resolvers":2,"proxies":1}"#,
    r#"{"proxies":2,"resolvers":2,"window":100,"step":10,"rows":4096,"ask":[],"work":[[],[]],
    "moves":[{"range":["a","\\xff\\xff"],"resolver":1},
    { "resolver" : 0 , "\u0072ange" : [ "" , "b" ] } ]}"#,
    r#"{"proxies":2,"resolvers":2,"window":100,"step":10,"rows":4096,"ask":[],"moves":[],
    "work":[[[{"lock_aware":true,"mutations":[{"clear":["a","b"]}],"writes":[],
    "reads":[["a","b"]],"snapshot":1}],[]],[[],[{"lock_aware":true,"mutations":[],"writes":[],
    "reads":[["a","b"]],"snapshot":1}],[{"lock_aware":true,"mutations":[{"clear":["a","b"]}],
    "writes":[],"reads":[],"snapshot":1}]]]}"#,
    r#"{"proxies":2,"resolvers":2,"window":100,"step":10,"rows":4096,"ask":[],"moves":[],
    "work":[ [ [ ] ] , [ ] ]}"#,
];

/// Right scripts with a field twice: the tokens alone do not give them.
const READ_AS_A_TREE: &[&str] = &[
    r#"{"proxies":1,"resolvers":1,"window":1,"step":1,
    "rows":0,"rows":1,"moves":[],"work":[[]],"ask":[]}"#,
    r#"{"proxies":1,"resolvers":1,"window":1,"step":1,
    "rows":1,"moves":[],"work":[],"work":[[]],"ask":[]}"#,
    r#"{"proxies":1,"resolvers":1,"window":1,"step":1,
    "rows":1,"moves":[{}],"moves":[],"work":[[]],"ask":[]}"#,
    r#"{"proxies":1,"resolvers":1,"window":1,"step":1,
    "rows":1,"moves":[{"range":["a","b"],"resolver":1,"resolver":0}],"work":[[]],"ask":[]}"#,
];

/// Scripts that are refused.
const REFUSED: &[&str] = &[
    r#"{"proxies":2,"resolvers":2,"window":100,"step":10,"rows":4096,"ask":[],
    "moves":[],"work":[[]]}"#,
    r#"{"proxies":2,"resolvers":2,"window":100,"step":10,"rows":4096,"ask":[],
    "moves":[],"work":[[],[],[]]}"#,
    r#"{"proxies":2,"resolvers":2,"window":100,"step":10,"rows":4096,"ask":[],
    "moves":[],"work":[[],[{}]]}"#,
    r#"{"proxies":2,"resolvers":2,"window":100,"step":10,"rows":4096,"ask":[],
    "moves":[{"range":["b","a"],"resolver":0}],"work":[[],[]]}"#,
    r#"{"proxies":2,"resolvers":2,"window":100,"step":10,"rows":4096,"ask":[],
    "moves":[{"range":["a","b"],"resolver":2}],"work":[[],[]]}"#,
    r#"{"proxies":2,"resolvers":2,"window":100,"step":10,"rows":4096,"ask":[],
    "moves":[{"range":["a","b"]}],"work":[[],[]]}"#,
];

fn is_streamed_at_once(alloc: Global, script: &[u8]) -> bool {
    stream_threads(alloc, script).is_some()
}

/// Reads the script by its tokens, at the second try if an allocation failed at the first.
fn is_streamed(alloc: Global, script: &[u8]) -> bool {
    is_streamed_at_once(alloc, script)
        || is_memory_refused(alloc) && is_streamed_at_once(alloc, script)
}

fn fault_at_once(alloc: Global, script: &[u8]) -> Option<ScriptFault> {
    read_threads(alloc, script).err()
}

/// Why the script is refused, if it is, at the second try if an allocation failed at the first.
fn fault_of(alloc: Global, script: &[u8]) -> Option<ScriptFault> {
    match fault_at_once(alloc, script) {
        Some(ScriptFault::OutOfMemory) if is_memory_refused(alloc) => fault_at_once(alloc, script),
        answer => answer,
    }
}

#[test]
fn right_scripts_are_streamed(rt: HostRuntime) {
    for script in STREAMED {
        assert!(rt; is_streamed(rt.alloc(), script.as_bytes()), "{script}");
        assert!(rt;
            fault_of(rt.alloc(), script.as_bytes()).is_none(),
            "{script}"
        );
    }
}

#[test]
fn scripts_are_read_as_a_tree_where_a_field_stands_twice(rt: HostRuntime) {
    for script in READ_AS_A_TREE {
        assert!(rt; !is_streamed(rt.alloc(), script.as_bytes()), "{script}");
        assert!(rt;
            fault_of(rt.alloc(), script.as_bytes()).is_none(),
            "{script}"
        );
    }
}

#[test]
fn no_refused_script_is_streamed(rt: HostRuntime) {
    for script in REFUSED {
        assert!(rt; !is_streamed(rt.alloc(), script.as_bytes()), "{script}");
        assert!(rt;
            fault_of(rt.alloc(), script.as_bytes()).is_some(),
            "{script}"
        );
    }
}

/// The move of `[m, t)` to resolver 3.
fn undated_move(alloc: Global) -> Result<UndatedMove, Fail> {
    Ok(UndatedMove {
        range: range(alloc, b"m", b"t")?,
        dest: 3,
    })
}

/// The move is that one, in both fields.
fn is_undated_move(undated: &UndatedMove) -> bool {
    is_range(&undated.range, b"m", b"t") && undated.dest == 3
}

#[test]
fn undated_moves_are_copied(rt: HostRuntime) -> Result<(), Fail> {
    let undated = undated_move(rt.alloc())?;
    let copied = twice!(rt.alloc(); undated.copy(), OutOfMemory)?;
    assert!(rt; is_undated_move(&undated) && is_undated_move(&copied));
    Ok(())
}

/// A script of one move, one batch and one key.
fn threads_script(alloc: Global) -> Result<ThreadsScript, Fail> {
    let batches = one(alloc, batch(alloc, &[GIVEN])?)?;
    let key = bytes(alloc, b"n")?;
    Ok(ThreadsScript {
        config: Config::new(1, 4, 100, 10)?,
        rows: 5,
        moves: one(alloc, undated_move(alloc)?)?,
        work: one(alloc, batches)?,
        ask: one(alloc, key)?,
    })
}

/// The only move is that of the script.
fn is_only_move(moves: &[UndatedMove]) -> bool {
    match moves {
        [moved] => is_undated_move(moved),
        _ => false,
    }
}

/// The only proxy has the batch of the script.
fn is_work(work: &[Items<Batch>]) -> bool {
    match work {
        [batches] => match batches.as_slice() {
            [batch] => is_batch(batch),
            _ => false,
        },
        _ => false,
    }
}

/// The script is that one, in every field.
fn is_threads_script(script: &ThreadsScript) -> bool {
    is_config(&script.config)
        && script.rows == 5
        && is_only_move(script.moves.as_slice())
        && is_work(script.work.as_slice())
        && is_asked(script.ask.as_slice())
}

#[test]
fn threads_scripts_are_copied(rt: HostRuntime) -> Result<(), Fail> {
    let script = threads_script(rt.alloc())?;
    let copied = twice!(rt.alloc(); script.copy(), OutOfMemory)?;
    assert!(rt; is_threads_script(&script) && is_threads_script(&copied));
    Ok(())
}
