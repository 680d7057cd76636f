//! Tests of turns scripts: that right ones are read, and by their tokens alone, and that a copy has the
//! values of its original. What is read is right by the contracts.

use super::{GIVEN, is_asked, is_batch, is_config, is_range};
use model::Config;
use scripts::ScriptFault;
use std::alloc::{AllocError, Global};
use std::test::Fail;
use system_keys::{Items, OutOfMemory};
use testing::{batch, bytes, is_memory_refused, one, range, room, twice};
use turn_world::Event;
use turns_run::{TurnsScript, read_turns, stream_turns};

/// A move between a write and a read of its range, offered and finished.
const MOVED: &str = r#"{"proxies":1,"resolvers":2,"window":100,"step":10,"ask":["n"],"events":[
{"sequence":{"proxy":0,"batch":[]}},
{"sequence":{"proxy":0,"batch":[{"snapshot":0,"reads":[],
"writes":[["n","n\\x00"]],"mutations":[{"set":["n","1"]}],"lock_aware":false}]}},
{"move":{"range":["m","t"],"resolver":1}},
{"sequence":{"proxy":0,"batch":[{"snapshot":10,"reads":[["n","n\\x00"]],
"writes":[],"mutations":[],"lock_aware":false}]}},
{"offer":{"row":0,"resolver":0}},{"offer":{"row":0,"resolver":1}},
{"offer":{"row":1,"resolver":0}},{"offer":{"row":1,"resolver":1}},
{"offer":{"row":2,"resolver":0}},{"offer":{"row":2,"resolver":1}},
{"finish":{"proxy":0}},{"finish":{"proxy":0}},{"finish":{"proxy":0}}]}"#;

/// Right scripts: with their fields in any order, and with events in each form.
const STREAMED: &[&str] = &[
    MOVED,
    r#"{"proxies":1,"resolvers":2,"window":3,"step":4,"events":[],"ask":["a"]}"#,
    r#"{"resolvers":2,"window":3,"step":4,"events":[],"ask":["a"],"proxies":1}"#,
    r#"{"window":3,"step":4,"events":[],"ask":["a"],"proxies":1,"resolvers":2}"#,
    r#"{"step":4,"events":[],"ask":["a"],"proxies":1,"resolvers":2,"window":3}"#,
    r#"{"events":[],"ask":["a"],"proxies":1,"resolvers":2,"window":3,"step":4}"#,
    r#"{"ask":["a"],"proxies":1,"resolvers":2,"window":3,"step":4,"events":[]}"#,
    r#"{"ask":["a"],"events":[],"step":4,"window":3,"resolvers":2,"proxies":1}"#,
    r#"{"proxies":2,"resolvers":2,"window":100,"step":10,"ask":[],"events":[
    { "sequence" : { "proxy" : 0 , "batch" : [ ] } } ]}"#,
    r#"{"proxies":2,"resolvers":2,"window":100,"step":10,"ask":[],"events":[
    {"sequence":{"batch":[{"snapshot":0,"reads":[["a","b"]],"writes":[],
    "mutations":[{"clear":["a","b"]}],"lock_aware":true}],"proxy":9223372036854775807}}]}"#,
    r#"{"proxies":2,"resolvers":2,"window":100,"step":10,"ask":[],"events":[
    {"move":{"range":["a","\\xff\\xff"],"resolver":1}},{"move":{"resolver":1,"range":["a","b"]}},
    {"offer":{"row":0,"resolver":1}},{"offer":{"resolver":1,"row":0}}]}"#,
    r#"{"proxies":2,"resolvers":2,"window":100,"step":10,"ask":[],"events":[
    {"finish":{"proxy":1}},{"\u0066inish":{"\u0070roxy":1}}]}"#,
];

/// Right scripts with a field twice: the tokens alone do not give them.
const READ_AS_A_TREE: &[&str] = &[
    r#"{"proxies":1,"resolvers":1,"window":1,"step":1,"proxies":1,"events":[],"ask":[]}"#,
    r#"{"proxies":1,"resolvers":1,"window":1,"step":0,"step":1,"events":[],"ask":[]}"#,
    r#"{"proxies":1,"resolvers":1,"window":1,"step":1,"ask":["a"],"events":[],"ask":[]}"#,
    r#"{"proxies":2,"resolvers":2,"window":100,"step":10,"ask":[],"events":[
    {"finish":{"proxy":0},"finish":{"proxy":1}}]}"#,
    r#"{"proxies":2,"resolvers":2,"window":100,"step":10,"ask":[],"events":[
    {"finish":{"proxy":0,"proxy":1}}]}"#,
    r#"{"proxies":2,"resolvers":2,"window":100,"step":10,"ask":[],"events":[
    {"offer":{"row":0,"row":0,"resolver":1}}]}"#,
    r#"{"proxies":2,"resolvers":2,"window":100,"step":10,"ask":[],"events":[
    {"move":{"range":["a","b"],"resolver":1,"range":["a","b"]}}]}"#,
    r#"{"proxies":2,"resolvers":2,"window":100,"step":10,"ask":[],"events":[
    {"sequence":{"batch":[],"proxy":0,"batch":[]}}]}"#,
];

/// Scripts that are refused.
const REFUSED: &[&str] = &[
    r#"{"proxies":0,"resolvers":1,"window":1,"step":1,"events":[],"ask":[]}"#,
    r#"{"proxies":1,"resolvers":65,"window":1,"step":1,"events":[],"ask":[]}"#,
    r#"{"proxies":1,"resolvers":1,"window":1000000001,"step":1,"events":[],"ask":[]}"#,
    r#"{"proxies":1,"resolvers":1,"window":1,"step":0,"events":[],"ask":[]}"#,
    r#"{"proxies":1,"resolvers":1,"window":1,"events":[],"ask":[]}"#,
    r#"{"proxies":1,"resolvers":1,"window":1,"step":1,"more":0,"events":[],"ask":[]}"#,
    r#"{"proxies":2,"resolvers":2,"window":100,"step":10,"ask":[],"events":[
    {}]}"#,
    r#"{"proxies":2,"resolvers":2,"window":100,"step":10,"ask":[],"events":[
    {"begin":{"proxy":0}}]}"#,
    r#"{"proxies":2,"resolvers":2,"window":100,"step":10,"ask":[],"events":[
    {"finish":{"proxy":0},"offer":{"row":0,"resolver":0}}]}"#,
    r#"{"proxies":2,"resolvers":2,"window":100,"step":10,"ask":[],"events":[
    {"finish":{}}]}"#,
    r#"{"proxies":2,"resolvers":2,"window":100,"step":10,"ask":[],"events":[
    {"offer":{"row":-1,"resolver":0}}]}"#,
    r#"{"proxies":2,"resolvers":2,"window":100,"step":10,"ask":[],"events":[
    {"move":{"range":["b","a"],"resolver":0}}]}"#,
    r#"{"proxies":2,"resolvers":2,"window":100,"step":10,"ask":[],"events":[
    {"sequence":{"proxy":0,"batch":[{}]}}]}"#,
];

fn is_streamed_at_once(alloc: Global, script: &[u8]) -> bool {
    stream_turns(alloc, script).is_some()
}

/// Reads the script by its tokens, at the second try if an allocation failed at the first.
fn is_streamed(alloc: Global, script: &[u8]) -> bool {
    is_streamed_at_once(alloc, script)
        || is_memory_refused(alloc) && is_streamed_at_once(alloc, script)
}

fn fault_at_once(alloc: Global, script: &[u8]) -> Option<ScriptFault> {
    read_turns(alloc, script).err()
}

/// Why the script is refused, if it is, at the second try if an allocation failed at the first.
fn fault_of(alloc: Global, script: &[u8]) -> Option<ScriptFault> {
    match fault_at_once(alloc, script) {
        Some(ScriptFault::OutOfMemory) if is_memory_refused(alloc) => fault_at_once(alloc, script),
        answer => answer,
    }
}

#[test]
fn right_scripts_are_streamed(rt: HostRuntime) {
    for script in STREAMED {
        assert!(rt; is_streamed(rt.alloc(), script.as_bytes()), "{script}");
        assert!(rt;
            fault_of(rt.alloc(), script.as_bytes()).is_none(),
            "{script}"
        );
    }
}

#[test]
fn scripts_are_read_as_a_tree_where_a_field_stands_twice(rt: HostRuntime) {
    for script in READ_AS_A_TREE {
        assert!(rt; !is_streamed(rt.alloc(), script.as_bytes()), "{script}");
        assert!(rt;
            fault_of(rt.alloc(), script.as_bytes()).is_none(),
            "{script}"
        );
    }
}

#[test]
fn no_refused_script_is_streamed(rt: HostRuntime) {
    for script in REFUSED {
        assert!(rt; !is_streamed(rt.alloc(), script.as_bytes()), "{script}");
        assert!(rt;
            fault_of(rt.alloc(), script.as_bytes()).is_some(),
            "{script}"
        );
    }
}

#[test]
fn no_beginning_of_a_script_is_json(rt: HostRuntime) {
    let whole = MOVED.as_bytes();
    for end in 0..whole.len() {
        let fault = fault_of(rt.alloc(), &whole[..end]);
        assert!(rt;
            fault == Some(ScriptFault::NotJson),
            "the first {end} bytes"
        );
    }
}

/// An event of each kind.
fn events(alloc: Global) -> Result<Items<Event>, Fail> {
    let batch = batch(alloc, &[GIVEN])?;
    let range = range(alloc, b"m", b"t")?;
    let mut events = room(alloc, 4)?;
    events.push(Event::Sequence { proxy: 0, batch })?;
    events.push(Event::Move { range, dest: 3 })?;
    events.push(Event::Offer {
        row: 1,
        resolver: 2,
    })?;
    events.push(Event::Finish { proxy: 5 })?;
    Ok(Items::from(events))
}

/// The event is the one of its kind there, in every field.
fn is_event(event: &Event) -> bool {
    match event {
        Event::Sequence { proxy, batch } => *proxy == 0 && is_batch(batch),
        Event::Move { range, dest } => is_range(range, b"m", b"t") && *dest == 3,
        Event::Offer { row, resolver } => *row == 1 && *resolver == 2,
        Event::Finish { proxy } => *proxy == 5,
    }
}

/// There is one event of each kind, in their order.
fn are_events(events: &[Event]) -> bool {
    match events {
        [
            first @ Event::Sequence { .. },
            second @ Event::Move { .. },
            third @ Event::Offer { .. },
            fourth @ Event::Finish { .. },
        ] => { is_event(first) && is_event(second) && is_event(third) && is_event(fourth) }
        _ => false,
    }
}

/// The script of these events, and of one key.
fn turns_script(alloc: Global) -> Result<TurnsScript, Fail> {
    let key = bytes(alloc, b"n")?;
    Ok(TurnsScript {
        config: Config::new(1, 4, 100, 10)?,
        events: events(alloc)?,
        ask: one(alloc, key)?,
    })
}

/// The script is that one, in every field.
fn is_turns_script(script: &TurnsScript) -> bool {
    is_config(&script.config)
        && are_events(script.events.as_slice())
        && is_asked(script.ask.as_slice())
}

#[test]
fn turns_scripts_are_copied(rt: HostRuntime) -> Result<(), Fail> {
    let script = turns_script(rt.alloc())?;
    let copied = twice!(rt.alloc(); script.copy(), OutOfMemory)?;
    assert!(rt; is_turns_script(&script) && is_turns_script(&copied));
    Ok(())
}

/// A script of three proxies and three resolvers, which asks for the tags of two keys.
const TWO_KEYS: &str =
    r#"{"proxies":3,"resolvers":3,"window":100,"step":10,"ask":["a","n"],"events":[
{"sequence":{"proxy":2,"batch":[{"snapshot":0,"reads":[["a","b"]],
"writes":[["n","n\\x00"]],"mutations":[{"set":["n","1"]}],"lock_aware":false}]}},
{"move":{"range":["m","t"],"resolver":2}},{"offer":{"row":0,"resolver":2}},
{"finish":{"proxy":2}}]}"#;

fn printed(alloc: Global, script: &TurnsScript) -> Result<String, AllocError> {
    format!(in alloc; "{script:?}")
}

/// Whether both have the same in every field.
fn are_alike(alloc: Global, one: &TurnsScript, other: &TurnsScript) -> Result<bool, AllocError> {
    let one = printed(alloc, one)?;
    let other = printed(alloc, other)?;
    Ok(one.as_str() == other.as_str())
}

#[test]
fn a_turns_script_that_asks_two_keys_is_copied(rt: HostRuntime) -> Result<(), Fail> {
    let script = twice!(
        rt.alloc();
        read_turns(rt.alloc(), TWO_KEYS.as_bytes()),
        ScriptFault::OutOfMemory
    )?;
    let copied = twice!(rt.alloc(); script.copy(), OutOfMemory)?;
    assert!(rt; are_alike(rt.alloc(), &script, &copied)?);
    Ok(())
}

// ---- long scripts

const HEAD: &str =
    r#"{"proxies":3,"resolvers":3,"window":100,"step":10,"ask":["a","b"],"events":["#;

const EVENT: &str = r#"{"offer":{"row":2,"resolver":2}},"#;

const END: &str = r#"{"finish":{"proxy":2}}]}"#;

/// The last event has no proxy.
const WRONG_END: &str = r#"{"finish":{}}]}"#;

/// How many events a long script has before its last one.
const EVENTS: usize = 400;

/// A script of many events, which ends like this.
fn long_script(alloc: Global, end: &str) -> Result<String, AllocError> {
    let mut script = String::new(alloc);
    script.push_str(HEAD)?;
    for _ in 0..EVENTS {
        script.push_str(EVENT)?;
    }
    script.push_str(end)?;
    Ok(script)
}

#[test]
fn a_long_turns_script_is_read(rt: HostRuntime) -> Result<(), Fail> {
    let text = long_script(rt.alloc(), END)?;
    let script = twice!(
        rt.alloc();
        read_turns(rt.alloc(), text.as_bytes()),
        ScriptFault::OutOfMemory
    )?;
    assert!(rt; script.events.as_slice().len() == EVENTS + 1);
    Ok(())
}

#[test]
fn a_long_turns_script_with_a_fault_is_refused(rt: HostRuntime) -> Result<(), Fail> {
    let text = long_script(rt.alloc(), WRONG_END)?;
    let fault = fault_of(rt.alloc(), text.as_bytes());
    assert!(rt; fault == Some(ScriptFault::BadShape));
    Ok(())
}
