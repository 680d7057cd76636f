//! Runs of the program by its words over devices in memory: each script has the text that was worked
//! out by hand from docs/FORMATS.md, or to its lines in their order, and to its status. They stand in files
//! in `tests/worked`, which the Python tests read too.

mod changed;
mod fold;
mod great_texts;
mod journals;
mod threads;
mod turns;

use changed::CHANGED;
use command_line::{Status, run_words};
use fold::FOLD;
use scripts::{Reader, Writer};
use std::alloc::{AllocError, Global};
use std::process::Abort;
use std::sync::Wait;
use std::test::Fail;
use std::thread::Threads;
use threads::THREADS;
use turns::TURNS;

/// The expected result of a script.
#[derive(Clone, Copy)]
enum Expected {
    /// The whole text.
    Whole(&'static [u8]),
    /// Lines that the text has in this order, among others.
    Lines(&'static [u8]),
}

/// A script, in parts that each stand there a number of times, and the result of a run on it.
#[derive(Clone, Copy)]
struct Worked {
    name: &'static str,
    script: &'static [(&'static [u8], usize)],
    expected: Expected,
    status: u8,
}

/// The bytes of a script.
fn script_of(alloc: Global, parts: &[(&[u8], usize)]) -> Result<Vec<u8>, AllocError> {
    let mut script = Vec::new(alloc);
    for (part, times) in parts {
        for _ in 0..*times {
            script.extend_from_slice(*part)?;
        }
    }
    Ok(script)
}

/// Whether the text has these lines in this order, among others.
fn has_lines(text: &[u8], lines: &[u8]) -> bool {
    let mut left = lines.split(|byte| *byte == b'\n');
    let mut awaited = left.next();
    for line in text.split(|byte| *byte == b'\n') {
        if awaited == Some(line) {
            awaited = left.next();
        }
    }
    awaited.is_none()
}

impl Expected {
    /// Whether a text is as expected.
    fn is_as_expected(self, text: &[u8]) -> bool {
        match self {
            Expected::Whole(whole) => text == whole,
            Expected::Lines(lines) => has_lines(text, lines),
        }
    }
}

/// Runs the program by these words on a script: its status, and what it wrote.
fn run<R: AllocGlobal + Threads + Wait + Sync>(
    rt: &R,
    words: &[&str],
    script: &[u8],
) -> (Status, Vec<u8>) {
    let mut text = Vec::new(rt.alloc());
    let status = run_words(
        rt,
        words,
        &mut Reader::new(script),
        &mut Writer::new(&mut text),
    );
    (status, text)
}

/// Each script has the text and the status that are expected, by these words.
fn assert_worked<R: Abort + AllocGlobal + Threads + Wait + Sync>(
    rt: &R,
    words: &[&str],
    scripts: &[Worked],
) -> Result<(), AllocError> {
    for worked in scripts {
        let script = script_of(rt.alloc(), worked.script)?;
        let (status, text) = run(rt, words, script.as_slice());
        let name = worked.name;
        assert!(rt;
            status.number() == worked.status,
            "the status of {name} by {words:?}"
        );
        assert!(rt;
            worked.expected.is_as_expected(text.as_slice()),
            "the text of {name} by {words:?}"
        );
    }
    Ok(())
}

#[test]
fn each_script_comes_to_its_text(rt: HostRuntime) -> Result<(), Fail> {
    assert_worked(&rt, &[], FOLD)?;
    assert_worked(&rt, &["fold"], FOLD)?;
    assert_worked(&rt, &["turns"], TURNS)?;
    assert_worked(&rt, &["turns"], CHANGED)?;
    assert_worked(&rt, &["threads"], THREADS)?;
    Ok(())
}

/// Words that run no mode, or ask for help.
const REFUSED: &[&[&str]] = &[
    &["Fold"],
    &["turn"],
    &["threads "],
    &[""],
    &["--unknown"],
    &["--threads"],
    &["--help"],
    &["-h"],
    &["fold", "fold"],
    &["turns", "threads"],
    &["threads", "--help"],
];

#[test]
fn refused_words_read_and_write_nothing(rt: HostRuntime) {
    for words in REFUSED {
        let mut rest: &[u8] = b"{}";
        let mut text = Vec::new(rt.alloc());
        let status = run_words(
            &rt,
            *words,
            &mut Reader::new(&mut rest),
            &mut Writer::new(&mut text),
        );
        assert!(rt; status.number() == 2, "the status of {words:?}");
        assert!(rt;
            rest == b"{}".as_slice() && text.is_empty(),
            "the devices at {words:?}"
        );
    }
}

/// The script of that name.
fn named(scripts: &[Worked], name: &str) -> Option<Worked> {
    for worked in scripts {
        if worked.name == name {
            return Some(*worked);
        }
    }
    None
}

#[test]
fn no_beginning_of_a_script_is_json(rt: HostRuntime) -> Result<(), Fail> {
    let worked = named(TURNS, "write_before_a_move").ok_or("no such script")?;
    let whole = script_of(rt.alloc(), worked.script)?;
    for end in 0..whole.len() {
        let (status, text) = run(&rt, &["turns"], &whole[..end]);
        assert!(rt; status.number() == 1, "the first {end} bytes");
        assert!(rt;
            text.as_slice() == b"refused 70 NotJson\n".as_slice(),
            "the first {end} bytes"
        );
    }
    Ok(())
}
