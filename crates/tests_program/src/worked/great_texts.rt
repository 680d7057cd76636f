//! A text of over 60 megabytes: a run that gives up past some length of its text is proved, and only a
//! test at such a length finds it. `tests/scripts` compares each byte of a text that is eight times as long.
//!
//! In the build with checks of `rt try --test` it takes minutes, so that needs `--seconds 600`.

use super::run;
use std::alloc::{AllocError, Global};
use std::test::Fail;

/// How often a key is asked for.
const ASKED: usize = 24_000;

/// Adds the tag of locality 128 and this id: as a script spells its bytes, and as it is printed.
fn push_tag(
    alloc: Global,
    spelled: &mut String,
    printed: &mut String,
    high: u16,
    low: u16,
) -> Result<(), AllocError> {
    let bytes = format!(in alloc; "\\\\x80\\\\x{high:02x}\\\\x{low:02x}")?;
    spelled.push_str(bytes.as_str())?;
    let id = high.wrapping_mul(256) | low;
    let tag = format!(in alloc; " 128:{id}")?;
    printed.push_str(tag.as_str())
}

/// The 254 tags of a keyServers value: as a script spells their bytes, and as they are printed.
fn tags(alloc: Global) -> Result<(String, String), AllocError> {
    let mut spelled = String::new(alloc);
    let mut printed = String::new(alloc);
    for high in 128..130 {
        for low in 128..255 {
            push_tag(alloc, &mut spelled, &mut printed, high, low)?;
        }
    }
    Ok((spelled, printed))
}

const HEAD: &str = r#"{"resolvers":1,"rows":[{"version":10,"states":[{"lock_aware":true,
"verdicts":["committed"],"mutations":[{"set":["\\xff/keyServers/","\\x00\\x00\\xfe"#;

const ASK: &str = r#"\\x00"]}]}]}],"ask":["a""#;

/// A script that gives all keys those tags, and asks for one key very often.
fn script(alloc: Global, spelled: &str) -> Result<String, AllocError> {
    let mut script = String::new(alloc);
    script.push_str(HEAD)?;
    script.push_str(spelled)?;
    script.push_str(ASK)?;
    for _ in 1..ASKED {
        script.push_str(r#","a""#)?;
    }
    script.push_str("]}")?;
    Ok(script)
}

#[test]
fn a_text_of_60_megabytes_is_written(rt: HostRuntime) -> Result<(), Fail> {
    let (spelled, printed) = tags(rt.alloc())?;
    let script = script(rt.alloc(), spelled.as_str())?;
    let (status, text) = run(&rt, &["fold"], script.as_bytes());
    let head = "version 10\nlocked no\nmetadata_version none\nroute \"\"";
    let head = format!(in rt.alloc(); "{head}{printed}\n")?;
    let line = format!(in rt.alloc(); "tags \"a\"{printed}\n")?;
    assert!(rt; status.number() == 0 && 60_000_000 < text.len());
    assert!(rt; text.len() == ASKED.saturating_mul(line.len()).saturating_add(head.len()));
    assert!(rt; text.starts_with(head.as_bytes()) && text.ends_with(line.as_bytes()));
    Ok(())
}
