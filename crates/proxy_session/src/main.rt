//! The program: it answers each line of standard input on standard output, before it reads on.
#![tactic(auto)]

use scripts::{Reader, Writer};
use session_run::run_session;
use std::env;
use std::io::ErrorKind;
use std::process::ExitCode;

// Follows a command line with words, since the program takes none.
const USAGE: &str = "usage: proxy_session

Answers each line of standard input before it reads on. A line is one JSON value:
  {\"cluster\":{\"proxies\":N,\"resolvers\":N,\"window\":N,\"step\":N}}
  {\"show\":{\"proxy\":N,\"ask\":[BYTES..]}}
  or an event of a turns script
";

// How the program ends if it has words, and if there is no memory to look for them.
const WORDS: u8 = 2;

const OUT_OF_MEMORY: u8 = 4;

fn main(rt: HostRuntime) -> ExitCode {
    match has_words(&rt) {
        Ok(false) => {}
        Ok(true) => {
            let _ = rt.eprint(&USAGE);
            return ExitCode::from(WORDS);
        }
        Err(status) => return status,
    }
    let mut reader = Reader::new(rt.stdin());
    let mut writer = Writer::new(rt.stdout());
    let status = run_session(rt.alloc(), &mut reader, &mut writer);
    ExitCode::from(status.number())
}

// Whether words follow the program's name. Fails only if an allocation does.
fn has_words(rt: &HostRuntime) -> Result<bool, ExitCode> {
    match env::args(rt) {
        Ok(args) => Ok(args.len() > 1),
        Err(error) if error.kind() == ErrorKind::OutOfMemory => Err(ExitCode::from(OUT_OF_MEMORY)),
        Err(_) => Ok(true),
    }
}
