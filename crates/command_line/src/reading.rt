//! What `clap` reads from the words, for the command that the program has.
ghost use Rattle.std.specs.Prelude.{◌≡◌, IfOk, IsSome, codes, map};
ghost use Rattle.clap.specs.Words.{first_value, found_of};
ghost use Rattle.command_line.specs.CommandLine.{IsCommandLine, ModeNames, ReadsMode, mode_given};

use crate::mode::{Mode, NAMES};
use clap::{Arg, ArgMatches, Command, Error};
use std::alloc::{AllocError, Global};
use std::convert::AsStr;

/// The mode that `clap` reads from the words after the program's name, or its refusal of them.
/// Fails with the kind `OutOfMemory` if an allocation fails.
pub fn read_mode<'a, W: AsStr>(alloc: Global, words: &'a [W]) -> Result<Option<Mode>, Error>
    ensures read { ReadsMode (map W.text words.entry.now) result }
    ensures offered { IfOk result IsSome }
{
    let command = command(alloc)?;
    let matches = command.try_get_matches_from(words)?;
    Ok(mode_given(&matches))
}

// What the program does, as the help says it.
const ABOUT: &str =
    "Reads a JSON script on standard input and prints its result: proxy_run [MODE] < script.json";

// What the modes read and print, as the help says it.
const MODES: &str =
    "fold: rows of a journal, folded to a routing; turns: events of a cluster, carried out in order; threads: batches of proxies, each proxy a thread [default: fold]";

// The command line `proxy_run [MODE]`.
fn command<'a>(alloc: Global) -> Result<Command<'a>, AllocError>
    ensures { IfOk result (λ command. (names : ModeNames) × IsCommandLine names command) }
{
    let mode = Arg::new(alloc, "mode")
        .value_name("MODE")
        .help(MODES)
        .value_parser(NAMES.as_slice());
    Command::new(alloc, "proxy_run")
        .about(ABOUT)
        .no_binary_name(true)
        .arg(mode)
}

// The mode that the matches name.
fn mode_given(matches: &ArgMatches<'_>) -> Option<Mode>
    ensures { result ≡ mode_given (first_value (found_of matches.now) (codes "mode")) }
{
    match matches.get_str("mode") {
        Some(name) => Mode::from_name(name),
        None => Some(Mode::Fold),
    }
}
