//! A run of the program by the words after its name.
ghost use Rattle.std.specs.Prelude.{◌≡◌, ◌-◌, ◌^◌, ◌<◌, None, map};
ghost use Rattle.command_line.specs.WordRuns.{LeavesDevicesOfRun, RunsByWords};

use crate::choosing::{Rejection, choose_mode};
use crate::mode::Mode;
use crate::status::Status;
use fold_run::{FoldLeftover, run_fold_leaving};
use scripts::{RunStatus, Sink, Source};
use std::convert::AsStr;
use std::sync::Wait;
use std::thread::Threads;
use threads_run::run_threads;
use turns_run::{TurnsLeftover, run_turns_leaving};

/// What was made to print a script, and is needed no more.
#[derive(Drop)]
pub struct Leftover {
    /// What a run of `fold` made.
    pub fold: Option<FoldLeftover>,
    /// What a run of `turns` made.
    pub turns: Option<TurnsLeftover>,
}

impl Leftover {
    /// Nothing, as before a run.
    pub fn none() -> Leftover
        ensures { result ≡ record { fold = None; turns = None } }
    {
        Leftover {
            fold: None,
            turns: None,
        }
    }
}

/// Runs the mode that `clap` reads from the words after the program's name. If it refuses them,
/// nothing is read or written.
pub fn run_words<'a, W: AsStr, R: AllocGlobal + Threads + Wait + Sync, S: Source, T: Sink>(
    rt: &R,
    words: &'a [W],
    source: &mut S,
    sink: &mut T,
) -> Status
    requires read_count { S.failed source.old < 2 ^ 64 - 1 }
    requires write_count { T.failed sink.old < 2 ^ 64 - 1 }
    ensures run { RunsByWords (map W.text words.entry.now) S.Source source.old source.new
        T.Sink sink.old sink.new result }
    ensures devices { LeavesDevicesOfRun S.Source source.old source.new
        T.Sink sink.old sink.new result }
{
    let mut leftover = Leftover::none();
    run_words_leaving(rt, words, source, sink, &mut leftover)
}

/// Runs by words as `run_words` does, but keeps in `leftover` what a run of `fold` or `turns` made while it
/// read the tokens of its script. A program that ends then need not drop it.
pub fn run_words_leaving<'a, W: AsStr, R: AllocGlobal + Threads + Wait + Sync, S: Source, T: Sink>(
    rt: &R,
    words: &'a [W],
    source: &mut S,
    sink: &mut T,
    leftover: &mut Leftover,
) -> Status
    requires read_count { S.failed source.old < 2 ^ 64 - 1 }
    requires write_count { T.failed sink.old < 2 ^ 64 - 1 }
    ensures run { RunsByWords (map W.text words.entry.now) S.Source source.old source.new
        T.Sink sink.old sink.new result }
    ensures devices { LeavesDevicesOfRun S.Source source.old source.new
        T.Sink sink.old sink.new result }
{
    let alloc = rt.alloc();
    match choose_mode(alloc, words) {
        Ok(Mode::Fold) => Status::Ran(run_fold_leaving(alloc, source, sink, &mut leftover.fold)),
        Ok(Mode::Turns) => Status::Ran(run_turns_leaving(alloc, source, sink, &mut leftover.turns)),
        Ok(Mode::Threads) => Status::Ran(run_threads(rt, alloc, source, sink)),
        Err(Rejection::OutOfMemory) => Status::Ran(RunStatus::OutOfMemory),
        Err(Rejection::Words(text)) => Status::CommandLineRefused(text),
    }
}
