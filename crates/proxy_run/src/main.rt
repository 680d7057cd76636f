//! The program: its words say what to do with the script on standard input, and the result goes to
//! standard output.
#![tactic(auto)]

ghost use Rattle.std.specs.Prelude.{◌≡◌, codes};
ghost use Rattle.scripts.specs.Lines.{line};
ghost use Rattle.command_line.specs.Statuses.{IsRejectedWith};

use command_line::{Leftover, Reader, RunStatus, Status, Writer, run_words_leaving};
use std::alloc::Global;
use std::env;
use std::io::ErrorKind;
use std::mem::ManuallyDrop;
use std::process::ExitCode;

fn main(rt: HostRuntime) -> ExitCode {
    let mut leftover = Leftover::none();
    let status = match words(&rt) {
        Ok(words) => {
            let mut reader = Reader::new(rt.stdin());
            let mut writer = Writer::new(rt.stdout());
            run_words_leaving(
                &rt,
                words.as_slice(),
                &mut reader,
                &mut writer,
                &mut leftover,
            )
        }
        Err(status) => status,
    };
    // The process ends now: to drop the rest would only take time.
    let _leftover = ManuallyDrop::new(leftover);
    if let Status::CommandLineRefused(text) = &status {
        let _ = rt.eprint(text);
    }
    ExitCode::from(status.number())
}

// The words after the program's name, or how the program ends without them.
fn words(rt: &HostRuntime) -> Result<Vec<String>, Status> {
    let alloc = rt.alloc();
    let args = match env::args(rt) {
        Ok(args) => args,
        Err(error) if error.kind() == ErrorKind::OutOfMemory => return Err(Status::Ran(
            RunStatus::OutOfMemory,
        )),
        Err(_) => return Err(report_words_are_no_text(alloc)),
    };
    match args.skip(1).collect::<Vec<String>>(alloc) {
        Ok(words) => Ok(words),
        Err(_) => Err(Status::Ran(RunStatus::OutOfMemory)),
    }
}

// Refuses a command line with a word that is not UTF-8: `clap` takes text alone.
fn report_words_are_no_text(alloc: Global) -> Status
    ensures { let text = line (codes "error: a word of the command line is not UTF-8") in
        IsRejectedWith (λ told. told ≡ text) result }
{
    match String::from_str(alloc, "error: a word of the command line is not UTF-8\n") {
        Ok(text) => Status::CommandLineRefused(text),
        Err(_) => Status::Ran(RunStatus::OutOfMemory),
    }
}
