//! The choice of a mode: what `clap` reads from the words, or the text of its refusal.
ghost use Rattle.std.specs.Prelude.{◌≡◌, IfOk, map, string_bytes};
ghost use Rattle.clap.specs.Words.{kind_of};
ghost use Rattle.clap.specs.declared.error.kind.ErrorKind.TheVariants as kinds;
ghost use Rattle.command_line.specs.Choices.{ChoosesMode};
ghost use Rattle.command_line.specs.Rejections.{DisplaysThen, TellsKind, ending_of_kind};

use crate::mode::Mode;
use crate::reading::read_mode;
use clap::Error;
use clap::error::ErrorKind;
use std::alloc::{AllocError, Global};
use std::convert::AsStr;
use std::fmt::Display;

/// Why words choose no mode.
#[derive(Debug, Drop)]
pub enum Rejection {
    /// An allocation failed.
    OutOfMemory,
    /// The words are refused, or ask for help: the text for standard error.
    Words(String),
}

/// The mode that `clap` reads from the words after the program's name; `fold` without words.
pub fn choose_mode<'a, W: AsStr>(alloc: Global, words: &'a [W]) -> Result<Mode, Rejection>
    ensures { ChoosesMode (map W.text words.entry.now) result }
{
    match read_mode(alloc, words) {
        Ok(Some(mode)) => Ok(mode),
        // Each name that the command line takes is a mode's name.
        Ok(None) => unreachable!(),
        Err(error) => Err(rejection_of(alloc, &error)),
    }
}

// Follows the text of a refused command line, whose words may name a file.
const HINT: &str = "hint: the script is read on standard input: proxy_run < script.json\n";

// Follows the help.
const EXAMPLE: &str = "\nExample:\n  proxy_run turns < script.json\n";

// What follows from an error of `clap`.
fn rejection_of(alloc: Global, error: &Error) -> Rejection
    ensures memory { kind_of error.now ≡ kinds.OutOfMemory → result ≡ Rejection.OutOfMemory }
    ensures told { TellsKind (kind_of error.now) result }
{
    let kind = error.kind();
    if kind == ErrorKind::OutOfMemory {
        return Rejection::OutOfMemory;
    }
    match display_then(alloc, error, ending_of_kind(kind)) {
        Ok(text) => Rejection::Words(text),
        Err(_) => Rejection::OutOfMemory,
    }
}

// What the program adds to the text of an error of this kind.
#[tactic(auto, using(crate::proofs::Endings::of_no_help))]
fn ending_of_kind(kind: ErrorKind) -> &'static str
    ensures { result.now ≡ ending_of_kind kind }
{
    match kind {
        ErrorKind::DisplayHelp => EXAMPLE,
        _ => HINT,
    }
}

// What the value displays, and then the ending.
fn display_then<E: Display>(alloc: Global, value: &E, ending: &str) -> Result<String, AllocError>
    ensures { IfOk result (λ text.
        DisplaysThen (E.output value.now) ending.now (string_bytes text)) }
{
    let mut text = value.to_string(alloc)?;
    text.push_str(ending)?;
    Ok(text)
}
