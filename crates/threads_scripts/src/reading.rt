//! Reading a threads script: by its tokens, else by its JSON value.

ghost use Rattle.std.specs.Prelude.{◌≡◌, IfOk, IfSome, Ok};
ghost use Rattle.scripts.specs.ScriptFaults.{IsReadAs};
ghost use Rattle.threads_scripts.specs.Runnable.{IsRunnable};
ghost use Rattle.threads_scripts.specs.Scripts.{script_of};

use crate::script::{RawThreads, ThreadsScript};
use scripts::{ScriptFault, read_checked, stream_checked};
use std::alloc::Global;

/// Returns the threads script that the bytes are (this project's profile).
///
/// Otherwise returns the first of: `NotJson` (`serde_json` reads no value), `BadShape` (the value
/// does not have the form of a threads script, a text of it is not the text of any bytes, a number
/// of it is outside its limits, or there are not as many lists of work as proxies), the first fault
/// of the range of a move, the first fault of a batch, in the order of the proxies and of their
/// batches (the fault of the first transaction that has one, and then that there are more than 1,024), and
/// `NoSuchResolver` (a move goes to a resolver that the cluster does not have). May fail with
/// `OutOfMemory` at any point.
#[tactic(auto, unfolding(crate::specs::Scripts::script_of), using(crate::proofs::LimitLemmas::read_runnable))]
pub fn read_threads(alloc: Global, bytes: &[u8]) -> Result<ThreadsScript, ScriptFault>
    ensures value { IsReadAs (λ found. found) result (script_of bytes.now) }
    ensures runnable { IfOk result (λ script. IsRunnable script) }
{
    read_checked::<RawThreads, ThreadsScript>(alloc, bytes)
}

/// The threads script that the bytes are, read as its tokens come, without a tree of the JSON
/// values. `None` decides nothing: `read_threads` then reads the tree.
#[tactic(auto, unfolding(crate::specs::Scripts::script_of))]
pub fn stream_threads(alloc: Global, bytes: &[u8]) -> Option<ThreadsScript>
    ensures { IfSome result (λ script. script_of bytes.now ≡ Ok script) }
{
    stream_checked::<RawThreads, ThreadsScript>(alloc, bytes)
}
