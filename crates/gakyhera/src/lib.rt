//! The library for C: whole texts of fold and turns scripts, from memory to memory, and sessions, which
//! answer line by line. `bindings/c/gakyhera.h` is its header.
//!
//! Source: this project's profile (scripts, lines and statuses).
#![tactic(auto)]

ghost use Rattle.std.specs.Prelude.{◌≡◌, ◌<◌, ◌⊎◌, ℕ, pos, length, IfSome, None, Some};
ghost use Rattle.scripts.specs.Devices.{input_limit};
ghost use Rattle.fold_run.specs.Text.{fold_text};
ghost use Rattle.turns_run.specs.Text.{turns_text};
ghost use Rattle.script_texts.specs.Texts.{Places};
ghost use Rattle.session_texts.specs.Placing.{AnswersLine, PlacesAnswer};
ghost use Rattle.session_texts.specs.Sessions.{first_session};

use script_texts::{OUT_OF_MEMORY, fold_text, place, turns_text};
use session_handle::Handle;
use session_texts::{DONE, NO_SESSION, TextSession};
use std::alloc::Global;

/// Places the text of a fold script at the front of `out`, and its length in `made`.
/// Returns the status of the script's run, 0 or 1, with the whole text. Otherwise `out` is unchanged:
/// returns 6 where it is too small, and then `made` is the length that it needs; 4 if an allocation
/// failed, and 3 if the script is longer than 4,294,963,200 bytes.
#[unsafe(no_mangle)]
pub extern "C" fn gakyhera_fold(
    alloc: Global,
    script: &[u8],
    out: &mut [u8],
    made: &mut usize,
) -> i32
    ensures text { (status : ℕ) × (result ≡ pos status)
        × Places (fold_text script.now) status out.old out.new made.old made.new }
    ensures long { result ≡ pos 3 → input_limit < length script.now }
    ensures refused { input_limit < length script.now → result ≡ pos 3 }
{
    i32::from(place(fold_text(alloc, script), out, made))
}

/// Places the text of a turns script at the front of `out`, and its length in `made`.
/// Returns the same as `gakyhera_fold`.
#[unsafe(no_mangle)]
pub extern "C" fn gakyhera_turns(
    alloc: Global,
    script: &[u8],
    out: &mut [u8],
    made: &mut usize,
) -> i32
    ensures text { (status : ℕ) × (result ≡ pos status)
        × Places (turns_text script.now) status out.old out.new made.old made.new }
    ensures long { result ≡ pos 3 → input_limit < length script.now }
    ensures refused { input_limit < length script.now → result ≡ pos 3 }
{
    i32::from(place(turns_text(alloc, script), out, made))
}

/// Begins a session in the handle, in place of one that was there, which is freed.
/// Returns 0, or 4 if an allocation failed; then the handle is unchanged.
#[unsafe(no_mangle)]
pub extern "C" fn gakyhera_session_new(alloc: Global, handle: &mut Handle) -> i32
    ensures statuses { (result ≡ pos 0) ⊎ (result ≡ pos 4) }
    ensures begun { result ≡ pos 0 → handle.new.session ≡ Some first_session }
    ensures unchanged { result ≡ pos 4 → handle.new.session ≡ handle.old.session }
{
    match Box::new(alloc, TextSession::new(alloc)) {
        Ok(begun) => {
            handle.put(alloc, begun);
            i32::from(DONE)
        }
        Err(_) => i32::from(OUT_OF_MEMORY),
    }
}

/// Carries out a line, places its answer at the front of `out`, and its length in `made`. Returns 0.
/// Returns 6 if `out` is too small: the line is carried out all the same, `made` is the length that the
/// answer needs, and `gakyhera_session_answer` places it. Otherwise `out` and `made` are unchanged:
/// returns 7 without a session, 4 if an allocation failed, and then the session is unchanged, and 8 if
/// the line was carried out and an allocation failed for its answer, which is longer than `out`.
#[unsafe(no_mangle)]
pub extern "C" fn gakyhera_session_line(
    alloc: Global,
    handle: &mut Handle,
    line: &[u8],
    out: &mut [u8],
    made: &mut usize,
) -> i32
    ensures answered { IfSome handle.old.session (λ session. (status : ℕ) × (result ≡ pos status)
        × AnswersLine session line.now status handle.new.session
        out.old out.new made.old made.new) }
    ensures none { handle.old.session ≡ None → result ≡ pos 7 }
    ensures empty { result ≡ pos 7 → handle.new.session ≡ None }
    ensures unwritten { result ≡ pos 7 → out.new ≡ out.old }
    ensures unmade { result ≡ pos 7 → made.new ≡ made.old }
{
    match handle.take(alloc) {
        Some(taken) => {
            let mut session = taken;
            let status = session.place_line(alloc, line, out, made);
            handle.put(alloc, session);
            i32::from(status)
        }
        None => i32::from(NO_SESSION),
    }
}

/// Places the answer to the last line at the front of `out`, and its length in `made`. Returns 0.
/// Returns 6 if `out` is too small, and then only `made` changes; 7 without a session, and then nothing
/// does. The answer is empty before the first line, and if it was lost.
#[unsafe(no_mangle)]
pub extern "C" fn gakyhera_session_answer(
    alloc: Global,
    handle: &mut Handle,
    out: &mut [u8],
    made: &mut usize,
) -> i32
    ensures placed { IfSome handle.old.session (λ session. (status : ℕ) × (result ≡ pos status)
        × PlacesAnswer session.answer status out.old out.new made.new) }
    ensures unchanged { handle.new.session ≡ handle.old.session }
    ensures none { handle.old.session ≡ None → result ≡ pos 7 }
    ensures unwritten { result ≡ pos 7 → out.new ≡ out.old }
    ensures unmade { result ≡ pos 7 → made.new ≡ made.old }
{
    let Some(kept) = handle.take(alloc) else {
        return i32::from(NO_SESSION);
    };
    let status = kept.place_answer(out, made);
    handle.put(alloc, kept);
    i32::from(status)
}

/// Frees the session, if there is one. The handle is then empty, and may be freed or begun again.
#[unsafe(no_mangle)]
pub extern "C" fn gakyhera_session_free(alloc: Global, handle: &mut Handle)
    ensures { handle.new.session ≡ None }
{
    drop(handle.take(alloc));
}
