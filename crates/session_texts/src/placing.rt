//! The statuses of calls on a session, and copying an answer into the caller's buffer.

ghost use Rattle.session_texts.specs.Placing.{PlacesAnswer};

use script_texts::TOO_SMALL;

/// The status of a call that placed an answer.
pub const DONE: u8 = 0;

/// The status of a call on no session.
pub const NO_SESSION: u8 = 7;

/// The status of a call that carried out its line, and lacked memory to keep the answer.
pub const ANSWER_LOST: u8 = 8;

/// Places an answer at the front of `out`, and its length in `made`, and returns the status of the
/// call. If `out` is too small, only `made` changes.
pub(crate) fn place_answer(answer: &[u8], out: &mut [u8], made: &mut usize) -> u8
    ensures { PlacesAnswer answer.now result out.old out.new made.new }
{
    *made = answer.len();
    if answer.len() <= out.len() {
        out[..answer.len()].copy_from_slice(answer);
        DONE
    } else {
        TOO_SMALL
    }
}
