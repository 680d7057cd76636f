//! The statuses of calls on a script, and copying its text into the caller's buffer.

ghost use Rattle.std.specs.Prelude.{◌≡◌, IfOk, IsErrOf};
ghost use Rattle.scripts.specs.Statuses.{IsWholeText};
ghost use Rattle.script_texts.specs.Texts.{IsTextOf, Places};
ghost use Rattle.scripts.specs.Outputs.{OutputView};

use crate::text::{ScriptText, TextFault};

/// The status of a call whose caller gave too little room.
pub const TOO_SMALL: u8 = 6;

/// The status of a call on a script that is too long: the program's, where its input is.
pub const TOO_LONG: u8 = 3;

/// The status of a call that lacked memory, as the program's.
pub const OUT_OF_MEMORY: u8 = 4;

/// Places a text at the front of `out`, and its length in `made`, and returns the status of the
/// call. If `out` is too small, only `made` changes. If there is no text, nothing changes.
pub fn place(found: Result<ScriptText, TextFault>, out: &mut [u8], made: &mut usize) -> u8
    requires { IfOk found (λ text. IsWholeText text.status) }
    ensures places { (answer : OutputView) → IfOk found (IsTextOf answer)
        → Places answer result out.old out.new made.old made.new }
    ensures long { result ≡ 3 → IsErrOf found TextFault.TooLong }
    ensures refused { IsErrOf found TextFault.TooLong → result ≡ 3 }
{
    match found {
        Ok(text) => {
            *made = text.bytes.len();
            if text.bytes.len() <= out.len() {
                out[..text.bytes.len()].copy_from_slice(text.bytes.as_slice());
                text.status.number()
            } else {
                TOO_SMALL
            }
        }
        Err(TextFault::TooLong) => TOO_LONG,
        Err(TextFault::OutOfMemory) => OUT_OF_MEMORY,
    }
}
