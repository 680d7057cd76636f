//! What answers lines and lacks memory for some of them.

ghost use Rattle.tests_program.specs.Rehearsals.{ok_rules};

use pages::Page;
use sessions::Answering;
use std::alloc::Global;
use system_keys::OutOfMemory;

/// Answers each line with `ok`, but lacks memory for the line `full`.
#[derive(Clone, Copy, Debug)]
pub struct ShortOfMemory;

impl Answering for ShortOfMemory {
    ghost State = { Unit {0} };

    ghost state = { λ answering. tt };

    ghost rules = { ok_rules };

    #[tactic(auto, using(pages::proofs::Prints::prints_nothing))]
    fn answer<P: Page>(
        &mut self,
        _alloc: Global,
        line: &[u8],
        page: &mut P,
    ) -> Result<(), OutOfMemory> {
        if line == b"full".as_slice() {
            return Err(OutOfMemory);
        }
        page.push("ok\n");
        Ok(())
    }
}
