//! The trait of what answers lines, one after another.
ghost use Rattle.std.specs.Prelude.{◌≡◌, [], OnErr, OnOk};
ghost use Rattle.pages.specs.Printing.{Prints};
ghost use Rattle.sessions.specs.Answers.{Rules};

use pages::Page;
use std::alloc::Global;
use system_keys::OutOfMemory;

/// A state that answers lines, one after another.
pub trait Answering {
    ghost State: { Type 0 };

    ghost state: { Self → Self.State };

    ghost rules: { Rules Self.State };

    /// Carries out a line, and prints its answer. Fails only with `OutOfMemory`; then nothing is
    /// printed, and the state is unchanged.
    fn answer<P: Page>(
        &mut self,
        alloc: Global,
        line: &[u8],
        page: &mut P,
    ) -> Result<(), OutOfMemory>
        ensures text { OnOk result (Prints P.has_printed page.old page.new
            (rules.answer (state self.old) line.now)) }
        ensures ok { OnOk result (state self.new ≡ rules.after (state self.old) line.now) }
        ensures unprinted { OnErr result (Prints P.has_printed page.old page.new []) }
        ensures unchanged { OnErr result (state self.new ≡ state self.old) };
}
