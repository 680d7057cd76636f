//! The words that stand for verdicts, outcomes and unseen rows in a line.

ghost use Rattle.std.specs.Prelude.{◌≡◌};
ghost use Rattle.scripts.specs.Names.{outcome_name, unseen_version, verdict_name};

use crate::line_pieces::push_numbered;
use crate::words::Word;
use model::{Outcome, UnseenRow, Verdict};
use pages::Page;

/// The name of a verdict.
pub fn verdict_name(verdict: Verdict) -> &'static str
    ensures { result.now ≡ verdict_name verdict }
{
    match verdict {
        Verdict::Conflict => "conflict",
        Verdict::TooOld => "too_old",
        Verdict::Committed => "committed",
    }
}

/// The name of an outcome.
pub fn outcome_name(outcome: Outcome) -> &'static str
    ensures { result.now ≡ outcome_name outcome }
{
    match outcome {
        Outcome::Committed { .. } => "committed",
        Outcome::Conflict => "conflict",
        Outcome::TooOld => "too_old",
        Outcome::Locked => "locked",
    }
}

impl Word for Verdict {
    ghost word = { verdict_name };

    fn push_to<P: Page>(&self, page: &mut P) {
        page.push(verdict_name(*self));
    }
}

impl Word for Outcome {
    ghost word = { outcome_name };

    fn push_to<P: Page>(&self, page: &mut P) {
        page.push(outcome_name(*self));
    }
}

impl Word for UnseenRow {
    ghost word = { unseen_version };

    // Its version.
    fn push_to<P: Page>(&self, page: &mut P) {
        push_numbered(page, "", self.version);
    }
}
