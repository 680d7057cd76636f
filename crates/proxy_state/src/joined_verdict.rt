//! The verdict on a transaction, joined from the verdicts of its resolvers.

ghost use Rattle.std.specs.Prelude.{◌≡◌};
ghost use Rattle.model.specs.Verdicts.{joined, least_of};

use model::Verdict;

/// The least of the verdicts, in the order Conflict, Too old, Committed (release 7.1); Committed if
/// there is none (this project's profile).
#[tactic(auto, using(crate::proofs::Joins::least_of_least))]
pub fn join(verdicts: &[Verdict]) -> Verdict
    ensures { result ≡ joined verdicts.now }
{
    let mut least = Verdict::Committed;
    for verdict in verdicts {
        least = least_of(least, *verdict);
    }
    least
}

pub(crate) fn least_of(a: Verdict, b: Verdict) -> Verdict
    ensures { result ≡ least_of a b }
{
    match (a, b) {
        (Verdict::Conflict, _) | (_, Verdict::Conflict) => Verdict::Conflict,
        (Verdict::TooOld, _) | (_, Verdict::TooOld) => Verdict::TooOld,
        (Verdict::Committed, Verdict::Committed) => Verdict::Committed,
    }
}
