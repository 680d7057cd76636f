//! A request that was not served, with the reason.

ghost use Rattle.std.specs.Prelude.{◌≡◌, None};
ghost use Rattle.locked_resolvers.specs.Refusals.{of_unset, taken_note};

use crate::refusal::Refusal;
use crate::request::Request;
use agreed_ledger::{Naming, VerdictNote};
use facts::NotSet;

/// Why a request was not served, and the request.
#[derive(Drop)]
pub struct Refused<N: Naming> {
    /// Why.
    pub refusal: Refusal,
    /// The request.
    pub request: Request<N>,
    /// With `CellTaken` a note that knows the verdicts in the cell, and otherwise none.
    pub taken: Option<VerdictNote<N>>,
}

impl<N: Naming> Refused<N> {
    /// The request was refused so, and no cell was taken.
    pub(crate) fn by(refusal: Refusal, request: Request<N>) -> Refused<N>
        ensures refusal { result.refusal ≡ refusal }
        ensures request { result.request ≡ request }
        ensures taken { result.taken ≡ None }
    {
        Refused {
            refusal,
            request,
            taken: None,
        }
    }

    /// The request came next, and its cell was not set. If an allocation failed, the refusal is
    /// `OutOfMemory`, never `CellTaken`; if the cell held verdicts before, it is `CellTaken`.
    pub(crate) fn unset(why: NotSet<VerdictNote<N>>, request: Request<N>) -> Refused<N>
        ensures refusal { result.refusal ≡ of_unset why }
        ensures request { result.request ≡ request }
        ensures taken { result.taken ≡ taken_note why }
    {
        match why {
            NotSet::OutOfMemory => Refused::by(Refusal::OutOfMemory, request),
            NotSet::Taken(note) => Refused {
                refusal: Refusal::CellTaken,
                request,
                taken: Some(note),
            },
        }
    }
}
