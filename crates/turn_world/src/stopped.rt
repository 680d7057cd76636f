//! A run of events that stopped before its end.

use crate::answer::Answer;
use crate::refusal::Refusal;

/// A run of events that stopped before its end, since an allocation failed.
#[derive(Debug, Drop)]
pub struct Stopped {
    /// How many events were carried out, from the first one on. A refused event counts.
    pub carried_out: usize,
    /// The results of these events, in order.
    pub answers: Vec<Result<Answer, Refusal>>,
}
