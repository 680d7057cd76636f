//! The answer to an event that is not refused.

ghost use Rattle.std.specs.Prelude.{◌≡◌, IfOk};

use model::{Finished, RowNumber, Version};
use state_memory::Answer as OfferAnswer;
use system_keys::OutOfMemory;

/// The answer to an event that is not refused.
#[derive(Clone, Debug, Drop)]
pub enum Answer {
    /// The batch has the record at this row, of this version.
    Sequenced { row: RowNumber, version: Version },
    /// The range belongs to its new resolver from this version on.
    Moved { date: Version },
    /// The resolver judged the request, or gave its reply again.
    Offered(OfferAnswer),
    /// The proxy finished the record.
    Finished(Finished),
}

impl Answer {
    /// Returns an equal copy. Fails only with `OutOfMemory`.
    pub fn copy(&self) -> Result<Answer, OutOfMemory>
        ensures { IfOk result (λ copy. copy ≡ self.now) }
    {
        match self {
            Answer::Sequenced { row, version } => Ok(Answer::Sequenced {
                row: *row,
                version: *version,
            }),
            Answer::Moved { date } => Ok(Answer::Moved { date: *date }),
            Answer::Offered(answer) => Ok(Answer::Offered(answer.copy()?)),
            Answer::Finished(finished) => Ok(Answer::Finished(finished.copy()?)),
        }
    }
}
