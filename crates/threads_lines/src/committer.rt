//! A proxy that commits its batches one after another, then an empty closing one, and prints the
//! answer to each.

ghost use Rattle.std.specs.Prelude.{◌≡◌, [], length, IfOk, OnOk, string_bytes};
ghost use Rattle.threads_lines.specs.Answers.{AreBatchLines, IsBatchLine, IsClosingLine};
ghost use Rattle.threads_lines.specs.Answers.{IsCommitOf, IsLineOf, SeesEnd};
ghost use Rattle.threads_lines.specs.Histories.{IsStartOf};
ghost use Rattle.threads_lines.specs.Lines.{batch_line};
ghost use Rattle.threads_lines.specs.Parts.{GrowsBy, IsInTurns};

use crate::faults::{RunFault, printed_refusal};
use crate::lines::{
    print_closing_version, print_finished_batch, print_refused_batch, print_refused_closing,
};
use crate::run_history::RunHistory;
use agreed_ledger::{Ledger, Naming, Refusal, Sequencer};
use locked_cluster::{Asking, NotedFinished, SharedProxy};
use model::ProxyNumber;
use mutation::Batch;
use std::alloc::Global;
use std::sync::Wait;

/// A proxy of a cluster, and what it commits by.
#[derive(Drop)]
pub struct Committer<'a, 'l, N: Naming, A: Asking<N>> {
    /// The number of the proxy.
    pub number: ProxyNumber,
    /// The proxy.
    pub proxy: &'a SharedProxy<'l, N>,
    /// The ledger of its cluster.
    pub ledger: &'a Ledger<N>,
    /// The sequencer of its cluster.
    pub sequencer: &'a Sequencer<'l, N>,
    /// How it asks the resolvers.
    pub asking: &'a A,
    ghost own: { proxy.now ≡ number },
}

/// The lines of answers, and what is known by them: a history that begins with the records up to each
/// finished batch, and how many batches are finished.
#[derive(Drop)]
pub struct AnsweredLines<N: Naming> {
    /// The lines.
    pub text: String,
    /// The history.
    pub history: RunHistory<N>,
}

/// The outcome of a commit that does not end the run.
#[derive(Drop)]
enum Committed<N: Naming> {
    /// The batch is finished.
    Finished(NotedFinished<N>),
    /// The batch got no record: the ledger is full, or there are no more versions.
    NoRecord(Refusal),
}

impl<'a, 'l, N: Naming, A: Asking<N>> Committer<'a, 'l, N, A> {
    /// Commits the batches in order, and returns the lines of their answers with what they tell of the
    /// history. If it fails, other proxies may wait for this one until its resolvers are closed.
    pub fn run<R: Wait>(
        &self,
        rt: &R,
        alloc: Global,
        batches: &[Batch],
    ) -> Result<AnsweredLines<N>, RunFault>
        ensures { IfOk result (λ answered.
            AreBatchLines N.cells.config (length N.cells.records) self.now.number batches.now
            answered.history (string_bytes answered.text)) }
    {
        let mut text = String::new(alloc);
        let mut history = RunHistory::new(alloc);
        self.commit_and_print_batches(rt, &mut text, &mut history, batches)?;
        Ok(AnsweredLines { text, history })
    }

    fn commit_and_print_batches<R: Wait>(
        &self,
        rt: &R,
        text: &mut String,
        history: &mut RunHistory<N>,
        batches: &[Batch],
    ) -> Result<(), RunFault>
        ensures { OnOk result (GrowsBy (IsInTurns
            (IsBatchLine N.cells.config (length N.cells.records) self.now.number batches.now)
            history.old (length batches.now) history.new)
            (string_bytes text.old) (string_bytes text.new)) }
    {
        for (place, batch) in batches.iter().enumerate() {
            self.commit_and_print_batch(rt, text, history, place, batch)?;
        }
        Ok(())
    }

    /// Commits a batch, prints its answer, and learns the records up to it, or all that were given out if
    /// it gets no record. Fails with `OutOfMemory` if an allocation failed, and with `Refused` if the
    /// cluster refuses the batch otherwise, if the history knows its row, or if it gets no record though
    /// one could follow those given out.
    fn commit_and_print_batch<R: Wait>(
        &self,
        rt: &R,
        text: &mut String,
        history: &mut RunHistory<N>,
        place: usize,
        batch: &Batch,
    ) -> Result<(), RunFault>
        ensures kept { IsStartOf history.old.records history.new.records }
        ensures line { OnOk result (GrowsBy
            (IsLineOf N.cells.config (length N.cells.records) self.now.number
            (batch_line self.now.number place) batch.now history.old history.new)
            (string_bytes text.old) (string_bytes text.new)) }
    {
        match self.commit(rt, batch)? {
            Committed::Finished(noted) => {
                history.see_finished(&noted)?;
                print_finished_batch(text, self.number, place, noted.value())?;
            }
            Committed::NoRecord(refusal) => {
                self.see_end(rt, history, &refusal)?;
                print_refused_batch(text, self.number, place, &refusal)?;
            }
        }
        Ok(())
    }

    /// Commits an empty batch, by which the proxy closes, prints its answer, and learns the records up to
    /// it, or all that were given out if it gets no record. Fails as for any batch.
    pub fn commit_and_print_closing<R: Wait>(
        &self,
        rt: &R,
        text: &mut String,
        history: &mut RunHistory<N>,
        empty: &Batch,
    ) -> Result<(), RunFault>
        requires { empty.now ≡ [] }
        ensures kept { IsStartOf history.old.records history.new.records }
        ensures line { OnOk result (GrowsBy
            (IsClosingLine N.cells.config (length N.cells.records) self.now.number
            history.old history.new)
            (string_bytes text.old) (string_bytes text.new)) }
    {
        match self.commit(rt, empty)? {
            Committed::Finished(noted) => {
                history.see_finished(&noted)?;
                print_closing_version(text, self.number, noted.value())?;
            }
            Committed::NoRecord(refusal) => {
                self.see_end(rt, history, &refusal)?;
                print_refused_closing(text, self.number, &refusal)?;
            }
        }
        Ok(())
    }

    /// Learns the records that the sequencer has given out, and sees that none can follow them, for the
    /// reason that the refusal tells.
    fn see_end<R: Wait>(
        &self,
        rt: &R,
        history: &mut RunHistory<N>,
        refusal: &Refusal,
    ) -> Result<(), RunFault>
        ensures kept { IsStartOf history.old.records history.new.records }
        ensures seen { OnOk result (SeesEnd N.cells.config (length N.cells.records) refusal.now
            history.old history.new) }
    {
        let sequencer = self.sequencer.lock(rt);
        history.see_end(self.ledger, &sequencer, refusal)
    }

    /// Commits a copy of the batch.
    fn commit<R: Wait>(&self, rt: &R, batch: &Batch) -> Result<Committed<N>, RunFault>
        ensures { IfOk result
            (IsCommitOf N.cells.config (length N.cells.records) self.now.number batch.now) }
    {
        let copy = batch.copy()?;
        match self.proxy.commit(rt, self.sequencer, self.asking, copy) {
            Ok((noted, _guard)) => {
                // (its contract says what the type keeps of the outcomes)
                let _finished = noted.value();
                Ok(Committed::Finished(noted))
            }
            Err(fault) => Ok(Committed::NoRecord(printed_refusal(&fault)?)),
        }
    }
}
