//! A resolver as it is while its lock is held: it judges into its verdict cells, repeats replies,
//! refuses and closes.

ghost use Rattle.std.specs.Prelude.{◌≡◌, ◌<◌, ◌≤◌, length, Ok, IfOk, IfErr, OnOk, OnErr, IsFalse};
ghost use Rattle.facts.specs.Stretches.{appended, end_of};
ghost use Rattle.facts.specs.Unsets.{IfTaken};
ghost use Rattle.model.specs.ResolverMemory.{course};
ghost use Rattle.model.specs.ResolverMemory as way;
ghost use Rattle.agreed_ledger.specs.Cells.{AreKnownAt, verdict_cells, with_rows};
ghost use Rattle.state_memory.specs.Answers.{GainsRequest, IsRememberedCount, RepliesAfterJudged};
ghost use Rattle.locked_resolvers.specs.Resolvers.{HasOffered};
ghost use Rattle.locked_resolvers.specs.Resolvers.{IsLockedResolver, IsNewLockedResolver};
ghost use Rattle.locked_resolvers.specs.Resolvers.{IsOfferRefusal, TellsTaken, after_refusal};
ghost use Rattle.locked_resolvers.specs.Resolvers.{closed_resolver, is_early};
ghost use Rattle.locked_resolvers.specs.declared.refusal.Refusal.TheVariants as refusals;

use crate::noted_reply::NotedReply;
use crate::refusal::Refusal;
use crate::refused::Refused;
use crate::request::Request;
use agreed_ledger::{Column, Ledger, Naming, Records, VerdictNote};
use facts::NotSet;
use model::{Reply, ResolverNumber, Version};
use request_builder::Request as PlainRequest;
use share_judge::Verdicts;
use state_memory::{Answer, NotJudged, Resolver};
use std::alloc::Global;
use std::marker::Model;

/// A resolver as it stands under its lock: the records of the rows that it judged, its verdict cells
/// of these rows, and what it keeps of the requests.
///
/// By its type the records are a history, each cell holds the verdicts of the definition on these
/// records, and the resolver stands for the requests for them.
#[derive(Drop)]
pub struct LockedResolver<N: Naming> {
    memory: Resolver,
    records: Records<N>,
    column: Column<N>,
    closed: bool,
}

impl<N: Naming> Model for LockedResolver<N> {
    ghost use Rattle.std.specs.Prelude.{◌≡◌};
    ghost use Rattle.locked_resolvers.specs.Resolvers.{IsLockedResolver, LockedResolverView};

    ghost Value = { LockedResolverView };

    ghost view = { λ r. record {
      memory = r.memory;
      records = r.records.known;
      column = r.column.rows.known;
      closed = r.closed;
    } };

    ghost invariant = { λ r. (r.records.first ≡ 0) × (r.column.rows.first ≡ 0)
        × (r.column.resolver ≡ r.memory.number)
        × IsLockedResolver N.cells.config (record {
          memory = r.memory;
          records = r.records.known;
          column = r.column.rows.known;
          closed = r.closed;
        }) };
}

/// What judging a request gives: the reply, and the column that has the new cell, twice.
#[derive(Drop)]
struct JudgedReply<N: Naming> {
    reply: Reply,
    column: Column<N>,
    noted: Column<N>,
}

impl<N: Naming> LockedResolver<N> {
    /// Returns the resolver of this number before its first request. Fails with `WrongResolver` if
    /// the cluster has no such resolver, and otherwise only with `OutOfMemory`.
    pub fn new(
        alloc: Global,
        ledger: &Ledger<N>,
        number: ResolverNumber,
    ) -> Result<LockedResolver<N>, Refusal>
        ensures made { IfOk result (IsNewLockedResolver number) }
        ensures refused { IfErr result (λ refusal.
            (N.cells.config.resolvers ≤ number → refusal ≡ refusals.WrongResolver)
            × (number < N.cells.config.resolvers → refusal ≡ refusals.OutOfMemory)) }
    {
        let config = ledger.config();
        if config.resolvers() <= number {
            return Err(Refusal::WrongResolver);
        }
        Ok(LockedResolver {
            memory: Resolver::new(alloc, number, config.proxies(), config.window())?,
            records: Records::new(alloc),
            column: Column::new(alloc, number),
            closed: false,
        })
    }

    /// The number of the resolver.
    pub fn number(&self) -> ResolverNumber
        ensures value { result ≡ self.now.memory.number }
        ensures kept { IsLockedResolver N.cells.config self.now }
    {
        self.column.resolver()
    }

    /// The version of the last request that it judged, or 0.
    pub fn version(&self) -> Version
        ensures value { result ≡ self.now.memory.version }
        ensures kept { IsLockedResolver N.cells.config self.now }
    {
        self.memory.version()
    }

    /// How many versions it remembers, since some proxy has not reached them.
    pub fn remembered(&self) -> usize
        ensures rows { result ≡ length self.now.memory.rows }
        ensures count { IsRememberedCount self.now.memory result }
    {
        self.memory.remembered()
    }

    /// Whether it is closed: it then refuses every request.
    pub fn is_closed(&self) -> bool
        ensures { result ≡ self.now.closed }
    {
        self.closed
    }

    /// The records of the rows that it judged, from row 0.
    pub fn records(&self) -> &Records<N>
        ensures value { result.now ≡ record { first = 0; known = self.now.records } }
        ensures kept { IsLockedResolver N.cells.config self.now }
    {
        &self.records
    }

    /// Its verdict cells of these rows.
    pub fn column(&self) -> &Column<N>
        ensures value { result.now ≡ record {
          resolver = self.now.memory.number;
          rows = record { first = 0; known = self.now.column };
        } }
        ensures kept { IsLockedResolver N.cells.config self.now }
    {
        &self.column
    }

    /// Closes it.
    pub fn close(&mut self)
        ensures { self.new ≡ closed_resolver self.old }
    {
        self.closed = true;
    }

    /// Whether the request has to wait: the resolver is open, and the request is to it and comes
    /// too early.
    pub fn is_early(&self, request: &Request<N>) -> bool
        ensures { result ≡ is_early self.now request.now.plain }
    {
        !self.closed && request.resolver() == self.number() && self.version() < request.previous()
    }

    /// Answers a request as the definition does. A request that comes next is judged, and the cell of
    /// its row is set.
    ///
    /// Fails with `Closed` if the resolver is closed, and otherwise with the refusal of the
    /// definition. A request that does not fail so fails only with `OutOfMemory`, or with `CellTaken`
    /// and a note that knows the verdicts in the cell of its row, if that cell held some before.
    /// Each failure returns the request and leaves the resolver unchanged, but that `CellTaken`
    /// closes it.
    pub fn offer(
        &mut self,
        ledger: &Ledger<N>,
        request: Request<N>,
    ) -> Result<NotedReply<N>, Refused<N>>
        ensures offered { IfOk result (HasOffered self.old request self.new) }
        ensures refused { IfErr result (λ refused.
            IsOfferRefusal self.old request.plain refused.refusal) }
        ensures taken { IfErr result (λ refused. TellsTaken request.plain.row
            self.old.memory.number refused.refusal refused.taken) }
        ensures left { IfErr result (λ refused.
            self.new ≡ after_refusal self.old refused.refusal) }
        ensures back { IfErr result (λ refused. refused.request ≡ request) }
    {
        if self.closed {
            return Err(Refused::by(Refusal::Closed, request));
        }
        if self.memory.comes_next(request.plain()) {
            self.judge(ledger, request)
        } else {
            self.repeat_or_refuse(request)
        }
    }

    /// Judges a request that comes next.
    fn judge(
        &mut self,
        ledger: &Ledger<N>,
        request: Request<N>,
    ) -> Result<NotedReply<N>, Refused<N>>
        requires open { IsFalse self.old.closed }
        requires next { course self.old.memory request.plain ≡ Ok way.Judge }
        ensures offered { IfOk result (HasOffered self.old request self.new) }
        ensures refused { IfErr result (λ refused.
            IsOfferRefusal self.old request.plain refused.refusal) }
        ensures taken { IfErr result (λ refused. TellsTaken request.plain.row
            self.old.memory.number refused.refusal refused.taken) }
        ensures left { IfErr result (λ refused.
            self.new ≡ after_refusal self.old refused.refusal) }
        ensures back { IfErr result (λ refused. refused.request ≡ request) }
    {
        let Ok(records) = request.records().copy() else {
            return Err(Refused::by(Refusal::OutOfMemory, request));
        };
        self.records.agree(&records);
        // (their contracts say that the ledger has a verdict cell for the row)
        let _end = records.end();
        let _rows = ledger.rows();
        match judge_into_cell(&mut self.memory, &self.column, ledger, request.plain()) {
            Ok(
                JudgedReply {
                    reply,
                    column,
                    noted,
                },
            ) => {
                self.records = request.into_records();
                self.column = column;
                Ok(NotedReply::of(reply, records, noted))
            }
            Err(unset) => {
                let refused = Refused::unset(unset, request);
                self.closed = matches!(refused.refusal, Refusal::CellTaken);
                Err(refused)
            }
        }
    }

    /// Gives a request that does not come next its reply again, or refuses it.
    fn repeat_or_refuse(&mut self, request: Request<N>) -> Result<NotedReply<N>, Refused<N>>
        requires open { IsFalse self.old.closed }
        requires other { course self.old.memory request.plain ≡ Ok way.Judge → ⊥ }
        ensures offered { IfOk result (HasOffered self.old request self.new) }
        ensures refused { IfErr result (λ refused.
            IsOfferRefusal self.old request.plain refused.refusal) }
        ensures taken { IfErr result (λ refused. TellsTaken request.plain.row
            self.old.memory.number refused.refusal refused.taken) }
        ensures left { IfErr result (λ refused.
            self.new ≡ after_refusal self.old refused.refusal) }
        ensures back { IfErr result (λ refused. refused.request ≡ request) }
    {
        let reply = match self.memory.offer(request.plain()) {
            Ok(Answer::Again(reply)) => reply,
            Ok(Answer::Judged(_)) => unreachable!(),
            Err(refusal) => return Err(Refused::by(Refusal::of_offer(refusal), request)),
        };
        let Ok(column) = self.column.copy() else {
            return Err(Refused::by(Refusal::OutOfMemory, request));
        };
        self.records.agree(request.records());
        Ok(NotedReply::of(reply, request.into_records(), column))
    }
}

/// Judges the request, which comes next, and gives the next cell of the column its verdicts.
///
/// Fails with `Taken` and a note that knows the cell's verdicts if it held some before, and
/// otherwise only if an allocation fails. The resolver is then unchanged.
fn judge_into_cell<N: Naming>(
    memory: &mut Resolver,
    column: &Column<N>,
    ledger: &Ledger<N>,
    request: &PlainRequest,
) -> Result<JudgedReply<N>, NotSet<VerdictNote<N>>>
    requires next { course memory.old request.now ≡ Ok way.Judge }
    requires room { end_of column.now.rows < length (verdict_cells N.cells column.now.resolver) }
    ensures reply { IfOk result (λ gained.
        RepliesAfterJudged memory.old request.now gained.reply) }
    ensures gains { OnOk result (GainsRequest memory.old request.now memory.new) }
    ensures column { IfOk result (λ gained. gained.column
        ≡ with_rows column.now (appended column.now.rows gained.reply.verdicts)) }
    ensures noted { IfOk result (λ gained. gained.noted ≡ gained.column) }
    ensures number { memory.new.number ≡ memory.old.number }
    ensures proxies { length memory.new.proxies ≡ length memory.old.proxies }
    ensures window { memory.new.written.window ≡ memory.old.written.window }
    ensures err { OnErr result (memory.new ≡ memory.old) }
    ensures taken { IfErr result (λ unset.
        IfTaken unset (AreKnownAt (end_of column.now.rows) column.now.resolver)) }
{
    match memory.judge_with(request, |verdicts| column_with(column, ledger, verdicts)) {
        Ok((reply, columns)) => {
            let (column, noted) = columns;
            Ok(JudgedReply {
                reply,
                column,
                noted,
            })
        }
        Err(NotJudged::OutOfMemory(_keep)) => Err(NotSet::OutOfMemory),
        Err(NotJudged::NotKept(unset)) => Err(unset),
    }
}

/// The column with these verdicts in its next cell, and a copy of it.
///
/// Fails with `Taken` and a note that knows the cell's verdicts if it held some before, and
/// otherwise only with `OutOfMemory`.
fn column_with<N: Naming>(
    column: &Column<N>,
    ledger: &Ledger<N>,
    verdicts: Verdicts,
) -> Result<(Column<N>, Column<N>), NotSet<VerdictNote<N>>>
    requires { end_of column.now.rows < length (verdict_cells N.cells column.now.resolver) }
    ensures column { IfOk result (λ made. made.0
        ≡ with_rows column.now (appended column.now.rows verdicts)) }
    ensures copy { IfOk result (λ made. made.1 ≡ made.0) }
    ensures taken { IfErr result (λ unset.
        IfTaken unset (AreKnownAt (end_of column.now.rows) column.now.resolver)) }
{
    let Ok(mut more) = column.copy() else {
        return Err(NotSet::OutOfMemory);
    };
    match more.set_and_copy(ledger, verdicts) {
        Ok(noted) => Ok((more, noted)),
        Err((unset, _verdicts)) => Err(unset),
    }
}
