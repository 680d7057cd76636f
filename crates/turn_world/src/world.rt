//! A cluster without threads: it carries out events one by one or in a run, or all that are left.

ghost use Rattle.std.specs.Prelude.{◌≡◌, [], ◌∷◌, ◌++◌, ◌+◌, ◌<◌, ◌≤◌, map, vec_len};
ghost use Rattle.std.specs.Vec.{vec_capacity};
ghost use Rattle.std.specs.Prelude.{List, Result, Err, Some, IsOk, IfOk, OnOk, OnErr, IsTrue, IsFalse};
ghost use Rattle.std.specs.Prelude.{length, slice_get};
ghost use Rattle.std.specs.Prelude.{MatchOption, MatchResult};
ghost use Rattle.model.specs.Configs.{IsConfig};
ghost use Rattle.model.specs.Records.{Record as TheRecord};
ghost use Rattle.model.specs.Stamps.{AdmittedTransaction};
ghost use Rattle.model.specs.World.{Sequence, MoveRange, Offer as OfferOf, Finish};
ghost use Rattle.model.specs.World.{initial_world};
ghost use Rattle.model.specs.World.{IsSound, next_record};
ghost use Rattle.model.specs.Serial.{IsSerial};
ghost use Rattle.model.specs.Offers.{sent_request};
ghost use Rattle.model.specs.Turns.{after_event, answer_to_event, IsResolverOf, IsProxyOf};
ghost use Rattle.turn_world.specs.Events.{event_of};
ghost use Rattle.endings.specs.EventsLeft.{events_left, finishes_left, is_unfinished};
ghost use Rattle.turn_world.specs.KeptRequests.{HasNumbersOf, bare_request};
ghost use Rattle.turn_world.specs.Steps.{AnswersEvent, MaySequence, HasCarriedOut, HasStopped};
ghost use Rattle.turn_world.specs.Ending.{HasFinishedAll};
ghost use Rattle.turn_world.specs.declared.answer.Answer.{Answer as TheAnswer};
ghost use Rattle.turn_world.specs.declared.refusal.Refusal.{Refusal as TheRefusal};

use crate::answer::Answer;
use crate::event::Event;
use crate::finishing::{finish_at, first_not_judged, kept_replies_at};
use crate::kept_record::{KeptRecord, drop_requests_at};
use crate::offering::{cluster_refusal, offer_kept};
use crate::offers_left::push_offers;
use crate::past_record::PastRecord;
use crate::refusal::Refusal;
use crate::sent_requests::{PastRequests, SentRequests};
use crate::sequencing::begin_at;
use crate::starting::{list_of_zeros, new_proxies, new_resolvers};
use crate::stopped::Stopped;
use model::{Config, Move, ProxyNumber, ResolverNumber, RowNumber, VERSION_LIMIT, Version};
use mutation::Batch;
use proxy_state::{OwnedMoves, Proxy};
use request_builder::{Record, RequestHeader};
use state_memory::{Answer as OfferAnswer, Resolver};
use std::alloc::Global;
use std::marker::Model;
use system_keys::{KeyRange, OutOfMemory};

/// A cluster without threads, which carries out one event after another. It sequences by itself.
#[derive(Drop)]
pub struct TurnWorld {
    config: Config,
    rows: Vec<KeptRecord>,
    moves: OwnedMoves,
    judged_counts: Vec<usize>,
    finished: Vec<usize>,
    resolvers: Vec<Resolver>,
    proxies: Vec<Proxy>,
    last: Version,
}

impl Model for TurnWorld {
    ghost use Rattle.model.specs.Turns.{TurnCluster};
    ghost use Rattle.turn_world.specs.Kept.{world_of, requests_of, AreRowsKept, IsKept};

    ghost Value = { TurnCluster };

    ghost view = { λ t. record {
      config = t.config;
      world = world_of t.rows.items t.moves t.judged_counts.items t.finished.items;
    } };

    ghost invariant = { λ t. IsKept t.config
        (world_of t.rows.items t.moves t.judged_counts.items t.finished.items)
        t.resolvers.items t.proxies.items (requests_of t.rows.items) t.last
        × AreRowsKept t.judged_counts.items t.rows.items };
}

impl TurnWorld {
    /// Returns the cluster before its first event. Fails only with `OutOfMemory`.
    pub fn new(alloc: Global, config: &Config) -> Result<TurnWorld, OutOfMemory>
        ensures { IfOk result (λ made.
            made ≡ record { config = config.now; world = initial_world config.now }) }
    {
        Ok(TurnWorld {
            config: *config,
            rows: Vec::new(alloc),
            moves: OwnedMoves::new(alloc, config)?,
            judged_counts: list_of_zeros(alloc, config.resolvers())?,
            finished: list_of_zeros(alloc, config.proxies())?,
            resolvers: new_resolvers(alloc, config)?,
            proxies: new_proxies(alloc, config)?,
            last: 0,
        })
    }

    /// The numbers of the cluster, which are within their limits. Its world is sound, and its records
    /// obey the rule of commit.
    pub fn config(&self) -> &Config
        ensures value { result.now ≡ self.now.config }
        ensures limits { IsConfig self.now.config }
        ensures sound { IsSound self.now.config self.now.world }
        ensures serial { IsSerial self.now.config self.now.world.history }
    {
        &self.config
    }

    /// The proxy of this number, or None if the cluster has none.
    pub fn proxy(&self, proxy: ProxyNumber) -> Option<&Proxy>
        ensures { MatchOption result (self.now.config.proxies ≤ proxy)
            (λ found. (proxy < self.now.config.proxies)
            × IsProxyOf self.now.config self.now.world proxy found.now) }
    {
        self.proxies.get(proxy)
    }

    /// The resolver of this number, or None if the cluster has none.
    pub fn resolver(&self, resolver: ResolverNumber) -> Option<&Resolver>
        ensures { MatchOption result (self.now.config.resolvers ≤ resolver)
            (λ found. (resolver < self.now.config.resolvers)
            × IsResolverOf self.now.config self.now.world resolver found.now) }
    {
        self.resolvers.get(resolver)
    }

    /// Carries out one event, and returns its answer. A refused event changes nothing, and the event
    /// fails with `OutOfMemory` only if it is not refused otherwise.
    ///
    /// The records of the cluster obey the rule of commit after each event.
    pub fn step(&mut self, event: &Event) -> Result<Answer, Refusal>
        ensures answer { AnswersEvent self.old (event_of event.now) result }
        ensures ok { OnOk result (self.new ≡ after_event self.old (event_of event.now)) }
        ensures err { OnErr result (self.new ≡ self.old) }
        ensures serial { IsSerial self.new.config self.new.world.history }
    {
        let result = self.carry_out(event);
        // (reading a field shows what the type keeps: the rule of commit)
        let _ = &self.config;
        result
    }

    /// Carries out one event of the caller as [`TurnWorld::step`] does. The keys and values of a batch
    /// become those of its record: only a value with a stamp is made anew.
    pub fn step_owned(&mut self, event: Event) -> Result<Answer, Refusal>
        ensures answer { AnswersEvent self.old (event_of event) result }
        ensures ok { OnOk result (self.new ≡ after_event self.old (event_of event)) }
        ensures err { OnErr result (self.new ≡ self.old) }
        ensures serial { IsSerial self.new.config self.new.world.history }
    {
        let result = self.carry_out_owned(event);
        // (reading a field shows what the type keeps: the rule of commit)
        let _ = &self.config;
        result
    }

    /// Carries out the events in order, and returns their results. A refused event changes nothing,
    /// and the run goes on with the next one. It stops early only if an allocation fails: before the
    /// first event, or before one that is not refused. Then the cluster is as the events before left
    /// it.
    ///
    /// Read a proxy by [`TurnWorld::proxy`]: its journal is the history's up to its version,
    /// and its metadata is the fold of this journal. The records of the cluster obey the rule of
    /// commit, also after a run that stopped.
    pub fn run(
        &mut self,
        alloc: Global,
        events: &[Event],
    ) -> Result<Vec<Result<Answer, Refusal>>, Stopped>
        ensures results { MatchResult result
            (λ answers. HasCarriedOut self.old self.new (map event_of events.now) answers.items)
            (λ stopped. HasStopped self.old self.new (map event_of events.now) stopped) }
        ensures serial { IsSerial self.new.config self.new.world.history }
    {
        let result = self.carry_out_all(alloc, events);
        // (reading a field shows what the type keeps: the rule of commit)
        let _ = &self.config;
        result
    }

    /// Carries out what is left, in the order of [`TurnWorld::events_left`], and returns the results:
    /// none of these events is refused. Afterwards each proxy has finished all its records. No run
    /// reaches that with fewer events, and each one ends in the same cluster.
    ///
    /// It stops early as [`TurnWorld::run`] does; call it again to go on.
    pub fn finish_all(&mut self, alloc: Global) -> Result<Vec<Result<Answer, Refusal>>, Stopped>
        ensures results { MatchResult result
            (λ answers. HasFinishedAll self.old self.new answers.items)
            (λ stopped. HasStopped self.old self.new
            (events_left self.old.config self.old.world) stopped) }
        ensures serial { IsSerial self.new.config self.new.world.history }
    {
        // (its contract says that the numbers are within their limits and that the world is sound)
        let _ = self.config();
        let Ok(events) = self.events_left(alloc) else {
            return Err(Stopped {
                carried_out: 0,
                answers: Vec::new(alloc),
            });
        };
        self.run(alloc, events.as_slice())
    }

    /// What is left to do: row by row the offers to the resolvers that have not judged the row, and
    /// then a finish for each record that its proxy has not finished. Fails only with `OutOfMemory`,
    /// and not if nothing is left.
    pub fn events_left(&self, alloc: Global) -> Result<Vec<Event>, OutOfMemory>
        ensures events { IfOk result (λ events.
            map event_of events.items ≡ events_left self.now.config self.now.world) }
        ensures some { OnErr result (0 < length (events_left self.now.config self.now.world)) }
    {
        let mut events = Vec::new(alloc);
        push_offers(&mut events, self.judged_counts.as_slice(), self.rows.len())?;
        self.push_finishes(&mut events)?;
        Ok(events)
    }

    /// Appends a finish for each unfinished record, row by row. Fails only if there is one.
    fn push_finishes(&self, events: &mut Vec<Event>) -> Result<(), OutOfMemory>
        ensures ok { OnOk result (map event_of events.new.items
            ≡ map event_of events.old.items ++ finishes_left self.now.world) }
        ensures err { OnErr result (0 < length (finishes_left self.now.world)) }
    {
        for row in 0..self.rows.len() {
            let Some(proxy) = self.unfinished_proxy_at(row) else {
                continue;
            };
            events.push(Event::Finish { proxy })?;
        }
        Ok(())
    }

    /// The proxy of the record in this row, unless it has finished the record.
    fn unfinished_proxy_at(&self, row: RowNumber) -> Option<ProxyNumber>
        requires { row < length self.now.world.history }
        ensures { (rec : TheRecord) → slice_get self.now.world.history row ≡ Some rec
            → MatchOption result (IsFalse (is_unfinished self.now.world rec))
            (λ proxy. (proxy ≡ rec.proxy) × IsTrue (is_unfinished self.now.world rec)) }
    {
        let header = self.header_at(row, 0);
        let proxy = header.proxy;
        if self.proxies[proxy].version() < header.version {
            Some(proxy)
        } else {
            None
        }
    }

    /// The numbers of the request to this resolver for the record in this row. Versions lie one step
    /// apart.
    fn header_at(&self, row: RowNumber, resolver: ResolverNumber) -> RequestHeader
        requires { row < length self.now.world.history }
        ensures { (rec : TheRecord) → slice_get self.now.world.history row ≡ Some rec
            → HasNumbersOf (sent_request self.now.config self.now.world resolver rec)
            (bare_request result) }
    {
        let one = &self.rows[row];
        let previous = row as Version * self.config.step();
        RequestHeader {
            resolver,
            proxy: one.proxy,
            row,
            previous,
            version: previous + self.config.step(),
            last_received: one.received,
        }
    }

    /// Carries out the events in order, until an allocation fails.
    fn carry_out_all(
        &mut self,
        alloc: Global,
        events: &[Event],
    ) -> Result<Vec<Result<Answer, Refusal>>, Stopped>
        ensures { MatchResult result
            (λ answers. HasCarriedOut self.old self.new (map event_of events.now) answers.items)
            (λ stopped. HasStopped self.old self.new (map event_of events.now) stopped) }
    {
        let Ok(mut answers) = Vec::with_capacity(alloc, events.len()) else {
            return Err(Stopped {
                carried_out: 0,
                answers: Vec::new(alloc),
            });
        };
        for (carried_out, event) in events.iter().enumerate() {
            let Ok(()) = self.append_answer(event, &mut answers) else {
                return Err(Stopped {
                    carried_out,
                    answers,
                });
            };
        }
        Ok(answers)
    }

    /// Carries out one event, and appends its result to the answers, which must have room for it.
    /// If an allocation fails, the cluster and the answers are unchanged, and the event is not one
    /// that is refused.
    fn append_answer(
        &mut self,
        event: &Event,
        answers: &mut Vec<Result<Answer, Refusal>>,
    ) -> Result<(), OutOfMemory>
        requires { vec_len answers.old < vec_capacity answers.old }
        ensures ok { OnOk result ((told : Result TheAnswer TheRefusal)
            × (answers.new.items ≡ answers.old.items ++ told ∷ [])
            × HasCarriedOut self.old self.new (event_of event.now ∷ []) (told ∷ [])) }
        ensures err { OnErr result ((self.new ≡ self.old)
            × (answers.new.items ≡ answers.old.items)
            × IsOk (answer_to_event self.old (event_of event.now))) }
        ensures room { vec_capacity answers.new ≡ vec_capacity answers.old }
    {
        match self.step(event) {
            Ok(answer) => answers.push_reserved(Ok(answer)),
            Err(refusal) => {
                if refusal.is_out_of_memory() {
                    return Err(OutOfMemory);
                }
                answers.push_reserved(Err(refusal));
            }
        }
        Ok(())
    }

    /// Carries out one event by its own call.
    fn carry_out(&mut self, event: &Event) -> Result<Answer, Refusal>
        ensures answer { AnswersEvent self.old (event_of event.now) result }
        ensures ok { OnOk result (self.new ≡ after_event self.old (event_of event.now)) }
        ensures err { OnErr result (self.new ≡ self.old) }
    {
        match event {
            Event::Sequence { proxy, batch } => self.sequence(*proxy, batch),
            Event::Move { range, dest } => self.move_range(range, *dest),
            Event::Offer { row, resolver } => self.offer(*row, *resolver),
            Event::Finish { proxy } => self.finish(*proxy),
        }
    }

    /// Carries out one event of the caller by its own call.
    fn carry_out_owned(&mut self, event: Event) -> Result<Answer, Refusal>
        ensures answer { AnswersEvent self.old (event_of event) result }
        ensures ok { OnOk result (self.new ≡ after_event self.old (event_of event)) }
        ensures err { OnErr result (self.new ≡ self.old) }
    {
        match event {
            Event::Sequence { proxy, batch } => self.sequence_owned(proxy, batch),
            Event::Move { range, dest } => self.move_range(&range, dest),
            Event::Offer { row, resolver } => self.offer(row, resolver),
            Event::Finish { proxy } => self.finish(proxy),
        }
    }

    /// A batch of the proxy gets the next record, and the proxy begins it.
    fn sequence(&mut self, proxy: ProxyNumber, batch: &Batch) -> Result<Answer, Refusal>
        ensures answer { AnswersEvent self.old (Sequence proxy batch.now) result }
        ensures ok { OnOk result (self.new ≡ after_event self.old (Sequence proxy batch.now)) }
        ensures err { OnErr result (self.new ≡ self.old) }
    {
        self.check_sequence(proxy)?;
        let rec = self.next_record(proxy, batch)?;
        self.begin_next(proxy, &rec)
    }

    /// A batch of the caller gets the next record, and its proxy begins it.
    fn sequence_owned(&mut self, proxy: ProxyNumber, batch: Batch) -> Result<Answer, Refusal>
        ensures answer { AnswersEvent self.old (Sequence proxy batch) result }
        ensures ok { OnOk result (self.new ≡ after_event self.old (Sequence proxy batch)) }
        ensures err { OnErr result (self.new ≡ self.old) }
    {
        self.check_sequence(proxy)?;
        let rec = self.next_record_owned(proxy, batch)?;
        self.begin_next(proxy, &rec)
    }

    /// Whether a batch of the proxy may get a record, or why it is refused.
    fn check_sequence(&self, proxy: ProxyNumber) -> Result<(), Refusal>
        ensures { MatchResult result
            (λ _. MaySequence self.now proxy)
            (λ refusal. (batch : List AdmittedTransaction)
            → AnswersEvent self.now (Sequence proxy batch) (Err refusal)) }
    {
        if self.config.proxies() <= proxy {
            return Err(Refusal::NoSuchProxy);
        }
        if VERSION_LIMIT - self.last <= self.config.step() {
            return Err(Refusal::VersionsEnd);
        }
        Ok(())
    }

    /// The record that the next batch gets.
    fn next_record(&self, proxy: ProxyNumber, batch: &Batch) -> Result<Record, OutOfMemory>
        requires { MaySequence self.now proxy }
        ensures { IfOk result (λ rec.
            rec ≡ next_record self.now.config self.now.world proxy batch.now) }
    {
        let alloc: Global = *self.rows.allocator();
        Record::new(
            alloc,
            self.rows.len(),
            self.last,
            self.last + self.config.step(),
            self.proxies[proxy].last_begun(),
            proxy,
            self.moves.list(),
            batch,
        )
    }

    /// The record that the next batch gets, of a batch of the caller.
    fn next_record_owned(&self, proxy: ProxyNumber, batch: Batch) -> Result<Record, OutOfMemory>
        requires { MaySequence self.now proxy }
        ensures { IfOk result (λ rec.
            rec ≡ next_record self.now.config self.now.world proxy batch) }
    {
        let alloc: Global = *self.rows.allocator();
        Record::of_batch(
            alloc,
            self.rows.len(),
            self.last,
            self.last + self.config.step(),
            self.proxies[proxy].last_begun(),
            proxy,
            self.moves.list(),
            batch,
        )
    }

    /// The proxy begins the next record.
    fn begin_next(&mut self, proxy: ProxyNumber, rec: &Record) -> Result<Answer, Refusal>
        requires may { MaySequence self.old proxy }
        requires next { (batch : List AdmittedTransaction)
            × (rec.now ≡ next_record self.old.config self.old.world proxy batch) }
        ensures answer { (batch : List AdmittedTransaction)
            → rec.now ≡ next_record self.old.config self.old.world proxy batch
            → AnswersEvent self.old (Sequence proxy batch) result }
        ensures ok { OnOk result ((batch : List AdmittedTransaction)
            → rec.now ≡ next_record self.old.config self.old.world proxy batch
            → self.new ≡ after_event self.old (Sequence proxy batch)) }
        ensures err { OnErr result (self.new ≡ self.old) }
    {
        let Ok(()) = self.rows.reserve(1) else {
            return Err(Refusal::OutOfMemory);
        };
        let row = self.rows.len();
        let version = rec.version();
        let received = self.proxies[proxy].version();
        let requests = begin_at(&mut self.proxies, proxy, rec, &self.moves)?;
        let kept = SentRequests {
            requests: Vec::from(requests),
        };
        self.rows.push_reserved(KeptRecord {
            rec: PastRecord::of(rec),
            proxy,
            received,
            sent: PastRequests::of(&kept),
            kept,
        });
        self.last = version;
        Ok(Answer::Sequenced { row, version })
    }

    /// The range moves to the resolver.
    fn move_range(&mut self, range: &KeyRange, dest: ResolverNumber) -> Result<Answer, Refusal>
        ensures answer { AnswersEvent self.old (MoveRange range.now dest) result }
        ensures ok { OnOk result (self.new ≡ after_event self.old (MoveRange range.now dest)) }
        ensures err { OnErr result (self.new ≡ self.old) }
    {
        if self.config.resolvers() <= dest {
            return Err(Refusal::NoSuchResolver);
        }
        let date = self.last + 1;
        let range = range.copy()?;
        self.moves.push(Move { range, date, dest })?;
        Ok(Answer::Moved { date })
    }

    /// The resolver gets the request for the record at this row.
    fn offer(&mut self, row: RowNumber, resolver: ResolverNumber) -> Result<Answer, Refusal>
        ensures answer { AnswersEvent self.old (OfferOf row resolver) result }
        ensures ok { OnOk result (self.new ≡ after_event self.old (OfferOf row resolver)) }
        ensures err { OnErr result (self.new ≡ self.old) }
    {
        if self.rows.len() <= row {
            return Err(Refusal::NoSuchRow);
        }
        if self.config.resolvers() <= resolver {
            return Err(Refusal::WrongResolver);
        }
        let alloc: Global = *self.rows.allocator();
        let header = self.header_at(row, resolver);
        let requests = self.rows[row].kept.requests.as_slice();
        match offer_kept(alloc, &mut self.resolvers, resolver, requests, header) {
            Ok(OfferAnswer::Judged(reply)) => {
                self.judged_counts[resolver] = row + 1;
                Ok(Answer::Offered(OfferAnswer::Judged(reply)))
            }
            Ok(OfferAnswer::Again(reply)) => Ok(Answer::Offered(OfferAnswer::Again(reply))),
            Err(refusal) => Err(cluster_refusal(refusal)),
        }
    }

    /// The proxy finishes the earliest of its records that are begun and not finished.
    fn finish(&mut self, proxy: ProxyNumber) -> Result<Answer, Refusal>
        ensures answer { AnswersEvent self.old (Finish proxy) result }
        ensures ok { OnOk result (self.new ≡ after_event self.old (Finish proxy)) }
        ensures err { OnErr result (self.new ≡ self.old) }
    {
        if self.config.proxies() <= proxy {
            return Err(Refusal::NoSuchProxy);
        }
        let Some(rec) = self.proxies[proxy].next_to_finish() else {
            return Err(Refusal::OutOfTurn { expected: None });
        };
        let row = rec.row();
        let version = rec.version();
        if let Some(resolver) = first_not_judged(self.judged_counts.as_slice(), row) {
            return Err(Refusal::MissingReply { resolver });
        }
        let alloc: Global = *self.rows.allocator();
        let resolvers = self.resolvers.as_slice();
        let replies = kept_replies_at(alloc, &self.config, resolvers, proxy, version)?;
        let count = self.finished[proxy] + 1;
        let finished = finish_at(&mut self.proxies, proxy, replies)?;
        self.finished[proxy] = count;
        drop_requests_at(&mut self.rows, row, alloc);
        Ok(Answer::Finished(finished))
    }
}
