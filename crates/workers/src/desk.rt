//! What a worker keeps of the requests that it took: it offers those that are due, holds others
//! back, and refuses.

ghost use Rattle.std.specs.Prelude.{◌≡◌, ◌≢◌, ◌<◌, ◌≤◌, ◌⊎◌, ℕ, length, slice_get, Some, IsFalse};
ghost use Rattle.std.specs.Prelude.{[], true, IsTrue, MatchOption};
ghost use Rattle.facts.specs.Stretches.{end_of};
ghost use Rattle.model.specs.Numbers.{RowNumber, Version};
ghost use Rattle.workers.specs.Desks.{ClosesByCause, HasCaughtUp, HasLetGo, HasReached, HasRow};
ghost use Rattle.workers.specs.Desks.{IsClosing, IsDueAt, IsEmptyIfClosed, IsHeldOrTold};
ghost use Rattle.workers.specs.Desks.{IsNoneDue, IsSettled, KeepsServing, OnlyFails};
ghost use Rattle.workers.specs.Desks.{OnlyWantsMemory, Serves, has_failed, new_desk};
ghost use Rattle.workers.specs.Desks.{next_row, wanting_memory};
ghost use Rattle.workers.specs.Refusing.{IsAnswerOf, IsClosedWith, IsToldOf, told_by};
ghost use Rattle.locked_resolvers.specs.Requests.{RequestView};
ghost use Rattle.locked_resolvers.specs.Resolvers.{closed_resolver};
ghost use Rattle.locked_resolvers.specs.declared.refusal.Refusal.TheVariants as refusals;
ghost use Rattle.crossbeam_channel.specs.declared.err.SendError.TheVariants as sends;

use crate::gate::{Gate, Place};
use crate::pending_request::PendingRequest;
use crate::refusing::{refuse_as_closed, refuse_by_offer};
use crate::told::{Told, tell};
use crate::worker_answer::{RefusedRequest, WorkerAnswer};
use agreed_ledger::{Column, Naming};
use crossbeam_channel::{SendError, Sender};
use locked_resolvers::{Refusal, Request, ResolverGuard};
use model::{ResolverNumber, RowNumber};
use std::alloc::Global;
use std::marker::Model;
use std::sync::Wait;

/// What a worker keeps of the requests that it took: the verdict cells of the rows that its resolver
/// judged, the requests that it holds back until their turn, whether it is closed, and whether it was
/// refused memory.
#[derive(Drop)]
pub(crate) struct Desk<N: Naming> {
    column: Column<N>,
    held: Vec<PendingRequest<N>>,
    closed: bool,
    wanted: bool,
}

impl<N: Naming> Model for Desk<N> {
    ghost use Rattle.workers.specs.Desks.{DeskView};

    ghost Value = { DeskView };

    ghost view = { λ d. record {
      column = d.column;
      held = d.held.items;
      closed = d.closed;
      wanted = d.wanted;
    } };
}

impl<N: Naming> Desk<N> {
    /// Before any request. Allocates nothing.
    pub(crate) fn new(alloc: Global, resolver: ResolverNumber) -> Desk<N>
        ensures { result ≡ new_desk resolver }
    {
        Desk {
            column: Column::new(alloc, resolver),
            held: Vec::new(alloc),
            closed: false,
            wanted: false,
        }
    }

    /// Serves a request under the guard of the worker's resolver: holds it back, and offers each request
    /// whose turn has come. If the worker is closed afterwards, so is the resolver.
    ///
    /// A request to another resolver is not served: whoever asked sees that no answer will come.
    pub(crate) fn take<R: Wait, G: Gate>(
        &mut self,
        rt: &R,
        guard: &mut ResolverGuard<'_, N>,
        gate: &G,
        pending: PendingRequest<N>,
    )
        requires own { self.old.column.resolver ≡ guard.old.memory.number }
        requires settled { IsSettled self.old }
        requires emptied { IsEmptyIfClosed self.old }
        ensures keeps { KeepsServing self.old self.new }
        ensures settled { IsSettled self.new }
        ensures emptied { IsEmptyIfClosed self.new }
        ensures served { pending.plain.resolver ≡ self.old.column.resolver
            → IsFalse (has_failed self.new)
            → Serves self.new pending.plain.row }
        ensures other { pending.plain.resolver ≢ self.old.column.resolver → self.new ≡ self.old }
        ensures late { IsTrue self.old.closed → OnlyWantsMemory self.old self.new }
        ensures none_due { IsFalse self.old.closed → pending.plain.resolver ≡ self.old.column.resolver
            → IsNoneDue self.new (next_row self.new guard.new) }
        ensures closed { pending.plain.resolver ≡ self.old.column.resolver → IsTrue self.new.closed
            → IsTrue guard.new.closed }
    {
        if pending.request.resolver() != self.column.resolver() {
            return;
        }
        if self.closed {
            guard.close();
            let _told = self.refuse(rt, guard, pending);
            return;
        }
        let _told = self.hold_back(rt, pending);
        self.offer_due(rt, guard, gate);
    }

    /// Closes the resolver under the guard, and answers all requests that are held back, and those that
    /// come later, that it is closed.
    pub(crate) fn close<R: Wait>(&mut self, rt: &R, guard: &mut ResolverGuard<'_, N>)
        ensures resolver { guard.new ≡ closed_resolver guard.old }
        ensures column { self.new.column ≡ self.old.column }
        ensures held { self.new.held ≡ [] }
        ensures closed { self.new.closed ≡ true }
        ensures wanted { IsTrue self.old.wanted → IsTrue self.new.wanted }
        ensures none_held { self.old.held ≡ [] → self.new.wanted ≡ self.old.wanted }
    {
        guard.close();
        self.closed = true;
        self.refuse_held_requests(rt, guard);
    }

    /// Ends the serving. If requests are still held back, closes the resolver under the guard, and
    /// answers each that it is closed.
    pub(crate) fn end<R: Wait>(&mut self, rt: &R, guard: &mut ResolverGuard<'_, N>)
        ensures desk { HasLetGo self.old self.new }
        ensures closed { self.old.held ≢ [] → guard.new ≡ closed_resolver guard.old }
    {
        if self.held.is_empty() {
            return;
        }
        guard.close();
        self.refuse_held_requests(rt, guard);
    }

    /// Answers every held-back request with `Closed`. The guard shows that the resolver is
    /// closed.
    fn refuse_held_requests<R: Wait>(&mut self, rt: &R, guard: &ResolverGuard<'_, N>)
        requires { IsTrue guard.now.closed }
        ensures { HasLetGo self.old self.new }
    {
        while let Some(held) = self.held.pop() {
            let _told = self.refuse(rt, guard, held);
        }
    }

    /// The column, whether it is closed, and whether it was refused memory.
    pub(crate) fn into_parts(self) -> (Column<N>, bool, bool)
        ensures column { result.0 ≡ self.column }
        ensures closed { result.1 ≡ self.closed }
        ensures wanted { result.2 ≡ self.wanted }
    {
        let Desk {
            column,
            held: _,
            closed,
            wanted,
        } = self;
        (column, closed, wanted)
    }

    /// Sends the answer. If whoever asked has gone, the answer is dropped.
    fn tell<R: Wait>(
        &mut self,
        rt: &R,
        reply: Sender<WorkerAnswer<N>>,
        answer: WorkerAnswer<N>,
    ) -> Told
        ensures told { result ≡ told_by answer }
        ensures fails { OnlyFails self.old self.new }
        ensures closed { self.new.closed ≡ self.old.closed }
        ensures wants { OnlyWantsMemory self.old self.new }
    {
        let (told, sent) = tell(rt, reply, answer);
        self.note_if_memory_refused(sent);
        told
    }

    /// Takes up how the sending of an answer ended: nothing changes unless memory was refused.
    fn note_if_memory_refused(&mut self, sent: Result<(), SendError<WorkerAnswer<N>>>)
        ensures fails { OnlyFails self.old self.new }
        ensures closed { self.new.closed ≡ self.old.closed }
        ensures memory { (answer : _) → sent ≡ Err (sends.OutOfMemory answer)
            → self.new ≡ wanting_memory self.old }
        ensures other { ((answer : _) → sent ≢ Err (sends.OutOfMemory answer))
            → self.new ≡ self.old }
    {
        match sent {
            Ok(()) => {}
            Err(SendError::Disconnected(_answer)) => {}
            Err(SendError::OutOfMemory(_answer)) => self.wanted = true,
        }
    }

    /// Answers that the resolver is closed, as the guard shows.
    fn refuse<R: Wait>(
        &mut self,
        rt: &R,
        guard: &ResolverGuard<'_, N>,
        pending: PendingRequest<N>,
    ) -> Told
        requires { IsTrue guard.now.closed }
        ensures told { result ≡ Some refusals.Closed }
        ensures fails { OnlyFails self.old self.new }
        ensures closed { self.new.closed ≡ self.old.closed }
        ensures wants { OnlyWantsMemory self.old self.new }
    {
        let (request, reply) = pending.into_parts();
        self.tell(
            rt,
            reply,
            WorkerAnswer::Refused(refuse_as_closed(guard, request)),
        )
    }

    /// Appends the request to those that are held back. If the allocation fails, answers it with
    /// `OutOfMemory`, and returns what was told.
    fn hold_back<R: Wait>(&mut self, rt: &R, pending: PendingRequest<N>) -> Option<Told>
        ensures keeps { KeepsServing self.old self.new }
        ensures closed { self.new.closed ≡ self.old.closed }
        ensures held { IsFalse (has_failed self.new) → HasRow self.new.held pending.plain.row }
        ensures told { IsHeldOrTold pending self.old self.new result }
    {
        let Err(failed) = self.held.push(pending) else {
            return None;
        };
        self.wanted = true;
        let (request, reply) = failed.value.into_parts();
        let told = self.tell(
            rt,
            reply,
            WorkerAnswer::Refused(RefusedRequest::out_of_memory(request)),
        );
        Some(told)
    }

    /// Offers each request whose turn has come, until there is none. It goes by the rows that the
    /// resolver has judged, so an allocation that fails for the worker's column leaves no such
    /// request over. If the worker is closed then, so is the resolver.
    fn offer_due<R: Wait, G: Gate>(&mut self, rt: &R, guard: &mut ResolverGuard<'_, N>, gate: &G)
        requires { self.old.column.resolver ≡ guard.old.memory.number }
        ensures keeps { KeepsServing self.old self.new }
        ensures settled { IsSettled self.new }
        ensures emptied { IsEmptyIfClosed self.new }
        ensures none_due { IsNoneDue self.new (next_row self.new guard.new) }
        ensures reached { HasReached guard.new self.new }
        ensures closed { IsTrue self.new.closed → IsTrue guard.new.closed }
    {
        self.catch_up_column(guard.column());
        while let Some(place) = self.due(self.next_row(guard)) {
            let _told = self.offer_at_place(rt, guard, gate, place);
        }
        self.refuse_held_if_closed(rt, guard);
    }

    /// The row after all that the worker's column has or the resolver has judged.
    fn next_row(&self, guard: &ResolverGuard<'_, N>) -> RowNumber
        ensures { result ≡ next_row self.now guard.now }
    {
        self.column.end().max(guard.column().end())
    }

    /// Returns the place of the first request whose row is not after the next one to be judged.
    fn due(&self, next: RowNumber) -> Option<usize>
        ensures { MatchOption result (IsNoneDue self.now next) (IsDueAt self.now next) }
    {
        for (place, held) in self.held.iter().enumerate() {
            if held.row() <= next {
                return Some(place);
            }
        }
        None
    }

    /// Enters the gate, offers the request at this place to the resolver, and answers it. Returns what
    /// was told.
    fn offer_at_place<R: Wait, G: Gate>(
        &mut self,
        rt: &R,
        guard: &mut ResolverGuard<'_, N>,
        gate: &G,
        place: usize,
    ) -> Told
        requires due { IsDueAt self.old (next_row self.old guard.old) place }
        requires own { self.old.column.resolver ≡ guard.old.memory.number }
        ensures keeps { KeepsServing self.old self.new }
        ensures fewer { length self.new.held < length self.old.held }
        ensures own { guard.new.memory.number ≡ guard.old.memory.number }
        ensures reached { HasReached guard.new self.new }
        ensures closed { (q : RequestView) → slice_get self.old.held place ≡ Some q
            → ClosesByCause self.old self.new q.plain guard.old guard.new }
        ensures told { (q : RequestView) → slice_get self.old.held place ≡ Some q
            → IsToldOf guard.old q guard.new result }
        ensures entered { (q : RequestView) → slice_get self.old.held place ≡ Some q
            → G.has_entered gate.now
            (record { resolver = guard.old.memory.number; row = q.plain.row }) }
    {
        let (request, reply) = self.held.remove(place).into_parts();
        gate.enter(Place {
            resolver: guard.number(),
            row: request.row(),
        });
        self.offer(rt, guard, request, reply)
    }

    /// Offers the request to the resolver, and answers it. Returns what was told.
    fn offer<R: Wait>(
        &mut self,
        rt: &R,
        guard: &mut ResolverGuard<'_, N>,
        request: Request<N>,
        reply: Sender<WorkerAnswer<N>>,
    ) -> Told
        requires { self.old.column.resolver ≡ guard.old.memory.number }
        ensures keeps { KeepsServing self.old self.new }
        ensures held { self.new.held ≡ self.old.held }
        ensures served { IsFalse (has_failed self.new)
            → request.plain.row < end_of self.new.column.rows }
        ensures own { guard.new.memory.number ≡ guard.old.memory.number }
        ensures reached { HasReached guard.new self.new }
        ensures closed { ClosesByCause self.old self.new request.plain guard.old guard.new }
        ensures told { IsToldOf guard.old request guard.new result }
    {
        let answer = self.offer_to_resolver(guard, request);
        self.tell(rt, reply, answer)
    }

    /// Offers the request to the resolver. Returns the answer: the reply, or why there is none.
    /// If that closes the worker, it closes the resolver too.
    fn offer_to_resolver(
        &mut self,
        guard: &mut ResolverGuard<'_, N>,
        request: Request<N>,
    ) -> WorkerAnswer<N>
        requires { self.old.column.resolver ≡ guard.old.memory.number }
        ensures keeps { KeepsServing self.old self.new }
        ensures held { self.new.held ≡ self.old.held }
        ensures served { IsFalse (has_failed self.new)
            → request.plain.row < end_of self.new.column.rows }
        ensures own { guard.new.memory.number ≡ guard.old.memory.number }
        ensures reached { HasReached guard.new self.new }
        ensures closed { ClosesByCause self.old self.new request.plain guard.old guard.new }
        ensures answer { IsAnswerOf guard.old request guard.new result }
    {
        // (their contracts say what the types keep)
        let _number = guard.number();
        let _plain = request.plain();
        match guard.offer(request) {
            Ok(noted) => {
                self.catch_up_column(guard.column());
                WorkerAnswer::Replied(noted)
            }
            Err(refused) => {
                // (by their types the resolver's records and the request's are of one ledger)
                guard.records().agree(refused.request.records());
                self.catch_up_column(guard.column());
                self.note_refusal(refused.refusal, refused.request.row());
                self.close_resolver_if_closed(guard);
                WorkerAnswer::Refused(refuse_by_offer(guard, refused))
            }
        }
    }

    /// Appends what the resolver's column has from this one's end on.
    fn catch_up_column(&mut self, other: &Column<N>)
        requires own { self.old.column.resolver ≡ other.now.resolver }
        requires first { other.now.rows.first ≡ 0 }
        ensures keeps { KeepsServing self.old self.new }
        ensures held { self.new.held ≡ self.old.held }
        ensures closed { self.new.closed ≡ self.old.closed }
        ensures reached { IsFalse (has_failed self.new)
            → end_of other.now.rows ≤ end_of self.new.column.rows }
        ensures caught { HasCaughtUp other.now self.old self.new }
    {
        let Err(_out_of_memory) = self.column.extend_from(other) else {
            return;
        };
        self.wanted = true;
    }

    /// Takes up a refused offer of a request of this row. `OutOfMemory` is an allocation that failed,
    /// and with `GivenUp` nothing changes, since the row was judged before. Any other refusal closes the
    /// worker; it is `Closed` or `CellTaken`.
    fn note_refusal(&mut self, refusal: Refusal, row: RowNumber)
        ensures fails { OnlyFails self.old self.new }
        ensures served { IsFalse (has_failed self.new) → row < end_of self.new.column.rows }
        ensures memory { refusal ≡ refusals.OutOfMemory → self.new ≡ wanting_memory self.old }
        ensures other { refusal ≢ refusals.OutOfMemory → self.new.wanted ≡ self.old.wanted }
        ensures given_up { (acknowledged : Version) → refusal ≡ refusals.GivenUp acknowledged
            → IsTrue self.old.wanted ⊎ (row < end_of self.old.column.rows)
            → self.new ≡ self.old }
        ensures closed { IsClosing refusal → IsTrue self.new.closed }
    {
        match refusal {
            Refusal::OutOfMemory => self.wanted = true,
            Refusal::GivenUp { .. } if self.wanted || row < self.column.end() => {}
            _ => self.closed = true,
        }
    }

    /// If the worker is closed, closes the resolver.
    fn close_resolver_if_closed(&self, guard: &mut ResolverGuard<'_, N>)
        ensures { IsClosedWith self.now.closed guard.old guard.new }
    {
        if self.closed {
            guard.close();
        }
    }

    /// If the worker is closed, closes the resolver, and answers so to all requests that are held back.
    fn refuse_held_if_closed<R: Wait>(&mut self, rt: &R, guard: &mut ResolverGuard<'_, N>)
        ensures keeps { KeepsServing self.old self.new }
        ensures settled { IsSettled self.old → IsSettled self.new }
        ensures none_due { (next : RowNumber) → IsNoneDue self.old next → IsNoneDue self.new next }
        ensures emptied { IsEmptyIfClosed self.new }
        ensures column { self.new.column ≡ self.old.column }
        ensures open { IsFalse self.old.closed → self.new ≡ self.old }
        ensures closed { self.new.closed ≡ self.old.closed }
        ensures resolver { IsClosedWith self.old.closed guard.old guard.new }
    {
        if !self.closed {
            return;
        }
        guard.close();
        self.refuse_held_requests(rt, guard);
    }
}
