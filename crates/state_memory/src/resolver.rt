//! The resolver: it judges requests, replies, repeats replies and refuses.

ghost use Rattle.std.specs.Prelude.{◌≡◌, ◌<◌, ◌↔◌, [], ◌∷◌, Ok, Err, length, map, IfOk, IfErr};
ghost use Rattle.std.specs.Prelude.{OnOk, OnErr, None, Some, MatchOption, IsTrue};
ghost use Rattle.system_keys.specs.AsSpecified.{IsAsSpecified};
ghost use Rattle.model.specs.ResolverMemory.{StandsForRequests, course};
ghost use Rattle.model.specs.ResolverMemory as way;
ghost use Rattle.state_memory.specs.Answers.{AnswersAfterJudged, TakesCourse, IsAfterAnswer};
ghost use Rattle.state_memory.specs.Answers.{ComesTo, ForgetsIfJudged, IsJudged, IsRememberedCount};
ghost use Rattle.state_memory.specs.Answers.{fault_of, course_of, AreVerdictsAfterJudged};
ghost use Rattle.share_judge.specs.Answers.{IfNotKept, IfOutOfMemory};
ghost use Rattle.state_memory.specs.Kept.{AreNew, HasRoom, AllIncrease, HasKeptReply, all_kept, reply_of};
ghost use Rattle.state_memory.specs.Kept.{kept_reply, IsPrepared};
ghost use Rattle.state_memory.specs.Order.{RowsIncrease};
ghost use Rattle.std.specs.VecDeque.{deque_len, deque_capacity};

use crate::answer::{Answer, Decision};
use crate::proxy_memory::{ProxyMemory, reached_by_all};
use crate::refusal::Refusal;
use crate::rows::{forget_rows, judge_states, rows_above, unjudged_states};
use model::{ProxyNumber, Reply, ResolverNumber, UnseenRow, UnseenState, Verdict, Version};
use request_builder::Request;
use share_judge::{NotJudged, Verdicts, WriteHistory};
use std::alloc::Global;
use std::collections::VecDeque;
use std::convert::Infallible;
use std::marker::Model;
use system_keys::{Items, OutOfMemory, SharedItems};

/// One resolver, and what it keeps of the requests that it judged.
///
/// Contracts say which lists of requests the resolver stands for, and not how it keeps them.
#[derive(Debug, Drop)]
pub struct Resolver {
    number: ResolverNumber,
    version: Version,
    history: WriteHistory,
    rows: VecDeque<UnseenRow>,
    proxies: Vec<ProxyMemory>,
}

impl Model for Resolver {
    ghost use Rattle.std.specs.Prelude.{◌≡◌};
    ghost use Rattle.model.specs.ResolverMemory.{ResolverView};
    ghost use Rattle.state_memory.specs.Kept.{all_kept};
    ghost use Rattle.state_memory.specs.Order.{AreInOrder};

    ghost Value = { ResolverView };

    ghost view = { λ r. record {
      number = r.number;
      version = r.version;
      written = r.history;
      rows = r.rows.items;
      proxies = all_kept r.proxies.items;
    } };

    ghost invariant = { λ r. (r.history.last ≡ r.version)
        × AreInOrder r.version r.rows.items (all_kept r.proxies.items) };
}

/// What is allocated for a request before its verdicts are kept.
#[derive(Drop)]
struct JudgingRoom {
    /// The rows that the reply tells.
    unseen: SharedItems<UnseenRow>,
    /// A copy, which shares them, for the reply that is kept.
    kept_unseen: SharedItems<UnseenRow>,
    /// The state transactions of the request, each still with the verdict Conflict.
    states: Vec<UnseenState>,
    /// A place for each verdict, for the reply that is kept.
    kept_verdicts: Vec<Verdict>,
}

impl Resolver {
    /// Returns the resolver before any request. `number` is its number, from 0; `proxies` is how
    /// many proxies there are; `window` is how far, in versions, a snapshot may lie before the
    /// version that is judged. Fails only with `OutOfMemory`.
    pub fn new(
        alloc: Global,
        number: ResolverNumber,
        proxies: usize,
        window: u64,
    ) -> Result<Resolver, OutOfMemory>
        ensures number { IfOk result (λ made. made.number ≡ number) }
        ensures proxies { IfOk result (λ made. length made.proxies ≡ proxies) }
        ensures window { IfOk result (λ made. made.written.window ≡ window) }
        ensures stands { IfOk result (λ made. StandsForRequests made []) }
    {
        Ok(Resolver {
            number,
            version: 0,
            history: WriteHistory::new(alloc, window)?,
            rows: VecDeque::new(alloc),
            proxies: new_proxy_memories(alloc, proxies)?,
        })
    }

    /// Returns the version of the last request that it judged, or 0.
    pub fn version(&self) -> Version
        ensures { result ≡ self.now.version }
    {
        self.version
    }

    /// Returns how many versions are remembered, since some proxy has not reached them.
    pub fn remembered(&self) -> usize
        ensures rows { result ≡ length self.now.rows }
        ensures count { IsRememberedCount self.now result }
    {
        self.rows.len()
    }

    /// Returns the reply that it keeps for a proxy at a version, or None if it keeps none.
    pub fn kept_reply(&self, proxy: ProxyNumber, version: Version) -> Option<&Reply>
        ensures { let kept = kept_reply self.now proxy version in
            MatchOption result (kept ≡ None) (λ reply. kept ≡ Some reply.now) }
    {
        match self.proxies.get(proxy) {
            Some(one) => one.reply_at(version),
            None => None,
        }
    }

    /// Returns whether the request comes next, so that it is judged if it is offered now.
    pub fn comes_next(&self, request: &Request) -> bool
        ensures { IsTrue result ↔ (course self.now request.now ≡ Ok way.Judge) }
    {
        request.resolver() == self.number
            && request.proxy() < self.proxies.len()
            && request.last_received() <= request.previous()
            && request.previous() < request.version()
            && request.previous() == self.version
    }

    /// Answers a request: judges it if it comes next, or gives the reply again that it got.
    ///
    /// Fails with `WrongResolver` if the request is to another resolver, otherwise with
    /// `NoSuchProxy` if the proxy is not below the number of proxies, and otherwise with
    /// `OutsideChain` if its version is not above its previous one, or its last received version is
    /// above the previous one. A request at or below the resolver's version then gets its reply
    /// again, if that is kept; it fails with `GivenUp` if the proxy has acknowledged its version, and
    /// otherwise with `OutsideChain`. A later request fails with `Early` if its previous version is
    /// above the resolver's, and with `OutsideChain` if it is below. A request that does not fail
    /// so fails only with `OutOfMemory`. Each failure leaves the resolver unchanged.
    ///
    /// A request that it judges makes it forget the writes that lie at least the window before the
    /// request's version.
    pub fn offer(&mut self, request: &Request) -> Result<Answer, Refusal>
        ensures answer { AnswersAfterJudged self.old request.now result }
        ensures course { TakesCourse self.old request.now result }
        ensures version { IfOk result (λ answer. ComesTo self.old request.now self.new answer) }
        ensures after { IfOk result (λ answer. IsAfterAnswer self.old request.now self.new answer) }
        ensures forgets { IfOk result (λ answer. ForgetsIfJudged self.old request.now self.new answer) }
        ensures number { self.new.number ≡ self.old.number }
        ensures proxies { length self.new.proxies ≡ length self.old.proxies }
        ensures window { self.new.written.window ≡ self.old.written.window }
        ensures err { OnErr result (self.new ≡ self.old) }
    {
        match self.decide(request)? {
            Decision::GiveAgain(reply) => Ok(Answer::Again(reply)),
            Decision::Judge => Ok(Answer::Judged(self.judge(request)?)),
        }
    }

    /// Judges the request, and calls `keep` with a copy of its verdicts. If `keep` returns a value,
    /// the request is judged, and this returns the reply and that value.
    ///
    /// The request must come next, as [`Resolver::comes_next`] tells. The reply and what the
    /// resolver then stands for are those of [`Resolver::offer`]. Fails with `NotKept` if `keep`
    /// returns an error, and otherwise only with `OutOfMemory`, which gives back `keep` itself.
    /// Calling `keep` uses it up, so it was then not called, and nothing fails once it has returned
    /// a value: it may do what cannot be undone. Each failure leaves the resolver unchanged.
    pub fn judge_with<K, E, F: FnOnce(Verdicts) -> Result<K, E>>(
        &mut self,
        request: &Request,
        keep: F,
    ) -> Result<(Reply, K), NotJudged<E, F>>
        requires next { course self.old request.now ≡ Ok way.Judge }
        requires callable { F.IsAlwaysCallable keep }
        ensures judged { IfOk result
            (λ made. IsJudged self.old request.now made.0 self.new) }
        ensures kept { IfOk result (λ made. F.post keep made.0.verdicts (Ok made.1)) }
        ensures err { OnErr result (self.new ≡ self.old) }
        ensures why { IfErr result (λ error. IfNotKept error (λ reason. (verdicts : _)
            × AreVerdictsAfterJudged self.old request.now verdicts
            × F.post keep verdicts (Err reason))) }
        ensures back { IfErr result (λ error. IfOutOfMemory error (λ back. back ≡ keep)) }
    {
        let Ok(
            JudgingRoom {
                unseen,
                kept_unseen,
                mut states,
                mut kept_verdicts,
            },
        ) = prepare(&mut self.rows, &mut self.proxies, request)
        else {
            return Err(NotJudged::OutOfMemory(keep));
        };
        let (verdicts, kept) = self
            .history
            .judge_with(request.version(), request.share(), keep)?;
        overwrite_verdicts(&mut kept_verdicts, verdicts.as_slice());
        judge_states(&mut states, request, verdicts.as_slice());
        self.rows.push_back_reserved(UnseenRow {
            version: request.version(),
            states: Items::from(states),
        });
        let noted = reply(request, Items::from(kept_verdicts), kept_unseen);
        keep_reply(&mut self.proxies, request, noted);
        self.version = request.version();
        forget_rows(&mut self.rows, reached_by_all(&self.proxies));
        self.history.forget(request.version());
        Ok((reply(request, verdicts, unseen), kept))
    }

    /// Returns an equal copy. Fails only with `OutOfMemory`.
    pub fn copy(&self) -> Result<Resolver, OutOfMemory>
        ensures { IfOk result (λ copy. copy ≡ self.now) }
    {
        Ok(Resolver {
            number: self.number,
            version: self.version,
            history: self.history.copy()?,
            rows: self.rows.clone()?,
            proxies: copy_proxy_memories(&self.proxies)?,
        })
    }

    /// What it does with the request.
    fn decide(&self, request: &Request) -> Result<Decision, Refusal>
        ensures { IsAsSpecified fault_of course_of result (course self.now request.now) }
    {
        let version = self.version;
        if request.resolver() != self.number {
            return Err(Refusal::WrongResolver);
        }
        let Some(proxy) = self.proxies.get(request.proxy()) else {
            return Err(Refusal::NoSuchProxy);
        };
        if request.version() <= request.previous() || request.previous() < request.last_received() {
            return Err(Refusal::OutsideChain { version });
        }
        if request.version() <= version {
            return proxy.decide_repeat(request.version(), version);
        }
        if version < request.previous() {
            return Err(Refusal::Early { version });
        }
        if request.previous() < version {
            return Err(Refusal::OutsideChain { version });
        }
        Ok(Decision::Judge)
    }

    /// Judges the request, which comes next, and returns the reply.
    fn judge(&mut self, request: &Request) -> Result<Reply, OutOfMemory>
        requires { course self.old request.now ≡ Ok way.Judge }
        ensures judged { IfOk result (λ reply. IsJudged self.old request.now reply self.new) }
        ensures err { OnErr result (self.new ≡ self.old) }
    {
        match self.judge_with(request, |_verdicts| Ok::<(), Infallible>(())) {
            Ok((reply, ())) => Ok(reply),
            Err(NotJudged::OutOfMemory(_keep)) => Err(OutOfMemory),
            Err(NotJudged::NotKept(never)) => match never {},
        }
    }
}

/// The memory of each of `proxies` proxies before its first request.
fn new_proxy_memories(alloc: Global, proxies: usize) -> Result<Vec<ProxyMemory>, OutOfMemory>
    ensures { IfOk result (λ made. AreNew proxies made.items) }
{
    let mut made = Vec::with_capacity(alloc, proxies)?;
    while made.len() < proxies {
        made.push(ProxyMemory::new(alloc))?;
    }
    Ok(made)
}

/// Allocates what judging the request takes, and makes room for one more row, and for one more reply
/// to its proxy.
fn prepare(
    rows: &mut VecDeque<UnseenRow>,
    proxies: &mut Vec<ProxyMemory>,
    request: &Request,
) -> Result<JudgingRoom, OutOfMemory>
    requires there { request.now.proxy < length proxies.old.items }
    requires order { RowsIncrease rows.old.items }
    ensures rows { rows.new.items ≡ rows.old.items }
    ensures row { OnOk result (deque_len rows.new < deque_capacity rows.new) }
    ensures proxies { all_kept proxies.new.items ≡ all_kept proxies.old.items }
    ensures room { OnOk result (HasRoom proxies.new.items request.now.proxy) }
    ensures made { IfOk result
        (IsPrepared (all_kept proxies.old.items) rows.old.items request.now) }
{
    let alloc: Global = *rows.allocator();
    let place = request.proxy();
    let unseen = SharedItems::new(alloc, rows_above(alloc, rows, proxies[place].last)?)?;
    let kept_unseen = unseen.copy()?;
    let states = unjudged_states(alloc, request)?;
    let parts = request.share().parts();
    let kept_verdicts = vec![in alloc; Verdict::Conflict; parts.len()]?;
    rows.reserve(1)?;
    reserve_reply(proxies, place)?;
    Ok(JudgingRoom {
        unseen,
        kept_unseen,
        states,
        kept_verdicts,
    })
}

/// Makes room for one more reply to the proxy.
fn reserve_reply(proxies: &mut Vec<ProxyMemory>, place: usize) -> Result<(), OutOfMemory>
    requires { place < length proxies.old.items }
    ensures same { all_kept proxies.new.items ≡ all_kept proxies.old.items }
    ensures room { OnOk result (HasRoom proxies.new.items place) }
{
    proxies[place].reserve()?;
    Ok(())
}

/// Notes at its proxy that the request was judged, and that this reply was given.
fn keep_reply(proxies: &mut Vec<ProxyMemory>, request: &Request, reply: Reply)
    requires there { request.now.proxy < length proxies.old.items }
    requires room { HasRoom proxies.old.items request.now.proxy }
    requires order { AllIncrease proxies.old.items }
    ensures { HasKeptReply (all_kept proxies.old.items) request.now reply (all_kept proxies.new.items) }
{
    proxies[request.proxy()].keep_reply(request, reply);
}

/// A copy of what is kept of the proxies.
fn copy_proxy_memories(proxies: &Vec<ProxyMemory>) -> Result<Vec<ProxyMemory>, OutOfMemory>
    ensures { IfOk result (λ copy. all_kept copy.items ≡ all_kept proxies.now.items) }
{
    Ok(proxies.clone()?)
}

/// Copies the verdicts, if there is a place for each.
fn overwrite_verdicts(kept: &mut Vec<Verdict>, verdicts: &[Verdict])
    ensures { length kept.old.items ≡ length verdicts.now → kept.new.items ≡ verdicts.now }
{
    for i in 0..kept.len() {
        if i < verdicts.len() {
            kept[i] = verdicts[i];
        }
    }
}

/// The reply to the request with these verdicts and these unseen rows.
fn reply(request: &Request, verdicts: Items<Verdict>, unseen: SharedItems<UnseenRow>) -> Reply
    ensures { result ≡ reply_of request.now verdicts unseen }
{
    Reply {
        resolver: request.resolver(),
        proxy: request.proxy(),
        row: request.row(),
        version: request.version(),
        verdicts,
        unseen,
    }
}
