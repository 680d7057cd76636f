//! Tests of turn_world and state_memory: what the fourth resolver and proxy are told, copies of
//! events, resolvers and proxies, and runs of many events.

use crate::tests::are_alike;
use model::Config;
use proxy_state::Proxy;
use state_memory::Resolver;
use std::alloc::Global;
use std::process::Abort;
use std::test::Fail;
use system_keys::OutOfMemory;
use testing::{EMPTY_TRANSACTION, Ends, TransactionLine, batch, range, room};
use turn_world::{Answer, Event, OfferAnswer, Refusal, TurnWorld};

// ---- events

/// What an event is made of.
#[derive(Clone, Copy)]
enum Step {
    /// A batch of these transactions goes to the proxy.
    Sequence(usize, &'static [TransactionLine<'static>]),
    /// The range moves to the resolver.
    Move(Ends<'static>, usize),
    /// The row is offered to the resolver.
    Offer(usize, usize),
    /// The proxy finishes a record.
    Finish(usize),
}

use Step::{Finish, Move, Offer, Sequence};

fn event_of(alloc: Global, step: Step) -> Result<Event, Fail> {
    match step {
        Sequence(proxy, transactions) => {
            let batch = batch(alloc, transactions)?;
            Ok(Event::Sequence { proxy, batch })
        }
        Move((begin, end), dest) => {
            let range = range(alloc, begin, end)?;
            Ok(Event::Move { range, dest })
        }
        Offer(row, resolver) => Ok(Event::Offer { row, resolver }),
        Finish(proxy) => Ok(Event::Finish { proxy }),
    }
}

// ---- what is told of events

#[derive(Clone, Copy, PartialEq, Eq)]
enum Told {
    /// It is carried out, at this version or date.
    Done(u64),
    /// The reply to this version is given again.
    Again(u64),
    /// It is refused, by this number.
    Refused(Option<u32>),
}

use Told::{Again, Done, Refused};

fn told_of(answer: &Answer) -> Told {
    match answer {
        Answer::Sequenced { version, .. } => Done(*version),
        Answer::Moved { date } => Done(*date),
        Answer::Offered(OfferAnswer::Judged(reply)) => Done(reply.version),
        Answer::Offered(OfferAnswer::Again(reply)) => Again(reply.version),
        Answer::Finished(finished) => Done(finished.version),
    }
}

fn told_by(found: &Result<Answer, Refusal>) -> Told {
    match found {
        Ok(answer) => told_of(answer),
        Err(refusal) => Refused(refusal.number()),
    }
}

/// The results of a run of events, in order.
type Results = Vec<Result<Answer, Refusal>>;

fn results_of(
    alloc: Global,
    world: &mut TurnWorld,
    events: &[Event],
) -> Result<Results, OutOfMemory> {
    match world.run(alloc, events) {
        Ok(results) => Ok(results),
        Err(_stopped) => Err(OutOfMemory),
    }
}

// ---- four proxies and four resolvers

const EARLY: Told = Refused(Some(30));

const GIVEN_UP: Told = Refused(Some(31));

const MISSING_REPLY: Told = Refused(Some(43));

/// A state transaction that writes `n`.
const WRITE_N: TransactionLine<'static> = TransactionLine {
    writes: &[(b"n", b"n\0")],
    mutations: &[testing::MutationLine::Set(b"\xff/serverTag/server0000000001", b"\x00\x00\x01")],
    lock_aware: true,
    ..EMPTY_TRANSACTION
};

/// One that reads `n` as it was before the move.
const READ_N: TransactionLine<'static> = TransactionLine {
    snapshot: 10,
    reads: &[(b"n", b"n\0")],
    writes: &[],
    ..WRITE_N
};

/// What events are made of, with what is told of each.
type Story = &'static [(Step, Told)];

/// Events of the fourth proxy and resolver, and of the third ones.
const STORY: Story = &[
    (Sequence(3, &[WRITE_N]), Done(10)),
    (Move((b"m", b"t"), 3), Done(11)),
    (Sequence(3, &[READ_N]), Done(20)),
    (Sequence(2, &[]), Done(30)),
    (Offer(1, 3), EARLY),
    (Offer(0, 3), Done(10)),
    (Offer(0, 3), Again(10)),
    (Offer(2, 3), EARLY),
    (Offer(1, 3), Done(20)),
    (Offer(2, 3), Done(30)),
    (Offer(2, 3), Again(30)),
    (Offer(1, 3), Again(20)),
    (Finish(3), MISSING_REPLY),
    (Offer(0, 0), Done(10)),
    (Offer(0, 1), Done(10)),
    (Offer(0, 2), Done(10)),
    (Offer(0, 2), Again(10)),
    (Finish(3), Done(10)),
    (Finish(3), MISSING_REPLY),
    // its next request acknowledges the reply to its first one
    (Sequence(3, &[]), Done(40)),
    (Offer(3, 3), Done(40)),
    (Offer(0, 3), GIVEN_UP),
    (Offer(1, 3), Again(20)),
    (Offer(3, 3), Again(40)),
    (Offer(1, 0), Done(20)),
    (Offer(1, 1), Done(20)),
    (Offer(1, 2), Done(20)),
    (Finish(3), Done(20)),
    (Offer(2, 0), Done(30)),
    (Offer(2, 1), Done(30)),
    (Offer(2, 2), Done(30)),
    (Finish(2), Done(30)),
    // a move back, before a second batch of proxy 2
    (Move((b"n", b"p"), 0), Done(41)),
    (Sequence(2, &[]), Done(50)),
];

/// The events of the story.
fn events_of(alloc: Global, story: Story) -> Result<Vec<Event>, Fail> {
    let mut events = room(alloc, story.len())?;
    for (step, _) in story {
        events.push(event_of(alloc, *step)?)?;
    }
    Ok(events)
}

/// The results tell what is wanted of each event.
fn tell<R: Abort>(rt: &R, results: &[Result<Answer, Refusal>], story: Story) {
    assert!(rt; results.len() == story.len());
    for (place, (found, (_, wanted))) in results.iter().zip(story).enumerate() {
        assert!(rt; told_by(found) == *wanted, "at event {place}");
    }
}

fn tells<R: Abort + AllocGlobal>(
    rt: &R,
    world: &mut TurnWorld,
    events: &[Event],
) -> Result<(), OutOfMemory> {
    let results = results_of(rt.alloc(), world, events)?;
    tell(rt, &results, STORY);
    Ok(())
}

/// Whether the resolver remembers four versions, and is copied with them.
fn is_copied_with_rows(alloc: Global, resolver: &Resolver) -> Result<bool, Fail> {
    let copy = resolver.copy()?;
    Ok(resolver.remembered() == 4 && are_alike(alloc, resolver, &copy)?)
}

/// Whether a copy of the proxy has begun up to this version.
fn is_copied_at(proxy: &Proxy, begun: u64) -> Result<bool, OutOfMemory> {
    let copy = proxy.copy()?;
    Ok(copy.last_begun() == begun)
}

/// Whether resolver 3 and proxies 2 and 3 are copied as they are after the story.
fn are_copied(alloc: Global, world: &TurnWorld) -> Result<bool, Fail> {
    let (Some(resolver), Some(third), Some(fourth)) = (
        world.resolver(3),
        world.proxy(2),
        world.proxy(3),
    ) else {
        return Ok(false);
    };
    Ok(
        is_copied_with_rows(alloc, resolver)?
            && is_copied_at(third, 50)?
            && is_copied_at(fourth, 40)?,
    )
}

/// A cluster of four proxies and four resolvers tells the story.
fn tells_story<R: Abort + AllocGlobal>(rt: &R, events: &[Event]) -> Result<(), Fail> {
    let config = Config::new(4, 4, 100, 10)?;
    let mut world = TurnWorld::new(rt.alloc(), &config)?;
    tells(rt, &mut world, events)?;
    assert!(rt; are_copied(rt.alloc(), &world)?);
    Ok(())
}

#[test]
fn the_fourth_resolver_and_proxy_go_on_and_are_copied(rt: HostRuntime) -> Result<(), Fail> {
    let events = events_of(rt.alloc(), STORY)?;
    tells_story(&rt, &events)
}

/// Whether a copy of the event holds the same.
fn is_copied(alloc: Global, event: &Event) -> Result<bool, Fail> {
    let copy = event.copy()?;
    Ok(are_alike(alloc, event, &copy)?)
}

fn each_is_copied(alloc: Global, events: &[Event]) -> Result<bool, Fail> {
    for event in events {
        if !is_copied(alloc, event)? {
            return Ok(false);
        }
    }
    Ok(true)
}

#[test]
fn events_of_the_third_and_fourth_proxy_are_copied(rt: HostRuntime) -> Result<(), Fail> {
    let events = events_of(rt.alloc(), STORY)?;
    assert!(rt; each_is_copied(rt.alloc(), &events)?);
    Ok(())
}

// ---- runs of many events

/// What the event at this place of a long list is made of. Of twenty events the first is a batch,
/// which is then offered to both resolvers and finished; one reply is given again, and then there
/// is nothing more to finish.
fn step_at(place: usize) -> Step {
    let row = place / 20;
    match place % 20 {
        0 => Sequence(0, &[]),
        1 | 4 => Offer(row, 0),
        2 => Offer(row, 1),
        _ => Finish(0),
    }
}

fn many_events(alloc: Global, count: usize) -> Result<Vec<Event>, Fail> {
    let mut events = room(alloc, count)?;
    for place in 0..count {
        events.push(event_of(alloc, step_at(place))?)?;
    }
    Ok(events)
}

/// One proxy and two resolvers, with versions 10 apart.
fn cluster(alloc: Global) -> Result<TurnWorld, Fail> {
    let config = Config::new(1, 2, 100, 10)?;
    Ok(TurnWorld::new(alloc, &config)?)
}

/// What is told of a step.
fn told_by_step(world: &mut TurnWorld, event: &Event) -> Result<Told, OutOfMemory> {
    let found = world.step(event);
    match told_by(&found) {
        Refused(None) => Err(OutOfMemory),
        told => Ok(told),
    }
}

/// Whether the results tell the same as single steps do.
fn are_as_by_steps(
    world: &mut TurnWorld,
    events: &[Event],
    results: &[Result<Answer, Refusal>],
) -> Result<bool, OutOfMemory> {
    for (event, found) in events.iter().zip(results) {
        if told_by_step(world, event)? != told_by(found) {
            return Ok(false);
        }
    }
    Ok(results.len() == events.len())
}

/// Whether single steps in a new cluster tell the same as the results.
fn are_results(
    alloc: Global,
    events: &[Event],
    results: &[Result<Answer, Refusal>],
) -> Result<bool, Fail> {
    let mut world = cluster(alloc)?;
    Ok(are_as_by_steps(&mut world, events, results)?)
}

/// The results of a run of the events in a new cluster.
fn results_of_new(alloc: Global, events: &[Event]) -> Result<Results, Fail> {
    let mut world = cluster(alloc)?;
    Ok(results_of(alloc, &mut world, events)?)
}

/// Whether a run of the events tells the same as single steps.
fn is_run(alloc: Global, events: &[Event]) -> Result<bool, Fail> {
    let results = results_of_new(alloc, events)?;
    are_results(alloc, events, &results)
}

fn is_run_of(alloc: Global, count: usize) -> Result<bool, Fail> {
    let events = many_events(alloc, count)?;
    is_run(alloc, &events)
}

#[test]
fn runs_of_many_events_tell_the_same_as_single_steps(rt: HostRuntime) -> Result<(), Fail> {
    assert!(rt; is_run_of(rt.alloc(), 300)?);
    assert!(rt; is_run_of(rt.alloc(), 5_000)?);
    Ok(())
}
