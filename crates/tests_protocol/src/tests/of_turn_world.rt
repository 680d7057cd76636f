//! Tests of the cluster without threads. What its events return is shown by scripts; here it is that
//! single steps return the same, that a run goes on where it stopped, and what no script prints.

use crate::tests::{Copied, copy_of};
use std::alloc::Global;
use std::process::Abort;
use std::test::Fail;
use system_keys::OutOfMemory;
use testing::{EMPTY_TRANSACTION, TransactionLine, is_memory_refused, range, room, twice};
use turn_world::{Answer, Config, Event, OfferAnswer, Refusal, Stopped, TurnWorld};

/// One call for a cluster.
fn cluster_by_call(alloc: Global, config: &Config) -> Result<TurnWorld, OutOfMemory> {
    TurnWorld::new(alloc, config)
}

/// Two proxies and two resolvers, with versions 10 apart.
fn cluster(alloc: Global) -> Result<TurnWorld, Fail> {
    let config = Config::new(2, 2, 100, 10)?;
    Ok(twice!(alloc; cluster_by_call(alloc, &config), OutOfMemory)?)
}

// ---- events

/// What an event is made of.
#[derive(Clone, Copy)]
enum Step {
    /// A batch of these transactions goes to the proxy.
    Sequence(usize, &'static [TransactionLine<'static>]),
    /// `[m, t)` moves to the resolver.
    Move(usize),
    /// The row is offered to the resolver.
    Offer(usize, usize),
    /// The proxy finishes a record.
    Finish(usize),
}

use Step::{Finish, Move, Offer, Sequence};

fn event_of(alloc: Global, step: Step) -> Result<Event, Fail> {
    match step {
        Sequence(proxy, transactions) => {
            let batch = testing::batch(alloc, transactions)?;
            Ok(Event::Sequence { proxy, batch })
        }
        Move(dest) => {
            let range = range(alloc, b"m", b"t")?;
            Ok(Event::Move { range, dest })
        }
        Offer(row, resolver) => Ok(Event::Offer { row, resolver }),
        Finish(proxy) => Ok(Event::Finish { proxy }),
    }
}

/// A state transaction that gives server 1 its tag.
const TAGS: TransactionLine<'static> = TransactionLine {
    snapshot: 10,
    mutations: &[testing::MutationLine::Set(b"\xff/serverTag/server0000000001", b"\x00\x00\x01")],
    ..EMPTY_TRANSACTION
};

// ---- answers

/// The version or the date that an answer names, or why the event is refused.
type Told = Result<u64, Refusal>;

fn version_of(answer: &Answer) -> u64 {
    match answer {
        Answer::Sequenced { version, .. } => *version,
        Answer::Moved { date } => *date,
        Answer::Offered(OfferAnswer::Judged(reply)) => reply.version,
        Answer::Offered(OfferAnswer::Again(reply)) => reply.version,
        Answer::Finished(finished) => finished.version,
    }
}

fn told(answer: &Result<Answer, Refusal>) -> Told {
    match answer {
        Ok(answer) => Ok(version_of(answer)),
        Err(refusal) => Err(*refusal),
    }
}

/// Steps, each with what it is told.
type Story = &'static [(Step, Told)];

/// Proxy 0 finishes two batches, a resolver repeats a reply to one, and proxy 1 has begun another.
const STORY: Story = &[
    (Offer(0, 0), Err(Refusal::NoSuchRow)),
    (Sequence(0, &[TAGS]), Ok(10)),
    (Sequence(0, &[TAGS]), Ok(20)),
    (Move(1), Ok(21)),
    (Sequence(1, &[]), Ok(30)),
    (Offer(0, 0), Ok(10)),
    (Offer(0, 1), Ok(10)),
    (Offer(0, 1), Ok(10)),
    (Offer(1, 0), Ok(20)),
    (Offer(1, 1), Ok(20)),
    (Finish(0), Ok(10)),
    (Finish(0), Ok(20)),
    (Offer(1, 1), Ok(20)),
    (Finish(1), Err(Refusal::MissingReply { resolver: 0 })),
];

/// Proxy 1 finishes its batch, and has seen all rows.
const END: Story = &[
    (Offer(2, 0), Ok(30)),
    (Offer(2, 1), Ok(30)),
    (Finish(1), Ok(30)),
];

// ---- single steps

impl Copied for Event {
    fn copied(&self) -> Result<Event, OutOfMemory> {
        self.copy()
    }
}

impl Copied for Answer {
    fn copied(&self) -> Result<Answer, OutOfMemory> {
        self.copy()
    }
}

/// What one call of the step is answered.
fn step_by_call(world: &mut TurnWorld, event: &Event) -> Result<Answer, Refusal> {
    world.step(event)
}

/// What is told of a copy of the answer.
fn told_by_copy(alloc: Global, answer: &Answer) -> Result<Told, OutOfMemory> {
    let copy = copy_of(alloc, answer)?;
    Ok(Ok(version_of(&copy)))
}

/// What is told of a copy of the event's answer.
fn carry_out(alloc: Global, world: &mut TurnWorld, event: &Event) -> Result<Told, OutOfMemory> {
    match twice!(alloc; step_by_call(world, event), Refusal::OutOfMemory) {
        Ok(answer) => told_by_copy(alloc, &answer),
        Err(refusal) => Ok(Err(refusal)),
    }
}

/// What is told where a copy of the event is carried out.
fn carry_out_copy(
    alloc: Global,
    world: &mut TurnWorld,
    event: &Event,
) -> Result<Told, OutOfMemory> {
    let copy = copy_of(alloc, event)?;
    carry_out(alloc, world, &copy)
}

fn carry_out_step(alloc: Global, world: &mut TurnWorld, step: Step) -> Result<Told, Fail> {
    let event = event_of(alloc, step)?;
    Ok(carry_out_copy(alloc, world, &event)?)
}

fn tells<R: Abort + AllocGlobal>(rt: &R, world: &mut TurnWorld, story: Story) -> Result<(), Fail> {
    for (place, (step, wanted)) in story.iter().enumerate() {
        let told = carry_out_step(rt.alloc(), world, *step)?;
        assert!(rt; told == *wanted, "at step {place}");
    }
    Ok(())
}

#[test]
fn a_step_carries_out_its_event(rt: HostRuntime) -> Result<(), Fail> {
    let mut world = cluster(rt.alloc())?;
    tells(&rt, &mut world, STORY)
}

// ---- single steps of own events

/// What one call of the step is answered that takes a copy of the event.
fn own_step_by_call(world: &mut TurnWorld, event: &Event) -> Result<Answer, Refusal> {
    world.step_owned(event.copy()?)
}

/// What is told of the answer to a copy of the event.
fn carry_out_own(alloc: Global, world: &mut TurnWorld, event: &Event) -> Result<Told, OutOfMemory> {
    match twice!(alloc; own_step_by_call(world, event), Refusal::OutOfMemory) {
        Err(Refusal::OutOfMemory) => Err(OutOfMemory),
        answer => Ok(told(&answer)),
    }
}

fn own_step_tells(
    alloc: Global,
    world: &mut TurnWorld,
    step: Step,
    wanted: Told,
) -> Result<bool, Fail> {
    let event = event_of(alloc, step)?;
    Ok(carry_out_own(alloc, world, &event)? == wanted)
}

fn own_steps_tell<R: Abort + AllocGlobal>(
    rt: &R,
    world: &mut TurnWorld,
    story: Story,
) -> Result<(), Fail> {
    for (place, (step, wanted)) in story.iter().enumerate() {
        let tells = own_step_tells(rt.alloc(), world, *step, *wanted)?;
        assert!(rt; tells, "at step {place}");
    }
    Ok(())
}

#[test]
fn a_step_carries_out_an_own_event(rt: HostRuntime) -> Result<(), Fail> {
    let mut world = cluster(rt.alloc())?;
    own_steps_tell(&rt, &mut world, STORY)
}

// ---- runs of many events at once

/// The results of a run, in order.
type Results = Vec<Result<Answer, Refusal>>;

fn events_of(alloc: Global, story: Story) -> Result<Vec<Event>, Fail> {
    let mut events = room(alloc, story.len())?;
    for (step, _) in story {
        events.push(event_of(alloc, *step)?)?;
    }
    Ok(events)
}

/// The results of a run that stopped, and those of the events that are left.
fn with_rest(
    alloc: Global,
    world: &mut TurnWorld,
    events: &[Event],
    stopped: Stopped,
) -> Result<Results, OutOfMemory> {
    let mut results = stopped.answers;
    let rest = events.get(stopped.carried_out..).unwrap_or(events);
    let Ok(mut more) = world.run(alloc, rest) else {
        return Err(OutOfMemory);
    };
    results.append(&mut more)?;
    Ok(results)
}

/// Runs the events, and after a failed allocation those that are left.
fn results_of(
    alloc: Global,
    world: &mut TurnWorld,
    events: &[Event],
) -> Result<Results, OutOfMemory> {
    match world.run(alloc, events) {
        Ok(results) => Ok(results),
        Err(stopped) if is_memory_refused(alloc) => with_rest(alloc, world, events, stopped),
        Err(_stopped) => Err(OutOfMemory),
    }
}

/// The results tell what is wanted of each step.
fn tell<R: Abort>(rt: &R, results: &[Result<Answer, Refusal>], story: Story) {
    assert!(rt; results.len() == story.len());
    for (result, (_, wanted)) in results.iter().zip(story) {
        assert!(rt; told(result) == *wanted);
    }
}

/// A run of the steps tells what is wanted of each.
fn run_tells<R: Abort + AllocGlobal>(
    rt: &R,
    world: &mut TurnWorld,
    story: Story,
) -> Result<(), Fail> {
    let events = events_of(rt.alloc(), story)?;
    let results = results_of(rt.alloc(), world, &events)?;
    tell(rt, &results, story);
    Ok(())
}

/// Both resolvers remember this number of versions.
fn remember<R: Abort>(rt: &R, world: &TurnWorld, count: usize) {
    for number in 0..2usize {
        let remembered = world.resolver(number).map(|resolver| resolver.remembered());
        assert!(rt; remembered == Some(count));
    }
}

/// A resolver remembers versions until every proxy has seen them.
fn run_until_seen<R: Abort + AllocGlobal>(rt: &R, world: &mut TurnWorld) -> Result<(), Fail> {
    run_tells(rt, world, &[])?;
    run_tells(rt, world, STORY)?;
    remember(rt, world, 2);
    run_tells(rt, world, END)?;
    remember(rt, world, 1);
    Ok(())
}

#[test]
fn a_run_carries_out_its_events(rt: HostRuntime) -> Result<(), Fail> {
    let mut world = cluster(rt.alloc())?;
    run_until_seen(&rt, &mut world)
}

// ---- what is left

/// The results of what was left when a call stopped, and those of what is left now.
fn with_what_is_left(
    alloc: Global,
    world: &mut TurnWorld,
    stopped: Stopped,
) -> Result<Results, OutOfMemory> {
    let mut results = stopped.answers;
    let Ok(mut more) = world.finish_all(alloc) else {
        return Err(OutOfMemory);
    };
    results.append(&mut more)?;
    Ok(results)
}

/// Carries out what is left, after a failed allocation by a second call.
fn results_of_end(alloc: Global, world: &mut TurnWorld) -> Result<Results, OutOfMemory> {
    match world.finish_all(alloc) {
        Ok(results) => Ok(results),
        Err(stopped) if is_memory_refused(alloc) => with_what_is_left(alloc, world, stopped),
        Err(_stopped) => Err(OutOfMemory),
    }
}

/// What is left is told as these steps, and then nothing is left.
fn end_tells<R: Abort + AllocGlobal>(
    rt: &R,
    world: &mut TurnWorld,
    story: Story,
) -> Result<(), Fail> {
    let results = results_of_end(rt.alloc(), world)?;
    tell(rt, &results, story);
    let left = world.events_left(rt.alloc())?;
    assert!(rt; left.len() == 0);
    Ok(())
}

#[test]
fn what_is_left_is_carried_out_once(rt: HostRuntime) -> Result<(), Fail> {
    let mut world = cluster(rt.alloc())?;
    run_tells(&rt, &mut world, STORY)?;
    end_tells(&rt, &mut world, END)?;
    end_tells(&rt, &mut world, &[])
}

// ---- what no script prints

/// There are two proxies and two resolvers.
fn has_two_of_each<R: Abort>(rt: &R, world: &TurnWorld) {
    for number in 0..3usize {
        assert!(rt; world.proxy(number).is_some() == (number < 2));
        assert!(rt; world.resolver(number).is_some() == (number < 2));
    }
}

#[test]
fn a_cluster_has_its_proxies_and_resolvers_alone(rt: HostRuntime) -> Result<(), Fail> {
    let world = cluster(rt.alloc())?;
    has_two_of_each(&rt, &world);
    assert!(rt; world.config().step() == 10);
    Ok(())
}

#[test]
fn out_of_memory_has_no_number(rt: HostRuntime) {
    assert!(rt; Refusal::OutOfMemory.number().is_none());
    assert!(rt; Refusal::OutOfMemory.name() == "OutOfMemory");
}
