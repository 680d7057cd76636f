//! Carrying out each event of a script, and printing the line of its answer or its refusal.

ghost use Rattle.std.specs.Prelude.{◌≡◌, ◌++◌, [], IsSome, OnErr, OnOk};
ghost use Rattle.std.specs.Prelude.{string_bytes, map, true};
ghost use Rattle.model.specs.Turns.{after_event};
ghost use Rattle.model.specs.World.{answers, handle_event, world_after};
ghost use Rattle.pages.specs.Printing.{Prints};
ghost use Rattle.turn_world.specs.Events.{event_answer_of, event_of, refusal_number};
ghost use Rattle.turns_run.specs.Lines.{answer_text, finished_batch_text, event_text, events_text};
ghost use Rattle.turns_run.specs.Lines.{finish_text, finished_text, finishing_proxy};
ghost use Rattle.turns_run.specs.Lines.{refusal_line, refusal_value};
ghost use Rattle.turns_run.specs.OrderOfMutations.{are_in_order, FitsFinish};

use crate::lines::{print_move, print_offer, print_sequence};
use crate::transactions::print_transactions;
use model::{Finished, ProxyNumber, Version};
use pages::Page;
use scripts::{push_numbered, push_refused, take_page};
use system_keys::{Items, OutOfMemory};
use turn_world::{Answer, Event, OfferAnswer, Refusal, TurnWorld};

/// Carries out the events, one after another, and prints the lines of each. Fails only with
/// `OutOfMemory`.
pub(crate) fn carry_out_events(
    text: &mut String,
    events: Items<Event>,
    world: &mut TurnWorld,
) -> Result<(), OutOfMemory>
    ensures text { let before = world.old in let given = map event_of events in
        OnOk result (string_bytes text.new
        ≡ string_bytes text.old ++ events_text given (answers before.config before.world given)) }
    ensures world { let before = world.old in
        OnOk result (world.new ≡ record before {
          world = world_after before.config before.world (map event_of events);
        }) }
{
    for event in Vec::from(events) {
        carry_out_event(text, event, world)?;
    }
    Ok(())
}

/// Carries out the event, of which nothing is copied, and prints its lines. Fails only with
/// `OutOfMemory`.
pub(crate) fn carry_out_event(
    text: &mut String,
    event: Event,
    world: &mut TurnWorld,
) -> Result<(), OutOfMemory>
    ensures text { let given = event_of event in let before = world.old in
        OnOk result (string_bytes text.new ≡ string_bytes text.old
        ++ event_text given (handle_event before.config before.world given).answer) }
    ensures world { OnOk result (world.new ≡ after_event world.old (event_of event)) }
{
    let mut page = take_page(*text.allocator(), text);
    carry_out(event, world, &mut page)?;
    *text = page.into_text()?;
    Ok(())
}

/// Carries out the event, of which nothing is copied, and prints its lines, which cannot fail.
/// Fails only with `OutOfMemory`; then nothing is printed, and the cluster is unchanged.
pub fn carry_out<P: Page>(
    event: Event,
    world: &mut TurnWorld,
    page: &mut P,
) -> Result<(), OutOfMemory>
    ensures text { let given = event_of event in let before = world.old in
        OnOk result (Prints P.has_printed page.old page.new
        (event_text given (handle_event before.config before.world given).answer)) }
    ensures world { OnOk result (world.new ≡ after_event world.old (event_of event)) }
    ensures unprinted { OnErr result (Prints P.has_printed page.old page.new []) }
    ensures unchanged { OnErr result (world.new ≡ world.old) }
{
    let finishing = finishing_proxy(&event);
    match world.step_owned(event) {
        Ok(answer) => {
            print_answer(page, finishing, &answer);
            Ok(())
        }
        Err(refusal) => {
            check_has_number(&refusal)?;
            print_refusal(page, &refusal);
            Ok(())
        }
    }
}

/// Whether the refusal has a number: all have one but `OutOfMemory`.
fn check_has_number(refusal: &Refusal) -> Result<(), OutOfMemory>
    ensures { OnOk result (IsSome (refusal_number refusal.now)) }
{
    refusal.number().ok_or(OutOfMemory)?;
    Ok(())
}

/// The proxy that finishes a record, if the event is a finish.
fn finishing_proxy(event: &Event) -> Option<ProxyNumber>
    ensures { result ≡ finishing_proxy (event_of event.now) }
{
    match event {
        Event::Finish { proxy } => Some(*proxy),
        Event::Sequence { .. } | Event::Move { .. } | Event::Offer { .. } => None,
    }
}

/// Prints the lines of an event that was carried out; if it was a finish, its proxy is given.
fn print_answer<P: Page>(page: &mut P, finishing: Option<ProxyNumber>, answer: &Answer)
    requires { FitsFinish finishing (event_answer_of answer.now) }
    ensures { Prints P.has_printed page.old page.new
        (answer_text finishing (event_answer_of answer.now)) }
{
    match answer {
        Answer::Sequenced { row, version } => print_sequence(page, *row, *version),
        Answer::Moved { date } => print_move(page, *date),
        Answer::Offered(OfferAnswer::Judged(reply)) => print_offer(page, "judged", reply),
        Answer::Offered(OfferAnswer::Again(reply)) => print_offer(page, "again", reply),
        Answer::Finished(finished) => print_finished_batch(page, finishing, finished),
    }
}

// Prints a finished record, whose proxy is given.
fn print_finished_batch<P: Page>(page: &mut P, finishing: Option<ProxyNumber>, finished: &Finished)
    requires finish { IsSome finishing }
    requires in_order { are_in_order 0 finished.now.tagged ≡ true }
    ensures { Prints P.has_printed page.old page.new (finished_batch_text finishing finished.now) }
{
    match finishing {
        Some(proxy) => print_finished(page, proxy, finished),
        None => unreachable!(),
    }
}

/// Prints the line of a finish, and then those of the transactions of its batch.
fn print_finished<P: Page>(page: &mut P, proxy: ProxyNumber, finished: &Finished)
    requires { are_in_order 0 finished.now.tagged ≡ true }
    ensures { Prints P.has_printed page.old page.new (finished_text proxy finished.now) }
{
    push_finish(page, proxy, finished.version);
    page.push("\n");
    print_transactions(
        page,
        finished.tagged.as_slice(),
        finished.outcomes.as_slice(),
    );
}

/// Appends the line of a finish.
fn push_finish<P: Page>(page: &mut P, proxy: ProxyNumber, version: Version)
    ensures { Prints P.has_printed page.old page.new (finish_text proxy version) }
{
    push_numbered(page, "finish proxy ", proxy as u64);
    push_numbered(page, " version ", version);
}

/// Prints the line of a refusal.
pub fn print_refusal<P: Page>(page: &mut P, refusal: &Refusal)
    ensures { Prints P.has_printed page.old page.new (refusal_line refusal.now) }
{
    push_refused(page, refusal.number(), refusal.name());
    push_refusal_value(page, refusal);
    page.push("\n");
}

/// Appends what a refusal carries after a space, if it carries anything.
#[tactic(auto, using(pages::proofs::Prints::prints_nothing))]
fn push_refusal_value<P: Page>(page: &mut P, refusal: &Refusal)
    ensures { Prints P.has_printed page.old page.new (refusal_value refusal.now) }
{
    match refusal {
        Refusal::Early { version } => push_numbered(page, " ", *version),
        Refusal::GivenUp { acknowledged } => push_numbered(page, " ", *acknowledged),
        Refusal::OutOfTurn {
            expected: Some(row),
        } => push_numbered(page, " ", *row),
        Refusal::OutOfTurn { expected: None } => page.push(" none"),
        Refusal::MissingReply { resolver } => push_numbered(page, " ", *resolver as u64),
        Refusal::NoSuchResolver
        | Refusal::NoSuchProxy
        | Refusal::WrongResolver
        | Refusal::NoSuchRow
        | Refusal::VersionsEnd
        | Refusal::OutOfMemory => {}
    }
}
