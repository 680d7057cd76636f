//! Events of a turns script from its tokens.

ghost use Rattle.std.specs.Prelude.{◌≡◌, ◌+◌, IfSome, Some, codes};
ghost use Rattle.serde_json.specs.Data.{Data, member, no_members, object};
ghost use Rattle.scripts.specs.BatchShapes.{batch_shape};
ghost use Rattle.scripts.specs.Shapes.{count_members, number_shape};
ghost use Rattle.scripts.specs.Streams.{Slot, Takes, TakesData, one};
ghost use Rattle.turns_run.specs.Shapes.{event_shape, finish_shape, move_event_shape};
ghost use Rattle.turns_run.specs.Shapes.{offer_shape, sequence_shape};
ghost use Rattle.turns_run.specs.Streams.{Holds};

use crate::script::RawEvent;
use cluster_scripts::GivenMove;
use mutation::Transaction;
use script_tokens::Tokens;
use scripts::{Fields, Streamed, take_into_slot, take_object};
use std::alloc::Global;
use system_keys::Items;

impl Streamed for RawEvent {
    fn from_tokens(alloc: Global, reader: &mut Tokens<'_>, depth: usize) -> Option<RawEvent> {
        let only: OnlyField = take_object(alloc, reader, depth)?;
        Some(only.event?)
    }
}

// The event of the field of this name.
fn take_event(alloc: Global, reader: &mut Tokens<'_>, depth: usize, name: &str) -> Option<RawEvent>
    ensures { IfSome result (λ event. (d : Data) × TakesData depth reader.old d reader.new
        × (event_shape (object (member name.now d no_members)) ≡ Some event)) }
{
    match name {
        "sequence" => take_sequence(alloc, reader, depth),
        "move" => take_move(alloc, reader, depth),
        "offer" => take_offer(alloc, reader, depth),
        "finish" => take_finish(alloc, reader, depth),
        _ => None,
    }
}

/// Takes the value of a sequence event from the tokens.
fn take_sequence(alloc: Global, reader: &mut Tokens<'_>, depth: usize) -> Option<RawEvent>
    ensures { IfSome result (λ event. Takes sequence_shape depth reader.old event reader.new) }
{
    let fields: SequenceFields = take_object(alloc, reader, depth)?;
    Some(RawEvent::Sequence {
        proxy: fields.proxy?,
        batch: fields.batch?,
    })
}

/// Takes the value of a move event from the tokens.
fn take_move(alloc: Global, reader: &mut Tokens<'_>, depth: usize) -> Option<RawEvent>
    ensures { IfSome result (λ event. Takes move_event_shape depth reader.old event reader.new) }
{
    Some(RawEvent::Move(GivenMove::from_tokens(alloc, reader, depth)?))
}

/// Takes the value of an offer event from the tokens.
fn take_offer(alloc: Global, reader: &mut Tokens<'_>, depth: usize) -> Option<RawEvent>
    ensures { IfSome result (λ event. Takes offer_shape depth reader.old event reader.new) }
{
    let fields: OfferFields = take_object(alloc, reader, depth)?;
    Some(RawEvent::Offer {
        row: fields.row?,
        resolver: fields.resolver?,
    })
}

/// Takes the value of a finish event from the tokens.
fn take_finish(alloc: Global, reader: &mut Tokens<'_>, depth: usize) -> Option<RawEvent>
    ensures { IfSome result (λ event. Takes finish_shape depth reader.old event reader.new) }
{
    let fields: FinishFields = take_object(alloc, reader, depth)?;
    Some(RawEvent::Finish {
        proxy: fields.proxy?,
    })
}

// The only field of an event, as it comes.
#[derive(Drop)]
struct OnlyField {
    event: Option<RawEvent>,
}

impl Fields for OnlyField {
    ghost holds = { λ f ms. Holds f.event ms };

    fn none() -> OnlyField {
        OnlyField { event: None }
    }

    fn take_field(
        &mut self,
        alloc: Global,
        reader: &mut Tokens<'_>,
        depth: usize,
        name: &str,
    ) -> Option<()> {
        if self.event.is_some() {
            return None;
        }
        let event = take_event(alloc, reader, depth, name)?;
        self.event = Some(event);
        Some(())
    }
}

// The fields of an event that gives a batch its record, as they come.
#[derive(Drop)]
struct SequenceFields {
    proxy: Option<usize>,
    batch: Option<Items<Transaction>>,
}

impl Fields for SequenceFields {
    ghost holds = { λ f ms. Slot number_shape (codes "proxy") f.proxy ms
        × Slot batch_shape (codes "batch") f.batch ms
        × (count_members ms ≡ one f.proxy + one f.batch) };

    fn none() -> SequenceFields {
        SequenceFields {
            proxy: None,
            batch: None,
        }
    }

    fn take_field(
        &mut self,
        alloc: Global,
        reader: &mut Tokens<'_>,
        depth: usize,
        name: &str,
    ) -> Option<()> {
        match name {
            "proxy" => take_into_slot(&mut self.proxy, alloc, reader, depth),
            "batch" => take_into_slot(&mut self.batch, alloc, reader, depth),
            _ => None,
        }
    }
}

// The fields of a request that a resolver gets, as they come.
#[derive(Drop)]
struct OfferFields {
    row: Option<usize>,
    resolver: Option<usize>,
}

impl Fields for OfferFields {
    ghost holds = { λ f ms. Slot number_shape (codes "row") f.row ms
        × Slot number_shape (codes "resolver") f.resolver ms
        × (count_members ms ≡ one f.row + one f.resolver) };

    fn none() -> OfferFields {
        OfferFields {
            row: None,
            resolver: None,
        }
    }

    fn take_field(
        &mut self,
        alloc: Global,
        reader: &mut Tokens<'_>,
        depth: usize,
        name: &str,
    ) -> Option<()> {
        match name {
            "row" => take_into_slot(&mut self.row, alloc, reader, depth),
            "resolver" => take_into_slot(&mut self.resolver, alloc, reader, depth),
            _ => None,
        }
    }
}

// The fields of a record that is finished, as they come.
#[derive(Drop)]
struct FinishFields {
    proxy: Option<usize>,
}

impl Fields for FinishFields {
    ghost holds = { λ f ms. Slot number_shape (codes "proxy") f.proxy ms
        × (count_members ms ≡ one f.proxy) };

    fn none() -> FinishFields {
        FinishFields { proxy: None }
    }

    fn take_field(
        &mut self,
        alloc: Global,
        reader: &mut Tokens<'_>,
        depth: usize,
        name: &str,
    ) -> Option<()> {
        match name {
            "proxy" => take_into_slot(&mut self.proxy, alloc, reader, depth),
            _ => None,
        }
    }
}
