//! The fields of a turns script from its tokens, in any order, and what its events become.

ghost use Rattle.std.specs.Prelude.{◌≡◌, List, IfSome, Some, None};
ghost use Rattle.model.specs.Configs.{IsConfig};
ghost use Rattle.scripts.specs.Shapes.{list_shape};
ghost use Rattle.scripts.specs.Streams.{Takes};
ghost use Rattle.turns_run.specs.Shapes.{event_shape};
ghost use Rattle.turns_run.specs.Streams.{HoldsFields};
ghost use Rattle.turns_run.specs.declared.script.RawEvent.{RawEvent as TheRawEvent};

use crate::script::{RawEvent, RawTurns};
use model::Config;
use script_tokens::Tokens;
use scripts::{Fields, Streamed, take_into_slot, take_object};
use std::alloc::Global;
use system_keys::{Bytes, Items};

impl Streamed for RawTurns {
    #[tactic(auto, using(cluster_scripts::proofs::ConfigLemmas::within_limits))]
    fn from_tokens(alloc: Global, reader: &mut Tokens<'_>, depth: usize) -> Option<RawTurns> {
        let fields: TurnsFields<Items<RawEvent>> = take_object(alloc, reader, depth)?;
        Some(RawTurns {
            config: fields.config()?,
            events: fields.events?,
            ask: fields.ask?,
        })
    }
}

/// What is made of the events of a script as their tokens come.
pub(crate) trait FromEvents: Drop {
    ghost is_from: { Self → List TheRawEvent → Type 0 };

    /// Takes the tokens of a list of events, for a cluster with these numbers if they came before it.
    /// Returns `None` as `Streamed` does.
    fn take(
        alloc: Global,
        reader: &mut Tokens<'_>,
        depth: usize,
        config: Option<Config>,
    ) -> Option<Self>
        ensures { IfSome result (λ made. (raws : List TheRawEvent)
            × Takes (list_shape event_shape) depth reader.old raws reader.new
            × is_from made raws) };
}

impl FromEvents for Items<RawEvent> {
    ghost is_from = { λ events raws. events ≡ raws };

    fn take(
        alloc: Global,
        reader: &mut Tokens<'_>,
        depth: usize,
        _config: Option<Config>,
    ) -> Option<Items<RawEvent>> {
        Items::from_tokens(alloc, reader, depth)
    }
}

/// The fields of a turns script, as they come.
#[derive(Drop)]
pub(crate) struct TurnsFields<E: Drop> {
    proxies: Option<usize>,
    resolvers: Option<usize>,
    window: Option<u64>,
    step: Option<u64>,
    /// What is made of the events.
    pub(crate) events: Option<E>,
    /// The keys whose tags are asked.
    pub(crate) ask: Option<Items<Bytes>>,
}

impl<E: FromEvents> TurnsFields<E> {
    /// The numbers of the cluster, if all are there, and within their limits.
    pub(crate) fn config(&self) -> Option<Config>
        ensures { IfSome result (λ config. (self.now.proxies ≡ Some config.proxies)
            × (self.now.resolvers ≡ Some config.resolvers)
            × (self.now.window ≡ Some config.window)
            × (self.now.step ≡ Some config.step)
            × IsConfig config) }
    {
        let (proxies, resolvers) = (self.proxies?, self.resolvers?);
        let (window, step) = (self.window?, self.step?);
        let config = Config::new(proxies, resolvers, window, step).ok()?;
        Some(config)
    }

    // Takes the events, if none were taken before.
    fn take_events(&mut self, alloc: Global, reader: &mut Tokens<'_>, depth: usize) -> Option<()>
        ensures { IfSome result (λ _. (raws : List TheRawEvent) × (made : E)
            × Takes (list_shape event_shape) depth reader.old raws reader.new
            × E.is_from made raws
            × (self.old.events ≡ None)
            × (self.new ≡ record self.old { events = Some made })) }
    {
        if self.events.is_some() {
            return None;
        }
        let made = E::take(alloc, reader, depth, self.config())?;
        self.events = Some(made);
        Some(())
    }
}

impl<E: FromEvents> Fields for TurnsFields<E> {
    ghost holds = { λ f ms. HoldsFields E.is_from f ms };

    fn none() -> TurnsFields<E> {
        TurnsFields {
            proxies: None,
            resolvers: None,
            window: None,
            step: None,
            events: None,
            ask: None,
        }
    }

    fn take_field(
        &mut self,
        alloc: Global,
        reader: &mut Tokens<'_>,
        depth: usize,
        name: &str,
    ) -> Option<()> {
        match name {
            "proxies" => take_into_slot(&mut self.proxies, alloc, reader, depth),
            "resolvers" => take_into_slot(&mut self.resolvers, alloc, reader, depth),
            "window" => take_into_slot(&mut self.window, alloc, reader, depth),
            "step" => take_into_slot(&mut self.step, alloc, reader, depth),
            "events" => self.take_events(alloc, reader, depth),
            "ask" => take_into_slot(&mut self.ask, alloc, reader, depth),
            _ => None,
        }
    }
}
