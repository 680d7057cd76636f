//! The fields of a threads script from its tokens, in any order.

ghost use Rattle.std.specs.Prelude.{◌≡◌, ◌+◌, codes};
ghost use Rattle.scripts.specs.BatchShapes.{batch_shape};
ghost use Rattle.scripts.specs.Shapes.{bytes_shape, count_members, list_shape, number_shape};
ghost use Rattle.scripts.specs.Streams.{Slot, one};
ghost use Rattle.cluster_scripts.specs.Shapes.{move_shape};
ghost use Rattle.threads_scripts.specs.Shapes.{work_shape};

use crate::limits::is_within_limits;
use crate::script::RawThreads;
use cluster_scripts::GivenMove;
use model::Config;
use mutation::Transaction;
use script_tokens::Tokens;
use scripts::{Fields, Streamed, take_into_slot, take_object};
use std::alloc::Global;
use system_keys::{Bytes, Items};

impl Streamed for RawThreads {
    #[tactic(auto, using(cluster_scripts::proofs::ConfigLemmas::within_limits))]
    fn from_tokens(alloc: Global, reader: &mut Tokens<'_>, depth: usize) -> Option<RawThreads> {
        let fields: ThreadsFields = take_object(alloc, reader, depth)?;
        let (proxies, resolvers) = (fields.proxies?, fields.resolvers?);
        let (window, step) = (fields.window?, fields.step?);
        let script = RawThreads {
            config: Config::new(proxies, resolvers, window, step).ok()?,
            rows: fields.rows?,
            moves: fields.moves?,
            work: fields.work?,
            ask: fields.ask?,
        };
        if !is_within_limits(&script) {
            return None;
        }
        Some(script)
    }
}

// The fields of a threads script, as they come.
#[derive(Drop)]
struct ThreadsFields {
    proxies: Option<usize>,
    resolvers: Option<usize>,
    window: Option<u64>,
    step: Option<u64>,
    rows: Option<usize>,
    moves: Option<Items<GivenMove>>,
    work: Option<Items<Items<Items<Transaction>>>>,
    ask: Option<Items<Bytes>>,
}

impl Fields for ThreadsFields {
    ghost holds = { λ f ms. Slot number_shape (codes "proxies") f.proxies ms
        × Slot number_shape (codes "resolvers") f.resolvers ms
        × Slot number_shape (codes "window") f.window ms
        × Slot number_shape (codes "step") f.step ms
        × Slot number_shape (codes "rows") f.rows ms
        × Slot (list_shape move_shape) (codes "moves") f.moves ms
        × Slot work_shape (codes "work") f.work ms
        × Slot (list_shape bytes_shape) (codes "ask") f.ask ms
        × (count_members ms ≡ one f.proxies + one f.resolvers + one f.window + one f.step
        + one f.rows + one f.moves + one f.work + one f.ask) };

    fn none() -> ThreadsFields {
        ThreadsFields {
            proxies: None,
            resolvers: None,
            window: None,
            step: None,
            rows: None,
            moves: None,
            work: None,
            ask: None,
        }
    }

    fn take_field(
        &mut self,
        alloc: Global,
        reader: &mut Tokens<'_>,
        depth: usize,
        name: &str,
    ) -> Option<()> {
        match name {
            "proxies" => take_into_slot(&mut self.proxies, alloc, reader, depth),
            "resolvers" => take_into_slot(&mut self.resolvers, alloc, reader, depth),
            "window" => take_into_slot(&mut self.window, alloc, reader, depth),
            "step" => take_into_slot(&mut self.step, alloc, reader, depth),
            "rows" => take_into_slot(&mut self.rows, alloc, reader, depth),
            "moves" => take_into_slot(&mut self.moves, alloc, reader, depth),
            "work" => take_into_slot(&mut self.work, alloc, reader, depth),
            "ask" => take_into_slot(&mut self.ask, alloc, reader, depth),
            _ => None,
        }
    }
}
