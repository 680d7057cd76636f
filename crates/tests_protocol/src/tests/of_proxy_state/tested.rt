//! The proxy of these tests.

ghost use Rattle.std.specs.Prelude.{◌≡◌, ◌≤◌, ◌<◌};

use crate::tests::of_proxy_state::{ROW_OF_ALL, TAG_ROW_1, TAG_ROW_2, two_of_each};
use mutation::Batch;
use proxy_state::{Finished, Metadata, Proxy, Refusal, Replies};
use request_builder::{Moves, Record, Requests};
use std::alloc::Global;
use std::marker::Model;
use std::process::Abort;
use std::test::Fail;
use system_keys::OutOfMemory;
use testing::{Content, content_batch, twice};

pub(crate) const ROW_OF_M: &[u8] = b"\xff/keyServers/m";

/// Whether the entries of two tags and of the rows at `` and `m` are there.
pub(crate) fn entries_there(metadata: &Metadata) -> [bool; 4] {
    [
        metadata.row(TAG_ROW_1).is_some(),
        metadata.row(TAG_ROW_2).is_some(),
        metadata.row(ROW_OF_ALL).is_some(),
        metadata.row(ROW_OF_M).is_some(),
    ]
}

/// The version last begun, the proxy's version, how many rows its journal has, and which entries
/// are there.
type Seen = (u64, u64, usize, [bool; 4]);

fn seen(proxy: &Proxy) -> Seen {
    (
        proxy.last_begun(),
        proxy.version(),
        proxy.journal().len(),
        entries_there(proxy.metadata()),
    )
}

pub(crate) fn is_seen(proxy: &Proxy, wanted: Seen) -> bool {
    seen(proxy) == wanted
}

/// A proxy whose map of owners holds no moves, of a cluster whose versions are 10 apart.
#[derive(Drop)]
pub(crate) struct Tested {
    pub(crate) proxy: Proxy,
}

impl Model for Tested {
    ghost use Rattle.std.specs.Prelude.{◌≡◌, []};
    ghost use Rattle.model.specs.Finishing.{ProxyView, HoldsMoves};

    ghost Value = { ProxyView };

    ghost view = { λ t. t.proxy };

    ghost invariant = { λ t. HoldsMoves t.proxy [] × (t.proxy.config.step ≡ 10) };
}

impl Tested {
    /// Proxy 0 of two, with two resolvers. It has begun nothing.
    pub(crate) fn new(alloc: Global) -> Result<Tested, Fail> {
        let config = two_of_each()?;
        let proxy = twice!(alloc; Proxy::new(alloc, 0, &config), OutOfMemory)?;
        Ok(Tested { proxy })
    }

    /// Begins the record of the batch in this row of proxy `number`, at the version after
    /// `previous`: what is answered.
    pub(crate) fn begin(
        &mut self,
        alloc: Global,
        row: usize,
        previous: u64,
        own_previous: u64,
        number: usize,
        batch: &Batch,
    ) -> Result<Result<Requests, Refusal>, OutOfMemory>
        requires own { own_previous ≤ previous }
        requires small { previous < 1000 }
    {
        let version = previous + 10;
        let moves = Moves::new(alloc);
        let rec = Record::new(
            alloc,
            row,
            previous,
            version,
            own_previous,
            number,
            &moves,
            batch,
        )?;
        Ok(twice!(alloc; self.proxy.begin(&rec), Refusal::OutOfMemory))
    }

    /// Begins the record of a batch of these contents, in this row of this proxy.
    pub(crate) fn begin_contents(
        &mut self,
        alloc: Global,
        row: usize,
        previous: u64,
        own_previous: u64,
        contents: &[Content<'_>],
    ) -> Result<(), Fail>
        requires own { own_previous ≤ previous }
        requires small { previous < 1000 }
    {
        let batch = content_batch(alloc, contents)?;
        let _ = self.begin(alloc, row, previous, own_previous, 0, &batch)??;
        Ok(())
    }

    /// Finishes the earliest record. A failed allocation leaves the proxy unchanged.
    pub(crate) fn finish<R: Abort>(
        &mut self,
        rt: &R,
        replies: Replies,
    ) -> Result<Finished, (Refusal, Replies)> {
        let before = seen(&self.proxy);
        match self.proxy.finish(replies) {
            Err((Refusal::OutOfMemory, replies)) => {
                assert!(rt;
                    is_seen(&self.proxy, before),
                    "a failed allocation changed the proxy"
                );
                self.proxy.finish(replies)
            }
            answer => answer,
        }
    }
}
