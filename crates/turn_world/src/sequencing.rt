//! Beginning a sequenced record at its proxy.

ghost use Rattle.std.specs.Prelude.{◌≡◌, IfOk, OnErr};
ghost use Rattle.turn_world.specs.Parts.{MayBeginAt, IsBegunAt};

use model::ProxyNumber;
use proxy_state::{OwnedMoves, Proxy, Refusal};
use request_builder::{Record, Request};
use system_keys::{Items, OutOfMemory};

/// Lets the proxy begin the record, by the map of owners of its moves, which the proxies share, and
/// returns the requests that it sends. The other proxies are left as they are.
#[tactic(auto, using(proxy_state::proofs::RefusedCalls::wants_memory))]
pub(crate) fn begin_at(
    proxies: &mut Vec<Proxy>,
    proxy: ProxyNumber,
    rec: &Record,
    owned: &OwnedMoves,
) -> Result<Items<Request>, OutOfMemory>
    requires may { MayBeginAt proxies.old.items proxy rec.now }
    requires moves { owned.now ≡ rec.now.moves }
    ensures begun { IfOk result (λ requests.
        IsBegunAt proxies.old.items proxy rec.now requests proxies.new.items) }
    ensures err { OnErr result (proxies.new.items ≡ proxies.old.items) }
{
    match proxies[proxy].begin_with(rec, owned) {
        Ok(built) => Ok(built.requests),
        Err(refusal) => {
            let Refusal::OutOfMemory = refusal else {
                unreachable!();
            };
            Err(OutOfMemory)
        }
    }
}
