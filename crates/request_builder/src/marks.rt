//! The marks of a request that say which transactions are state transactions.

ghost use Rattle.std.specs.Prelude.{◌≡◌, length, IfOk};
ghost use Rattle.model.specs.Journal.{carried_to};
ghost use Rattle.request_builder.specs.AskedResolvers.{marks_for};

use crate::asked_resolvers::AskedResolvers;
use model::{Carried, ResolverNumber, StateMark};
use mutation::Stamped;
use std::alloc::Global;
use system_keys::{OutOfMemory, SharedItems};

/// The marks of the state transactions of the batch, as the resolver gets them.
pub(crate) fn marks_for(
    alloc: Global,
    resolver: ResolverNumber,
    batch: &[Stamped],
    askings: &[AskedResolvers],
) -> Result<Vec<StateMark>, OutOfMemory>
    requires { length askings.now ≡ length batch.now }
    ensures { IfOk result (λ marks. marks.items ≡ marks_for resolver 0 batch.now askings.now) }
{
    let mut marks = Vec::new(alloc);
    for (number, transaction) in batch.iter().enumerate() {
        if askings[number].is_state {
            let carried = carried_to(alloc, resolver, transaction)?;
            marks.push(StateMark { number, carried })?;
        }
    }
    Ok(marks)
}

/// The content of the state transaction, if the resolver gets it: resolver 0 does.
fn carried_to(
    alloc: Global,
    resolver: ResolverNumber,
    transaction: &Stamped,
) -> Result<Option<Carried>, OutOfMemory>
    ensures { IfOk result (λ carried. carried ≡ carried_to resolver transaction.now) }
{
    if resolver != 0 {
        return Ok(None);
    }
    Ok(Some(Carried {
        mutations: SharedItems::new(alloc, transaction.state_mutations(alloc)?)?,
        lock_aware: transaction.lock_aware(),
    }))
}
