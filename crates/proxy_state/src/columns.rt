//! The columns of verdicts on a proxy's own batch, made of the replies, and the verdicts in them,
//! joined.
//!
//! Release 7.1, `CommitProxyServer.actor.cpp`, determineCommittedTransactions; what differs is marked
//! *profile*.

ghost use Rattle.std.specs.Prelude.{◌≡◌, map, IfOk};
ghost use Rattle.model.specs.Shares.{each_below};
ghost use Rattle.model.specs.Verdicts.{joined};
ghost use Rattle.model.specs.Finishing.{reply_from, verdicts_of_reply};
ghost use Rattle.proxy_state.specs.Learning.{column_of_resolver, columns_of_replies, by_columns};

use crate::disagreements::{is_resolver_in, reply_from};
use crate::joined_verdict::least_of;
use model::{Reply, ResolverNumber, TransactionNumber, Verdict};
use std::alloc::Global;
use system_keys::{Items, OutOfMemory};

/// A column for each resolver, which has its verdict on each transaction. The lists have the resolvers
/// that get a part of each transaction. Fails only with `OutOfMemory`.
pub(crate) fn columns_of_replies(
    alloc: Global,
    resolvers: usize,
    lists: &[Items<ResolverNumber>],
    replies: &[Option<Reply>],
) -> Result<Vec<Items<Verdict>>, OutOfMemory>
    ensures { IfOk result (λ columns.
        columns.items ≡ columns_of_replies resolvers lists.now replies.now) }
{
    let mut columns = Vec::with_capacity(alloc, resolvers)?;
    for resolver in 0..resolvers {
        let verdicts = replied_verdicts(replies, resolver);
        columns.push(column_of_resolver(alloc, resolver, lists, verdicts)?)?;
    }
    Ok(columns)
}

/// The verdicts that the resolver replied.
fn replied_verdicts(replies: &[Option<Reply>], resolver: ResolverNumber) -> &[Verdict]
    ensures { result.now ≡ verdicts_of_reply (reply_from replies.now resolver) }
{
    match reply_from(replies, resolver) {
        Some(reply) => reply.verdicts.as_slice(),
        None => &[],
    }
}

/// One verdict for each list: the next of these verdicts if the list has the resolver, and otherwise
/// Conflict.
fn column_of_resolver(
    alloc: Global,
    resolver: ResolverNumber,
    lists: &[Items<ResolverNumber>],
    verdicts: &[Verdict],
) -> Result<Items<Verdict>, OutOfMemory>
    ensures { IfOk result (λ column. column ≡ column_of_resolver resolver lists.now verdicts.now) }
{
    let mut column = Vec::with_capacity(alloc, lists.len())?;
    let mut rest = verdicts;
    for list in lists {
        let mut verdict = Verdict::Conflict;
        if is_resolver_in(resolver, list.as_slice()) {
            if let [first, later @ ..] = rest {
                verdict = *first;
                rest = later;
            }
        }
        column.push(verdict)?;
    }
    Ok(Items::from(column))
}

/// The verdict of the resolver on the transaction of this number, by the columns.
fn verdict_in_columns(
    columns: &[Items<Verdict>],
    resolver: ResolverNumber,
    number: TransactionNumber,
) -> Verdict
    ensures { result ≡ by_columns columns.now resolver 0 number }
{
    match columns.get(resolver) {
        Some(column) => match column.as_slice().get(number) {
            Some(verdict) => *verdict,
            None => Verdict::Conflict,
        },
        None => Verdict::Conflict,
    }
}

/// The verdict of each resolver on the transaction of this number. Fails only with `OutOfMemory`.
pub(crate) fn verdicts_in_columns(
    alloc: Global,
    resolvers: usize,
    columns: &[Items<Verdict>],
    number: TransactionNumber,
) -> Result<Vec<Verdict>, OutOfMemory>
    ensures { IfOk result (λ verdicts. verdicts.items
        ≡ map (λ r. by_columns columns.now r 0 number) (each_below resolvers)) }
{
    let mut verdicts = Vec::with_capacity(alloc, resolvers)?;
    for resolver in 0..resolvers {
        verdicts.push(verdict_in_columns(columns, resolver, number))?;
    }
    Ok(verdicts)
}

/// The least verdict of the resolvers in the list on the transaction of this number.
#[tactic(auto, using(crate::proofs::Joins::least_of_least))]
pub(crate) fn joined_verdict_in_columns(
    columns: &[Items<Verdict>],
    list: &[ResolverNumber],
    number: TransactionNumber,
) -> Verdict
    ensures { result ≡ joined (map (λ r. by_columns columns.now r 0 number) list.now) }
{
    let mut least = Verdict::Committed;
    for resolver in list {
        least = least_of(least, verdict_in_columns(columns, *resolver, number));
    }
    least
}
