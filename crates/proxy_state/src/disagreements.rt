//! Whether each reply is to the record, and whether the unseen rows of all replies agree.
//!
//! Release 7.1, `CommitProxyServer.actor.cpp`, getResolution; what differs is marked *profile*.

ghost use Rattle.std.specs.Prelude.{◌≡◌, ℕ, ◌+◌, ◌*◌, ◌^◌, ◌<◌, ◌≤◌, length, map, option_map};
ghost use Rattle.std.specs.Prelude.{slice_get, is_some, not};
ghost use Rattle.std.specs.List.{list_all};
ghost use Rattle.model.specs.Shares.{each_below};
ghost use Rattle.model.specs.Finishing.{reply_from, row_from, unseen_of_reply, unreplied};
ghost use Rattle.model.specs.Finishing.{is_reply_to, are_replies_to, has_content_for, row_fits};
ghost use Rattle.model.specs.Finishing.{place_fits, version_at, misfits, disagreements};
ghost use Rattle.proxy_state.specs.Learning.{AskedAreKept, is_resolver_in, count_parts_for};
ghost use Rattle.proxy_state.specs.Learning.{has_reply_numbers};

use crate::begun_record::BegunRecord;
use model::{Config, Reply, ResolverNumber, UnseenRow, UnseenState, Version};
use request_builder::Record;
use system_keys::Items;

/// The reply of the resolver, if it has come.
pub(crate) fn reply_from(replies: &[Option<Reply>], resolver: ResolverNumber) -> Option<&Reply>
    ensures { option_map (λ reply. reply.now) result ≡ reply_from replies.now resolver }
{
    match replies.get(resolver) {
        Some(Some(reply)) => Some(reply),
        Some(None) | None => None,
    }
}

/// The unseen row at a place of the reply of the resolver, if there is one.
pub(crate) fn row_from(
    replies: &[Option<Reply>],
    place: usize,
    resolver: ResolverNumber,
) -> Option<&UnseenRow>
    ensures { option_map (λ row. row.now) result ≡ row_from replies.now place resolver }
{
    match reply_from(replies, resolver) {
        Some(reply) => reply.unseen.as_slice().get(place),
        None => None,
    }
}

/// The first of the resolvers whose replies have not come.
pub(crate) fn first_unreplied(resolvers: usize, replies: &[Option<Reply>]) -> Option<ResolverNumber>
    ensures { result ≡ slice_get (unreplied resolvers replies.now) 0 }
{
    for resolver in 0..resolvers {
        if reply_from(replies, resolver).is_none() {
            return Some(resolver);
        }
    }
    None
}

/// The first version at which the replies to the record disagree, where the proxy is at `version`.
/// Does not allocate.
pub(crate) fn first_disagreement(
    config: &Config,
    begun: &BegunRecord,
    version: Version,
    replies: &[Option<Reply>],
) -> Option<Version>
    requires asked { AskedAreKept config.now begun.now }
    requires own { version ≤ begun.now.rec.previous }
    requires step { begun.now.rec.version ≡ begun.now.rec.previous + config.now.step }
    ensures { result
        ≡ slice_get (disagreements config.now version begun.now.rec replies.now) 0 }
{
    let own = begun.rec.version();
    if are_replies_to(config, begun, replies) {
        first_misfit(config, version, begun.rec.previous(), replies)
    } else {
        Some(own)
    }
}

/// Whether each resolver replied to this record.
fn are_replies_to(config: &Config, begun: &BegunRecord, replies: &[Option<Reply>]) -> bool
    requires { AskedAreKept config.now begun.now }
    ensures { result ≡ are_replies_to config.now begun.now.rec replies.now }
{
    for resolver in 0..config.resolvers() {
        if !is_reply_to(config, begun, replies, resolver) {
            return false;
        }
    }
    true
}

/// Whether the resolver replied to this record, with a verdict for each part of its share.
#[tactic(auto, using(crate::proofs::Misfits::reply_numbers))]
fn is_reply_to(
    config: &Config,
    begun: &BegunRecord,
    replies: &[Option<Reply>],
    resolver: ResolverNumber,
) -> bool
    requires asked { AskedAreKept config.now begun.now }
    requires there { resolver < config.now.resolvers }
    ensures { result ≡ is_reply_to config.now begun.now.rec resolver
        (reply_from replies.now resolver) }
{
    match reply_from(replies, resolver) {
        Some(reply) => {
            let count = count_parts_for(resolver, begun.asked.as_slice());
            has_reply_numbers(&begun.rec, resolver, count, reply)
        }
        None => false,
    }
}

/// Whether the reply has the numbers of the resolver and of the record, and this number of verdicts.
fn has_reply_numbers(rec: &Record, resolver: ResolverNumber, count: usize, reply: &Reply) -> bool
    ensures { result ≡ has_reply_numbers rec.now resolver count reply.now }
{
    reply.resolver == resolver
        && reply.proxy == rec.proxy()
        && reply.row == rec.row()
        && reply.version == rec.version()
        && reply.verdicts.as_slice().len() == count
}

/// How many of the lists have the resolver.
fn count_parts_for(resolver: ResolverNumber, lists: &[Items<ResolverNumber>]) -> usize
    ensures { result ≡ count_parts_for resolver lists.now }
{
    let mut count = 0;
    for list in lists {
        if is_resolver_in(resolver, list.as_slice()) {
            count += 1;
        }
    }
    count
}

/// Whether the resolver is in the list.
pub(crate) fn is_resolver_in(resolver: ResolverNumber, list: &[ResolverNumber]) -> bool
    ensures { result ≡ is_resolver_in resolver list.now }
{
    list.iter().any(|asked| *asked == resolver)
}

/// The version that should stand at the first place of the unseen rows where the replies do not fit
/// together: the rows after `version` up to `end`.
fn first_misfit(
    config: &Config,
    version: Version,
    end: Version,
    replies: &[Option<Reply>],
) -> Option<Version>
    requires own { version ≤ end }
    requires step { end + config.now.step < 2 ^ 64 }
    ensures { result ≡ slice_get (map (version_at config.now.step version)
        (misfits config.now version end replies.now)) 0 }
{
    let count = count_unseen_rows(replies);
    let mut before = version;
    for place in 0..count {
        if !place_fits(config, before, end, replies, place) {
            return Some(before + config.step());
        }
        before += config.step();
    }
    if place_fits(config, before, end, replies, count) {
        None
    } else {
        Some(before + config.step())
    }
}

/// Whether the replies fit together at a place of the unseen rows; the place before is of version
/// `before`.
fn place_fits(
    config: &Config,
    before: Version,
    end: Version,
    replies: &[Option<Reply>],
    place: usize,
) -> bool
    requires { before + config.now.step < 2 ^ 64 }
    ensures { (version : ℕ) → before ≡ version + place * config.now.step
        → result ≡ place_fits config.now version end replies.now place }
{
    match row_from(replies, place, 0) {
        Some(row) => {
            let expected = before + config.step();
            let count = row.states.as_slice().len();
            expected <= end && rows_fit(config.resolvers(), expected, count, replies, place)
        }
        None => before == end && no_rows_at(config.resolvers(), replies, place),
    }
}

/// How many unseen rows resolver 0 replied.
fn count_unseen_rows(replies: &[Option<Reply>]) -> usize
    ensures { result ≡ length (unseen_of_reply (reply_from replies.now 0)) }
{
    match reply_from(replies, 0) {
        Some(reply) => reply.unseen.as_slice().len(),
        None => 0,
    }
}

/// Whether each resolver has a row of this version at the place, with this number of state transactions.
fn rows_fit(
    resolvers: usize,
    version: Version,
    count: usize,
    replies: &[Option<Reply>],
    place: usize,
) -> bool
    ensures { result ≡ list_all (λ r. row_fits version count r (row_from replies.now place r))
        (each_below resolvers) }
{
    for resolver in 0..resolvers {
        if !row_fits(version, count, replies, place, resolver) {
            return false;
        }
    }
    true
}

/// Whether the row of the resolver is of this version, and has this number of state transactions.
fn row_fits(
    version: Version,
    count: usize,
    replies: &[Option<Reply>],
    place: usize,
    resolver: ResolverNumber,
) -> bool
    ensures { result ≡ row_fits version count resolver (row_from replies.now place resolver) }
{
    match row_from(replies, place, resolver) {
        Some(row) => {
            let states = row.states.as_slice();
            row.version == version && states.len() == count && have_content_for(resolver, states)
        }
        None => false,
    }
}

/// Whether the state transactions have their content exactly if the resolver is 0.
fn have_content_for(resolver: ResolverNumber, states: &[UnseenState]) -> bool
    ensures { result ≡ list_all (has_content_for resolver) states.now }
{
    states.iter().all(|state| has_content_for(resolver, state))
}

/// Whether the state transaction has its content exactly if the resolver is 0.
fn has_content_for(resolver: ResolverNumber, state: &UnseenState) -> bool
    ensures { result ≡ has_content_for resolver state.now }
{
    if resolver == 0 {
        state.carried.is_some()
    } else {
        state.carried.is_none()
    }
}

/// Whether no resolver has a row at the place.
fn no_rows_at(resolvers: usize, replies: &[Option<Reply>], place: usize) -> bool
    ensures { result ≡ list_all (λ r. not (is_some (row_from replies.now place r)))
        (each_below resolvers) }
{
    for resolver in 0..resolvers {
        if row_from(replies, place, resolver).is_some() {
            return false;
        }
    }
    true
}
