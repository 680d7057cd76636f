//! The request of a proxy to one resolver for a record.
//!
//! Release 7.1, `CommitProxyServer.actor.cpp`, ResolutionRequestBuilder.

ghost use Rattle.std.specs.Prelude.{◌≡◌, Some, IfOk, MatchOption, Contains, nat_lt, slice_get};
ghost use Rattle.std.specs.List.{list_all};
ghost use Rattle.model.specs.RequestRules.{KeepsRequestRule, NumbersRise, part_numbers};
ghost use Rattle.request_builder.specs.Requests.{request_of, least_after, part_numbers_rise};
ghost use Rattle.request_builder.specs.Requests.{mark_names_part, mark_fits_resolver};

use crate::header::RequestHeader;
use crate::places::place_of;
use crate::share::Share;
use model::{Part, ProxyNumber, ResolverNumber, RowNumber, StateMark, TransactionNumber, Version};
use std::alloc::AllocError;
use std::marker::Model;
use system_keys::{Items, OutOfMemory};

/// The request to one resolver: the numbers of the record, the resolver's share, and the marks of
/// the state transactions.
///
/// The numbers of its parts rise, and each mark names a part. The marks have the content of their
/// transactions exactly if the request is to resolver 0.
#[derive(Debug, Drop)]
pub struct Request {
    header: RequestHeader,
    share: Share,
    states: Items<StateMark>,
}

impl Model for Request {
    ghost use Rattle.model.specs.Requests.{Request as Sent};
    ghost use Rattle.model.specs.RequestRules.{KeepsRequestRule};
    ghost use Rattle.request_builder.specs.Requests.{request_of};

    ghost Value = { Sent };

    ghost view = { λ q. request_of q.header q.share q.states };

    ghost invariant = { λ q. KeepsRequestRule (request_of q.header q.share q.states) };
}

impl Request {
    /// Returns the request of these parts, or None unless the numbers of the parts strictly
    /// increase, each mark names a part, and the marks have their content exactly if the resolver is
    /// 0. Does not allocate.
    pub fn new(header: RequestHeader, share: Share, states: Items<StateMark>) -> Option<Request>
        ensures { let q = request_of header share states in
            MatchOption result
            (KeepsRequestRule q → ⊥) (λ request. KeepsRequestRule q × (request ≡ q)) }
    {
        let parts = share.parts();
        let marks = states.as_slice();
        if part_numbers_rise(parts)
            && marks_name_parts(parts, marks)
            && marks_fit_resolver(header.resolver, marks)
        {
            Some(Request {
                header,
                share,
                states,
            })
        } else {
            None
        }
    }

    /// Returns the request of these parts. Does not allocate.
    pub(crate) fn of_parts(header: RequestHeader, share: Share, states: Items<StateMark>) -> Request
        requires { KeepsRequestRule (request_of header share states) }
        ensures { result ≡ request_of header share states }
    {
        Request {
            header,
            share,
            states,
        }
    }

    /// The resolver that it is to.
    pub fn resolver(&self) -> ResolverNumber
        ensures { result ≡ self.now.resolver }
    {
        self.header.resolver
    }

    /// The proxy that sends it.
    pub fn proxy(&self) -> ProxyNumber
        ensures { result ≡ self.now.proxy }
    {
        self.header.proxy
    }

    /// The row of the record: its place in the order of all batches.
    pub fn row(&self) -> RowNumber
        ensures { result ≡ self.now.row }
    {
        self.header.row
    }

    /// The version before the record's.
    pub fn previous(&self) -> Version
        ensures { result ≡ self.now.previous }
    {
        self.header.previous
    }

    /// The version of the record.
    pub fn version(&self) -> Version
        ensures { result ≡ self.now.version }
    {
        self.header.version
    }

    /// The version of the last record that the proxy had finished when it began this one, or 0.
    pub fn last_received(&self) -> Version
        ensures { result ≡ self.now.last_received }
    {
        self.header.last_received
    }

    /// The parts of transactions that the resolver gets, in the order of the batch.
    pub fn share(&self) -> &Share
        ensures value { result.now ≡ self.now.share }
        ensures kept { KeepsRequestRule self.now }
    {
        &self.share
    }

    /// The marks of the state transactions, in the order of the batch.
    pub fn states(&self) -> &[StateMark]
        ensures value { result.now ≡ self.now.states }
        ensures kept { KeepsRequestRule self.now }
    {
        self.states.as_slice()
    }

    /// The place in the share of the part with this number, or None if there is no such part. It
    /// looks at few parts, since their numbers rise. Does not allocate.
    pub fn place_of(&self, number: TransactionNumber) -> Option<usize>
        ensures place { let numbers = part_numbers self.now.share in
            MatchOption result (Contains numbers number → ⊥)
            (λ place. slice_get numbers place ≡ Some number) }
        ensures kept { KeepsRequestRule self.now }
    {
        place_of(self.share.parts(), number)
    }

    /// Returns an equal copy. Fails only with `OutOfMemory`.
    pub fn copy(&self) -> Result<Request, OutOfMemory>
        ensures { IfOk result (λ copy. copy ≡ self.now) }
    {
        Ok(self.clone()?)
    }
}

impl Clone for Request {
    ghost is_clone = { λ request copy. copy ≡ request };

    fn clone(&self) -> Result<Request, AllocError> {
        Ok(Request {
            header: self.header,
            share: self.share.clone()?,
            states: self.states.clone()?,
        })
    }
}

/// Whether the numbers of the parts rise.
fn part_numbers_rise(parts: &[Part]) -> bool
    ensures { result ≡ part_numbers_rise 0 parts.now }
{
    let mut last = None;
    for part in parts {
        if is_at_or_below(part.number(), last) {
            return false;
        }
        last = Some(part.number());
    }
    true
}

/// Whether the number is at or below the last one, if there is a last one.
fn is_at_or_below(number: TransactionNumber, last: Option<TransactionNumber>) -> bool
    ensures { result ≡ nat_lt number (least_after last) }
{
    match last {
        Some(last) => number <= last,
        None => false,
    }
}

/// Whether each mark names one of the parts.
fn marks_name_parts(parts: &[Part], marks: &[StateMark]) -> bool
    requires { NumbersRise 0 parts.now }
    ensures { result ≡ list_all (mark_names_part parts.now) marks.now }
{
    marks.iter().all(|mark| mark_names_part(parts, mark))
}

/// Whether the mark names one of the parts.
fn mark_names_part(parts: &[Part], mark: &StateMark) -> bool
    requires { NumbersRise 0 parts.now }
    ensures { result ≡ mark_names_part parts.now mark.now }
{
    place_of(parts, mark.number).is_some()
}

/// Whether the marks have the content of their transactions exactly if the resolver is 0.
fn marks_fit_resolver(resolver: ResolverNumber, marks: &[StateMark]) -> bool
    ensures { result ≡ list_all (mark_fits_resolver resolver) marks.now }
{
    marks.iter().all(|mark| mark_fits_resolver(resolver, mark))
}

/// Whether the mark has the content of its transaction exactly if the resolver is 0.
fn mark_fits_resolver(resolver: ResolverNumber, mark: &StateMark) -> bool
    ensures { result ≡ mark_fits_resolver resolver mark.now }
{
    if resolver == 0 {
        mark.carried.is_some()
    } else {
        mark.carried.is_none()
    }
}
