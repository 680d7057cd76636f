//! The replies to one record, as a proxy collects them.
//!
//! Release 7.1, `CommitProxyServer.actor.cpp`, getResolution; what differs is marked *profile*.

ghost use Rattle.std.specs.Prelude.{◌≡◌, None, Some, IfOk, OnErr, OnOk, IfErr};
ghost use Rattle.std.specs.Prelude.{replicate, slice_set};
ghost use Rattle.proxy_state.specs.Refusals.{put_fault};

use crate::refusal::Refusal;
use model::{Config, Reply};
use std::alloc::Global;
use std::marker::Model;
use system_keys::OutOfMemory;

/// The replies to one record: a place for each resolver of the cluster, filled once it has replied.
#[derive(Clone, Debug, Drop)]
pub struct Replies {
    places: Vec<Option<Reply>>,
}

impl Model for Replies {
    ghost use Rattle.std.specs.Prelude.{List, Option};
    ghost use Rattle.model.specs.declared.reply.Reply.{Reply};

    ghost Value = { List (Option Reply) };

    ghost view = { λ r. r.places.items };
}

impl Replies {
    /// One empty place for each resolver. Fails only with `OutOfMemory`.
    #[tactic(auto, using(std::proofs::lemmas::List::replicate_more))]
    pub fn new(alloc: Global, config: &Config) -> Result<Replies, OutOfMemory>
        ensures { IfOk result (λ made. made ≡ replicate config.now.resolvers None) }
    {
        let mut places = Vec::with_capacity(alloc, config.resolvers())?;
        for _ in 0..config.resolvers() {
            places.push(None)?;
        }
        Ok(Replies { places })
    }

    /// Puts the reply in the place of its resolver. Does not allocate.
    ///
    /// Fails with `WrongResolver` if the cluster has no such resolver, and with `DoubleReply` if it
    /// has replied already. The replies are then unchanged, and the reply comes back.
    pub fn put(&mut self, reply: Reply) -> Result<(), (Refusal, Reply)>
        ensures ok { OnOk result (put_fault self.old reply ≡ None) }
        ensures filled { OnOk result
            (self.new ≡ slice_set self.old reply.resolver (Some reply)) }
        ensures refused { IfErr result (λ refused. put_fault self.old reply ≡ Some refused.0) }
        ensures back { IfErr result (λ refused. refused.1 ≡ reply) }
        ensures err { OnErr result (self.new ≡ self.old) }
    {
        let resolver = reply.resolver;
        if self.places.len() <= resolver {
            return Err((Refusal::WrongResolver, reply));
        }
        if self.places[resolver].is_some() {
            return Err((Refusal::DoubleReply { resolver }, reply));
        }
        self.places[resolver] = Some(reply);
        Ok(())
    }

    /// Returns an equal copy. Fails only with `OutOfMemory`.
    pub fn copy(&self) -> Result<Replies, OutOfMemory>
        ensures { IfOk result (λ copy. copy ≡ self.now) }
    {
        Ok(self.clone()?)
    }

    /// The places in the order of the resolvers, each with the reply that has come.
    pub(crate) fn places(&self) -> &[Option<Reply>]
        ensures { result.now ≡ self.now }
    {
        self.places.as_slice()
    }
}
