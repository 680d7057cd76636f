//! Changes of a fold script and mutations of a batch from tokens.

use crate::raw_change::RawChange;
use crate::stream_objects::take_object_of_pair;
use crate::streams::Streamed;
use mutation::Mutation;
use script_tokens::Tokens;
use std::alloc::Global;

impl Streamed for RawChange {
    fn from_tokens(alloc: Global, reader: &mut Tokens<'_>, depth: usize) -> Option<RawChange> {
        let (name, (first, second)) = take_object_of_pair(alloc, reader, depth)?;
        match name.as_str() {
            "set" => Some(RawChange::Set {
                key: first,
                value: second,
            }),
            "clear" => Some(RawChange::Clear {
                begin: first,
                end: second,
            }),
            _ => None,
        }
    }
}

impl Streamed for Mutation {
    fn from_tokens(alloc: Global, reader: &mut Tokens<'_>, depth: usize) -> Option<Mutation> {
        let (name, (first, second)) = take_object_of_pair(alloc, reader, depth)?;
        match name.as_str() {
            "set" => Some(Mutation::Set {
                key: first,
                value: second,
            }),
            "clear" => Some(Mutation::Clear {
                begin: first,
                end: second,
            }),
            "set_stamped" => Some(Mutation::SetStamped {
                key: first,
                value: second,
            }),
            _ => None,
        }
    }
}
