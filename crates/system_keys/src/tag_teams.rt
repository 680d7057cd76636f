//! The lists of source and destination tags that a keyServers value may have in place of servers.

ghost use Rattle.std.specs.Prelude.{◌≡◌, IfOk, MatchResult, Some, None};

use crate::items::Items;
use crate::memory::OutOfMemory;
use crate::tag::Tag;
use std::marker::Model;
use thiserror::Error;

/// The greatest number of tags in one list (this project's profile).
pub const TAGS_LIMIT: usize = 255;

/// Why two lists of tags are not the tags of a range of keys (this project's profile).
#[derive(Clone, Copy, Debug, PartialEq, Eq, Error)]
pub enum TagTeamsFault {
    /// A list has more than 255 tags.
    #[error("a list has more than 255 tags")]
    TooManyTags,
    /// The tags of a list are not strictly increasing.
    #[error("tags do not rise")]
    NotRising,
}

/// The tags of a range of keys: those of the storage servers that have it, and of those that it
/// moves to. Both lists are strictly increasing and have at most 255 tags (this project's profile).
#[derive(Clone, Debug, Drop)]
pub struct TagTeams {
    sources: Items<Tag>,
    destinations: Items<Tag>,
}

impl Model for TagTeams {
    ghost use Rattle.std.specs.Prelude.{◌≡◌, None};
    ghost use Rattle.system_keys.specs.ListedTags.{ListedTags, listed_tags_fault};

    ghost Value = { ListedTags };

    ghost view = { λ t. record { sources = t.sources; destinations = t.destinations } };

    ghost invariant = { λ t.
        listed_tags_fault (record { sources = t.sources; destinations = t.destinations }) ≡ None };
}

impl TagTeams {
    ghost use Rattle.system_keys.specs.ListedTags.{ListedTags, listed_tags_fault};

    /// Returns these tags, or the first fault, of the sources before the destinations, and both
    /// lists, unchanged. Does not allocate.
    pub fn new(
        sources: Vec<Tag>,
        destinations: Vec<Tag>,
    ) -> Result<TagTeams, (TagTeamsFault, Vec<Tag>, Vec<Tag>)>
        ensures { let tags : ListedTags =
            record { sources = sources.items; destinations = destinations.items } in
            MatchResult result (λ teams. (listed_tags_fault tags ≡ None) × (teams ≡ tags))
            (λ refused. (listed_tags_fault tags ≡ Some refused.0)
            × (refused.1 ≡ sources) × (refused.2 ≡ destinations)) }
    {
        let fault = tag_list_fault(&sources).or(tag_list_fault(&destinations));
        match fault {
            Some(fault) => Err((fault, sources, destinations)),
            None => Ok(TagTeams {
                sources: Items::from(sources),
                destinations: Items::from(destinations),
            }),
        }
    }

    /// Returns the tags of lists without a fault. Does not allocate.
    pub(crate) fn from_valid(sources: Vec<Tag>, destinations: Vec<Tag>) -> TagTeams
        requires { let tags : ListedTags =
            record { sources = sources.items; destinations = destinations.items } in
            listed_tags_fault tags ≡ None }
        ensures { result ≡ record { sources = sources.items; destinations = destinations.items } }
    {
        TagTeams {
            sources: Items::from(sources),
            destinations: Items::from(destinations),
        }
    }

    /// The tags of the servers that have the range, in increasing order.
    pub fn sources(&self) -> &[Tag]
        ensures value { result.now ≡ self.now.sources }
        ensures kept { listed_tags_fault self.now ≡ None }
    {
        self.sources.as_slice()
    }

    /// The tags of the servers that the range moves to, in increasing order.
    pub fn destinations(&self) -> &[Tag]
        ensures value { result.now ≡ self.now.destinations }
        ensures kept { listed_tags_fault self.now ≡ None }
    {
        self.destinations.as_slice()
    }

    /// Returns a deep copy. Fails only with `OutOfMemory`.
    pub fn copy(&self) -> Result<TagTeams, OutOfMemory>
        ensures { IfOk result (λ copy. copy ≡ self.now) }
    {
        Ok(self.clone()?)
    }
}

ghost use Rattle.system_keys.specs.ListedTags.{tag_list_fault, are_tags_rising, is_tag_above};

/// The first fault of the tags as one list: too many, or not rising.
fn tag_list_fault(tags: &[Tag]) -> Option<TagTeamsFault>
    ensures { result ≡ tag_list_fault tags.now }
{
    if tags.len() > TAGS_LIMIT {
        Some(TagTeamsFault::TooManyTags)
    } else if are_tags_rising(tags) {
        None
    } else {
        Some(TagTeamsFault::NotRising)
    }
}

/// Whether the tags rise strictly.
fn are_tags_rising(tags: &[Tag]) -> bool
    ensures { result ≡ are_tags_rising None tags.now }
{
    let mut before: Option<Tag> = None;
    for tag in tags {
        if !is_tag_above(before, *tag) {
            return false;
        }
        before = Some(*tag);
    }
    true
}

/// Whether the tag is above the previous one, if there is one: by their localities, and then by
/// their ids.
pub(crate) fn is_tag_above(before: Option<Tag>, tag: Tag) -> bool
    ensures { result ≡ is_tag_above before tag }
{
    match before {
        Some(before) => before.cmp(&tag).is_lt(),
        None => true,
    }
}
