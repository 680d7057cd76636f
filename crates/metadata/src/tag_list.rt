//! Tags gathered in rising order, each once.

ghost use Rattle.std.specs.Prelude.{◌≡◌, [], OnOk, fold};
ghost use Rattle.std.specs.BTreeSet.{insert_key};
ghost use Rattle.system_keys.specs.ListedTags.{tag_cmp};

use std::alloc::Global;
use std::marker::Model;
use system_keys::{Items, OutOfMemory, Tag};

/// A set of few tags, such as those of one keyServers value: it is a list, and a tag that is added
/// moves those that stand behind it. Contracts see the tags, strictly increasing.
#[derive(Drop)]
pub(crate) struct TagList {
    tags: Vec<Tag>,
}

impl Model for TagList {
    ghost use Rattle.std.specs.Prelude.{List};
    ghost use Rattle.std.specs.List.Sorted.{IsStrictlySortedBy};
    ghost use Rattle.system_keys.specs.declared.tag.Tag.{Tag};
    ghost use Rattle.system_keys.specs.ListedTags.{tag_cmp};

    ghost Value = { List Tag };

    ghost view = { λ l. l.tags.items };

    ghost invariant = { λ l. IsStrictlySortedBy tag_cmp l.tags.items };
}

impl TagList {
    /// No tags. Does not allocate.
    pub(crate) fn new(alloc: Global) -> TagList
        ensures { result ≡ [] }
    {
        TagList {
            tags: Vec::new(alloc),
        }
    }

    /// Adds the tag, if it is not there. Fails only with `OutOfMemory`.
    pub(crate) fn add(&mut self, tag: Tag) -> Result<(), OutOfMemory>
        ensures { OnOk result (self.new ≡ insert_key tag_cmp self.old tag) }
    {
        if let Err(place) = self.tags.as_slice().binary_search(&tag) {
            self.tags.insert(place, tag)?;
        }
        Ok(())
    }

    /// Adds the tags. Fails only with `OutOfMemory`; some of them are then added.
    pub(crate) fn add_all(&mut self, tags: &[Tag]) -> Result<(), OutOfMemory>
        ensures { OnOk result (self.new ≡ fold (insert_key tag_cmp) self.old tags.now) }
    {
        for tag in tags {
            self.add(*tag)?;
        }
        Ok(())
    }

    /// The tags, in their order. Does not allocate.
    pub(crate) fn into_items(self) -> Items<Tag>
        ensures { result ≡ self }
    {
        Items::from(self.tags)
    }
}
