//! Lists whose copies share their elements.

ghost use Rattle.std.specs.Prelude.{◌≡◌, IfOk, MatchResult};

use crate::items::Items;
use crate::memory::OutOfMemory;
use std::alloc::{AllocError, Global};
use std::marker::Model;
use std::sync::Arc;

/// Elements in order, which all copies share. Contracts see the list of the elements.
#[derive(Debug, Drop)]
pub struct SharedItems<T> {
    items: Arc<Items<T>>,
}

impl<T> Model for SharedItems<T> {
    ghost use Rattle.std.specs.Prelude.{List};
    ghost use Rattle.std.specs.Arc.{arc_value};

    ghost Value = { List T };

    ghost view = { λ s. arc_value s.items };
}

impl<T> SharedItems<T> {
    /// Borrows the elements.
    pub fn as_slice(&self) -> &[T]
        ensures { result.now ≡ self.now }
    {
        self.items.as_slice()
    }

    /// Returns the elements without copying them, or the list itself if a copy shares them, which
    /// contracts do not see. Does not allocate.
    pub fn try_into_items(self) -> Result<Items<T>, SharedItems<T>>
        ensures { MatchResult result (λ items. items ≡ self) (λ list. list ≡ self) }
    {
        match Arc::try_unwrap(self.items) {
            Ok(items) => Ok(items),
            Err(items) => Err(SharedItems { items }),
        }
    }
}

impl<T: Drop> SharedItems<T> {
    /// Returns the list of these elements. Fails only with `OutOfMemory`.
    pub fn new(alloc: Global, items: Items<T>) -> Result<SharedItems<T>, OutOfMemory>
        ensures { IfOk result (λ list. list ≡ items) }
    {
        Ok(SharedItems {
            items: Arc::new(alloc, items)?,
        })
    }

    /// Returns a copy, which shares the elements. Fails only with `OutOfMemory`.
    pub fn copy(&self) -> Result<SharedItems<T>, OutOfMemory>
        ensures { IfOk result (λ copy. copy ≡ self.now) }
    {
        Ok(self.clone()?)
    }
}

impl<T: Drop> Clone for SharedItems<T> {
    ghost is_clone = { λ list copy. copy ≡ list };

    fn clone(&self) -> Result<SharedItems<T>, AllocError> {
        Ok(SharedItems {
            items: self.items.clone()?,
        })
    }
}
