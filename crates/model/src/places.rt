//! Places in a list.

ghost use Rattle.std.specs.Prelude.{◌≡◌, ◌++◌, ◌∷◌, [], OnOk, IfOk};
ghost use Rattle.model.specs.Shares.{each_below};

use smallvec::SmallVec;
use std::alloc::{AllocError, Global};
use std::marker::Model;
use system_keys::OutOfMemory;

/// Up to this number of places lie in the value itself, without an allocation.
const FEW: usize = 4;

/// Places in a list, from 0, in order. Up to 4 lie in the value itself, and take no block of memory.
#[derive(Debug, Drop)]
pub struct Places {
    places: SmallVec<usize, FEW>,
}

impl Model for Places {
    ghost use Rattle.std.specs.Prelude.{List, ℕ};

    ghost Value = { List ℕ };

    ghost view = { λ p. p.places.items };
}

impl Places {
    /// No places. Does not allocate.
    pub fn new(alloc: Global) -> Places
        ensures { result ≡ [] }
    {
        Places {
            places: SmallVec::new(alloc),
        }
    }

    /// All places of a list that is this long. Fails only with `OutOfMemory`.
    pub fn below(alloc: Global, length: usize) -> Result<Places, OutOfMemory>
        ensures { IfOk result (λ places. places ≡ each_below length) }
    {
        let mut places = Places::new(alloc);
        for place in 0..length {
            places.push(place)?;
        }
        Ok(places)
    }

    /// Adds a place at the end. Fails only with `OutOfMemory`.
    pub fn push(&mut self, place: usize) -> Result<(), OutOfMemory>
        ensures { OnOk result (self.new ≡ self.old ++ place ∷ []) }
    {
        Ok(self.places.push(place)?)
    }

    /// Borrows the places.
    pub fn as_slice(&self) -> &[usize]
        ensures { result.now ≡ self.now }
    {
        self.places.as_slice()
    }
}

impl Clone for Places {
    ghost is_clone = { λ places copy. copy ≡ places };

    fn clone(&self) -> Result<Places, AllocError> {
        let alloc: Global = *self.places.allocator();
        Ok(Places {
            places: SmallVec::from_slice(alloc, self.as_slice())?,
        })
    }
}
