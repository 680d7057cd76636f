//! The trait of what a worker calls before its resolver judges, and the gate that does nothing.

use model::{ResolverNumber, RowNumber};

/// A resolver and a row.
#[derive(Clone, Copy, Debug, PartialEq, Eq)]
pub struct Place {
    /// The number of the resolver.
    pub resolver: ResolverNumber,
    /// The row.
    pub row: RowNumber,
}

/// What a worker enters before it offers a request to its resolver.
pub trait Gate {
    ghost use Rattle.workers.specs.declared.gate.Place.{Place};

    // What is known once a place was entered. A gate of whose calls something is to be known says what.
    ghost has_entered: { Self → Place → Type 0 };

    /// Called once for each request whose turn it is, under the resolver's lock, before the request
    /// is judged. It must not wait for that lock.
    fn enter(&self, place: Place)
        ensures { has_entered self.now place };
}

/// A gate that does nothing.
#[derive(Clone, Copy, Debug)]
pub struct Open;

impl Gate for Open {
    ghost use Rattle.std.specs.Prelude.{⊤};

    ghost has_entered = { λ _ _. ⊤ };

    fn enter(&self, _place: Place) {}
}
