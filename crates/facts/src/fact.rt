//! The fact that a cell holds a value for good.

ghost use Rattle.std.specs.Prelude.{◌≡◌, ℕ, IsSome};
ghost use Rattle.std.specs.declared.option.Option.TheVariants.{Some};
ghost use denote.Sharing.{said};
ghost use Rattle.once_cell.specs.Once.{Agrees, cell_name, noted};

use once_cell::race::{Note, OnceBox};
use std::marker::{Model, PhantomData};

/// The fact that a cell holds a value for good. It takes no bytes, and any thread may have a copy.
///
/// A contract sees the cell's name as `cell`, and the value that it holds as `value`.
pub struct Fact<T> {
    marker: PhantomData<T>,
    pub ghost cell: { ℕ },
    pub ghost value: { T },
}

impl<T> Model for Fact<T> {
    ghost also_owns = { λ f. noted T.row f.cell (Some f.value) };

    ghost also_shares = { λ f _ κ. said (noted T.row f.cell (Some f.value)) κ };
}

impl<T> Fact<T> {
    /// Returns what a note knows, as a fact. The note is unchanged.
    pub fn of(note: &mut Note<T>) -> Fact<T>
        requires { IsSome note.old.known }
        ensures { (note.new ≡ note.old) × (result.cell ≡ note.old.cell)
            × (note.old.known ≡ Some result.value) }
    {
        let _ = note;
        Fact {
            marker: PhantomData,
        }
    }

    /// Returns a copy. It needs no memory.
    pub fn again(&self) -> Fact<T>
        ensures { result ≡ self.now }
    {
        Fact {
            marker: PhantomData,
        }
    }

    /// Two facts about one cell have the same value.
    pub fn agrees(&self, other: &Fact<T>)
        requires { self.now.cell ≡ other.now.cell }
        ensures { self.now.value ≡ other.now.value }
    {}

    /// Makes a note of the same cell know the value.
    pub fn tell(&self, note: &mut Note<T>)
        requires { note.old.cell ≡ self.now.cell }
        ensures { (note.new.cell ≡ note.old.cell) × (note.new.known ≡ Some self.now.value) }
    {
        let _ = note;
    }

    /// If a note of the same cell knows a value, it is the fact's. The note is unchanged.
    pub fn agrees_with(&self, note: &mut Note<T>)
        requires { note.old.cell ≡ self.now.cell }
        ensures { (note.new ≡ note.old) × Agrees note.old.known self.now.value }
    {
        let mut told = note.again();
        self.tell(&mut told);
        note.compare(told);
    }

    /// Returns the value, which the cell lends. It never waits, and needs no memory.
    pub fn value<'a>(&self, cell: &'a OnceBox<T>) -> &'a T
        requires { self.now.cell ≡ cell_name cell.now }
        ensures { result.now ≡ self.now.value }
    {
        let mut note = cell.note();
        self.tell(&mut note);
        match cell.get_as(&mut note) {
            Some(value) => value,
            None => unreachable!(),
        }
    }
}

impl<T> Drop for Fact<T> {
    fn drop(self) {
        let Self { marker: _ } = self;
    }
}

// A fact owns no value: it names a cell, and what is known of a name is the same for each thread.
unsafe impl<T> Send for Fact<T> {}

unsafe impl<T> Sync for Fact<T> {}
