//! The verdict cells that a proxy knows of each resolver: one column for each.

ghost use Rattle.std.specs.Prelude.{◌≡◌, [], ◌∷◌, ◌++◌, length, replicate, IfOk, MatchResult};
ghost use Rattle.locked_cluster.specs.Columns.{ColumnsAgree};

use agreed_ledger::{Column, Naming};
use std::alloc::Global;
use std::marker::Model;
use system_keys::OutOfMemory;

/// Columns of verdict cells, one for each resolver in the order of their numbers, each from row 0.
/// They take no bytes for verdicts: the ledger lends them.
#[derive(Drop)]
pub struct Columns<N: Naming> {
    columns: Vec<Column<N>>,
}

impl<N: Naming> Model for Columns<N> {
    ghost use Rattle.model.specs.Agreed.{Columns as KnownColumns};
    ghost use Rattle.locked_cluster.specs.Columns.{AreInOrder, known_columns};

    ghost Value = { KnownColumns };

    ghost view = { λ c. known_columns c.columns.items };

    ghost invariant = { λ c. AreInOrder c.columns.items };
}

impl<N: Naming> Columns<N> {
    /// Returns an empty column for each of `resolvers` resolvers. Fails only with `OutOfMemory`.
    #[tactic(auto, using(std::proofs::lemmas::List::replicate_more))]
    pub fn new(alloc: Global, resolvers: usize) -> Result<Columns<N>, OutOfMemory>
        ensures { IfOk result (λ made. made ≡ replicate resolvers []) }
    {
        let mut columns = Columns::none(alloc);
        for resolver in 0..resolvers {
            columns.push(Column::new(alloc, resolver))?;
        }
        Ok(columns)
    }

    /// Returns no columns. It needs no memory.
    pub(crate) fn none(alloc: Global) -> Columns<N>
        ensures { result ≡ [] }
    {
        Columns {
            columns: Vec::new(alloc),
        }
    }

    /// Appends the column of the next resolver. Fails only with `OutOfMemory`, and then leaves the
    /// columns unchanged.
    pub(crate) fn push(&mut self, column: Column<N>) -> Result<(), OutOfMemory>
        requires resolver { column.resolver ≡ length self.old }
        requires first { column.rows.first ≡ 0 }
        ensures { MatchResult result
            (λ _. self.new ≡ self.old ++ column.rows.known ∷ [])
            (λ _. self.new ≡ self.old) }
    {
        let Ok(()) = self.columns.reserve(1) else {
            return Err(OutOfMemory);
        };
        self.columns.push_reserved(column);
        Ok(())
    }

    /// Wherever two lists of columns both have a cell of a resolver, it holds the same verdicts.
    pub fn agree(&self, other: &Columns<N>)
        ensures { ColumnsAgree self.now other.now }
    {
        let count = self.columns.len().min(other.columns.len());
        for resolver in 0..count {
            self.columns[resolver].agree(&other.columns[resolver]);
        }
    }

    /// The allocator of the columns.
    pub(crate) fn alloc(&self) -> Global {
        *self.columns.allocator()
    }

    /// Returns a copy. It copies no verdicts. Fails only with `OutOfMemory`.
    pub fn copy(&self) -> Result<Columns<N>, OutOfMemory>
        ensures { IfOk result (λ copy. copy ≡ self.now) }
    {
        let mut copied = Columns::none(self.alloc());
        for column in &self.columns {
            copied.push(column.copy()?)?;
        }
        Ok(copied)
    }
}
