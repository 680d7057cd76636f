//! Facts about the cells of consecutive rows.

ghost use Rattle.std.specs.Prelude.{
  ◌≡◌,
  ◌-◌,
  ◌<◌,
  ◌≤◌,
  [],
  ◌++◌,
  MatchResult,
  MatchOption,
  IfErr,
  IfOk,
};
ghost use Rattle.std.specs.List.{between};
ghost use Rattle.std.specs.Vec.{vec_len, vec_capacity};
ghost use Rattle.once_cell.specs.Once.{cell_name};
ghost use Rattle.facts.specs.Stretches.{
  Agree,
  GainsFact,
  HasAt,
  Lacks,
  StretchesAgree,
  cells,
  cells_of,
  end_of,
  extended,
  part_of,
  rows_limit,
  values,
  values_of,
};
ghost use Rattle.facts.specs.Unsets.{IfTaken};

use crate::fact::Fact;
use crate::setting::{NotSet, set};
use once_cell::race::OnceBox;
use std::alloc::{AllocError, Global};
use std::marker::Model;

/// Facts about the cells of consecutive rows, from a first row on.
///
/// It takes no bytes for a row. Still, each call that copies facts may fail because an allocation fails.
#[derive(Drop)]
pub struct Stretch<T> {
    first: usize,
    facts: Vec<Fact<T>>,
}

impl<T> Model for Stretch<T> {
    ghost use Rattle.std.specs.Prelude.{◌≤◌, ◌+◌, length};
    ghost use Rattle.facts.specs.declared.fact.Fact.{Fact};
    ghost use Rattle.facts.specs.Stretches.{Stretch, rows_limit};

    ghost Value = { Stretch (Fact T) };

    ghost view = { λ s. record { first = s.first; known = s.facts.items } };

    ghost invariant = { λ s. s.first + length s.facts.items ≤ rows_limit };
}

impl<T> Stretch<T> {
    /// Returns an empty stretch from row 0. It needs no memory.
    pub fn new(alloc: Global) -> Stretch<T>
        ensures { result ≡ record { first = 0; known = [] } }
    {
        Stretch {
            first: 0,
            facts: Vec::new(alloc),
        }
    }

    /// The first row.
    pub fn first(&self) -> usize
        ensures value { result ≡ self.now.first }
        ensures limit { end_of self.now ≤ rows_limit }
    {
        self.first
    }

    /// The row after the last one.
    pub fn end(&self) -> usize
        ensures value { result ≡ end_of self.now }
        ensures limit { end_of self.now ≤ rows_limit }
    {
        self.first + self.facts.len()
    }

    /// Returns the fact about the row, or `None` if the stretch lacks the row.
    pub fn get(&self, row: usize) -> Option<Fact<T>>
        ensures { MatchOption result (Lacks self.now row) (HasAt self.now row) }
    {
        if row < self.first {
            return None;
        }
        let place = row - self.first;
        if place < self.facts.len() {
            Some(self.facts[place].again())
        } else {
            None
        }
    }

    /// Returns a copy. Fails only if an allocation fails.
    pub fn copy(&self) -> Result<Stretch<T>, AllocError>
        ensures { IfOk result (λ copy. copy ≡ self.now) }
    {
        let mut facts = Vec::new(*self.facts.allocator());
        append(&mut facts, &self.facts, 0, self.facts.len())?;
        Ok(Stretch {
            first: self.first,
            facts,
        })
    }

    /// Returns a copy of the rows from `start` up to, not including, `end`, as far as the stretch
    /// has these. Fails only if an allocation fails.
    pub fn part(&self, start: usize, end: usize) -> Result<Stretch<T>, AllocError>
        ensures { IfOk result (λ part. part ≡ part_of start end self.now) }
    {
        let first = start.max(self.first).min(self.end());
        let end = first.max(end.min(self.end()));
        let mut facts = Vec::new(*self.facts.allocator());
        append(
            &mut facts,
            &self.facts,
            first - self.first,
            end - self.first,
        )?;
        Ok(Stretch { first, facts })
    }

    /// Appends what the other has from this one's end on; nothing if the other lacks that row.
    ///
    /// Fails only if an allocation fails, and then leaves this one unchanged.
    pub fn extend_from(&mut self, other: &Stretch<T>) -> Result<(), AllocError>
        ensures { MatchResult result
            (λ _. self.new ≡ extended self.old other.now)
            (λ _. self.new ≡ self.old) }
    {
        let end = self.first + self.facts.len();
        if end < other.first || other.end() <= end {
            return Ok(());
        }
        append(
            &mut self.facts,
            &other.facts,
            end - other.first,
            other.facts.len(),
        )
    }

    /// Two stretches about the same cells have equal values wherever both have a row.
    pub fn agree(&self, other: &Stretch<T>)
        requires { StretchesAgree (cells_of self.now) (cells_of other.now) }
        ensures { StretchesAgree (values_of self.now) (values_of other.now) }
    {
        if self.first <= other.first {
            agree_from(&self.facts, other.first - self.first, &other.facts);
        } else {
            agree_from(&other.facts, self.first - other.first, &self.facts);
        }
    }
}

impl<T: Drop> Stretch<T> {
    /// Sets the cell of the next row, and appends the fact.
    ///
    /// Otherwise returns the value and leaves the stretch unchanged: with `Taken` and the fact
    /// about the cell if it held a value, or with `OutOfMemory`, and then the cell is as it was.
    pub fn set_next(&mut self, cell: &OnceBox<T>, value: T) -> Result<(), (NotSet<Fact<T>>, T)>
        requires { end_of self.old < rows_limit }
        ensures gained { IfOk result (λ _.
            GainsFact self.old self.new (cell_name cell.now) value) }
        ensures back { IfErr result (λ refused. (self.new ≡ self.old) × (refused.1 ≡ value)) }
        ensures taken { IfErr result (λ refused. IfTaken refused.0 (λ fact.
            fact.cell ≡ cell_name cell.now)) }
    {
        let alloc = *self.facts.allocator();
        let Ok(()) = self.facts.reserve(1) else {
            return Err((NotSet::OutOfMemory, value));
        };
        let fact = set(alloc, cell, value)?;
        self.facts.push_reserved(fact);
        Ok(())
    }

    /// Sets the cell of the next row as [`Stretch::set_next`] does, and returns a copy of all the facts,
    /// that of the new row among them.
    pub fn set_next_and_copy(
        &mut self,
        cell: &OnceBox<T>,
        value: T,
    ) -> Result<Stretch<T>, (NotSet<Fact<T>>, T)>
        requires { end_of self.old < rows_limit }
        ensures gained { IfOk result (λ _.
            GainsFact self.old self.new (cell_name cell.now) value) }
        ensures copied { IfOk result (λ copy. copy ≡ self.new) }
        ensures back { IfErr result (λ refused. (self.new ≡ self.old) × (refused.1 ≡ value)) }
        ensures taken { IfErr result (λ refused. IfTaken refused.0 (λ fact.
            fact.cell ≡ cell_name cell.now)) }
    {
        let alloc = *self.facts.allocator();
        let Ok(mut copied) = copy_with_room(alloc, &self.facts) else {
            return Err((NotSet::OutOfMemory, value));
        };
        let Ok(()) = self.facts.reserve(1) else {
            return Err((NotSet::OutOfMemory, value));
        };
        let fact = set(alloc, cell, value)?;
        copied.push_reserved(fact.again());
        self.facts.push_reserved(fact);
        Ok(Stretch {
            first: self.first,
            facts: copied,
        })
    }
}

/// A copy of the facts, with room for one more.
fn copy_with_room<T>(alloc: Global, facts: &Vec<Fact<T>>) -> Result<Vec<Fact<T>>, AllocError>
    ensures { IfOk result (λ copied. (copied.items ≡ facts.now.items)
        × (vec_len copied < vec_capacity copied)) }
{
    let mut copied = Vec::new(alloc);
    append(&mut copied, facts, 0, facts.len())?;
    copied.reserve(1)?;
    Ok(copied)
}

/// Appends copies of the facts from place `start` up to, not including, place `end`.
fn append<T>(
    to: &mut Vec<Fact<T>>,
    from: &Vec<Fact<T>>,
    start: usize,
    end: usize,
) -> Result<(), AllocError>
    requires { (start ≤ end) × (end ≤ vec_len from.now) }
    ensures { MatchResult result
        (λ _. to.new.items ≡ to.old.items ++ between start end from.now.items)
        (λ _. to.new.items ≡ to.old.items) }
{
    to.reserve(end - start)?;
    for place in start..end {
        to.push_reserved(from[place].again());
    }
    Ok(())
}

/// The facts of the first list from place `start` on agree with those of the second list.
fn agree_from<T>(one: &Vec<Fact<T>>, start: usize, other: &Vec<Fact<T>>)
    requires cells { Agree 0 (cells one.now.items) start (cells other.now.items) }
    requires small { start ≤ rows_limit }
    ensures { Agree 0 (values one.now.items) start (values other.now.items) }
{
    for place in 0..one.len().saturating_sub(start).min(other.len()) {
        one[start + place].agrees(&other[place]);
    }
}
