//! Tests of facts, on cells of numbers.

ghost use Rattle.std.specs.Prelude.{◌≡◌, IfSome};
ghost use Rattle.once_cell.specs.Once.{cell_name};

use facts::{Fact, NotSet, Stretch};
use once_cell::race::OnceBox;
use std::alloc::Global;
use std::test::Fail;
use std::thread::join;
use testing::twice;

/// Why a cell of numbers was not set: whether it was taken, or an allocation failed; and the value
/// that came back.
type Refused = (bool, u64);

fn is_taken(why: &NotSet<Fact<u64>>) -> bool {
    match why {
        NotSet::OutOfMemory => false,
        NotSet::Taken(_) => true,
    }
}

/// The first row of the stretch and the row after its last one.
fn ends(stretch: &Stretch<u64>) -> (usize, usize) {
    (stretch.first(), stretch.end())
}

/// Sets the cell of the stretch's next row. No test has 1,000 rows.
fn set_once(rows: &mut Stretch<u64>, cell: &OnceBox<u64>, value: u64) -> Result<(), Refused> {
    if rows.end() >= 1000 {
        return Err((false, value));
    }
    match rows.set_next(cell, value) {
        Ok(()) => Ok(()),
        Err((why, back)) => Err((is_taken(&why), back)),
    }
}

/// Sets the cell of the stretch's next row, and again after a failed allocation.
fn set(
    alloc: Global,
    rows: &mut Stretch<u64>,
    cell: &OnceBox<u64>,
    value: u64,
) -> Result<(), Refused> {
    twice!(alloc; set_once(rows, cell, value), (false, _))
}

/// Sets the cell of the stretch's next row with a copy, and returns where the copy begins and ends.
fn copy_once(
    rows: &mut Stretch<u64>,
    cell: &OnceBox<u64>,
    value: u64,
) -> Result<(usize, usize), Refused> {
    if rows.end() >= 1000 {
        return Err((false, value));
    }
    match rows.set_next_and_copy(cell, value) {
        Ok(copy) => Ok(ends(&copy)),
        Err((why, back)) => Err((is_taken(&why), back)),
    }
}

/// Sets the cell of the stretch's next row with a copy, and again after a failed allocation.
fn set_and_copy(
    alloc: Global,
    rows: &mut Stretch<u64>,
    cell: &OnceBox<u64>,
    value: u64,
) -> Result<(usize, usize), Refused> {
    twice!(alloc; copy_once(rows, cell, value), (false, _))
}

/// A fact about the cell, if it holds a value.
fn fact_about(cell: &OnceBox<u64>) -> Option<Fact<u64>>
    ensures { IfSome result (λ fact. fact.cell ≡ cell_name cell.now) }
{
    let mut note = cell.note();
    cell.get_as(&mut note)?;
    Some(Fact::of(&mut note))
}

/// What a note of the cell shows once it agrees with the fact, before and after it was told.
fn told(fact: &Fact<u64>, cell: &OnceBox<u64>) -> Option<u64>
    requires { fact.now.cell ≡ cell_name cell.now }
{
    let mut note = cell.note();
    fact.agrees_with(&mut note);
    fact.tell(&mut note);
    fact.agrees_with(&mut note);
    cell.get_as(&mut note).copied()
}

/// The values of a fact about the cell, of a copy of it and of a note that it told, once the fact
/// and the copy agree.
fn values(cell: &OnceBox<u64>) -> Option<(u64, u64, u64)> {
    let fact = fact_about(cell)?;
    let copy = fact.again();
    fact.agrees(&copy);
    Some((*fact.value(cell), *copy.value(cell), told(&fact, cell)?))
}

/// Sets the cell, and returns the values of facts about it.
fn values_once_set(cell: &OnceBox<u64>, value: Box<u64>) -> Option<(u64, u64, u64)> {
    let _set = cell.set(value);
    values(cell)
}

#[test]
fn facts_of_two_threads_have_one_value(rt: HostRuntime) -> Result<(), Fail> {
    let cell = OnceBox::new(rt.alloc());
    assert!(&rt; values(&cell).is_none());
    let five = twice!(rt.alloc(); Box::new(rt.alloc(), 5u64), _)?;
    let six = twice!(rt.alloc(); Box::new(rt.alloc(), 6u64), _)?;
    let (one, other) = join(
        &rt,
        || values_once_set(&cell, five),
        || values_once_set(&cell, six),
    );
    assert!(&rt; one == Some((5, 5, 5)) || one == Some((6, 6, 6)));
    assert!(&rt; one == other);
    Ok(())
}

#[test]
fn a_cell_is_set_once_and_a_refused_value_comes_back(rt: HostRuntime) {
    let cell = OnceBox::new(rt.alloc());
    let mut rows = Stretch::new(rt.alloc());
    assert!(&rt; set(rt.alloc(), &mut rows, &cell, 7) == Ok(()));
    assert!(&rt; set(rt.alloc(), &mut rows, &cell, 8) == Err((true, 8)));
    assert!(&rt; values(&cell) == Some((7, 7, 7)));
    assert!(&rt; ends(&rows) == (0, 1));
    assert!(&rt; rows.get(0).is_some());
    assert!(&rt; rows.get(1).is_none());
    let second = OnceBox::new(rt.alloc());
    assert!(&rt; set(rt.alloc(), &mut rows, &second, 9) == Ok(()));
    let third = OnceBox::new(rt.alloc());
    assert!(&rt; set_and_copy(rt.alloc(), &mut rows, &third, 11) == Ok((0, 3)));
    assert!(&rt; set_and_copy(rt.alloc(), &mut rows, &third, 12) == Err((true, 12)));
    assert!(&rt; values(&third) == Some((11, 11, 11)));
    assert!(&rt; ends(&rows) == (0, 3));
}
