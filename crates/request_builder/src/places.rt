//! The binary search for the part of a share with a given number.

ghost use Rattle.std.specs.Prelude.{◌≡◌, Some, MatchOption, Contains, slice_get};
ghost use Rattle.model.specs.RequestRules.{NumbersRise, part_numbers};

use model::{Part, TransactionNumber};

/// The place of the part with this number, in parts whose numbers rise.
///
/// Halves the parts again and again, so it looks at few of them. Allocates nothing.
pub(crate) fn place_of(parts: &[Part], number: TransactionNumber) -> Option<usize>
    requires { NumbersRise 0 parts.now }
    ensures { let numbers = part_numbers parts.now in
        MatchOption result (Contains numbers number → ⊥)
        (λ place. slice_get numbers place ≡ Some number) }
{
    let place = parts.partition_point(|part| part.number() < number);
    let Some(part) = parts.get(place) else {
        return None;
    };
    if part.number() == number {
        Some(place)
    } else {
        None
    }
}
