//! Where the units stand in a certificate.

ghost use Rattle.std.specs.Prelude.{IfOk, MatchOption};
ghost use Rattle.wl_why.specs.Places.{ArePlaces, AreUnits};

use crate::certificate::Step;
use std::alloc::{AllocError, Global};
use wl_symbols::{UnitNumbers, units_are_numbered};

/// For each unit, by its number, the place of its step; for one that has none, the count of steps.
/// Nothing where a step is of a unit that doesn't exist, or a unit comes twice.
pub(crate) fn places_of(
    alloc: Global,
    numbers: &UnitNumbers,
    steps: &[Step],
) -> Result<Option<Vec<usize>>, AllocError>
    ensures { IfOk result (λ o. MatchOption o (AreUnits numbers.now steps.now → ⊥)
        (λ v. ArePlaces numbers.now steps.now v.items)) }
{
    units_are_numbered();
    let none = steps.len();
    let mut places: Vec<usize> = vec![in alloc; none; numbers.total()]?;
    for (i, step) in steps.iter().enumerate() {
        let Some(number) = numbers.number(step.link_unit()) else {
            return Ok(None);
        };
        if places[number] < none {
            return Ok(None);
        }
        places[number] = i;
    }
    Ok(Some(places))
}
