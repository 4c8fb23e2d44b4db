//! Why one unit is kept.

ghost use Rattle.std.specs.Prelude.{◌≡◌, ◌<◌, ◌↔◌, length, Some, IsSome, IfOk, IfSome, MatchOption};
ghost use Rattle.wl_why.specs.Certificate.{unit_at_place, IsListed};
ghost use Rattle.wl_why.specs.Chain.{Explains, IsShortest, earlier_place};
ghost use Rattle.wl_symbols.specs.declared.units.LinkUnit.{LinkUnit as UnitRecord};

use crate::certificate::{Certificate, Step};
use std::alloc::{AllocError, Global};
use wl_symbols::{LinkUnit, WasmGcUnit};

/// The place of the first step of a unit.
fn place_of(steps: &[Step], unit: LinkUnit) -> Option<usize>
    ensures { MatchOption result (IsListed steps.now unit → ⊥)
        (λ place. unit_at_place steps.now place ≡ Some unit) }
{
    for (place, step) in steps.iter().enumerate() {
        if step.link_unit() == unit {
            return Some(place);
        }
    }
    None
}

/// The place that a step comes from, if that is before its own.
fn earlier_place(from: Option<u64>, place: usize) -> Option<usize>
    ensures { result ≡ earlier_place from place }
{
    match from {
        Some(from) if from < place as u64 => Some(from as usize),
        Some(_) | None => None,
    }
}

/// The chain that ends with the step at that place.
fn chain_from(alloc: Global, steps: &[Step], last: usize) -> Result<Vec<LinkUnit>, AllocError>
    requires { last < length steps.now }
    ensures chain { IfOk result (λ v. (u : UnitRecord) → unit_at_place steps.now last ≡ Some u
        → Explains steps.now u v.items) }
    ensures shortest { IfOk result (λ v. (u : UnitRecord)
        → unit_at_place steps.now last ≡ Some u → IsShortest steps.now u v.items) }
{
    let mut chain = Vec::new(alloc);
    let mut place = last;
    while let Some(from) = earlier_place(steps[place].from, place) {
        chain.push(steps[place].link_unit())?;
        place = from;
    }
    chain.push(steps[place].link_unit())?;
    chain.reverse();
    Ok(chain)
}

/// Why a unit is kept: where the certificate is valid, a chain of units, of which the first is kept
/// by itself, each refers to the next, and the last is this one; where nothing is left out, the
/// unit alone. Nothing for a unit that has no step. The chain is a shortest one where the
/// certificate is in the order that [`explain`](crate::explain) gives it.
///
/// # Errors
/// `AllocError` where memory runs out.
pub fn chain_to(
    alloc: Global,
    certificate: &Certificate,
    object: usize,
    unit: WasmGcUnit,
) -> Result<Option<Vec<LinkUnit>>, AllocError>
    ensures listed { IfOk result (λ o. IsSome o
        ↔ IsListed certificate.now (record { object = object; unit = unit })) }
    ensures chain { IfOk result (λ o. IfSome o (λ v.
        Explains certificate.now (record { object = object; unit = unit }) v.items)) }
    ensures shortest { IfOk result (λ o. IfSome o (λ v.
        IsShortest certificate.now (record { object = object; unit = unit }) v.items)) }
{
    let steps = certificate.as_slice();
    match place_of(steps, LinkUnit { object, unit }) {
        Some(place) => Ok(Some(chain_from(alloc, steps, place)?)),
        None => Ok(None),
    }
}
