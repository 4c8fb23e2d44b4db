//! What refuses a link where units are kept that can't be.

ghost use Rattle.std.specs.Prelude.{◌≡◌, MatchOption, OnOk, IfErr};
ghost use Rattle.wl_linking.specs.Steps.{Clear, Refuses};
ghost use Rattle.wl_live.specs.Faults.{object_refusal, IsKeptFault};
ghost use Rattle.wl_live.specs.Facts.{AreAllFacts};
ghost use Rattle.wl_symbols.specs.Live.{IsLiveOf};
ghost use Rattle.wl_live.specs.Marking.{HasNoKept, IsKeptOne};

use crate::object_facts::{ObjectFacts, UnitFault};
use wl_bytes::ReadError;
use wl_linking::LinkError;
use wl_symbols::{LiveSet, SymbolTable};

/// The refusal of the object of that number for this reason.
fn object_refusal(object: usize, error: ReadError) -> LinkError
    ensures { result ≡ object_refusal object error }
{
    match error {
        ReadError::OutOfMemory => LinkError::OutOfMemory,
        ReadError::Malformed(why) => LinkError::Malformed { object, why },
        ReadError::Unsupported(form) => LinkError::Unsupported { object, form },
    }
}

/// The first of these faults of an object whose unit is kept.
fn kept_fault(live: &LiveSet, object: usize, faults: &[UnitFault]) -> Option<ReadError>
    ensures { MatchOption result (HasNoKept live.now object faults.now)
        (IsKeptOne live.now object faults.now) }
{
    for fault in faults {
        if live.is_live(object, fault.unit) {
            return Some(fault.error);
        }
    }
    None
}

/// Sees that no unit is kept that can't be.
pub(crate) fn check_faults(
    live: &LiveSet,
    symbols: &SymbolTable<'_, '_>,
    facts: &[ObjectFacts],
) -> Result<(), LinkError>
    requires live { IsLiveOf symbols.now live.now }
    requires facts { AreAllFacts symbols.now.objects facts.now }
    ensures clear { OnOk result (Clear (IsKeptFault symbols.now)) }
    ensures err { IfErr result (Refuses (IsKeptFault symbols.now)) }
{
    let files = symbols.files().as_slice();
    for object in 0..files.len() {
        if let Some(error) = kept_fault(live, object, facts[object].faults()) {
            return Err(object_refusal(object, error));
        }
    }
    Ok(())
}
