//! The function section: which type each function of a module has.

ghost use Rattle.std.specs.Prelude.{◌≤◌, length, IfOk};
ghost use Rattle.wl_bytes.specs.declared.reader.TheConstants.{MAX_LEN};
ghost use Rattle.wl_module.specs.Bodies.{AreIndices, IndicesFault};
ghost use Rattle.wl_bytes.specs.Outcome.{ReadsWhole, AreAlternatives};

use std::alloc::Global;
use wl_bytes::{ReadError, read_payload};

/// Reads the payload of a function section (core specification, "Function Section"): for each
/// function that the module defines the index of its type.
///
/// The indices are as the bytes have them: that there is such a type isn't looked at. Bytes after
/// the last index are `Malformed(Trailing)`.
pub fn read_functions(alloc: Global, payload: &[u8]) -> Result<Vec<u32>, ReadError>
    requires { length payload.now ≤ MAX_LEN }
    ensures reads { ReadsWhole (λ v. v.items) AreIndices IndicesFault payload.now result }
    ensures count { IfOk result (λ v. length v.items ≤ length payload.now) }
{
    read_payload(alloc, (), payload)
}

/// Each payload spells one list of indices or has one fault, and never both.
#[tactic(auto, using(wl_bytes::proofs::ListLaws::exact, crate::proofs::BodyLaws::indices_reading))]
pub fn functions_or_fault()
    ensures { AreAlternatives AreIndices IndicesFault }
{}
