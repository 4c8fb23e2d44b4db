//! The indices of what objects define.

ghost use Rattle.std.specs.Prelude.{◌≡◌, ◌≤◌, length, IfOk, IfErr, OnOk};
ghost use Rattle.wl_bytes.specs.declared.reader.TheConstants.{MAX_LEN};
ghost use Rattle.wl_index.specs.declared.index.TheConstants.{MAX_ENTRIES};
ghost use Rattle.wl_bind.specs.steps.OwnIndices.{own_kind, own_unit, own_count, kept_own, own_start, own_firsts, space_length};
ghost use Rattle.wl_bind.specs.SpaceFaults.{IsSpaceOver};

use crate::parts::behind;
use std::alloc::Global;
use wl_linking::{File, LinkError, WasmSymbolKind};
use wl_symbols::{LinkInput, WasmGcUnit};

/// What objects define that has a space.
#[derive(Clone, Copy)]
pub(crate) enum Own {
    Functions,
    Globals,
}

impl Own {
    /// The kind of their slots and symbols.
    pub(crate) fn kind(self) -> WasmSymbolKind
        ensures { result ≡ own_kind self }
    {
        match self {
            Own::Functions => WasmSymbolKind::Func,
            Own::Globals => WasmSymbolKind::Global,
        }
    }

    /// The unit of that number.
    pub(crate) fn unit(self, number: u32) -> WasmGcUnit
        ensures { result ≡ own_unit self number }
    {
        match self {
            Own::Functions => WasmGcUnit::DefinedFunction(number),
            Own::Globals => WasmGcUnit::DefinedGlobal(number),
        }
    }

    /// How many an object defines.
    pub(crate) fn count(self, file: &File<'_>) -> usize
        ensures count { result ≡ own_count self file.now }
        ensures few { result ≤ MAX_LEN }
    {
        file.stands_for_an_object();
        match self {
            Own::Functions => file.functions().len(),
            Own::Globals => file.globals().len(),
        }
    }
}

/// How many an object defines that are kept.
fn count_kept(input: &LinkInput<'_, '_>, own: Own, object: usize, file: &File<'_>) -> usize
    ensures { result ≡ length (kept_own input.now own object file.now) }
{
    let mut kept = 0;
    for number in 0..own.count(file) {
        if input.live().is_live(object, own.unit(number as u32)) {
            kept += 1;
        }
    }
    kept
}

/// The first index of what each object defines and is kept, where that of all has this one.
///
/// # Errors
/// `TooLarge` where the last index of all would be above 4294967293.
pub(crate) fn own_firsts(
    alloc: Global,
    input: &LinkInput<'_, '_>,
    own: Own,
    start: u32,
) -> Result<Vec<u32>, LinkError>
    requires start { start ≡ own_start input.now own }
    requires few { start ≤ MAX_ENTRIES }
    ensures firsts { IfOk result (λ firsts. firsts.items ≡ own_firsts input.now own) }
    ensures room { OnOk result (space_length input.now own ≤ MAX_ENTRIES) }
    ensures err { IfErr result (IsSpaceOver input.now) }
{
    let files = input.files().as_slice();
    let mut firsts = Vec::new(alloc);
    let mut next = start;
    for (object, file) in files.iter().enumerate() {
        firsts.push(next)?;
        next = behind(next, count_kept(input, own, object, file))?;
    }
    Ok(firsts)
}
