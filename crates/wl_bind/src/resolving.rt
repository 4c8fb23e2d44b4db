//! What import slots are resolved to by what names stand for.

ghost use Rattle.std.specs.Prelude.{◌≡◌, IfOk, IfErr, unwrap_or};
ghost use Rattle.wl_linking.specs.declared.error.LinkError.TheVariants.{OutOfMemory};
ghost use Rattle.wl_bind.specs.Resolutions.{kept_number, resolved, named_resolution, named_resolutions};

use crate::resolution::ImportResolution;
use std::alloc::Global;
use wl_linking::{LinkError, WasmSymbolKind};
use wl_symbols::{
    ImportSlot, LinkInput, SlotTarget, WasmGcUnit, import_slots, is_kept_slot, slot_target,
};

/// The number of a unit among the kept ones of its kind in its object.
fn kept_number(input: &LinkInput<'_, '_>, object: usize, unit: WasmGcUnit) -> u32
    ensures { result ≡ kept_number input.now object unit }
{
    input.live().live_ordinal(object, unit).unwrap_or(0)
}

/// What names bind a slot of that kind to, as a resolution.
pub(crate) fn resolved(
    input: &LinkInput<'_, '_>,
    kind: WasmSymbolKind,
    target: SlotTarget,
) -> ImportResolution
    ensures { result ≡ resolved input.now kind target }
{
    match (kind, target) {
        (_, SlotTarget::Made(made)) => ImportResolution::LinkerDefined(made),
        (WasmSymbolKind::Func, SlotTarget::Defined { object, number }) => {
            ImportResolution::ResolvedFunction {
                object_index: object,
                local_defined_index: kept_number(
                    input,
                    object,
                    WasmGcUnit::DefinedFunction(number),
                ),
            }
        }
        (WasmSymbolKind::Global, SlotTarget::Defined { object, number }) => {
            ImportResolution::ResolvedGlobal {
                object_index: object,
                local_defined_index: kept_number(input, object, WasmGcUnit::DefinedGlobal(number)),
            }
        }
        (
            WasmSymbolKind::Data
            | WasmSymbolKind::Section
            | WasmSymbolKind::Event
            | WasmSymbolKind::Table,
            SlotTarget::Defined { .. },
        ) => ImportResolution::Unresolved,
    }
}

/// What names resolve a slot to, where it is kept.
fn named_resolution(input: &LinkInput<'_, '_>, slot: &ImportSlot<'_, '_>) -> ImportResolution
    ensures { result ≡ named_resolution input.now slot.now }
{
    if !is_kept_slot(input, slot) {
        return ImportResolution::Unresolved;
    }
    match slot_target(input.symbols(), slot) {
        Some(target) => resolved(input, slot.kind(), target),
        None => ImportResolution::Unresolved,
    }
}

/// What names resolve the slots of a kind of the object of that number to, slot by slot: a function
/// or global that an object defines, or what the linker makes. Slots that aren't kept stay
/// unresolved.
///
/// # Errors
/// `OutOfMemory` where memory runs out.
pub fn resolve_import_symbols(
    alloc: Global,
    input: &LinkInput<'_, '_>,
    object: usize,
    kind: WasmSymbolKind,
) -> Result<Vec<ImportResolution>, LinkError>
    ensures ok { IfOk result (λ v. v.items ≡ named_resolutions input.now object kind) }
    ensures err { IfErr result (λ e. e ≡ OutOfMemory) }
{
    let slots = import_slots(alloc, input.symbols(), object, kind)?;
    let mut resolutions = Vec::new(alloc);
    for slot in &slots {
        resolutions.push(named_resolution(input, slot))?;
    }
    Ok(resolutions)
}
