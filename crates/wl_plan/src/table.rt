//! The table of functions, and their slots in it.

ghost use Rattle.std.specs.List.{list_any};
ghost use Rattle.std.specs.Prelude.{◌≡◌, ◌<◌, [], Some, length, map, position, IfOk, slice_get, slice_set};
ghost use Rattle.wl_bind.specs.FunctionSpace.{FunctionOf, function_space};
ghost use Rattle.wl_bind.specs.Made.{imports_table, table_minimum, table_size, greatest};
ghost use Rattle.wl_bind.specs.Parts.{IsPlaceOf};
ghost use Rattle.wl_bind.specs.References.{IsInOutput, IsBoundTo, IsKeptFunction};
ghost use Rattle.wl_bind.specs.Sameness.{same_target};
ghost use Rattle.wl_bind.specs.Scan.{scan_of};
ghost use Rattle.wl_bind.specs.declared.binding.FunctionTarget.{FunctionTarget as Target};
ghost use Rattle.wl_bind.specs.declared.binding.FunctionTarget.TheVariants.{Defined};
ghost use Rattle.wl_plan.specs.steps.Bindings.{AreBindings};
ghost use Rattle.wl_places.specs.IndexedMaps.{AreWholeMaps};
ghost use Rattle.wl_plan.specs.Table.{slot_of, slot_behind_first, space_slots, output_table, AreElements};
ghost use Rattle.wl_plan.specs.steps.Table.{index_at, slot_among, table_minimums};

use crate::bindings::Bindings;
use std::alloc::{AllocError, Global};
use wl_bind::{
    FunctionTarget, RelocScan, entries_have_types, entries_stand_once, same_targets_are_one,
    stubs_have_no_slot, table_functions_are_kept, table_functions_stand_once,
};
use wl_index::{LINKER_TABLE_BASE, WASM_DEAD_INDEX, WasmObjectIndexMap};
use wl_linking::{File, whole_objects};
use wl_lists::ItemList;
use wl_module::{ImportEntity, TableType};
use wl_places::Placing;
use wl_symbols::{LinkInput, slots_are_numbered};

/// The place of a function among those of the table.
fn table_place(scan: &RelocScan<'_>, target: FunctionTarget) -> Option<usize>
    ensures { result ≡ position (same_target target) scan.now.table_functions }
{
    scan.table_functions.place(target)
}

/// The slot of one of the functions of the table, after the first one.
fn slot_behind_first(
    input: &LinkInput<'_, '_>,
    bindings: &Bindings<'_>,
    target: FunctionTarget,
) -> Option<u32>
    requires bindings { AreBindings input.now bindings.now }
    ensures { result ≡ slot_behind_first input.now target }
{
    table_functions_are_kept();
    table_functions_stand_once();
    same_targets_are_one();
    stubs_have_no_slot();
    let place = table_place(&bindings.scan, target)?;
    Some(place as u32 + LINKER_TABLE_BASE)
}

/// The slot of a function, if it has one: that of a stub is the first, which holds none.
pub(crate) fn slot_of(
    input: &LinkInput<'_, '_>,
    bindings: &Bindings<'_>,
    target: FunctionTarget,
) -> Option<u32>
    requires { AreBindings input.now bindings.now }
    ensures { result ≡ slot_of input.now target }
{
    match target {
        FunctionTarget::Stub { .. } => Some(0),
        FunctionTarget::Defined { .. } => slot_behind_first(input, bindings, target),
        FunctionTarget::Made(_) => slot_behind_first(input, bindings, target),
        FunctionTarget::Host { .. } => slot_behind_first(input, bindings, target),
    }
}

// ---- indices of functions

/// The index that the map of an object has at a place of its functions.
fn mapped_index(maps: &[WasmObjectIndexMap], object: usize, place: usize) -> Option<u32>
    ensures { result ≡ index_at maps.now object place }
{
    let map = maps.get(object)?;
    map.function_indices.as_slice().get(place).copied()
}

/// The index of a function that an object defines.
fn defined_index(
    input: &LinkInput<'_, '_>,
    placing: &Placing<'_>,
    maps: &[WasmObjectIndexMap],
    object: usize,
    function: u32,
) -> Option<u32>
    requires maps { AreWholeMaps input.now placing.now maps.now }
    requires here { IsKeptFunction input.now object function }
    ensures { IsPlaceOf (function_space input.now)
        (Some (FunctionOf (Defined object function))) result }
{
    slots_are_numbered();
    whole_objects();
    let file = &input.files().as_slice()[object];
    mapped_index(
        maps,
        object,
        file.num_function_imports() + function as usize,
    )
}

/// The index of what a kept slot is bound to.
fn slot_index(
    input: &LinkInput<'_, '_>,
    placing: &Placing<'_>,
    maps: &[WasmObjectIndexMap],
    object: usize,
    slot: u32,
) -> Option<u32>
    requires maps { AreWholeMaps input.now placing.now maps.now }
    ensures { (target : Target) → IsBoundTo input.now object slot target
        → IsPlaceOf (function_space input.now) (Some (FunctionOf target)) result }
{
    mapped_index(maps, object, slot as usize)
}

/// The index of a function that the output has, which it always finds.
fn found_index(
    input: &LinkInput<'_, '_>,
    placing: &Placing<'_>,
    bindings: &Bindings<'_>,
    maps: &[WasmObjectIndexMap],
    target: FunctionTarget,
) -> Option<u32>
    requires bindings { AreBindings input.now bindings.now }
    requires maps { AreWholeMaps input.now placing.now maps.now }
    requires here { IsInOutput input.now target }
    ensures { IsPlaceOf (function_space input.now) (Some (FunctionOf target)) result }
{
    match target {
        FunctionTarget::Defined { object, function } => {
            defined_index(input, placing, maps, object, function)
        }
        FunctionTarget::Host { object, slot } => slot_index(input, placing, maps, object, slot),
        FunctionTarget::Stub { object, slot } => slot_index(input, placing, maps, object, slot),
        FunctionTarget::Made(made) => bindings.indices.index(made),
    }
}

/// The index of a function that the output has.
pub(crate) fn function_index(
    input: &LinkInput<'_, '_>,
    placing: &Placing<'_>,
    bindings: &Bindings<'_>,
    maps: &[WasmObjectIndexMap],
    target: FunctionTarget,
) -> u32
    requires bindings { AreBindings input.now bindings.now }
    requires maps { AreWholeMaps input.now placing.now maps.now }
    requires here { IsInOutput input.now target }
    ensures { slice_get (function_space input.now) result ≡ Some (FunctionOf target) }
{
    match found_index(input, placing, bindings, maps, target) {
        Some(index) => index,
        None => WASM_DEAD_INDEX,
    }
}

/// The functions of the table, in order.
fn listed<'s>(scan: &'s RelocScan<'_>) -> &'s [FunctionTarget]
    ensures { result.now ≡ scan.now.table_functions }
{
    scan.table_functions.as_slice()
}

/// The functions of the table by their indices, in order.
///
/// # Errors
/// `AllocError` where memory runs out.
pub(crate) fn element_functions(
    alloc: Global,
    input: &LinkInput<'_, '_>,
    placing: &Placing<'_>,
    bindings: &Bindings<'_>,
    maps: &[WasmObjectIndexMap],
) -> Result<ItemList<u32>, AllocError>
    requires bindings { AreBindings input.now bindings.now }
    requires maps { AreWholeMaps input.now placing.now maps.now }
    ensures { IfOk result (AreElements input.now) }
{
    table_functions_are_kept();
    let mut elements = Vec::with_capacity(alloc, listed(&bindings.scan).len())?;
    for target in listed(&bindings.scan) {
        elements.push(function_index(input, placing, bindings, maps, *target))?;
    }
    Ok(ItemList::new(elements))
}

// ---- slots by indices

/// Sets the slot of the function of an index.
fn set_slot(slots: &mut Vec<u32>, index: u32, slot: u32)
    requires { index < length slots.old.items }
    ensures { slots.new.items ≡ slice_set slots.old.items index slot }
{
    slots[index as usize] = slot;
}

/// The slots of stubs by their indices, 4294967295 for all else.
fn stub_slots(
    alloc: Global,
    input: &LinkInput<'_, '_>,
    bindings: &Bindings<'_>,
    count: usize,
) -> Result<Vec<u32>, AllocError>
    requires bindings { AreBindings input.now bindings.now }
    requires all { count ≡ length (function_space input.now) }
    ensures { IfOk result
        (λ slots. slots.items ≡ map (slot_among []) (function_space input.now)) }
{
    entries_stand_once();
    entries_have_types();
    let mut slots = vec![in alloc; WASM_DEAD_INDEX; count]?;
    for stub in 0..bindings.stubs.as_slice().len() {
        set_slot(&mut slots, bindings.indices.stub(stub), 0);
    }
    Ok(slots)
}

/// The slot of each function of the space by its index: 0 for a stub, 4294967295 for what has none.
///
/// # Errors
/// `AllocError` where memory runs out.
pub(crate) fn space_slots(
    alloc: Global,
    input: &LinkInput<'_, '_>,
    bindings: &Bindings<'_>,
    elements: &[u32],
    count: usize,
) -> Result<ItemList<u32>, AllocError>
    requires bindings { AreBindings input.now bindings.now }
    requires elements { AreElements input.now elements.now }
    requires all { count ≡ length (function_space input.now) }
    ensures { IfOk result (λ slots. slots ≡ space_slots input.now) }
{
    table_functions_are_kept();
    table_functions_stand_once();
    same_targets_are_one();
    stubs_have_no_slot();
    entries_stand_once();
    let mut slots = stub_slots(alloc, input, bindings, count)?;
    for (place, element) in elements.iter().enumerate() {
        set_slot(&mut slots, *element, place as u32 + LINKER_TABLE_BASE);
    }
    Ok(ItemList::new(slots))
}

// ---- the table

/// The least size of a table that is imported; other imports have none.
fn table_minimum(entity: &ImportEntity) -> u64
    ensures { result ≡ table_minimum entity.now }
{
    match entity {
        ImportEntity::Table(table) => table.initial,
        ImportEntity::Func(_) | ImportEntity::Memory(_) | ImportEntity::Global(_) => 0,
    }
}

/// The greatest of those of the tables that an object imports.
fn object_minimum(file: &File<'_>) -> u64
    ensures { result ≡ greatest (table_minimums file.now) }
{
    let mut size = 0;
    for import in file.imports() {
        size = table_minimum(&import.entity).max(size);
    }
    size
}

/// Whether an object imports a table.
fn imports_table(file: &File<'_>) -> bool
    ensures { result ≡ imports_table file.now }
{
    file.imports()
        .iter()
        .any(|import| matches!(import.entity, ImportEntity::Table(_)))
}

/// The size of the table: its functions after an empty first slot, and no less than any object
/// asks for.
fn table_size(input: &LinkInput<'_, '_>, scan: &RelocScan<'_>) -> u64
    requires { scan.now ≡ scan_of input.now }
    ensures { result ≡ table_size input.now }
{
    let mut size = scan.table_functions.as_slice().len() as u64 + LINKER_TABLE_BASE as u64;
    for file in input.files().as_slice() {
        size = object_minimum(file).max(size);
    }
    size
}

/// Whether one of the objects imports a table.
fn any_imports_table(files: &[File<'_>]) -> bool
    ensures { result ≡ list_any imports_table files.now }
{
    files.iter().any(|file| imports_table(file))
}

/// The table, where there is one: an object imports it, or a kept relocation asks for it.
pub(crate) fn output_table(input: &LinkInput<'_, '_>, scan: &RelocScan<'_>) -> Option<TableType>
    requires { scan.now ≡ scan_of input.now }
    ensures { result ≡ output_table input.now }
{
    let imported = any_imports_table(input.files().as_slice());
    if !scan.needs.table && !imported {
        return None;
    }
    let size = table_size(input, scan);
    Some(TableType {
        initial: size,
        maximum: Some(size),
    })
}
