//! What the output imports.

ghost use Rattle.std.specs.Prelude.{◌≡◌, ◌++◌, map, Some, IfOk, OnOk};
ghost use Rattle.std.specs.Option.{option_to_list};
ghost use Rattle.wl_symbols.specs.Input.{Input as Linked};
ghost use Rattle.wl_bind.specs.OutputTypes.{output_types};
ghost use Rattle.wl_bind.specs.Shared.{function_imports, global_imports};
ghost use Rattle.wl_plan.specs.steps.Bindings.{AreBindings};
ghost use Rattle.wl_plan.specs.steps.Imports.{AddsImports, HasTypeIndexIn, HasRowType, global_types_in, type_in_row, index_of_type};
ghost use Rattle.wl_places.specs.IndexedMaps.{AreWholeMaps, HaveTypeIndices};
ghost use Rattle.wl_plan.specs.Imports.{IsFunctionImport, IsGlobalImport, global_type_in, memory_imports, AreImports};

use crate::bindings::Bindings;
use crate::layout::OutputImport;
use std::alloc::{AllocError, Global};
use wl_bind::{SlotTypes, types_have_indices};
use wl_index::{WASM_DEAD_INDEX, WasmObjectIndexMap};
use wl_linking::{File, FileList};
use wl_lists::ItemList;
use wl_module::{GlobalType, ImportEntity};
use wl_output::OutputImportEntity;
use wl_places::Placing;
use wl_symbols::{HostImport, LinkInput};
use wl_words::WasmArgs;

// ---- functions

/// Where the type went under which a function is imported.
fn index_of_type(
    slots: &SlotTypes,
    maps: &[WasmObjectIndexMap],
    host: &HostImport<'_>,
) -> Option<u32>
    ensures { result ≡ index_of_type slots.now maps.now host.now }
{
    let number = slots.number(host.object, host.slot)?;
    let map = maps.get(host.object)?;
    map.type_indices.as_slice().get(number as usize).copied()
}

/// A function that the host is asked for. Its type is where that of the object went.
fn function_import<'a>(
    slots: &SlotTypes,
    maps: &[WasmObjectIndexMap],
    host: &HostImport<'a>,
) -> OutputImport<'a>
    ensures { (input : Linked) → HasTypeIndexIn input slots.now maps.now host.now
        → IsFunctionImport input (output_types input) host.now result }
{
    let type_index = index_of_type(slots, maps, host).unwrap_or(WASM_DEAD_INDEX);
    OutputImport {
        module: host.module,
        name: host.name,
        entity: OutputImportEntity::Function { type_index },
    }
}

/// Adds the functions that the host is asked for.
fn push_functions<'a>(
    alloc: Global,
    imports: &mut Vec<OutputImport<'a>>,
    input: &LinkInput<'_, 'a>,
    bindings: &Bindings<'a>,
    maps: &[WasmObjectIndexMap],
) -> Result<(), AllocError>
    requires bindings { AreBindings input.now bindings.now }
    requires maps { HaveTypeIndices input.now maps.now }
    ensures { OnOk result (AddsImports (IsFunctionImport input.now (output_types input.now))
        (function_imports input.now) imports.old.items imports.new.items) }
{
    types_have_indices();
    let hosts = bindings.shared.functions();
    if hosts.is_empty() {
        return Ok(());
    }
    let slots = SlotTypes::new(alloc, input.files())?;
    for host in hosts {
        imports.push(function_import(&slots, maps, host))?;
    }
    Ok(())
}

// ---- globals

/// Adds the type of an import, if it is a global.
fn push_type(types: &mut Vec<GlobalType>, entity: &ImportEntity) -> Result<(), AllocError>
    ensures { OnOk result
        (types.new.items ≡ types.old.items ++ option_to_list (global_type_in entity.now)) }
{
    if let ImportEntity::Global(ty) = entity {
        types.push(*ty)?;
    }
    Ok(())
}

/// The types of the globals that an object imports.
fn object_types(alloc: Global, file: &File<'_>) -> Result<ItemList<GlobalType>, AllocError>
    ensures { IfOk result (λ types. types ≡ global_types_in file.now) }
{
    let mut types = Vec::new(alloc);
    for import in file.imports() {
        push_type(&mut types, &import.entity)?;
    }
    Ok(ItemList::new(types))
}

/// Those of all objects, object by object.
fn global_types(
    alloc: Global,
    files: &FileList<'_>,
) -> Result<ItemList<ItemList<GlobalType>>, AllocError>
    ensures { IfOk result (λ types. types ≡ map global_types_in files.now) }
{
    let mut types = Vec::new(alloc);
    for file in files.as_slice() {
        types.push(object_types(alloc, file)?)?;
    }
    Ok(ItemList::new(types))
}

/// The type of that number in the row of that number, where there is one.
fn type_in_row(types: &[ItemList<GlobalType>], row: usize, number: u32) -> GlobalType
    requires { HasRowType types.now row number }
    ensures { type_in_row types.now row number ≡ Some result }
{
    types[row].as_slice()[number as usize]
}

/// Adds the globals that the host is asked for.
fn push_globals<'a>(
    alloc: Global,
    imports: &mut Vec<OutputImport<'a>>,
    input: &LinkInput<'_, 'a>,
    bindings: &Bindings<'a>,
) -> Result<(), AllocError>
    requires { AreBindings input.now bindings.now }
    ensures { OnOk result (AddsImports (IsGlobalImport input.now)
        (global_imports input.now) imports.old.items imports.new.items) }
{
    let hosts = bindings.shared.globals();
    if hosts.is_empty() {
        return Ok(());
    }
    let types = global_types(alloc, input.files())?;
    let types = types.as_slice();
    for host in hosts {
        let ty = type_in_row(types, host.object, host.slot);
        imports.push(OutputImport {
            module: host.module,
            name: host.name,
            entity: OutputImportEntity::Global(ty),
        })?;
    }
    Ok(())
}

// ---- the memory

/// Adds the memory, where it is imported.
fn push_memory<'a>(
    imports: &mut Vec<OutputImport<'a>>,
    input: &LinkInput<'_, 'a>,
    args: &'a WasmArgs,
    placing: &Placing<'a>,
) -> Result<(), AllocError>
    requires { args.now ≡ input.now.link.args }
    ensures { OnOk result
        (imports.new.items ≡ imports.old.items ++ memory_imports input.now placing.now) }
{
    let Some((module, name)) = args.memory_import() else {
        return Ok(());
    };
    imports.push(OutputImport {
        module,
        name,
        entity: OutputImportEntity::Memory(placing.memory),
    })?;
    Ok(())
}

// ---- the list

/// What the output imports: functions, globals, and then the memory.
///
/// # Errors
/// `AllocError` where memory runs out.
pub(crate) fn output_imports<'a>(
    alloc: Global,
    input: &LinkInput<'_, 'a>,
    args: &'a WasmArgs,
    bindings: &Bindings<'a>,
    maps: &[WasmObjectIndexMap],
    placing: &Placing<'a>,
) -> Result<ItemList<OutputImport<'a>>, AllocError>
    requires args { args.now ≡ input.now.link.args }
    requires bindings { AreBindings input.now bindings.now }
    requires maps { AreWholeMaps input.now placing.now maps.now }
    ensures { IfOk result (AreImports input.now (output_types input.now) placing.now) }
{
    let mut imports = Vec::new(alloc);
    push_functions(alloc, &mut imports, input, bindings, maps)?;
    push_globals(alloc, &mut imports, input, bindings)?;
    push_memory(&mut imports, input, args, placing)?;
    Ok(ItemList::new(imports))
}
