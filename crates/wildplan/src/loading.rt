//! The image of a plan.

ghost use Rattle.std.specs.Prelude.{◌≡◌, ◌≤◌, ◌++◌, length, IfOk, IfErr, OnOk, MatchOption, ◌⊎◌};
ghost use Rattle.std.specs.List.{AllZip};
ghost use Rattle.wl_load.specs.declared.memory.TheConstants.{MAX_IMAGE_PAGES};
ghost use Rattle.wl_plan.specs.PlanLines.{first_global};
ghost use Rattle.wildplan.specs.Loading.{host_type, host_types, image_function, image_functions, imported_memory, memory_of, StartsWith, HasStart, IsParts, CanBeLoaded, IsLoaded, IsNotLoaded, IsUnprepared, IsInitFault};

use std::alloc::{AllocError, Global};
use wl_lists::ItemList;
use wl_load::{Image, ImageFunction, ImageParts, LoadError, MAX_IMAGE_PAGES, Value};
use wl_module::{MemoryType, WasmFunctionBody};
use wl_plan::{
    FixupPlace, FunctionOrigin, LinkPlan, OutputFunction, OutputImport, OutputImportEntity,
    PlannedGlobal, count_output_imports,
};
use wl_run::{FixupList, Site, copy_types, first_data, first_table, first_value};

// ---- functions

/// The numbers of the types of imported functions.
fn host_types(alloc: Global, imports: &[OutputImport<'_>]) -> Result<ItemList<u32>, AllocError>
    ensures { IfOk result (λ types. types ≡ host_types imports.now) }
{
    let mut types = Vec::new(alloc);
    for import in imports {
        push_host_type(&mut types, import.entity)?;
    }
    Ok(ItemList::new(types))
}

/// That of an imported function.
fn push_host_type(types: &mut Vec<u32>, entity: OutputImportEntity) -> Result<(), AllocError>
    ensures { OnOk result (types.new.items ≡ types.old.items ++ host_type entity) }
{
    match entity {
        OutputImportEntity::Function { type_index } => {
            types.push(type_index)?;
        }
        OutputImportEntity::Global(_) | OutputImportEntity::Memory(_) => {}
    }
    Ok(())
}

/// A function with its body, which is filled where it is of an object.
fn image_function(
    alloc: Global,
    fixups: &FixupList<'_>,
    function: &OutputFunction<'_>,
    body: &WasmFunctionBody<'_>,
) -> Result<ImageFunction, AllocError>
    ensures { IfOk result (λ f. f ≡ image_function fixups.now function.now body.now) }
{
    let bytes = body.bytes.as_slice();
    let body = match function.origin {
        FunctionOrigin::Object { object, unit } => {
            let place = FixupPlace::Code;
            fixups.filled(
                alloc,
                Site {
                    object,
                    place,
                    unit,
                },
                bytes,
            )?
        }
        FunctionOrigin::Made(_)
        | FunctionOrigin::InitMemory
        | FunctionOrigin::Stub { .. }
        | FunctionOrigin::Wrap { .. } => Vec::from_slice(alloc, bytes)?,
    };
    Ok(ImageFunction {
        type_index: function.type_index,
        body: ItemList::new(body),
    })
}

/// All functions that aren't imported.
fn image_functions(
    alloc: Global,
    fixups: &FixupList<'_>,
    functions: &[OutputFunction<'_>],
    bodies: &[WasmFunctionBody<'_>],
) -> Result<ItemList<ImageFunction>, AllocError>
    requires { length bodies.now ≡ length functions.now }
    ensures { IfOk result
        (λ fs. fs ≡ image_functions fixups.now functions.now bodies.now) }
{
    let mut made = Vec::new(alloc);
    for i in 0..functions.len() {
        made.push(image_function(alloc, fixups, &functions[i], &bodies[i])?)?;
    }
    Ok(ItemList::new(made))
}

// ---- memory

/// The memory that is imported.
fn imported_memory(imports: &[OutputImport<'_>]) -> Option<MemoryType>
    ensures { result ≡ imported_memory imports.now }
{
    for import in imports {
        match import.entity {
            OutputImportEntity::Memory(memory) => return Some(memory),
            OutputImportEntity::Function { .. } | OutputImportEntity::Global(_) => {}
        }
    }
    None
}

/// The memory of a plan, its own or an imported one.
fn memory_of(plan: &LinkPlan<'_>) -> MemoryType
    ensures { result ≡ memory_of plan.now }
{
    if let Some(memory) = plan.layout.memory {
        return memory;
    }
    match imported_memory(plan.layout.imports.as_slice()) {
        Some(memory) => memory,
        None => MemoryType {
            initial: 0,
            maximum: None,
            shared: false,
        },
    }
}

// ---- globals

/// What a global starts with, where that is a constant integer.
fn value_of(global: &PlannedGlobal<'_>) -> Option<Value>
    ensures { MatchOption result (HasStart global.now → ⊥) (StartsWith global.now) }
{
    first_value(global.global.init_expr_body.as_slice())
}

/// What the globals start with.
///
/// # Errors
/// `Init` for the first one that doesn't start with a constant integer.
fn first_values(alloc: Global, globals: &[PlannedGlobal<'_>]) -> Result<ItemList<Value>, LoadError>
    ensures values { IfOk result (λ values. AllZip StartsWith globals.now values) }
    ensures fault { IfErr result (IsInitFault globals.now) }
{
    let mut values = Vec::new(alloc);
    for (i, global) in globals.iter().enumerate() {
        let Some(value) = value_of(global) else {
            return Err(init_error(i));
        };
        values.push(value)?;
    }
    Ok(ItemList::new(values))
}

/// That a global doesn't start with a constant. A number that is none of 32 bits isn't reported.
fn init_error(global: usize) -> LoadError
    ensures { (result ≡ LoadError.OutOfMemory) ⊎ (result ≡ LoadError.Init global) }
{
    match u32::try_from(global) {
        Ok(global) => LoadError::Init { global },
        Err(_) => LoadError::OutOfMemory,
    }
}

// ---- the image

/// The parts of the image of a plan.
///
/// # Errors
/// `HostGlobal`, `TooBig` and `Init`, as [`load`] reports them.
fn image_parts(alloc: Global, plan: &LinkPlan<'_>) -> Result<ImageParts, LoadError>
    requires { CanBeLoaded plan.now }
    ensures parts { IfOk result (IsParts plan.now) }
    ensures fault { IfErr result (IsUnprepared plan.now) }
{
    let layout = &plan.layout;
    let (_, host_globals) = count_output_imports(layout);
    if host_globals > 0 {
        return Err(LoadError::HostGlobal { index: 0 });
    }
    let memory = memory_of(plan);
    if memory.initial > MAX_IMAGE_PAGES {
        return Err(LoadError::TooBig {
            pages: memory.initial,
        });
    }
    let globals = first_values(alloc, layout.globals.as_slice())?;
    let fixups = FixupList::new(plan.fixups.as_slice());
    let objects = layout.object_data_layouts.as_slice();
    let filled = first_data(alloc, &fixups, memory.initial, objects)?;
    Ok(ImageParts {
        types: copy_types(alloc, layout.output_types.as_slice())?,
        memory: filled.memory,
        maximum_pages: memory.maximum,
        shared: memory.shared,
        globals,
        table: first_table(alloc, layout.table, layout.element_functions.as_slice())?,
        hosts: host_types(alloc, layout.imports.as_slice())?,
        functions: image_functions(
            alloc,
            &fixups,
            layout.function_type_indices.as_slice(),
            layout.function_bodies.as_slice(),
        )?,
        segments: filled.segments,
    })
}

/// The image of a plan: its functions and segments, in which each field has its number, and memory,
/// globals and table as they are at the start.
///
/// # Errors
/// In this order: `HostGlobal` where the host is asked for a global; `TooBig` where memory begins
/// with more than 1024 pages; `Init` for the first global that doesn't start with a constant
/// integer; `Body` for the first function whose body can't be decoded; `Nesting` for the first one
/// whose blocks don't nest. `OutOfMemory` where memory runs out.
pub fn load(alloc: Global, plan: &LinkPlan<'_>) -> Result<Image, LoadError>
    requires { CanBeLoaded plan.now }
    ensures image { IfOk result (λ image. IsLoaded plan.now image) }
    ensures fault { IfErr result (IsNotLoaded plan.now) }
{
    Image::new(alloc, image_parts(alloc, plan)?)
}
