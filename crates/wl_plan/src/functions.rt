//! The functions of the output that aren't imported, each with its type.

ghost use Rattle.std.specs.Prelude.{◌≡◌, ◌<◌, ◌++◌, length, Some, Contains, IfOk, OnOk, slice_get};
ghost use Rattle.std.specs.Option.{option_to_list};
ghost use Rattle.wl_custom.specs.declared.symbols.WasmSymbolKind.TheVariants.{Func};
ghost use Rattle.wl_symbols.specs.Input.{Input};
ghost use Rattle.wl_symbols.specs.LinkerNames.{kind_of};
ghost use Rattle.wl_bind.specs.FunctionSpace.{made_function_part, init_memory_part, stub_part, functions_of, object_functions};
ghost use Rattle.wl_bind.specs.FunctionTypes.{type_of_made};
ghost use Rattle.wl_bind.specs.IndexMaps.{AreIndexMaps};
ghost use Rattle.wl_bind.specs.OutputTypes.{output_types, AreTypeIndices};
ghost use Rattle.wl_bind.specs.References.{IsSettled};
ghost use Rattle.wl_plan.specs.Functions.{AreOwnFunctions};
ghost use Rattle.wl_plan.specs.steps.Bindings.{AreBindings};
ghost use Rattle.wl_plan.specs.steps.Functions.{AddsFunctions, IsAllOf, linker_functions, own_function_part, plain_type};

use crate::bindings::Bindings;
use crate::layout::{FunctionOrigin, OutputFunction};
use std::alloc::{AllocError, Global};
use wl_bind::{TypeMerger, entries_have_types, stub_imports, types_have_indices};
use wl_index::{WASM_DEAD_INDEX, WasmObjectIndexMap};
use wl_linking::{File, whole_objects};
use wl_module::{FuncType, ValType};
use wl_symbols::{LinkInput, WasmGcUnit, WasmLinkerSymbol};
use wl_types::same_types_are_one;

/// The number of a type among these, of which it is one.
pub(crate) fn type_number(types: &TypeMerger, ty: &FuncType) -> u32
    ensures { Contains types.now ty.now → slice_get types.now result ≡ Some ty.now }
{
    same_types_are_one();
    types.types();
    match types.place(ty) {
        Some(place) => place as u32,
        None => WASM_DEAD_INDEX,
    }
}

/// Adds a function, where there is one.
fn push_if_some<'a>(
    functions: &mut Vec<OutputFunction<'a>>,
    function: Option<OutputFunction<'a>>,
) -> Result<(), AllocError>
    ensures { OnOk result
        (functions.new.items ≡ functions.old.items ++ option_to_list function.entry) }
{
    if let Some(function) = function {
        functions.push(function)?;
    }
    Ok(())
}

/// The function of that type that the linker makes under a name, where the output has it.
fn made_function<'a>(
    bindings: &Bindings<'a>,
    made: WasmLinkerSymbol,
    ty: &FuncType,
) -> Option<OutputFunction<'a>>
    requires function { kind_of made ≡ Func }
    requires typed { type_of_made made ≡ Some ty.now }
    ensures { (input : Input) → AreBindings input bindings.now
        → IsAllOf input (made_function_part input made) result }
{
    entries_have_types();
    if bindings.indices.index(made).is_none() {
        return None;
    }
    Some(OutputFunction {
        type_index: type_number(&bindings.types, ty),
        origin: FunctionOrigin::Made(made),
    })
}

/// What copies data for all threads, where the output has it: a function of type `()->()`.
fn init_memory_function<'a>(bindings: &Bindings<'a>, ty: &FuncType) -> Option<OutputFunction<'a>>
    requires typed { ty.now ≡ plain_type }
    ensures { (input : Input) → AreBindings input bindings.now
        → IsAllOf input (init_memory_part input) result }
{
    entries_have_types();
    if bindings.indices.init_memory().is_none() {
        return None;
    }
    Some(OutputFunction {
        type_index: type_number(&bindings.types, ty),
        origin: FunctionOrigin::InitMemory,
    })
}

/// Adds what the linker makes by itself, where the output has it: what calls the constructors, what
/// fills the block of a thread, and what copies data for all threads.
fn push_linker_made<'a>(
    alloc: Global,
    functions: &mut Vec<OutputFunction<'a>>,
    bindings: &Bindings<'a>,
) -> Result<(), AllocError>
    ensures { (input : Input) → AreBindings input bindings.now
        → OnOk result (AddsFunctions input (linker_functions input)
        functions.old.items functions.new.items) }
{
    let plain = FuncType::new(Vec::new(alloc), Vec::new(alloc));
    let based = FuncType::new(Vec::from_slice(alloc, &[ValType::I32])?, Vec::new(alloc));
    let constructors = made_function(bindings, WasmLinkerSymbol::CallCtors, &plain);
    push_if_some(functions, constructors)?;
    let thread_start = made_function(bindings, WasmLinkerSymbol::InitTls, &based);
    push_if_some(functions, thread_start)?;
    push_if_some(functions, init_memory_function(bindings, &plain))
}

/// Adds the stubs.
fn push_stubs<'a>(
    alloc: Global,
    functions: &mut Vec<OutputFunction<'a>>,
    input: &LinkInput<'_, 'a>,
    bindings: &Bindings<'a>,
) -> Result<(), AllocError>
    requires bindings { AreBindings input.now bindings.now }
    ensures { OnOk result (AddsFunctions input.now (stub_part input.now)
        functions.old.items functions.new.items) }
{
    entries_have_types();
    whole_objects();
    let types = bindings.stubs.as_slice();
    if types.is_empty() {
        return Ok(());
    }
    let stubs = stub_imports(alloc, input)?;
    for (place, stub) in stubs.as_slice().iter().enumerate() {
        functions.push(OutputFunction {
            type_index: type_number(&bindings.types, &types[place]),
            origin: FunctionOrigin::Stub { name: stub.name },
        })?;
    }
    Ok(())
}

/// A function of an object, where it is kept. Its type is where that of the object went.
fn kept_function<'a>(
    input: &LinkInput<'_, 'a>,
    types: &[u32],
    object: usize,
    file: &File<'a>,
    function: usize,
) -> Option<OutputFunction<'a>>
    requires settled { IsSettled input.now }
    requires types { AreTypeIndices input.now object file.now types.now }
    requires here { slice_get input.now.link.objects object ≡ Some file.now }
    requires within { function < length file.now.functions }
    ensures { IsAllOf input.now (own_function_part input.now object function) result }
{
    types_have_indices();
    whole_objects();
    let unit = function as u32;
    if !input
        .live()
        .is_live(object, WasmGcUnit::DefinedFunction(unit))
    {
        return None;
    }
    Some(OutputFunction {
        type_index: types[file.functions()[function] as usize],
        origin: FunctionOrigin::Object { object, unit },
    })
}

/// Adds the kept functions of an object.
fn push_functions<'a>(
    functions: &mut Vec<OutputFunction<'a>>,
    input: &LinkInput<'_, 'a>,
    types: &[u32],
    object: usize,
    file: &File<'a>,
) -> Result<(), AllocError>
    requires settled { IsSettled input.now }
    requires types { AreTypeIndices input.now object file.now types.now }
    requires here { slice_get input.now.link.objects object ≡ Some file.now }
    ensures { OnOk result (AddsFunctions input.now (functions_of input.now object file.now)
        functions.old.items functions.new.items) }
{
    for function in 0..file.num_defined_functions() {
        push_if_some(
            functions,
            kept_function(input, types, object, file, function),
        )?;
    }
    Ok(())
}

/// Adds the kept functions of all objects, whose maps are these.
fn push_objects<'a>(
    functions: &mut Vec<OutputFunction<'a>>,
    input: &LinkInput<'_, 'a>,
    maps: &[WasmObjectIndexMap],
    files: &[File<'a>],
) -> Result<(), AllocError>
    requires settled { IsSettled input.now }
    requires maps { AreIndexMaps input.now maps.now }
    requires files { files.now ≡ input.now.link.objects }
    ensures { OnOk result (AddsFunctions input.now (object_functions input.now)
        functions.old.items functions.new.items) }
{
    for (object, file) in files.iter().enumerate() {
        let types = maps[object].type_indices.as_slice();
        push_functions(functions, input, types, object, file)?;
    }
    Ok(())
}

/// How many functions the linker makes at most, beside stubs and wrappers.
const MADE_FUNCTIONS: usize = 3;

/// About how many functions aren't imported: those that objects define, dropped ones too, those that
/// the linker makes, and so many stubs. Lists with an item for each take so much room at once.
pub(crate) fn function_room(input: &LinkInput<'_, '_>, stubs: usize) -> usize {
    let mut count = stubs.saturating_add(MADE_FUNCTIONS);
    for file in input.files().as_slice() {
        count = count.saturating_add(file.num_defined_functions());
    }
    count
}

/// The functions of the space that aren't imported: what the linker makes, and then what objects
/// define.
///
/// # Errors
/// `AllocError` where memory runs out.
pub(crate) fn own_functions<'a>(
    alloc: Global,
    input: &LinkInput<'_, 'a>,
    bindings: &Bindings<'a>,
    maps: &[WasmObjectIndexMap],
) -> Result<Vec<OutputFunction<'a>>, AllocError>
    requires bindings { AreBindings input.now bindings.now }
    requires maps { AreIndexMaps input.now maps.now }
    ensures { IfOk result
        (λ functions. AreOwnFunctions input.now (output_types input.now) functions.items) }
{
    let room = function_room(input, bindings.stubs.as_slice().len());
    let mut functions = Vec::with_capacity(alloc, room)?;
    push_linker_made(alloc, &mut functions, bindings)?;
    push_stubs(alloc, &mut functions, input, bindings)?;
    push_objects(&mut functions, input, maps, input.files().as_slice())?;
    Ok(functions)
}
