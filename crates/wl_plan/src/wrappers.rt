//! The wrappers of exports: functions, their bodies, and that none has a slot.

ghost use Rattle.std.specs.Prelude.{◌≡◌, ◌≤◌, ◌-◌, ◌++◌, length, map, Some, OnOk, IfOk, slice_get};
ghost use Rattle.wl_module.specs.Types.{FunctionType};
ghost use Rattle.wl_synth.specs.Bodies.{wrapper_ops};
ghost use Rattle.wl_synth.specs.Encoding.{IsEncoded};
ghost use Rattle.wl_index.specs.declared.index.TheConstants.{WASM_DEAD_INDEX as dead};
ghost use Rattle.wl_bind.specs.FunctionSpace.{host_function_part};
ghost use Rattle.wl_bind.specs.OutputTypes.{output_types};
ghost use Rattle.wl_exports.specs.Wrapped.{WrapperEntry, AreWrappers};
ghost use Rattle.wl_plan.specs.Bodies.{AreOwnBodies, AreBodies};
ghost use Rattle.wl_plan.specs.steps.Bindings.{AreBindings};
ghost use Rattle.wl_plan.specs.Functions.{AreOwnFunctions, AreOutputFunctions};
ghost use Rattle.wl_plan.specs.Origins.{PlannedFunction};
ghost use Rattle.wl_places.specs.declared.placing.Placing.{Placing as Places};

use crate::bindings::Bindings;
use crate::bodies::push_made;
use crate::layout::{FunctionOrigin, OutputFunction};
use std::alloc::{AllocError, Global};
use wl_bind::TypeMerger;
use wl_exports::{Wrapper, wrappers_call_functions};
use wl_index::WASM_DEAD_INDEX;
use wl_linking::types_are_short;
use wl_lists::ItemList;
use wl_module::WasmFunctionBody;
use wl_symbols::{LinkInput, WasmLinkerSymbol};
use wl_synth::encode_command_export_wrapper_body;

// ---- functions

/// The number of the type of what a wrapper calls, after so many functions that are imported.
fn called_type(functions: &[OutputFunction<'_>], hosts: usize, wrapper: &Wrapper<'_>) -> u32
    requires { hosts ≤ wrapper.now.original }
    ensures { (f : PlannedFunction)
        → slice_get functions.now (wrapper.now.original - hosts) ≡ Some f
        → result ≡ f.type_index }
{
    match functions.get(wrapper.original as usize - hosts) {
        Some(function) => function.type_index,
        None => WASM_DEAD_INDEX,
    }
}

/// The functions that aren't imported, with the wrappers after them.
///
/// # Errors
/// `AllocError` where memory runs out.
pub(crate) fn with_wrappers<'a>(
    own: Vec<OutputFunction<'a>>,
    input: &LinkInput<'_, 'a>,
    hosts: usize,
    wrappers: &[Wrapper<'a>],
) -> Result<ItemList<OutputFunction<'a>>, AllocError>
    requires own { AreOwnFunctions input.now (output_types input.now) own.items }
    requires hosts { hosts ≡ length (host_function_part input.now) }
    requires wrappers { AreWrappers input.now wrappers.now }
    ensures { IfOk result (AreOutputFunctions input.now (output_types input.now)) }
{
    wrappers_call_functions();
    let mut functions = own;
    for wrapper in wrappers {
        let type_index = called_type(functions.as_slice(), hosts, wrapper);
        functions.push(OutputFunction {
            type_index,
            origin: FunctionOrigin::Wrap { name: wrapper.name },
        })?;
    }
    Ok(ItemList::new(functions))
}

// ---- bodies

/// How many parameters the functions of a type have.
fn parameter_count(types: &TypeMerger, number: u32) -> usize
    ensures { (ty : FunctionType) → slice_get types.now number ≡ Some ty
        → result ≡ length ty.params }
{
    match types.types().get(number as usize) {
        Some(ty) => ty.params().len(),
        None => 0,
    }
}

/// The body of a wrapper.
fn wrapper_body(
    alloc: Global,
    constructors: u32,
    original: u32,
    parameters: u32,
) -> Result<Vec<u8>, AllocError>
    ensures { IfOk result
        (λ body. IsEncoded (wrapper_ops constructors original parameters) body.items) }
{
    match encode_command_export_wrapper_body(alloc, constructors, original, parameters) {
        Ok(body) => Ok(body),
        Err(_) => Err(AllocError),
    }
}

/// Adds the bodies of the wrappers after those of all other functions.
///
/// # Errors
/// `AllocError` where memory runs out.
pub(crate) fn push_wrapper_bodies<'a>(
    alloc: Global,
    bodies: &mut Vec<WasmFunctionBody<'a>>,
    input: &LinkInput<'_, 'a>,
    bindings: &Bindings<'a>,
    functions: &[OutputFunction<'a>],
    wrappers: &[Wrapper<'a>],
) -> Result<(), AllocError>
    requires bindings { AreBindings input.now bindings.now }
    requires functions { AreOutputFunctions input.now (output_types input.now) functions.now }
    requires wrappers { AreWrappers input.now wrappers.now }
    ensures { (placing : Places) → AreOwnBodies input.now placing bodies.old.items
        → OnOk result (AreBodies input.now placing bodies.new.items) }
{
    wrappers_call_functions();
    types_are_short();
    let Some(constructors) = bindings.indices.index(WasmLinkerSymbol::CallCtors) else {
        return Ok(());
    };
    let hosts = bindings.shared.functions().len();
    for wrapper in wrappers {
        let number = called_type(functions, hosts, wrapper);
        let parameters = parameter_count(&bindings.types, number) as u32;
        let body = wrapper_body(alloc, constructors, wrapper.original, parameters)?;
        push_made(bodies, body)?;
    }
    Ok(())
}

// ---- slots

/// Adds that no wrapper has a slot.
///
/// # Errors
/// `AllocError` where memory runs out.
pub(crate) fn push_wrapper_slots(
    slots: &mut ItemList<u32>,
    wrappers: &[Wrapper<'_>],
) -> Result<(), AllocError>
    ensures { OnOk result
        (slots.new ≡ slots.old ++ map (λ (w : WrapperEntry). dead) wrappers.now) }
{
    for _wrapper in wrappers {
        slots.push(WASM_DEAD_INDEX)?;
    }
    Ok(())
}
