//! What is called at the start.

ghost use Rattle.std.specs.Prelude.{◌≡◌, ℕ, Some, Contains, OnOk, IfOk, slice_get};
ghost use Rattle.wl_linking.specs.Steps.{Clear};
ghost use Rattle.wl_bind.specs.IndexMaps.{IsIndexMap, AreIndexMaps};
ghost use Rattle.wl_bind.specs.References.{IsSettled, there};
ghost use Rattle.wl_bind.specs.Signatures.{IsMismatch};
ghost use Rattle.wl_ctors.specs.InitCalls.{IsInitCall, AreInitCalls, init_functions_of};
ghost use Rattle.wl_ctors.specs.CallSteps.{result_count, AddsCalls};

use std::alloc::{AllocError, Global};
use wl_index::{WASM_DEAD_INDEX, WasmObjectIndexMap};
use wl_linking::{
    File, WasmInitFunc, WasmSymbolKind, init_functions_have_symbols, types_are_short, whole_objects,
};
use wl_lists::ItemList;
use wl_symbols::{LinkInput, definitions_have_numbers, live_units_are_closed, own_number};

/// A call of a function that runs at the start.
#[derive(Clone, Copy, PartialEq, Eq)]
pub struct InitCall {
    /// Those of lower priority are called first.
    pub priority: u32,
    /// The function, by its index in the output.
    pub index: u32,
    /// How many results it has.
    pub results: u32,
}

/// The index of what a symbol leads to.
fn target_index(map: &WasmObjectIndexMap, symbol: u32) -> u32
    ensures { (index : ℕ) → there map.now.function_symbol_redirects symbol ≡ Some index
        → result ≡ index }
{
    let redirects = map.function_symbol_redirects.as_slice();
    match redirects.get(symbol as usize) {
        Some(Some(index)) => *index,
        Some(None) | None => WASM_DEAD_INDEX,
    }
}

/// How many results the function has that a symbol of its object defines.
fn result_count(file: &File<'_>, symbol: u32) -> usize
    ensures { result ≡ result_count file.now symbol }
{
    let Some(symbol) = file.symbols().get(symbol as usize) else {
        return 0;
    };
    let Some(number) = own_number(WasmSymbolKind::Func, file, symbol.index) else {
        return 0;
    };
    let Some(ty) = file.functions().get(number as usize) else {
        return 0;
    };
    match file.types().get(*ty as usize) {
        Some(ty) => ty.results().len(),
        None => 0,
    }
}

/// The call of a function of an object that runs at the start.
fn init_call(
    input: &LinkInput<'_, '_>,
    object: usize,
    file: &File<'_>,
    map: &WasmObjectIndexMap,
    function: WasmInitFunc,
) -> InitCall
    requires settled { IsSettled input.now }
    requires signatures { Clear (IsMismatch input.now) }
    requires here { slice_get input.now.link.objects object ≡ Some file.now }
    requires map { IsIndexMap input.now object file.now map.now }
    requires one { Contains file.now.init_funcs function }
    ensures { IsInitCall input.now (object, function) result }
{
    definitions_have_numbers();
    live_units_are_closed();
    init_functions_have_symbols();
    types_are_short();
    whole_objects();
    InitCall {
        priority: function.priority,
        index: target_index(map, function.symbol_index),
        results: result_count(file, function.symbol_index) as u32,
    }
}

/// Adds the calls of the functions of an object.
fn push_calls(
    calls: &mut Vec<InitCall>,
    input: &LinkInput<'_, '_>,
    object: usize,
    file: &File<'_>,
    map: &WasmObjectIndexMap,
) -> Result<(), AllocError>
    requires settled { IsSettled input.now }
    requires signatures { Clear (IsMismatch input.now) }
    requires here { slice_get input.now.link.objects object ≡ Some file.now }
    requires map { IsIndexMap input.now object file.now map.now }
    ensures { OnOk result (AddsCalls input.now (init_functions_of object file.now)
        calls.old.items calls.new.items) }
{
    for function in file.init_funcs() {
        calls.push(init_call(input, object, file, map, *function))?;
    }
    Ok(())
}

/// The calls of the functions that run at the start, by ascending priority, and object by object
/// and as each object lists them where priorities are the same.
///
/// # Errors
/// `AllocError` where memory runs out.
pub fn init_calls(
    alloc: Global,
    input: &LinkInput<'_, '_>,
    maps: &[WasmObjectIndexMap],
) -> Result<ItemList<InitCall>, AllocError>
    requires settled { IsSettled input.now }
    requires signatures { Clear (IsMismatch input.now) }
    requires maps { AreIndexMaps input.now maps.now }
    ensures { IfOk result (λ calls. AreInitCalls input.now calls) }
{
    let mut calls = Vec::new(alloc);
    for (object, file) in input.files().as_slice().iter().enumerate() {
        push_calls(&mut calls, input, object, file, &maps[object])?;
    }
    calls.sort_by_key(|call| call.priority)?;
    Ok(ItemList::new(calls))
}
