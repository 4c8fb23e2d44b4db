//! Which units are kept by themselves.

ghost use Rattle.std.specs.Prelude.{◌≡◌, ◌<◌, ◌++◌, IfOk, OnOk, if◌then◌else◌, [], None};
ghost use Rattle.std.specs.Option.{option_to_list};
ghost use Rattle.wl_custom.specs.Symbols.{is_weak};
ghost use Rattle.wl_module.specs.declared.imports.ExternalKind.TheVariants as ExternalKind;
ghost use Rattle.wl_symbols.specs.Entries.{symbol_in};
ghost use Rattle.wl_words.specs.Texts.{texts};
ghost use Rattle.wl_symbols.specs.DefinedUnits.{unit_at, other_unit};
ghost use Rattle.wl_symbols.specs.Roots.{export_unit, is_kept_symbol, is_candidate, is_root_symbol};
ghost use Rattle.wl_live.specs.Table.{placed, export_roots, symbol_roots, init_root, init_roots, object_roots, roots_from, forced_roots, entry_unit, roots};

use crate::definitions::{named_unit, other_unit, unit_at};
use std::alloc::{AllocError, Global};
use wl_linking::{File, WasmInitFunc, WasmSymbol};
use wl_module::{ExternalKind, OutputExport};
use wl_symbols::{
    LinkUnit, SymbolTable, UnitCounts, UnitNumbers, WasmGcUnit, defined_number, is_candidate,
    number_below,
};

/// Adds a unit, if there is one.
pub(crate) fn push_unit(list: &mut Vec<LinkUnit>, unit: Option<LinkUnit>) -> Result<(), AllocError>
    ensures { OnOk result (list.new.items ≡ list.old.items ++ option_to_list unit) }
{
    if let Some(unit) = unit {
        list.push(unit)?;
    }
    Ok(())
}

/// The function that is exported under an index, which counts imported ones first.
fn function_under(counts: UnitCounts, index: u32) -> Option<WasmGcUnit>
    ensures { result ≡ export_unit counts ExternalKind.Func index }
{
    match number_below(counts.function_imports, index) {
        Some(index) => Some(WasmGcUnit::FunctionImport(index)),
        None => {
            let index = defined_number(counts.function_imports, counts.functions, index)?;
            Some(WasmGcUnit::DefinedFunction(index))
        }
    }
}

/// The global that is exported under an index, which counts imported ones first.
fn global_under(counts: UnitCounts, index: u32) -> Option<WasmGcUnit>
    ensures { result ≡ export_unit counts ExternalKind.Global index }
{
    match number_below(counts.global_imports, index) {
        Some(index) => Some(WasmGcUnit::GlobalImport(index)),
        None => {
            let index = defined_number(counts.global_imports, counts.globals, index)?;
            Some(WasmGcUnit::DefinedGlobal(index))
        }
    }
}

/// The unit of an export.
fn export_unit(counts: UnitCounts, export: &OutputExport<'_>) -> Option<WasmGcUnit>
    ensures { result ≡ export_unit counts export.now.kind export.now.index }
{
    match export.kind {
        ExternalKind::Func => function_under(counts, export.index),
        ExternalKind::Global => global_under(counts, export.index),
        ExternalKind::Table | ExternalKind::Memory => None,
    }
}

/// Adds a unit of an object, if there is one.
fn push_placed(
    list: &mut Vec<LinkUnit>,
    object: usize,
    unit: Option<WasmGcUnit>,
) -> Result<(), AllocError>
    ensures { OnOk result (list.new.items ≡ list.old.items ++ placed object unit) }
{
    if let Some(unit) = unit {
        list.push(LinkUnit { object, unit })?;
    }
    Ok(())
}

/// Adds what an object exports.
fn push_exports(
    list: &mut Vec<LinkUnit>,
    numbers: &UnitNumbers,
    object: usize,
    exports: &[OutputExport<'_>],
) -> Result<(), AllocError>
    ensures { OnOk result
        (list.new.items ≡ list.old.items ++ export_roots numbers.now object exports.now) }
{
    for export in exports {
        push_placed(list, object, export_unit(numbers.counts(object), export))?;
    }
    Ok(())
}

/// Whether a symbol is kept for the host, or by itself.
fn is_kept_symbol(symbol: &WasmSymbol<'_>) -> bool
    ensures { result ≡ is_kept_symbol symbol.now }
{
    symbol.is_exported() || symbol.is_no_strip()
}

/// Whether a symbol is kept, as itself or as one of all candidates.
fn is_root_symbol(
    symbols: &SymbolTable<'_, '_>,
    object: usize,
    number: u32,
    symbol: &WasmSymbol<'_>,
) -> bool
    ensures { result ≡ is_root_symbol symbols.now object number symbol.now }
{
    is_kept_symbol(symbol)
        || symbols.args().export_dynamic && is_candidate(symbols, object, number, symbol)
}

/// Adds the unit of a symbol, if it is kept.
fn push_symbol(
    list: &mut Vec<LinkUnit>,
    numbers: &UnitNumbers,
    object: usize,
    symbol: &WasmSymbol<'_>,
    is_root: bool,
) -> Result<(), AllocError>
    ensures { OnOk result (list.new.items ≡ list.old.items
        ++ (if is_root then option_to_list (unit_at numbers.now object symbol.now) else [])) }
{
    if is_root {
        push_unit(list, unit_at(numbers, object, symbol))?;
    }
    Ok(())
}

/// Adds the symbols of an object that are kept.
fn push_symbols(
    list: &mut Vec<LinkUnit>,
    symbols: &SymbolTable<'_, '_>,
    numbers: &UnitNumbers,
    object: usize,
    file: &File<'_>,
) -> Result<(), AllocError>
    ensures { OnOk result (list.new.items
        ≡ list.old.items ++ symbol_roots symbols.now numbers.now object 0 file.now.symbols) }
{
    file.stands_for_an_object();
    let listed = file.symbols();
    for (i, symbol) in listed.iter().enumerate() {
        let is_root = is_root_symbol(symbols, object, i as u32, symbol);
        push_symbol(list, numbers, object, symbol, is_root)?;
    }
    Ok(())
}

/// The unit of what an object defines in place of an init function that is weak.
fn weak_unit(
    symbols: &SymbolTable<'_, '_>,
    numbers: &UnitNumbers,
    object: usize,
    number: u32,
    symbol: &WasmSymbol<'_>,
) -> Option<LinkUnit>
    ensures { result ≡ (if is_weak symbol.now
        then other_unit symbols.now numbers.now object number else None) }
{
    if symbol.is_weak() {
        other_unit(symbols, numbers, object, number)
    } else {
        None
    }
}

/// Adds a function that runs at the start, and where it is weak also what an object defines in its
/// place.
fn push_init(
    list: &mut Vec<LinkUnit>,
    symbols: &SymbolTable<'_, '_>,
    numbers: &UnitNumbers,
    object: usize,
    number: u32,
) -> Result<(), AllocError>
    ensures { OnOk result (list.new.items ≡ list.old.items
        ++ init_root symbols.now numbers.now object number
        (symbol_in symbols.now.objects object number)) }
{
    let Some(symbol) = symbols.symbol(object, number) else {
        return Ok(());
    };
    push_unit(list, unit_at(numbers, object, symbol))?;
    let other = weak_unit(symbols, numbers, object, number, symbol);
    push_unit(list, other)
}

/// Adds the functions of an object that run at the start.
fn push_inits(
    list: &mut Vec<LinkUnit>,
    symbols: &SymbolTable<'_, '_>,
    numbers: &UnitNumbers,
    object: usize,
    functions: &[WasmInitFunc],
) -> Result<(), AllocError>
    ensures { OnOk result (list.new.items
        ≡ list.old.items ++ init_roots symbols.now numbers.now object functions.now) }
{
    for function in functions {
        push_init(list, symbols, numbers, object, function.symbol_index)?;
    }
    Ok(())
}

/// Adds what an object keeps by itself.
fn push_object(
    list: &mut Vec<LinkUnit>,
    symbols: &SymbolTable<'_, '_>,
    numbers: &UnitNumbers,
    object: usize,
    file: &File<'_>,
) -> Result<(), AllocError>
    ensures { OnOk result (list.new.items
        ≡ list.old.items ++ object_roots symbols.now numbers.now object file.now) }
{
    push_exports(list, numbers, object, file.exports())?;
    push_symbols(list, symbols, numbers, object, file)?;
    push_inits(list, symbols, numbers, object, file.init_funcs())
}

/// Adds what the objects keep by themselves.
fn push_objects(
    list: &mut Vec<LinkUnit>,
    symbols: &SymbolTable<'_, '_>,
    numbers: &UnitNumbers,
) -> Result<(), AllocError>
    ensures { OnOk result (list.new.items
        ≡ list.old.items ++ roots_from symbols.now numbers.now 0 symbols.now.objects) }
{
    let files = symbols.files().as_slice();
    for (object, file) in files.iter().enumerate() {
        push_object(list, symbols, numbers, object, file)?;
    }
    Ok(())
}

/// Adds the units of names that are to be exported.
fn push_forced(
    list: &mut Vec<LinkUnit>,
    symbols: &SymbolTable<'_, '_>,
    numbers: &UnitNumbers,
    names: &[String],
) -> Result<(), AllocError>
    ensures { OnOk result (list.new.items
        ≡ list.old.items ++ forced_roots symbols.now numbers.now (texts names.now)) }
{
    for name in names {
        push_unit(list, named_unit(symbols, numbers, name.as_str()))?;
    }
    Ok(())
}

/// The unit of the entry.
fn entry_unit(symbols: &SymbolTable<'_, '_>, numbers: &UnitNumbers) -> Option<LinkUnit>
    ensures { result ≡ entry_unit symbols.now numbers.now }
{
    match &symbols.args().entry {
        Some(name) => named_unit(symbols, numbers, name.as_str()),
        None => None,
    }
}

/// The units that are kept by themselves.
pub(crate) fn collect_roots(
    alloc: Global,
    symbols: &SymbolTable<'_, '_>,
    numbers: &UnitNumbers,
) -> Result<Vec<LinkUnit>, AllocError>
    ensures { IfOk result (λ v. v.items ≡ roots symbols.now numbers.now) }
{
    let mut list = Vec::new(alloc);
    push_objects(&mut list, symbols, numbers)?;
    let forced = symbols.args().force_export_symbol_names();
    push_forced(&mut list, symbols, numbers, forced)?;
    push_unit(&mut list, entry_unit(symbols, numbers))?;
    Ok(list)
}
