//! The units of an object: what can be kept or left out by itself.

ghost use Rattle.std.specs.Prelude.{◌≡◌, ◌<◌};
ghost use Rattle.wl_custom.specs.declared.symbols.WasmSymbolKind.TheVariants as WasmSymbolKind;
ghost use Rattle.wl_symbols.specs.Units.{defined_number, number_below, counts_of, unit_index, count_of_kind, has_unit, number_in_object, unit_count, unit_in, unit_by, unit_of, sibling_of, IsSmall};

use wl_linking::{File, WasmSymbol, WasmSymbolKind};

/// A unit of an object, by its number among those of its kind.
#[derive(Clone, Copy, PartialEq, Eq)]
pub enum WasmGcUnit {
    /// A function that the object defines.
    DefinedFunction(u32),
    /// A global that the object defines.
    DefinedGlobal(u32),
    /// A segment.
    DataSegment(u32),
    /// An imported function.
    FunctionImport(u32),
    /// An imported global.
    GlobalImport(u32),
}

/// A unit of one of the objects.
#[derive(Clone, Copy, PartialEq, Eq)]
pub struct LinkUnit {
    /// The number of the object.
    pub object: usize,
    /// Which of its units.
    pub unit: WasmGcUnit,
}

/// How many units of each kind an object has.
#[derive(Clone, Copy, PartialEq, Eq)]
pub struct UnitCounts {
    pub functions: usize,
    pub globals: usize,
    pub segments: usize,
    pub function_imports: usize,
    pub global_imports: usize,
}

/// How many units of each kind the object has.
pub fn counts_of(file: &File<'_>) -> UnitCounts
    ensures counts { result ≡ counts_of file.now }
    ensures small { IsSmall result }
{
    file.stands_for_an_object();
    UnitCounts {
        functions: file.num_defined_functions(),
        globals: file.num_defined_globals(),
        segments: file.num_data_segments(),
        function_imports: file.num_function_imports(),
        global_imports: file.num_global_imports(),
    }
}

/// The unit's number among those of its kind.
pub fn unit_index(unit: WasmGcUnit) -> u32
    ensures { result ≡ unit_index unit }
{
    match unit {
        WasmGcUnit::DefinedFunction(index)
        | WasmGcUnit::DefinedGlobal(index)
        | WasmGcUnit::DataSegment(index)
        | WasmGcUnit::FunctionImport(index)
        | WasmGcUnit::GlobalImport(index) => index,
    }
}

/// How many units of that kind there are.
pub(crate) fn count_of_kind(counts: UnitCounts, unit: WasmGcUnit) -> usize
    ensures { result ≡ count_of_kind counts unit }
{
    match unit {
        WasmGcUnit::DefinedFunction(_) => counts.functions,
        WasmGcUnit::DefinedGlobal(_) => counts.globals,
        WasmGcUnit::DataSegment(_) => counts.segments,
        WasmGcUnit::FunctionImport(_) => counts.function_imports,
        WasmGcUnit::GlobalImport(_) => counts.global_imports,
    }
}

/// Whether the object has the unit.
pub(crate) fn has_unit(counts: UnitCounts, unit: WasmGcUnit) -> bool
    ensures { result ≡ has_unit counts unit }
{
    (unit_index(unit) as usize) < count_of_kind(counts, unit)
}

/// How many units there are.
pub(crate) fn unit_count(counts: UnitCounts) -> usize
    requires { IsSmall counts }
    ensures { result ≡ unit_count counts }
{
    counts.functions
        + counts.globals
        + counts.segments
        + counts.function_imports
        + counts.global_imports
}

/// The unit's place among all of its object, kind by kind.
pub(crate) fn number_in_object(counts: UnitCounts, unit: WasmGcUnit) -> usize
    requires { IsSmall counts }
    ensures { result ≡ number_in_object counts unit }
{
    let before = match unit {
        WasmGcUnit::DefinedFunction(_) => 0,
        WasmGcUnit::DefinedGlobal(_) => counts.functions,
        WasmGcUnit::DataSegment(_) => counts.functions + counts.globals,
        WasmGcUnit::FunctionImport(_) => counts.functions + counts.globals + counts.segments,
        WasmGcUnit::GlobalImport(_) => {
            counts.functions + counts.globals + counts.segments + counts.function_imports
        }
    };
    before + unit_index(unit) as usize
}

/// The number of a thing among the defined ones, by an index that counts imported ones first:
/// nothing where that is an imported one's, or there is none.
pub fn defined_number(imports: usize, count: usize, index: u32) -> Option<u32>
    ensures { result ≡ defined_number imports count index }
{
    let place = index as usize;
    if place < imports || place - imports >= count {
        return None;
    }
    Some(index - imports as u32)
}

/// The number, where there are more things than that.
pub fn number_below(count: usize, number: u32) -> Option<u32>
    ensures { result ≡ number_below count number }
{
    if (number as usize) < count {
        Some(number)
    } else {
        None
    }
}

/// The function of a symbol.
fn function_by(counts: UnitCounts, undefined: bool, index: u32) -> Option<WasmGcUnit>
    ensures { result ≡ unit_by counts WasmSymbolKind.Func undefined index }
{
    if undefined {
        let index = number_below(counts.function_imports, index)?;
        return Some(WasmGcUnit::FunctionImport(index));
    }
    let index = defined_number(counts.function_imports, counts.functions, index)?;
    Some(WasmGcUnit::DefinedFunction(index))
}

/// The global of a symbol.
fn global_by(counts: UnitCounts, undefined: bool, index: u32) -> Option<WasmGcUnit>
    ensures { result ≡ unit_by counts WasmSymbolKind.Global undefined index }
{
    if undefined {
        let index = number_below(counts.global_imports, index)?;
        return Some(WasmGcUnit::GlobalImport(index));
    }
    let index = defined_number(counts.global_imports, counts.globals, index)?;
    Some(WasmGcUnit::DefinedGlobal(index))
}

/// The segment of a symbol.
fn segment_by(counts: UnitCounts, undefined: bool, index: u32) -> Option<WasmGcUnit>
    ensures { result ≡ unit_by counts WasmSymbolKind.Data undefined index }
{
    if undefined {
        return None;
    }
    let index = number_below(counts.segments, index)?;
    Some(WasmGcUnit::DataSegment(index))
}

/// The unit of a symbol of an object with these units.
pub fn unit_in(counts: UnitCounts, symbol: &WasmSymbol<'_>) -> Option<WasmGcUnit>
    ensures { result ≡ unit_in counts symbol.now }
{
    if symbol.is_absolute() {
        return None;
    }
    let undefined = symbol.is_undefined();
    match symbol.kind {
        WasmSymbolKind::Func => function_by(counts, undefined, symbol.index),
        WasmSymbolKind::Global => global_by(counts, undefined, symbol.index),
        WasmSymbolKind::Data => segment_by(counts, undefined, symbol.index),
        WasmSymbolKind::Section | WasmSymbolKind::Event | WasmSymbolKind::Table => None,
    }
}

/// The unit of a symbol of the object: a function or a global, or the segment of data that the
/// object defines. Other symbols have none, nor has data at an absolute address.
pub fn wasm_gc_unit_for_symbol(file: &File<'_>, symbol: &WasmSymbol<'_>) -> Option<WasmGcUnit>
    ensures { result ≡ unit_of file.now symbol.now }
{
    unit_in(counts_of(file), symbol)
}

/// The unit of the same kind with another number.
pub fn sibling_of(unit: WasmGcUnit, index: u32) -> WasmGcUnit
    ensures { result ≡ sibling_of unit index }
{
    match unit {
        WasmGcUnit::DefinedFunction(_) => WasmGcUnit::DefinedFunction(index),
        WasmGcUnit::DefinedGlobal(_) => WasmGcUnit::DefinedGlobal(index),
        WasmGcUnit::DataSegment(_) => WasmGcUnit::DataSegment(index),
        WasmGcUnit::FunctionImport(_) => WasmGcUnit::FunctionImport(index),
        WasmGcUnit::GlobalImport(_) => WasmGcUnit::GlobalImport(index),
    }
}
