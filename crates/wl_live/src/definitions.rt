//! The units of what symbols and names stand for.

ghost use Rattle.std.specs.Prelude.{◌≡◌};
ghost use Rattle.wl_symbols.specs.DefinedUnits.{unit_at, defined_unit, definition_unit, definition_at, other_unit, named_unit, gives_way, is_replaceable, replacing_unit};

use wl_linking::{WasmSymbol, WasmSymbolKind};
use wl_symbols::{Definition, LinkUnit, SymbolTable, UnitNumbers, definition_at, unit_in};

/// The unit of a symbol, with its object.
pub(crate) fn unit_at(
    numbers: &UnitNumbers,
    object: usize,
    symbol: &WasmSymbol<'_>,
) -> Option<LinkUnit>
    ensures { result ≡ unit_at numbers.now object symbol.now }
{
    let unit = unit_in(numbers.counts(object), symbol)?;
    Some(LinkUnit { object, unit })
}

/// The unit of a symbol that its object defines.
fn defined_unit(numbers: &UnitNumbers, object: usize, symbol: &WasmSymbol<'_>) -> Option<LinkUnit>
    ensures { result ≡ defined_unit numbers.now object symbol.now }
{
    if symbol.is_undefined() {
        None
    } else {
        unit_at(numbers, object, symbol)
    }
}

/// The unit of what an object defines.
fn definition_unit(
    symbols: &SymbolTable<'_, '_>,
    numbers: &UnitNumbers,
    definition: Definition,
) -> Option<LinkUnit>
    ensures { result ≡ definition_unit symbols.now numbers.now definition }
{
    match definition {
        Definition::Symbol { object, symbol } => {
            defined_unit(numbers, object, symbols.symbol(object, symbol)?)
        }
        Definition::Made(_) => None,
    }
}

/// The unit of what an object defines and the symbol of that place stands for.
pub(crate) fn other_unit(
    symbols: &SymbolTable<'_, '_>,
    numbers: &UnitNumbers,
    object: usize,
    symbol: u32,
) -> Option<LinkUnit>
    ensures { result ≡ other_unit symbols.now numbers.now object symbol }
{
    let definition = definition_at(symbols, object, symbol)?;
    definition_unit(symbols, numbers, definition)
}

/// The unit of what an object defines and a name stands for.
pub(crate) fn named_unit(
    symbols: &SymbolTable<'_, '_>,
    numbers: &UnitNumbers,
    name: &str,
) -> Option<LinkUnit>
    ensures { result ≡ named_unit symbols.now numbers.now name.now }
{
    let definition = symbols.lookup(name)?;
    definition_unit(symbols, numbers, definition)
}

/// Weak functions and weak data give way to other definitions.
fn gives_way(kind: WasmSymbolKind) -> bool
    ensures { result ≡ gives_way kind }
{
    kind.is_function() || kind.is_data()
}

/// Whether what a symbol stands for is followed beside the symbol.
fn is_replaceable(symbol: &WasmSymbol<'_>) -> bool
    ensures { result ≡ is_replaceable symbol.now }
{
    symbol.is_undefined() || symbol.is_weak() && gives_way(symbol.kind)
}

/// The unit of what such a symbol stands for.
pub(crate) fn replacing_unit(
    symbols: &SymbolTable<'_, '_>,
    numbers: &UnitNumbers,
    object: usize,
    number: u32,
    symbol: &WasmSymbol<'_>,
) -> Option<LinkUnit>
    ensures { result ≡ replacing_unit symbols.now numbers.now object number symbol.now }
{
    if is_replaceable(symbol) {
        other_unit(symbols, numbers, object, number)
    } else {
        None
    }
}
