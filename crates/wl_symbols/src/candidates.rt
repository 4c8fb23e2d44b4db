//! Symbols that stand for themselves and can be exported.

ghost use Rattle.std.specs.Prelude.{◌≡◌};
ghost use Rattle.wl_symbols.specs.DefinedUnits.{definition_at};
ghost use Rattle.wl_symbols.specs.Roots.{is_itself, is_exportable, is_candidate};

use crate::entry::Definition;
use crate::table::SymbolTable;
use wl_linking::{WasmSymbol, WasmSymbolKind};

/// What the symbol of that place stands for, if there is one.
pub fn definition_at(
    symbols: &SymbolTable<'_, '_>,
    object: usize,
    symbol: u32,
) -> Option<Definition>
    ensures { result ≡ definition_at symbols.now object symbol }
{
    if symbols.has_symbol(object, symbol) {
        Some(symbols.definition(object, symbol))
    } else {
        None
    }
}

/// Whether a symbol is a definition that others see, that isn't kept for the host anyway, and that
/// stands for itself: those are exported with `--export-dynamic`.
pub fn is_candidate(
    symbols: &SymbolTable<'_, '_>,
    object: usize,
    number: u32,
    symbol: &WasmSymbol<'_>,
) -> bool
    ensures { result ≡ is_candidate symbols.now object number symbol.now }
{
    is_exportable(symbol.kind)
        && symbol.is_defined()
        && !symbol.is_local()
        && !symbol.is_hidden()
        && !symbol.is_exported()
        && is_itself(definition_at(symbols, object, number), object, number)
}

/// Whether a symbol stands for itself.
fn is_itself(definition: Option<Definition>, object: usize, symbol: u32) -> bool
    ensures { result ≡ is_itself definition object symbol }
{
    match definition {
        None | Some(Definition::Made(_)) => false,
        Some(
            Definition::Symbol {
                object: o,
                symbol: k,
            },
        ) => o == object && k == symbol,
    }
}

/// Whether symbols of that kind can be exported.
fn is_exportable(kind: WasmSymbolKind) -> bool
    ensures { result ≡ is_exportable kind }
{
    kind.is_function() || kind.is_data() || kind.is_global()
}
