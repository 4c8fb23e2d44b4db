//! Exports of what objects define under names.

ghost use Rattle.std.specs.Prelude.{◌≡◌, Some, OnOk, Contains};
ghost use Rattle.std.specs.Option.{option_map};
ghost use Rattle.wl_linking.specs.Object.{Object};
ghost use Rattle.wl_exports.specs.steps.DataPlaces.{AreDataPlaces};
ghost use Rattle.wl_exports.specs.Exports.{export_of, defined_entity, named_function, unless_made, entry_export, forced_exports};
ghost use Rattle.wl_exports.specs.steps.Exports.{IsPlainIf, IsShown, AddsExports};
ghost use Rattle.wl_exports.specs.Sources.{AreSources};

use crate::adding::push_some;
use crate::data_places::DataPlaces;
use crate::indexed::{data_export, function_export, global_export};
use crate::made::is_made_name;
use crate::sources::ExportSources;
use std::alloc::AllocError;
use wl_bind::DataSymbol;
use wl_linking::{WasmSymbol, WasmSymbolKind};
use wl_module::OutputExport;
use wl_symbols::{Definition, definitions_have_numbers, live_units_are_closed, slots_are_numbered};

/// The export, under a name, of what a symbol of an object defines.
pub(crate) fn symbol_export<'a>(
    sources: &ExportSources<'_, '_, '_>,
    places: &DataPlaces,
    name: &'a str,
    object: usize,
    number: u32,
    symbol: &WasmSymbol<'_>,
) -> Option<OutputExport<'a>>
    requires sources { AreSources sources.now }
    requires places { AreDataPlaces sources.now.input.now places.now }
    ensures { (o : Object) → IsShown sources.now.input.now object number o symbol.now
        → IsPlainIf sources.now.input.now (option_map (export_of name.now)
        (defined_entity sources.now.input.now object number o symbol.now)) result }
{
    definitions_have_numbers();
    slots_are_numbered();
    if symbol.is_undefined() {
        return None;
    }
    match symbol.kind {
        WasmSymbolKind::Func => function_export(sources, name, object, symbol.index),
        WasmSymbolKind::Global => global_export(sources, name, object, symbol.index),
        WasmSymbolKind::Data => {
            let symbol = DataSymbol {
                object,
                symbol: number,
            };
            data_export(places, name, symbol)
        }
        WasmSymbolKind::Section | WasmSymbolKind::Event | WasmSymbolKind::Table => None,
    }
}

/// The export of the function that an object defines under the name of the entry.
fn entry_export<'a>(sources: &ExportSources<'_, '_, '_>, name: &'a str) -> Option<OutputExport<'a>>
    requires sources { AreSources sources.now }
    requires asked { sources.now.input.now.link.args.entry ≡ Some name.now }
    ensures { IsPlainIf sources.now.input.now (option_map (export_of name.now)
        (named_function sources.now.input.now name.now)) result }
{
    definitions_have_numbers();
    slots_are_numbered();
    live_units_are_closed();
    let symbols = sources.input.symbols();
    let Definition::Symbol { object, symbol } = symbols.lookup(name)? else {
        return None;
    };
    let symbol = symbols.symbol(object, symbol)?;
    if symbol.is_defined_function() {
        function_export(sources, name, object, symbol.index)
    } else {
        None
    }
}

/// Adds the export of the entry, if there is one.
pub(crate) fn push_entry<'a>(
    exports: &mut Vec<OutputExport<'a>>,
    sources: &ExportSources<'_, '_, 'a>,
) -> Result<(), AllocError>
    requires { AreSources sources.now }
    ensures { OnOk result (AddsExports sources.now.input.now
        (entry_export sources.now.input.now) exports.old.items exports.new.items) }
{
    match &sources.args.entry {
        Some(name) => push_some(exports, entry_export(sources, name.as_str())),
        None => Ok(()),
    }
}

/// The export of what an object defines under a name that is to be exported, unless the linker
/// makes the name.
fn forced_export<'a>(
    sources: &ExportSources<'_, '_, '_>,
    places: &DataPlaces,
    name: &'a str,
) -> Option<OutputExport<'a>>
    requires sources { AreSources sources.now }
    requires places { AreDataPlaces sources.now.input.now places.now }
    requires asked { Contains sources.now.input.now.link.args.export_symbols name.now }
    ensures { IsPlainIf sources.now.input.now (option_map (export_of name.now)
        (unless_made sources.now.input.now name.now)) result }
{
    live_units_are_closed();
    if is_made_name(sources, name) {
        return None;
    }
    let symbols = sources.input.symbols();
    let Definition::Symbol { object, symbol } = symbols.lookup(name)? else {
        return None;
    };
    let found = symbols.symbol(object, symbol)?;
    symbol_export(sources, places, name, object, symbol, found)
}

/// Adds the exports whose names are asked for and that the linker doesn't make.
pub(crate) fn push_forced<'a>(
    exports: &mut Vec<OutputExport<'a>>,
    sources: &ExportSources<'_, '_, 'a>,
    places: &DataPlaces,
) -> Result<(), AllocError>
    requires sources { AreSources sources.now }
    requires places { AreDataPlaces sources.now.input.now places.now }
    ensures { OnOk result (AddsExports sources.now.input.now
        (forced_exports sources.now.input.now) exports.old.items exports.new.items) }
{
    for name in sources.args.force_export_symbol_names() {
        push_some(exports, forced_export(sources, places, name.as_str()))?;
    }
    Ok(())
}
