//! What `--export-dynamic` exports.

ghost use Rattle.std.specs.Prelude.{◌≡◌, true, Some, None, slice_get, OnOk, if◌then◌else◌};
ghost use Rattle.wl_linking.specs.Object.{Object};
ghost use Rattle.wl_exports.specs.steps.DataPlaces.{AreDataPlaces};
ghost use Rattle.wl_exports.specs.Exports.{candidate, candidates_in, candidates, dynamic_exports};
ghost use Rattle.wl_exports.specs.steps.Exports.{IsPlainIf, AddsExports, takes};
ghost use Rattle.wl_exports.specs.Sources.{AreSources};

use crate::adding::push_some;
use crate::data_places::DataPlaces;
use crate::made::push_stack_pointer;
use crate::named::symbol_export;
use crate::sources::ExportSources;
use std::alloc::AllocError;
use wl_linking::{File, WasmSymbol, WasmSymbolKind};
use wl_module::OutputExport;
use wl_symbols::{is_candidate, live_units_are_closed};

/// Which symbols are exported in one go.
#[derive(Clone, Copy)]
enum Wanted {
    /// Functions and globals.
    Code,
    /// Data.
    Data,
}

impl Wanted {
    /// Whether a symbol of that kind is one of them.
    fn takes(self, kind: WasmSymbolKind) -> bool
        ensures { result ≡ takes self kind }
    {
        match self {
            Wanted::Code => !kind.is_data(),
            Wanted::Data => kind.is_data(),
        }
    }
}

/// The export of a symbol, if it is one of the wanted ones, and `--export-dynamic` exports it.
fn candidate_export<'a>(
    sources: &ExportSources<'_, '_, 'a>,
    places: &DataPlaces,
    wanted: Wanted,
    object: usize,
    number: u32,
    symbol: &WasmSymbol<'a>,
) -> Option<OutputExport<'a>>
    requires sources { AreSources sources.now }
    requires places { AreDataPlaces sources.now.input.now places.now }
    requires dynamic { sources.now.input.now.link.args.export_dynamic ≡ true }
    ensures { (o : Object) → slice_get sources.now.input.now.link.objects object ≡ Some o
        → slice_get o.symbols number ≡ Some symbol.now
        → IsPlainIf sources.now.input.now (if takes wanted symbol.now.kind
        then candidate sources.now.input.now object number o symbol.now else None) result }
{
    live_units_are_closed();
    let symbols = sources.input.symbols();
    if wanted.takes(symbol.kind)
        && symbol.has_name()
        && is_candidate(symbols, object, number, symbol)
    {
        symbol_export(sources, places, symbol.name, object, number, symbol)
    } else {
        None
    }
}

/// Adds the exports of those symbols of an object.
fn push_symbols<'a>(
    exports: &mut Vec<OutputExport<'a>>,
    sources: &ExportSources<'_, '_, 'a>,
    places: &DataPlaces,
    wanted: Wanted,
    object: usize,
    file: &File<'a>,
) -> Result<(), AllocError>
    requires sources { AreSources sources.now }
    requires places { AreDataPlaces sources.now.input.now places.now }
    requires dynamic { sources.now.input.now.link.args.export_dynamic ≡ true }
    requires here { slice_get sources.now.input.now.link.objects object ≡ Some file.now }
    ensures { OnOk result (AddsExports sources.now.input.now
        (candidates_in sources.now.input.now (takes wanted) object file.now)
        exports.old.items exports.new.items) }
{
    file.stands_for_an_object();
    for (i, symbol) in file.symbols().iter().enumerate() {
        let export = candidate_export(sources, places, wanted, object, i as u32, symbol);
        push_some(exports, export)?;
    }
    Ok(())
}

/// Adds the exports of those symbols of all objects.
fn push_candidates<'a>(
    exports: &mut Vec<OutputExport<'a>>,
    sources: &ExportSources<'_, '_, 'a>,
    places: &DataPlaces,
    wanted: Wanted,
) -> Result<(), AllocError>
    requires sources { AreSources sources.now }
    requires places { AreDataPlaces sources.now.input.now places.now }
    requires dynamic { sources.now.input.now.link.args.export_dynamic ≡ true }
    ensures { OnOk result (AddsExports sources.now.input.now
        (candidates sources.now.input.now (takes wanted)) exports.old.items exports.new.items) }
{
    for (object, file) in sources.input.files().as_slice().iter().enumerate() {
        push_symbols(exports, sources, places, wanted, object, file)?;
    }
    Ok(())
}

/// Adds what `--export-dynamic` exports, where it is given: the stack pointer, functions and
/// globals, and then data.
pub(crate) fn push_dynamic<'a>(
    exports: &mut Vec<OutputExport<'a>>,
    sources: &ExportSources<'_, '_, 'a>,
    places: &DataPlaces,
) -> Result<(), AllocError>
    requires sources { AreSources sources.now }
    requires places { AreDataPlaces sources.now.input.now places.now }
    ensures { OnOk result (AddsExports sources.now.input.now
        (dynamic_exports sources.now.input.now) exports.old.items exports.new.items) }
{
    if !sources.args.export_dynamic {
        return Ok(());
    }
    push_stack_pointer(exports, sources)?;
    push_candidates(exports, sources, places, Wanted::Code)?;
    push_candidates(exports, sources, places, Wanted::Data)
}
