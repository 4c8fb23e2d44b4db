//! Exports by the indices that things have in their objects.

ghost use Rattle.std.specs.Prelude.{◌≡◌, Some, slice_get, Contains};
ghost use Rattle.std.specs.Option.{option_map};
ghost use Rattle.wl_linking.specs.Object.{Object};
ghost use Rattle.wl_bind.specs.FunctionSpace.{local_functions};
ghost use Rattle.wl_bind.specs.GlobalSpace.{DataOf, local_globals};
ghost use Rattle.wl_symbols.specs.Input.{Input as Linked};
ghost use Rattle.wl_bind.specs.References.{there};
ghost use Rattle.wl_exports.specs.steps.DataPlaces.{AreDataPlaces, exported_data};
ghost use Rattle.wl_exports.specs.Exports.{OfFunction, OfGlobal, export_of};
ghost use Rattle.wl_exports.specs.steps.Exports.{IsPlainIf, index_at};
ghost use Rattle.wl_exports.specs.Sources.{AreSources};

use crate::data_places::DataPlaces;
use crate::sources::ExportSources;
use wl_bind::DataSymbol;
use wl_index::WASM_DEAD_INDEX;
use wl_module::{ExternalKind, OutputExport};

/// The index that a list has at a place, unless it stands for what the output doesn't have.
fn index_at(indices: &[u32], place: u32) -> Option<u32>
    ensures { result ≡ index_at indices.now place }
{
    let index = *indices.get(place as usize)?;
    if index == WASM_DEAD_INDEX {
        None
    } else {
        Some(index)
    }
}

/// The export, under a name, of the thing of that kind and index, if there is one.
fn export_at(name: &str, kind: ExternalKind, index: Option<u32>) -> Option<OutputExport<'_>>
    ensures { result
        ≡ option_map (λ i. record { name = name.now; kind = kind; index = i }) index }
{
    index.map(|index| OutputExport { name, kind, index })
}

/// The export, under a name, of the function of an object that has that index there, if the output
/// has it.
pub(crate) fn function_export<'a>(
    sources: &ExportSources<'_, '_, '_>,
    name: &'a str,
    object: usize,
    index: u32,
) -> Option<OutputExport<'a>>
    requires { AreSources sources.now }
    ensures { (o : Object) → slice_get sources.now.input.now.link.objects object ≡ Some o
        → IsPlainIf sources.now.input.now (option_map (export_of name.now)
        (option_map OfFunction (there (local_functions sources.now.input.now object o) index)))
        result }
{
    match sources.maps.get(object) {
        Some(map) => {
            let index = index_at(map.function_indices.as_slice(), index);
            export_at(name, ExternalKind::Func, index)
        }
        None => None,
    }
}

/// The export, under a name, of the global of an object that has that index there, if the output
/// has it.
pub(crate) fn global_export<'a>(
    sources: &ExportSources<'_, '_, '_>,
    name: &'a str,
    object: usize,
    index: u32,
) -> Option<OutputExport<'a>>
    requires { AreSources sources.now }
    ensures { (o : Object) → slice_get sources.now.input.now.link.objects object ≡ Some o
        → IsPlainIf sources.now.input.now (option_map (export_of name.now)
        (option_map OfGlobal (there (local_globals sources.now.input.now object o) index)))
        result }
{
    match sources.maps.get(object) {
        Some(map) => {
            let index = index_at(map.global_indices.as_slice(), index);
            export_at(name, ExternalKind::Global, index)
        }
        None => None,
    }
}

/// The export, under a name, of the global with the address of data that is exported.
pub(crate) fn data_export<'a>(
    places: &DataPlaces,
    name: &'a str,
    symbol: DataSymbol,
) -> Option<OutputExport<'a>>
    ensures { (input : Linked) → AreDataPlaces input places.now
        → Contains (exported_data input) symbol
        → IsPlainIf input (Some (export_of name.now (OfGlobal (DataOf symbol)))) result }
{
    export_at(name, ExternalKind::Global, places.get(&symbol).copied())
}
