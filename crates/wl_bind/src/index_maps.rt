//! Where the things of each object stand in the output.

ghost use Rattle.std.specs.Prelude.{◌≡◌, ◌<◌, length, slice_get, IfOk, Some};
ghost use Rattle.wl_linking.specs.Object.{Object as SpecObject};
ghost use Rattle.wl_bind.specs.steps.IndexMaps.{AreMapSources};
ghost use Rattle.wl_bind.specs.IndexMaps.{IsIndexMap, AreIndexMaps};
ghost use Rattle.wl_bind.specs.steps.Numbering.{IsNumbering};
ghost use Rattle.wl_bind.specs.OutputTypes.{IsMerged};

use crate::got_globals::got_globals;
use crate::merging::MergedTypes;
use crate::numbering::Numbering;
use crate::own_indices::Own;
use crate::redirects::function_redirects;
use std::alloc::{AllocError, Global};
use wl_index::WasmObjectIndexMap;
use wl_lists::ItemList;

/// What the maps of all objects are made from.
#[derive(Drop)]
struct MapSources<'m, 'n, 'i, 'a> {
    /// What the things of objects are numbered by.
    numbering: &'m Numbering<'n, 'i, 'a>,
    /// The output types of the types of each object.
    types: &'m [ItemList<u32>],
    /// The indices of the functions of each object.
    functions: &'m [ItemList<u32>],
    /// The indices of the globals of each object.
    globals: &'m [ItemList<u32>],
}

/// A copy of the row of an object.
fn row_copy(
    alloc: Global,
    rows: &[ItemList<u32>],
    object: usize,
) -> Result<ItemList<u32>, AllocError>
    requires { object < length rows.now }
    ensures { IfOk result (λ row. slice_get rows.now object ≡ Some row) }
{
    let mut row = ItemList::empty(alloc);
    row.extend(rows[object].as_slice())?;
    Ok(row)
}

/// The map of an object.
fn index_map(
    alloc: Global,
    sources: &MapSources<'_, '_, '_, '_>,
    object: usize,
) -> Result<WasmObjectIndexMap, AllocError>
    requires sources { AreMapSources sources.now.numbering.now.input.now sources.now }
    requires within { object < length sources.now.numbering.now.input.now.link.objects }
    ensures { let input = sources.now.numbering.now.input.now in IfOk result
        (λ map. (o : SpecObject) → slice_get input.link.objects object ≡ Some o
        → IsIndexMap input object o map) }
{
    let input = sources.numbering.input;
    let files = input.files().as_slice();
    let file = &files[object];
    let got = got_globals(alloc, sources.numbering, object, file)?;
    Ok(WasmObjectIndexMap {
        type_indices: row_copy(alloc, sources.types, object)?,
        function_indices: row_copy(alloc, sources.functions, object)?,
        global_indices: row_copy(alloc, sources.globals, object)?,
        function_symbol_redirects: function_redirects(
            alloc,
            input,
            sources.functions,
            object,
            file,
        )?,
        got_mem_globals: got.mem,
        got_func_globals: got.func,
        segment_indices: ItemList::empty(alloc),
        data_addresses: ItemList::empty(alloc),
    })
}

/// The maps of all objects.
///
/// # Errors
/// `AllocError` where memory runs out.
pub(crate) fn index_maps_of(
    alloc: Global,
    numbering: &Numbering<'_, '_, '_>,
    types: &MergedTypes,
) -> Result<ItemList<WasmObjectIndexMap>, AllocError>
    requires numbering { IsNumbering numbering.now.input.now numbering.now }
    requires types { IsMerged numbering.now.input.now types.now }
    ensures { IfOk result (AreIndexMaps numbering.now.input.now) }
{
    let functions = numbering.rows_of(alloc, Own::Functions)?;
    let globals = numbering.rows_of(alloc, Own::Globals)?;
    let sources = MapSources {
        numbering,
        types: types.indices.as_slice(),
        functions: functions.as_slice(),
        globals: globals.as_slice(),
    };
    let mut maps = ItemList::empty(alloc);
    for object in 0..numbering.input.files().len() {
        maps.push(index_map(alloc, &sources, object)?)?;
    }
    Ok(maps)
}
