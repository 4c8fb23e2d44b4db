//! Where the things of each object stand in the output, its segments and data among them.

ghost use Rattle.std.specs.Prelude.{◌≡◌, ◌≤◌, ◌<◌, ◌+◌, length, Some, IfOk, OnOk, IfErr, slice_get};
ghost use Rattle.wl_linking.specs.Steps.{Refuses};
ghost use Rattle.wl_index.specs.declared.index.TheConstants.{MAX_ENTRIES};
ghost use Rattle.wl_bind.specs.IndexMaps.{AreIndexMaps};
ghost use Rattle.wl_places.specs.AddressSteps.{AreOnce, IsBook};
ghost use Rattle.wl_places.specs.Addresses.{segment_space, HasHighSymbol};
ghost use Rattle.wl_places.specs.IndexedMaps.{AreWholeMaps};
ghost use Rattle.wl_places.specs.IndexSteps.{numbers_among, segments_before, IsMapOf, IsWholeMapOf, AreLowOf, IsHighSymbol};

use crate::addresses::{AddressBook, layouts_of};
use std::alloc::{AllocError, Global};
use wl_data::{WasmDataSegmentLayout, segments_have_layouts};
use wl_index::{WASM_DEAD_INDEX, WasmObjectIndexMap};
use wl_linking::{File, LinkError};
use wl_lists::ItemList;
use wl_symbols::LinkInput;

/// The number in the output of each segment of an object, of which the first has that number there:
/// 4294967295 where it isn't kept.
fn object_numbers(
    alloc: Global,
    layouts: &[WasmDataSegmentLayout<'_>],
    count: usize,
    first: u32,
) -> Result<ItemList<u32>, AllocError>
    requires once { AreOnce count layouts.now }
    requires room { first + length layouts.now ≤ MAX_ENTRIES }
    ensures { IfOk result (λ numbers. numbers ≡ numbers_among layouts.now first count) }
{
    let mut numbers = vec![in alloc; WASM_DEAD_INDEX; count]?;
    for (place, layout) in layouts.iter().enumerate() {
        numbers[layout.segment_index as usize] = first + place as u32;
    }
    Ok(ItemList::new(numbers))
}

/// The object of that number.
fn file_of<'i, 'a>(input: &LinkInput<'i, 'a>, object: usize) -> &'i File<'a>
    requires { object < length input.now.link.objects }
    ensures { slice_get input.now.link.objects object ≡ Some result.now }
{
    let files = input.files().as_slice();
    &files[object]
}

/// The map of an object with the numbers of its segments, of which the first has that number in the
/// output, and with where its data lies.
fn whole_map(
    alloc: Global,
    book: &AddressBook<'_, '_, '_>,
    object: usize,
    first: u32,
    map: WasmObjectIndexMap,
) -> Result<WasmObjectIndexMap, LinkError>
    requires book { IsBook book.now }
    requires here { IsMapOf book.now.input.now object map }
    requires first { first ≡ segments_before book.now.placing.now.places.layouts object }
    requires room { length (segment_space book.now.placing.now) ≤ MAX_ENTRIES }
    ensures ok { IfOk result (IsWholeMapOf book.now object) }
    ensures low { OnOk result (AreLowOf book.now object) }
    ensures err { IfErr result (Refuses (IsHighSymbol book.now)) }
{
    segments_have_layouts();
    let file = file_of(book.input, object);
    let layouts = layouts_of(book.placing, object);
    let segment_indices = object_numbers(alloc, layouts, file.num_data_segments(), first)?;
    let data_addresses = book.of_object(alloc, object, file)?;
    Ok(WasmObjectIndexMap {
        type_indices: map.type_indices,
        function_indices: map.function_indices,
        global_indices: map.global_indices,
        segment_indices,
        data_addresses,
        function_symbol_redirects: map.function_symbol_redirects,
        got_mem_globals: map.got_mem_globals,
        got_func_globals: map.got_func_globals,
    })
}

/// The maps of all objects with the numbers of their segments, and with where their data lies.
///
/// # Errors
/// `TooLarge` where data lies past the last address.
pub fn whole_maps(
    alloc: Global,
    book: &AddressBook<'_, '_, '_>,
    maps: ItemList<WasmObjectIndexMap>,
) -> Result<ItemList<WasmObjectIndexMap>, LinkError>
    requires book { IsBook book.now }
    requires maps { AreIndexMaps book.now.input.now maps }
    requires room { length (segment_space book.now.placing.now) ≤ MAX_ENTRIES }
    ensures ok { IfOk result (AreWholeMaps book.now.input.now book.now.placing.now) }
    ensures low { OnOk result (HasHighSymbol book.now.input.now book.now.placing.now → ⊥) }
    ensures err { IfErr result (Refuses (IsHighSymbol book.now)) }
{
    segments_have_layouts();
    let mut whole = Vec::new(alloc);
    let mut first: u32 = 0;
    for map in maps.into_vec() {
        let object = whole.len();
        whole.push(whole_map(alloc, book, object, first, map)?)?;
        first += layouts_of(book.placing, object).len() as u32;
    }
    Ok(ItemList::new(whole))
}
