//! Which number each segment of an object has in the output.

ghost use Rattle.std.specs.Prelude.{◌≡◌, ◌≤◌, length, map, IfOk};
ghost use Rattle.wl_index.specs.declared.index.TheConstants.{MAX_ENTRIES};
ghost use Rattle.wl_places.specs.Addresses.{segment_space};
ghost use Rattle.wl_places.specs.IndexedMaps.{AreWholeMaps};
ghost use Rattle.wl_places.specs.Placing.{IsPlacing};
ghost use Rattle.wl_places.specs.SegmentNumbers.{unless_dead, AreAllNumbers};

use crate::placing::Placing;
use std::alloc::{AllocError, Global};
use wl_data::segments_have_layouts;
use wl_index::{WASM_DEAD_INDEX, WasmObjectIndexMap};
use wl_lists::ItemList;
use wl_symbols::LinkInput;

/// The index, unless it says that there is none.
fn unless_dead(index: u32) -> Option<u32>
    ensures { result ≡ unless_dead index }
{
    if index == WASM_DEAD_INDEX {
        None
    } else {
        Some(index)
    }
}

/// The numbers of an object's segments in the output; none for what isn't kept.
fn numbers_of_object(alloc: Global, indices: &[u32]) -> Result<ItemList<Option<u32>>, AllocError>
    ensures { IfOk result (λ numbers. numbers ≡ map unless_dead indices.now) }
{
    let mut numbers = Vec::with_capacity(alloc, indices.len())?;
    for index in indices {
        numbers.push(unless_dead(*index))?;
    }
    Ok(ItemList::new(numbers))
}

/// The numbers in the output of the segments of all objects, object by object; none for what isn't
/// kept. The maps say them by an index that is dead where there is none.
///
/// # Errors
/// `AllocError` where memory runs out.
pub fn all_segment_numbers(
    alloc: Global,
    input: &LinkInput<'_, '_>,
    placing: &Placing<'_>,
    maps: &[WasmObjectIndexMap],
) -> Result<ItemList<ItemList<Option<u32>>>, AllocError>
    requires maps { AreWholeMaps input.now placing.now maps.now }
    requires placed { IsPlacing input.now placing.now }
    requires room { length (segment_space placing.now) ≤ MAX_ENTRIES }
    ensures { IfOk result (AreAllNumbers input.now placing.now) }
{
    segments_have_layouts();
    let _live = input.live();
    let mut numbers = Vec::new(alloc);
    for map in maps {
        numbers.push(numbers_of_object(alloc, map.segment_indices.as_slice())?)?;
    }
    Ok(ItemList::new(numbers))
}
