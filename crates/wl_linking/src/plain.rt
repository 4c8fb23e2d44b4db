//! Imports and segments without what reading alone needs of them.

ghost use Rattle.std.specs.Prelude.{◌≡◌, IfOk};
ghost use Rattle.wl_module.specs.Imports.{plain_imports};
ghost use Rattle.wl_module.specs.Segments.{plain_segments};
ghost use Rattle.wl_linking.specs.Parts.{segment_memories_of};

use std::alloc::{AllocError, Global};
use wl_lists::ItemList;
use wl_module::{Import, PlacedImport, TargetedSegment, WasmDataSegment};

/// The imports without the places of their names.
pub(crate) fn plain_imports<'a>(
    alloc: Global,
    placed: ItemList<PlacedImport<'a>>,
) -> Result<ItemList<Import<'a>>, AllocError>
    ensures { IfOk result (λ imports. imports ≡ plain_imports placed.entry) }
{
    let placed = placed.into_vec();
    let mut imports = Vec::with_capacity(alloc, placed.len())?;
    for placed in placed {
        imports.push(placed.import)?;
    }
    Ok(ItemList::new(imports))
}

/// The memory that each segment goes into when the module starts, if it does.
pub(crate) fn segment_memories_of(
    alloc: Global,
    segments: &[TargetedSegment<'_>],
) -> Result<ItemList<Option<u32>>, AllocError>
    ensures { IfOk result (λ memories. memories ≡ segment_memories_of segments.now) }
{
    let mut memories = Vec::with_capacity(alloc, segments.len())?;
    for segment in segments {
        memories.push(segment.memory_index)?;
    }
    Ok(ItemList::new(memories))
}

/// The segments without their memories.
pub(crate) fn plain_segments<'a>(
    alloc: Global,
    targeted: ItemList<TargetedSegment<'a>>,
) -> Result<ItemList<WasmDataSegment<'a>>, AllocError>
    ensures { IfOk result (λ segments. segments ≡ plain_segments targeted.entry) }
{
    let targeted = targeted.into_vec();
    let mut segments = Vec::with_capacity(alloc, targeted.len())?;
    for targeted in targeted {
        segments.push(targeted.segment)?;
    }
    Ok(ItemList::new(segments))
}
