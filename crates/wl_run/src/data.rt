//! Memory and segments as they are at the start.

ghost use Rattle.std.specs.Prelude.{◌≡◌, ◌≤◌, ◌∷◌, [], ◌++◌, IfOk, OnOk};
ghost use Rattle.wl_load.specs.declared.memory.TheConstants.{MAX_IMAGE_PAGES};
ghost use Rattle.wl_run.specs.Data.{segment_site, filled_payload, with_segment, with_segments, empty_pages, first_memory, kept_segment, kept_of_object, kept_segments};

use crate::filling::FixupList;
use crate::sites::Site;
use std::alloc::{AllocError, Global};
use wl_data::{SegmentLayouts, WasmDataSegmentLayout};
use wl_lists::ItemList;
use wl_load::{MAX_IMAGE_PAGES, lay_bytes};
use wl_module::WASM_PAGE_SIZE;
use wl_symbols::FixupPlace;

/// Memory, and the bytes of the segments that don't lie there.
#[derive(Drop)]
pub struct FirstData {
    /// The bytes of memory.
    pub memory: ItemList<u8>,
    /// The bytes of each segment; one that lies in memory has none.
    pub segments: ItemList<ItemList<u8>>,
}

/// The bytes of a segment, in which each field has its number.
fn filled_payload(
    alloc: Global,
    fixups: &FixupList<'_>,
    object: usize,
    layout: &WasmDataSegmentLayout<'_>,
) -> Result<Vec<u8>, AllocError>
    ensures { IfOk result (λ bytes. bytes.items ≡ filled_payload fixups.now object layout.now) }
{
    let site = Site {
        object,
        place: FixupPlace::Segment,
        unit: layout.segment_index,
    };
    fixups.filled(alloc, site, layout.payload)
}

/// Puts a segment into memory, or after the others where it goes nowhere by itself.
fn put_segment(
    alloc: Global,
    memory: &mut Vec<u8>,
    segments: &mut Vec<ItemList<u8>>,
    fixups: &FixupList<'_>,
    object: usize,
    layout: &WasmDataSegmentLayout<'_>,
) -> Result<(), AllocError>
    ensures memory { OnOk result
        (memory.new.items ≡ with_segment fixups.now object layout.now memory.old.items) }
    ensures segments { OnOk result (segments.new.items
        ≡ segments.old.items ++ kept_segment fixups.now object layout.now ∷ []) }
{
    let bytes = filled_payload(alloc, fixups, object, layout)?;
    if layout.passive {
        segments.push(ItemList::new(bytes))?;
        return Ok(());
    }
    lay_bytes(memory, layout.output_memory_offset as usize, &bytes);
    segments.push(ItemList::empty(alloc))?;
    Ok(())
}

/// Does so with the segments of an object.
fn put_segments(
    alloc: Global,
    memory: &mut Vec<u8>,
    segments: &mut Vec<ItemList<u8>>,
    fixups: &FixupList<'_>,
    object: usize,
    layouts: &[WasmDataSegmentLayout<'_>],
) -> Result<(), AllocError>
    ensures memory { OnOk result
        (memory.new.items ≡ with_segments fixups.now object layouts.now memory.old.items) }
    ensures segments { OnOk result (segments.new.items
        ≡ segments.old.items ++ kept_of_object fixups.now object layouts.now) }
{
    for layout in layouts {
        put_segment(alloc, memory, segments, fixups, object, layout)?;
    }
    Ok(())
}

/// So many pages of zeros.
fn empty_pages(alloc: Global, pages: u64) -> Result<Vec<u8>, AllocError>
    requires { pages ≤ MAX_IMAGE_PAGES }
    ensures { IfOk result (λ memory. memory.items ≡ empty_pages pages) }
{
    vec![in alloc; 0; pages as usize * WASM_PAGE_SIZE as usize]
}

/// Memory of so many pages and the segments, filled, as they are at the start.
///
/// # Errors
/// `AllocError` where memory runs out.
pub fn first_data(
    alloc: Global,
    fixups: &FixupList<'_>,
    pages: u64,
    objects: &[SegmentLayouts<'_>],
) -> Result<FirstData, AllocError>
    requires { pages ≤ MAX_IMAGE_PAGES }
    ensures memory { IfOk result
        (λ d. d.memory ≡ first_memory fixups.now pages objects.now) }
    ensures segments { IfOk result
        (λ d. d.segments ≡ kept_segments fixups.now objects.now) }
{
    let mut memory = empty_pages(alloc, pages)?;
    let mut segments = Vec::new(alloc);
    for (object, layouts) in objects.iter().enumerate() {
        put_segments(
            alloc,
            &mut memory,
            &mut segments,
            fixups,
            object,
            layouts.as_slice(),
        )?;
    }
    Ok(FirstData {
        memory: ItemList::new(memory),
        segments: ItemList::new(segments),
    })
}
