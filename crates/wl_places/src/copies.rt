//! The segments that are copied before code runs.

ghost use Rattle.std.specs.Prelude.{◌≡◌, ◌≤◌, ◌+◌, ◌++◌, ◌∷◌, [], length, if◌then◌else◌, IfOk, OnOk};
ghost use Rattle.std.specs.List.{AllByRecursion};
ghost use Rattle.wl_index.specs.declared.index.TheConstants.{MAX_ENTRIES};
ghost use Rattle.wl_data.specs.DataPlaces.{in_one_row};
ghost use Rattle.wl_places.specs.Copies.{copy_of, copies_from, is_copied, IsSmallLayout, AreSmallLayouts};

use std::alloc::{AllocError, Global};
use wl_data::{SegmentLayouts, WasmDataSegmentLayout};
use wl_synth::PassiveSegmentCopy;

/// Which segments are copied.
#[derive(Clone, Copy)]
pub enum Copied {
    /// Those that the first thread copies into the memory.
    Shared,
    /// Those that each thread copies into its block, where they have bytes.
    Template,
}

/// Whether the segment is one of those that are copied so.
fn is_copied(copied: Copied, layout: &WasmDataSegmentLayout<'_>) -> bool
    ensures { result ≡ is_copied copied layout.now }
{
    match copied {
        Copied::Shared => layout.shared_init,
        Copied::Template => layout.tls_template && !layout.payload.is_empty(),
    }
}

/// Adds the copy of the segment of that number, where it is one of those that are copied so.
fn push_copy(
    copies: &mut Vec<PassiveSegmentCopy>,
    copied: Copied,
    number: u32,
    layout: &WasmDataSegmentLayout<'_>,
) -> Result<(), AllocError>
    requires small { IsSmallLayout layout.now }
    ensures { OnOk result (copies.new.items ≡ copies.old.items
        ++ (if is_copied copied layout.now then copy_of number layout.now ∷ [] else [])) }
{
    if !is_copied(copied, layout) {
        return Ok(());
    }
    copies.push(PassiveSegmentCopy {
        segment_index: number,
        offset: layout.output_memory_offset,
        len: layout.payload.len() as u32,
    })?;
    Ok(())
}

/// Adds the copies of those segments of an object that are copied so, the first of which has that
/// number.
fn push_copies(
    copies: &mut Vec<PassiveSegmentCopy>,
    copied: Copied,
    first: u32,
    layouts: &[WasmDataSegmentLayout<'_>],
) -> Result<(), AllocError>
    requires small { AreSmallLayouts layouts.now }
    requires room { first + length layouts.now ≤ MAX_ENTRIES }
    ensures { OnOk result (copies.new.items ≡ copies.old.items
        ++ copies_from (is_copied copied) first layouts.now) }
{
    let mut number = first;
    for layout in layouts {
        push_copy(copies, copied, number, layout)?;
        number += 1;
    }
    Ok(())
}

/// The copies of those segments of the output that are copied so, in order (object file linking,
/// version 2; the threads proposal). A segment's number is its place among all of the output.
///
/// # Errors
/// `AllocError` where memory runs out.
pub fn all_copies(
    alloc: Global,
    copied: Copied,
    layouts: &[SegmentLayouts<'_>],
) -> Result<Vec<PassiveSegmentCopy>, AllocError>
    requires small { AllByRecursion AreSmallLayouts layouts.now }
    requires room { length (in_one_row layouts.now) ≤ MAX_ENTRIES }
    ensures { IfOk result (λ copies. copies.items
        ≡ copies_from (is_copied copied) 0 (in_one_row layouts.now)) }
{
    let mut copies = Vec::new(alloc);
    let mut first: u32 = 0;
    for object in layouts {
        let list = object.as_slice();
        push_copies(&mut copies, copied, first, list)?;
        first += list.len() as u32;
    }
    Ok(copies)
}
