//! The segments that are kept, as they are laid out.

ghost use Rattle.std.specs.Prelude.{◌≡◌, [], ◌∷◌, ◌++◌, if◌then◌else◌, Some, IfOk, OnOk, slice_get};
ghost use Rattle.wl_linking.specs.Fitting.{IsWhole};
ghost use Rattle.wl_bind.specs.ThreadData.{is_thread_segment};
ghost use Rattle.wl_places.specs.KeptData.{alignment_of, payload_start, kept_data, kept_segments, all_segments};

use std::alloc::{AllocError, Global};
use wl_bind::thread_data;
use wl_data::KeptSegment;
use wl_linking::{File, segments_keep_bounds};
use wl_lists::ItemList;
use wl_module::{DataKind, WasmDataSegment};
use wl_symbols::{LinkInput, WasmGcUnit};

/// The alignment of the segment of that number in bytes.
fn alignment_of(file: &File<'_>, number: usize) -> u32
    ensures { result ≡ alignment_of file.now number }
{
    match file.segment_infos().get(number) {
        Some(info) => info.alignment,
        None => 1,
    }
}

/// How many bytes of the data section lie before those of a segment.
fn payload_start(file: &File<'_>, number: usize, segment: &WasmDataSegment<'_>) -> u32
    requires whole { IsWhole file.now }
    requires here { slice_get file.now.segments number ≡ Some segment.now }
    ensures { result ≡ payload_start segment.now }
{
    segments_keep_bounds();
    segment.section_offset + segment.encoded_size - segment.payload.len() as u32
}

/// The segment of that number, as it is laid out.
fn kept_data<'a>(
    file: &File<'a>,
    number: u32,
    segment: &WasmDataSegment<'a>,
    tls: bool,
) -> KeptSegment<'a>
    requires whole { IsWhole file.now }
    requires here { slice_get file.now.segments number ≡ Some segment.now }
    requires tls { tls ≡ is_thread_segment file.now number }
    ensures { result ≡ kept_data file.now number segment.now }
{
    KeptSegment {
        original: number,
        payload: segment.payload,
        payload_start: payload_start(file, number as usize, segment),
        active: segment.kind == DataKind::Active,
        tls,
        alignment: alignment_of(file, number as usize),
    }
}

/// Appends the segment of that number to others, if it is kept.
fn push_if<'a>(
    kept: &mut Vec<KeptSegment<'a>>,
    is_kept: bool,
    file: &File<'a>,
    number: u32,
    segment: &WasmDataSegment<'a>,
    tls: bool,
) -> Result<(), AllocError>
    requires whole { IsWhole file.now }
    requires here { slice_get file.now.segments number ≡ Some segment.now }
    requires tls { tls ≡ is_thread_segment file.now number }
    ensures { OnOk result (kept.new.items ≡ kept.old.items
        ++ (if is_kept then kept_data file.now number segment.now ∷ [] else [])) }
{
    if is_kept {
        kept.push(kept_data(file, number, segment, tls))?;
    }
    Ok(())
}

/// The segments of an object that are kept.
fn kept_segments<'a>(
    alloc: Global,
    input: &LinkInput<'_, 'a>,
    object: usize,
    file: &File<'a>,
) -> Result<ItemList<KeptSegment<'a>>, AllocError>
    ensures { IfOk result (λ kept. kept ≡ kept_segments input.now object file.now) }
{
    file.stands_for_an_object();
    let thread = thread_data(alloc, file)?;
    let mut kept = Vec::with_capacity(alloc, file.segments().len())?;
    for (number, segment) in file.segments().iter().enumerate() {
        let tls = thread[number];
        let unit = WasmGcUnit::DataSegment(number as u32);
        let is_kept = input.live().is_live(object, unit);
        push_if(&mut kept, is_kept, file, number as u32, segment, tls)?;
    }
    Ok(ItemList::new(kept))
}

/// The segments of all objects that are kept, object by object.
pub(crate) fn all_segments<'a>(
    alloc: Global,
    input: &LinkInput<'_, 'a>,
) -> Result<ItemList<ItemList<KeptSegment<'a>>>, AllocError>
    ensures { IfOk result (λ kept. kept ≡ all_segments input.now) }
{
    let mut all = Vec::new(alloc);
    for (object, file) in input.files().as_slice().iter().enumerate() {
        all.push(kept_segments(alloc, input, object, file)?)?;
    }
    Ok(ItemList::new(all))
}
