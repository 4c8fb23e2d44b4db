//! How many bytes the output takes for data and code.

ghost use Rattle.std.specs.Prelude.{◌≡◌, ◌≤◌, ◌<◌, ℕ, ◌+◌, ◌^◌, List, length, IfOk, IfErr, OnOk, IsTrue, ◌↔◌, min};
ghost use Rattle.std.specs.Int.{w32, cast_signed};
ghost use Rattle.wl_bytes.specs.Leb.{IsShortestSleb};
ghost use Rattle.wl_index.specs.declared.index.TheConstants.{MAX_ENTRIES};
ghost use Rattle.wl_linking.specs.Steps.{Clear};
ghost use Rattle.wl_data.specs.Sizes.{IsMemoryName, Destination, IsDestination, HasSegmentSize, IsHugeSegment, HasSectionSize, AreBodiesText, segment_count, any_is_passive, has_passive, encoded_bytes, all_encoded_bytes, HasEntrySize, body_bytes};

use crate::segments::SegmentLayouts;
use std::borrow::CowSlice;
use wl_bytes::{sleb_len, uleb_len};
use wl_index::MAX_ENTRIES;
use wl_linking::{LinkError, Quantity};
use wl_module::WasmFunctionBody;

/// A segment takes fewer bytes than this, so that 32 bits hold their number.
const SIZE_LIMIT: u64 = 4_294_967_296;

/// What a section holds takes fewer bytes than this, so that its size can be measured.
const MEASURE_LIMIT: u64 = 1 << 62;

/// How many bytes name the memory of an active segment.
fn name_size(memory_index: u32) -> u64
    ensures value { (text : List ℕ) × IsMemoryName memory_index text × (result ≡ length text) }
    ensures small { result ≤ 11 }
{
    if memory_index == 0 {
        return 1;
    }
    1 + uleb_len(u64::from(memory_index)) as u64
}

/// How many bytes a place takes as a signed number of 32 bits.
fn place_size(offset: u32) -> u64
    ensures value { (text : List ℕ) × IsShortestSleb (cast_signed w32 offset) text
        × (result ≡ length text) }
    ensures small { result ≤ 10 }
{
    sleb_len(offset.cast_signed() as i64) as u64
}

/// How many bytes say where a segment goes.
fn target_size(offset: u32, memory_index: u32, passive: bool) -> u64
    ensures value { (text : List ℕ)
        × IsDestination (record { passive = passive; memory = memory_index; offset = offset }) text
        × (result ≡ length text) }
    ensures small { result ≤ 23 }
{
    if passive {
        return 1;
    }
    name_size(memory_index) + 2 + place_size(offset)
}

/// How many bytes a segment takes in the output: its flag, where it goes, the number of its bytes
/// and they.
///
/// # Errors
/// `TooLarge` where that number passes 32 bits.
pub fn output_data_segment_encoded_size(
    data_len: u32,
    offset: u32,
    memory_index: u32,
    passive: bool,
) -> Result<u32, LinkError>
    ensures ok { IfOk result (HasSegmentSize
        (record { passive = passive; memory = memory_index; offset = offset }) data_len) }
    ensures clear { OnOk result (Clear (IsHugeSegment
        (record { passive = passive; memory = memory_index; offset = offset }) data_len)) }
    ensures err { IfErr result (IsHugeSegment
        (record { passive = passive; memory = memory_index; offset = offset }) data_len) }
{
    let count = uleb_len(u64::from(data_len)) as u64;
    let size = target_size(offset, memory_index, passive) + count + u64::from(data_len);
    if size >= SIZE_LIMIT {
        return Err(LinkError::TooLarge {
            what: Quantity::Size,
        });
    }
    Ok(size as u32)
}

/// Whether the output's segments can be numbered: a space has room for them. Calls on all of them
/// ask for that.
pub fn segments_can_be_numbered(layouts: &[SegmentLayouts<'_>]) -> bool
    ensures { IsTrue result ↔ (segment_count layouts.now ≤ MAX_ENTRIES) }
{
    let mut count: u64 = 0;
    for object in layouts {
        count = count.saturating_add(object.as_slice().len() as u64);
    }
    count <= MAX_ENTRIES as u64
}

/// How many segments the output has.
pub fn output_data_segment_count(layouts: &[SegmentLayouts<'_>]) -> usize
    requires { segment_count layouts.now ≤ MAX_ENTRIES }
    ensures { result ≡ segment_count layouts.now }
{
    layouts.iter().map(|object| object.as_slice().len()).sum()
}

/// Whether one of the segments of an object is passive.
fn any_is_passive(layouts: &SegmentLayouts<'_>) -> bool
    ensures { result ≡ any_is_passive layouts.now }
{
    layouts.as_slice().iter().any(|layout| layout.passive)
}

/// Whether the output has a passive segment.
pub fn output_data_has_passive(layouts: &[SegmentLayouts<'_>]) -> bool
    ensures { result ≡ has_passive layouts.now }
{
    layouts.iter().any(|object| any_is_passive(object))
}

/// How many bytes the segments of an object take, or the greatest number where there are more.
fn object_bytes_at_most(layouts: &SegmentLayouts<'_>) -> u64
    ensures { result ≡ min (encoded_bytes layouts.now) 18446744073709551615 }
{
    let mut bytes: u64 = 0;
    for layout in layouts.as_slice() {
        bytes = bytes.saturating_add(u64::from(layout.encoded_output_size));
    }
    bytes
}

/// Whether the size of the data section can be measured: its segments take fewer than 2^62 bytes.
pub fn data_can_be_measured(layouts: &[SegmentLayouts<'_>]) -> bool
    ensures { IsTrue result ↔ (all_encoded_bytes layouts.now < 2 ^ 62) }
{
    let mut bytes: u64 = 0;
    for object in layouts {
        bytes = bytes.saturating_add(object_bytes_at_most(object));
    }
    bytes < MEASURE_LIMIT
}

/// How many bytes the segments of an object take.
fn object_bytes(layouts: &SegmentLayouts<'_>) -> u64
    requires { encoded_bytes layouts.now < 2 ^ 62 }
    ensures { result ≡ encoded_bytes layouts.now }
{
    layouts
        .as_slice()
        .iter()
        .map(|layout| u64::from(layout.encoded_output_size))
        .sum()
}

/// How many bytes a section of so many items takes, which take so many bytes.
fn section_size(count: u64, bytes: u64) -> u64
    requires { bytes < 2 ^ 63 }
    ensures { HasSectionSize count bytes result }
{
    if count == 0 {
        return 0;
    }
    let len = uleb_len(count) as u64 + bytes;
    1 + uleb_len(len) as u64 + len
}

/// How many bytes the data section takes in the output: none without a segment.
pub fn compute_data_section_size(layouts: &[SegmentLayouts<'_>]) -> u64
    requires count { segment_count layouts.now ≤ MAX_ENTRIES }
    requires bytes { all_encoded_bytes layouts.now < 2 ^ 62 }
    ensures { HasSectionSize (segment_count layouts.now) (all_encoded_bytes layouts.now) result }
{
    let mut bytes: u64 = 0;
    for object in layouts {
        bytes += object_bytes(object);
    }
    section_size(output_data_segment_count(layouts) as u64, bytes)
}

/// How many bytes a body has.
fn body_len(body: &WasmFunctionBody<'_>) -> usize
    ensures { result ≡ length body.now.bytes }
{
    match &body.bytes {
        CowSlice::Borrowed(bytes) => bytes.len(),
        CowSlice::Owned(bytes) => bytes.len(),
    }
}

/// Whether the size of the code section can be measured: its bodies have fewer than 2^62 bytes.
pub fn code_can_be_measured(bodies: &[WasmFunctionBody<'_>]) -> bool
    ensures { IsTrue result ↔ (body_bytes bodies.now < 2 ^ 62) }
{
    let mut bytes: u64 = 0;
    for body in bodies {
        bytes = bytes.saturating_add(body_len(body) as u64);
    }
    bytes < MEASURE_LIMIT
}

/// How many bytes a body takes after the number of its bytes.
fn entry_size(body: &WasmFunctionBody<'_>) -> u64
    requires { length body.now.bytes < 2 ^ 62 }
    ensures value { HasEntrySize body.now result }
    ensures small { result ≤ length body.now.bytes + 10 }
{
    let len = body_len(body) as u64;
    uleb_len(len) as u64 + len
}

/// How many bytes the code section takes in the output: none without a body.
pub fn compute_code_section_size(bodies: &[WasmFunctionBody<'_>]) -> u64
    requires count { length bodies.now ≤ MAX_ENTRIES }
    requires bytes { body_bytes bodies.now < 2 ^ 62 }
    ensures { (text : List ℕ) × AreBodiesText bodies.now text
        × HasSectionSize (length bodies.now) (length text) result }
{
    let mut bytes: u64 = 0;
    for body in bodies {
        bytes += entry_size(body);
    }
    section_size(bodies.len() as u64, bytes)
}
