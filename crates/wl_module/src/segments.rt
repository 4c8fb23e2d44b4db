//! The data section: the bytes that a module's memory starts with.

ghost use Rattle.std.specs.Prelude.{◌≡◌, ◌≤◌, length, IfOk};
ghost use Rattle.wl_bytes.specs.declared.reader.TheConstants.{MAX_LEN};
ghost use Rattle.wl_bytes.specs.Outcome.{Yields, ReadsWhole, AreAlternatives};
ghost use Rattle.wl_module.specs.Segments.{segment_flag_at, segment_kind, target_at, segment_at, plain_segments, AreTargeted, AreSegments, SegmentsFault};

use crate::constants::read_expression;
use std::alloc::{AllocError, Global};
use std::marker::Model;
use wl_bytes::{Item, ReadError, Reader, Why, place_of, read_payload};

/// When the bytes of a segment are written.
#[derive(Clone, Copy, PartialEq, Eq)]
pub enum DataKind {
    /// By an operator of a function, where and when it says.
    Passive,
    /// When the module starts.
    Active,
}

/// A segment of the data section. Clauses see it as a `Segment`, a record of the same fields with
/// the payload as a list.
#[derive(Drop)]
pub struct WasmDataSegment<'a> {
    /// When its bytes are written.
    pub kind: DataKind,
    /// Its bytes.
    pub payload: &'a [u8],
    /// How many bytes of the section's payload lie before the segment's first one, its flag.
    pub section_offset: u32,
    /// How many bytes the segment takes, from its flag to the end of `payload`.
    pub encoded_size: u32,
}

impl<'a> Model for WasmDataSegment<'a> {
    ghost use Rattle.wl_module.specs.Segments.{Segment};

    ghost Value = { Segment };

    ghost view = { λ s. record {
      kind = s.kind;
      payload = s.payload.now;
      section_offset = s.section_offset;
      encoded_size = s.encoded_size;
    } };
}

/// A segment that says which memory it is written to. Clauses see it as a `Targeted`.
#[derive(Drop)]
pub struct TargetedSegment<'a> {
    /// The segment.
    pub segment: WasmDataSegment<'a>,
    /// The memory that an active segment is written to, by its number; `None` for a passive one.
    pub memory_index: Option<u32>,
}

impl<'a> Model for TargetedSegment<'a> {
    ghost use Rattle.wl_module.specs.Segments.{Targeted};

    ghost Value = { Targeted };

    ghost view = { λ t. record { segment = t.segment; memory_index = t.memory_index } };
}

impl<'a> WasmDataSegment<'a> {
    /// The same segment once more. Its bytes aren't copied.
    pub fn duplicate(&self) -> Self
        ensures { result ≡ self.now }
    {
        WasmDataSegment {
            kind: self.kind,
            payload: self.payload,
            section_offset: self.section_offset,
            encoded_size: self.encoded_size,
        }
    }
}

impl<'a> Item<'a> for TargetedSegment<'a> {
    ghost use Rattle.wl_module.specs.Segments.{segment_at};

    type Under = ();

    ghost item_at = { λ _. segment_at };

    fn read(_alloc: Global, _under: &mut (), reader: &mut Reader<'a>) -> Result<Self, ReadError> {
        read_segment(reader)
    }
}

/// What the first byte of a segment says.
#[derive(Clone, Copy, PartialEq, Eq)]
pub(crate) enum SegmentFlag {
    /// It is active, in the first memory.
    InMemory,
    /// It is passive.
    InNoMemory,
    /// It is active, in the memory whose number comes next.
    InMemoryOf,
}

impl SegmentFlag {
    /// When the bytes of a segment with that flag are written.
    fn kind(self) -> DataKind
        ensures { result ≡ segment_kind self }
    {
        match self {
            SegmentFlag::InNoMemory => DataKind::Passive,
            SegmentFlag::InMemory | SegmentFlag::InMemoryOf => DataKind::Active,
        }
    }
}

/// The flag of the next segment.
#[tactic(auto, unfolding(crate::specs::Segments::segment_flag_at))]
fn read_flag(reader: &mut Reader<'_>) -> Result<SegmentFlag, ReadError>
    ensures { Yields (λ f. f) result reader.new (segment_flag_at reader.old) }
{
    match reader.read_u8()? {
        0 => Ok(SegmentFlag::InMemory),
        1 => Ok(SegmentFlag::InNoMemory),
        2 => Ok(SegmentFlag::InMemoryOf),
        _ => Err(ReadError::Malformed(Why::BadByte)),
    }
}

/// The memory that the next segment names, and past the expression of its place there.
#[tactic(auto, unfolding(crate::specs::Segments::target_at))]
fn read_target(flag: SegmentFlag, reader: &mut Reader<'_>) -> Result<Option<u32>, ReadError>
    ensures { Yields (λ m. m) result reader.new (target_at flag reader.old) }
{
    let memory = match flag {
        SegmentFlag::InMemory => 0,
        SegmentFlag::InNoMemory => return Ok(None),
        SegmentFlag::InMemoryOf => reader.read_u32()?,
    };
    read_expression(reader)?;
    Ok(Some(memory))
}

/// The next segment.
#[tactic(auto, unfolding(crate::specs::Segments::segment_at, crate::specs::Segments::counted_at))]
fn read_segment<'a>(reader: &mut Reader<'a>) -> Result<TargetedSegment<'a>, ReadError>
    ensures { Yields (λ s. s) result reader.new (segment_at reader.old) }
{
    let section_offset = place_of(reader)?;
    let flag = read_flag(reader)?;
    let memory_index = read_target(flag, reader)?;
    let len = reader.read_u32()?;
    let payload = reader.take(len as usize)?;
    let end = place_of(reader)?;
    let segment = WasmDataSegment {
        kind: flag.kind(),
        payload,
        section_offset,
        encoded_size: end - section_offset,
    };
    Ok(TargetedSegment {
        segment,
        memory_index,
    })
}

/// The segments by themselves.
fn without_memories<'a>(
    alloc: Global,
    targeted: Vec<TargetedSegment<'a>>,
) -> Result<Vec<WasmDataSegment<'a>>, AllocError>
    ensures { IfOk result (λ v. v.items ≡ plain_segments targeted.entry.items) }
{
    let mut segments = Vec::with_capacity(alloc, targeted.len())?;
    for targeted in targeted {
        segments.push(targeted.segment)?;
    }
    Ok(segments)
}

/// Reads the payload of a data section (core specification, "Data Section"): the segments in
/// order, each with its place in the payload. Their bytes are slices of the payload. The number of
/// a memory isn't looked at, nor what the expression of a place computes.
///
/// # Errors
/// A flag above 2 is `Malformed(BadByte)`. Another operator than those of constant expressions is
/// `Unsupported(ConstOperator)`, a null reference of another type than `funcref` and `externref`
/// `Unsupported(Operator)`. `OutOfMemory` comes where memory runs out.
pub fn read_segments(alloc: Global, payload: &[u8]) -> Result<Vec<WasmDataSegment<'_>>, ReadError>
    requires { length payload.now ≤ MAX_LEN }
    ensures reads { ReadsWhole (λ v. v.items) AreSegments SegmentsFault payload.now result }
    ensures count { IfOk result (λ v. length v.items ≤ length payload.now) }
{
    let targeted = read_payload(alloc, (), payload)?;
    Ok(without_memories(alloc, targeted)?)
}

/// Reads the same as [`read_segments`], and says for each segment which memory it is written to.
///
/// # Errors
/// Those of [`read_segments`].
pub fn read_targeted_segments(
    alloc: Global,
    payload: &[u8],
) -> Result<Vec<TargetedSegment<'_>>, ReadError>
    requires { length payload.now ≤ MAX_LEN }
    ensures reads { ReadsWhole (λ v. v.items) AreTargeted SegmentsFault payload.now result }
    ensures count { IfOk result (λ v. length v.items ≤ length payload.now) }
{
    read_payload(alloc, (), payload)
}

/// Each payload spells one list of segments and memories or has one fault, and never both.
#[tactic(auto, using(wl_bytes::proofs::ListLaws::exact, crate::proofs::SegmentLaws::targeted_reading))]
pub fn targeted_segments_or_fault()
    ensures { AreAlternatives AreTargeted SegmentsFault }
{}

/// Each payload spells one list of segments or has one fault, and never both.
#[tactic(auto, using(wl_bytes::proofs::ListLaws::exact, crate::proofs::SegmentLaws::segments_reading))]
pub fn segments_or_fault()
    ensures { AreAlternatives AreSegments SegmentsFault }
{}
