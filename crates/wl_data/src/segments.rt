//! Segments that are kept, and what the output makes of them.

ghost use Rattle.std.specs.Prelude.{◌≡◌, length, IsTrue, ◌↔◌, ◌++◌, OnOk};

use std::alloc::AllocError;
use std::marker::Model;

/// A segment of an object that is kept. Clauses see it as `KeptData`, with its bytes as a list.
#[derive(Drop)]
pub struct KeptSegment<'a> {
    /// Its number in the object.
    pub original: u32,
    /// Its bytes.
    pub payload: &'a [u8],
    /// How many bytes of the object's data section lie before them.
    pub payload_start: u32,
    /// Whether it goes into the memory when a module starts.
    pub active: bool,
    /// Whether each thread has its own.
    pub tls: bool,
    /// Its alignment in bytes.
    pub alignment: u32,
}

impl<'a> Model for KeptSegment<'a> {
    ghost use Rattle.wl_data.specs.Segments.{KeptData};

    ghost Value = { KeptData };

    ghost view = { λ s. record {
      original = s.original;
      payload = s.payload.now;
      payload_start = s.payload_start;
      active = s.active;
      tls = s.tls;
      alignment = s.alignment;
    } };
}

impl<'a> KeptSegment<'a> {
    ghost use Rattle.wl_data.specs.Layouts.{CanBePlaced, block_alignment, is_common, tls_alignment_of};

    /// How many bytes it has.
    pub(crate) fn size(&self) -> u32
        requires { CanBePlaced self.now }
        ensures { result ≡ length self.now.payload }
    {
        self.payload.len() as u32
    }

    /// Its alignment.
    pub(crate) fn alignment(&self) -> u32
        ensures { result ≡ self.now.alignment }
    {
        self.alignment
    }

    /// Whether it can be placed: it has an alignment, and no more bytes than an object may have.
    pub fn can_be_placed(&self) -> bool
        ensures { IsTrue result ↔ CanBePlaced self.now }
    {
        self.alignment > 0 && self.payload.len() <= 1073741824
    }

    /// Whether all threads have it in common, and it has bytes that go into the memory.
    pub(crate) fn is_common(&self) -> bool
        ensures { result ≡ is_common self.now }
    {
        self.active && !self.tls && !self.payload.is_empty()
    }

    /// Its alignment where each thread has its own of it, else 1.
    pub(crate) fn tls_alignment(&self) -> u32
        ensures { result ≡ tls_alignment_of self.now }
    {
        if self.tls { self.alignment } else { 1 }
    }

    /// Its alignment in a block of data of each thread, where an empty one needs none.
    pub(crate) fn block_alignment(&self) -> u32
        ensures { result ≡ block_alignment self.now }
    {
        if self.payload.is_empty() {
            1
        } else {
            self.alignment
        }
    }
}

/// What the output makes of a segment. Clauses see it as a `SegmentLayout`, with its
/// bytes as a list.
#[derive(Drop)]
pub struct WasmDataSegmentLayout<'a> {
    /// The number of the segment in its object.
    pub segment_index: u32,
    /// Its bytes.
    pub payload: &'a [u8],
    /// How many bytes of the object's data section lie before them.
    pub payload_start: u32,
    /// The memory that it goes into: always the first.
    pub output_memory_index: u32,
    /// Where it lies in the memory or in its block; 0 where it has no address.
    pub output_memory_offset: u32,
    /// How many bytes the segment takes in the output, its head included.
    pub encoded_output_size: u32,
    /// Whether it goes nowhere by itself when a module starts.
    pub passive: bool,
    /// Whether it is copied into the block of each thread.
    pub tls_template: bool,
    /// Whether it is copied into the memory by the first thread.
    pub shared_init: bool,
}

impl<'a> Model for WasmDataSegmentLayout<'a> {
    ghost use Rattle.wl_data.specs.Segments.{SegmentLayout};

    ghost Value = { SegmentLayout };

    ghost view = { λ l. record {
      segment_index = l.segment_index;
      payload = l.payload.now;
      payload_start = l.payload_start;
      output_memory_index = l.output_memory_index;
      output_memory_offset = l.output_memory_offset;
      encoded_output_size = l.encoded_output_size;
      passive = l.passive;
      tls_template = l.tls_template;
      shared_init = l.shared_init;
    } };
}

/// The segments of an object as the output has them, in its order. Clauses see them as a list.
#[derive(Drop)]
pub struct SegmentLayouts<'a> {
    items: Vec<WasmDataSegmentLayout<'a>>,
}

impl<'a> Model for SegmentLayouts<'a> {
    ghost use Rattle.std.specs.Prelude.{List};
    ghost use Rattle.wl_data.specs.Segments.{SegmentLayout};

    ghost Value = { List SegmentLayout };

    ghost view = { λ s. s.items.items };
}

impl<'a> SegmentLayouts<'a> {
    /// These segments.
    pub fn new(items: Vec<WasmDataSegmentLayout<'a>>) -> Self
        ensures { result ≡ items.entry.items }
    {
        SegmentLayouts { items }
    }

    /// Puts more segments at the end; where memory runs out it stays as it was.
    pub(crate) fn append(&mut self, more: Vec<WasmDataSegmentLayout<'a>>) -> Result<(), AllocError>
        ensures ok { OnOk result (self.new ≡ self.old ++ more.entry.items) }
    {
        let mut items = more;
        self.items.append(&mut items)
    }

    /// The segments as a slice.
    pub fn as_slice(&self) -> &[WasmDataSegmentLayout<'a>]
        ensures { result.now ≡ self.now }
    {
        self.items.as_slice()
    }
}
