//! What a linking section says of segments, and of functions that run when a module starts
//! (object file linking, version 2, "Segment Info Subsection" and "Init Funcs Subsection").

ghost use Rattle.std.specs.Prelude.{◌≡◌};
ghost use Rattle.wl_bytes.specs.Outcome.{Yields};
ghost use Rattle.wl_custom.specs.Infos.{alignment_at, is_tls};

use std::alloc::Global;
use std::marker::Model;
use wl_bytes::{Item, ReadError, Reader, Why};

/// What is said of a segment (object file linking, version 2, "Segment Info Subsection"). Clauses
/// see it as a `SegmentInfo`, with its name as a list of bytes.
#[derive(Drop)]
pub struct WasmSegmentInfo<'a> {
    /// The segment's name.
    pub name: &'a str,
    /// Its alignment in bytes, a power of two: 2^31 at most. The object holds its exponent.
    pub alignment: u32,
    /// Its flags, as they stand in the object: 1 for strings, 2 for data of each thread, 4 for one
    /// that is kept.
    pub flags: u32,
}

impl<'a> Model for WasmSegmentInfo<'a> {
    ghost use Rattle.wl_custom.specs.Infos.{SegmentInfo};

    ghost Value = { SegmentInfo };

    ghost view = { λ i. record { name = i.name.now; alignment = i.alignment; flags = i.flags } };
}

impl<'a> WasmSegmentInfo<'a> {
    /// Whether the segment holds data of each thread.
    pub fn is_tls(&self) -> bool
        ensures { result ≡ is_tls self.now }
    {
        self.flags & TLS != 0
    }
}

/// The flag of a segment with data of each thread.
const TLS: u32 = 2;

/// The greatest exponent of an alignment.
const MAX_EXPONENT: u32 = 31;

/// The next alignment, of which the bytes are the exponent.
#[tactic(auto, unfolding(crate::specs::Infos::alignment_at))]
fn read_alignment(reader: &mut Reader<'_>) -> Result<u32, ReadError>
    ensures { Yields (λ n. n) result reader.new (alignment_at reader.old) }
{
    let exponent = reader.read_u32()?;
    if exponent > MAX_EXPONENT {
        return Err(ReadError::Malformed(Why::BadAlignment));
    }
    Ok(1 << exponent)
}

impl<'a> Item<'a> for WasmSegmentInfo<'a> {
    ghost use Rattle.wl_custom.specs.Infos.{info_at};

    type Under = ();

    ghost item_at = { λ _. info_at };

    #[tactic(auto, unfolding(crate::specs::Infos::info_at))]
    fn read(_alloc: Global, _under: &mut (), reader: &mut Reader<'a>) -> Result<Self, ReadError> {
        let name = reader.read_name()?;
        let alignment = read_alignment(reader)?;
        let flags = reader.read_u32()?;
        Ok(WasmSegmentInfo {
            name,
            alignment,
            flags,
        })
    }
}

/// A function that runs when the module starts (object file linking, version 2, "Init Funcs
/// Subsection").
#[derive(Clone, Copy, PartialEq, Eq)]
pub struct WasmInitFunc {
    /// Functions of lesser priorities run first.
    pub priority: u32,
    /// The number of the function's symbol in its object.
    pub symbol_index: u32,
}

impl<'a> Item<'a> for WasmInitFunc {
    ghost use Rattle.wl_custom.specs.Infos.{init_at};

    type Under = ();

    ghost item_at = { λ _. init_at };

    #[tactic(auto, unfolding(crate::specs::Infos::init_at))]
    fn read(_alloc: Global, _under: &mut (), reader: &mut Reader<'a>) -> Result<Self, ReadError> {
        let priority = reader.read_u32()?;
        let symbol_index = reader.read_u32()?;
        Ok(WasmInitFunc {
            priority,
            symbol_index,
        })
    }
}
