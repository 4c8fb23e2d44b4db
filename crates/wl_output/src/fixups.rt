//! What a kept relocation becomes.

use wl_custom::RelocationType;
use wl_symbols::FixupPlace;

/// What a field takes.
#[derive(Clone, Copy, PartialEq, Eq)]
pub enum FixupTo {
    /// This number, and what is still to be added to it.
    Value { value: u32, addend_left: i32 },
    /// An address in the data of a thread, so many bytes past its start, which is known when the
    /// thread starts.
    Deferred { offset: i32 },
}

/// What a kept relocation becomes.
#[derive(Clone, Copy, PartialEq, Eq)]
pub struct Fixup {
    /// The object that the relocation is from.
    pub object: usize,
    /// The function or the segment of that object that holds the field.
    pub unit: u32,
    /// The first byte of the field in its body or its payload.
    pub position: u32,
    /// What the field takes.
    pub to: FixupTo,
    /// What the field lies in.
    pub place: FixupPlace,
    /// The relocation's type.
    pub ty: RelocationType,
}
