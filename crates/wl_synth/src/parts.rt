//! What bodies copy and set. Places and lengths are counted in bytes.

/// A passive segment and where its bytes are copied to.
#[derive(Clone, Copy, PartialEq, Eq)]
pub struct PassiveSegmentCopy {
    /// The number of the segment in the output.
    pub segment_index: u32,
    /// Its address in memory, or its place in a thread's block.
    pub offset: u32,
    /// How many bytes it has.
    pub len: u32,
}

/// A pointer in a thread's block to another place of the block.
#[derive(Clone, Copy, PartialEq, Eq)]
pub struct TlsPointerFixup {
    /// The place in the block where the pointer stands.
    pub dest: u32,
    /// How far past the base of the block it points.
    pub offset: i32,
}

/// A global that holds an address in a thread's block.
#[derive(Clone, Copy, PartialEq, Eq)]
pub struct TlsGotFixup {
    /// The index of the global in the output.
    pub global: u32,
    /// How far past the base of the block the address is.
    pub offset: i32,
}
