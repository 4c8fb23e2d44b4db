//! Addresses of data.

/// Where a data symbol lies.
#[derive(Clone, Copy, PartialEq, Eq, Default)]
pub enum WasmDataAddress {
    /// Nowhere: its segment isn't kept, or nothing defines it.
    #[default]
    Missing,
    /// At an address of the memory.
    Placed(u32),
    /// On a segment that has no address.
    Passive,
    /// At a place of the block that each thread has of its own.
    TlsOffset(u32),
}
