//! What a pass over segments looks for, and how far it has come.

/// Where the next segment may begin at the earliest.
#[derive(Clone, Copy, PartialEq, Eq)]
pub(crate) struct Frontier {
    /// In the memory.
    pub(crate) memory: u32,
    /// In the block of data of which each thread has its own; 0 where there is none.
    pub(crate) block: u32,
}

/// Which segments a pass over an object is for, and what becomes of them.
#[derive(Clone, Copy, PartialEq, Eq)]
pub(crate) struct Pass {
    /// Those with data of which each thread has its own, or the others.
    pub(crate) tls: bool,
    /// Threads share the memory, so that the first one copies what lies in it.
    pub(crate) shared_init: bool,
    /// Data of which each thread has its own goes into a block.
    pub(crate) has_block: bool,
}
