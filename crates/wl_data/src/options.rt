//! What decides where data lies, beside the segments.

/// What decides where the data of all objects lies, beside its segments.
#[derive(Clone, Copy, PartialEq, Eq)]
pub struct DataOptions {
    /// The address from which that of data counts where the stack doesn't stand first.
    pub memory_base: u32,
    /// Whether the stack comes before the data.
    pub stack_first: bool,
    /// The bytes of the stack.
    pub stack_size: u32,
    /// Whether threads share the memory.
    pub shared_memory: bool,
    /// Whether data of which each thread has its own goes into a block of each thread.
    pub shared_tls: bool,
}
