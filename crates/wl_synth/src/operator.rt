//! The operators that made bodies consist of.

/// An operator, by its name in the text format, with its immediates.
#[derive(Clone, Copy)]
pub enum Operator {
    /// A block without a type.
    Block,
    /// The end of a block or of the function.
    End,
    /// To this label.
    Br(u32),
    /// To the first label on 0, to the second on 1, else to the third.
    BrTable(u32, u32, u32),
    /// A call of this function.
    Call(u32),
    /// Drops a value.
    Drop,
    /// Of this local.
    LocalGet(u32),
    /// Of this global.
    GlobalGet(u32),
    /// Of this global.
    GlobalSet(u32),
    /// Without an offset, aligned to four bytes.
    I32Store,
    /// This number.
    I32Const(i32),
    /// The same operator with a number that isn't negative, and may be too great for it.
    I32Unsigned(u32),
    /// This number.
    I64Const(i64),
    /// The sum of two numbers.
    I32Add,
    /// From this segment into memory 0.
    MemoryInit(u32),
    /// Of this segment.
    DataDrop(u32),
    /// Of memory 0.
    MemoryFill,
    /// Wakes those who wait.
    MemoryAtomicNotify,
    /// Waits while a number stands in memory.
    MemoryAtomicWait32,
    /// Stores a number, in one step for all threads.
    I32AtomicStore,
    /// Stores a number where another stands, in one step for all threads.
    I32AtomicRmwCmpxchg,
}
