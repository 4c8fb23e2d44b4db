//! What operators do: the groups of those that don't compute, load or store integers.

/// Blocks, branches and calls.
#[derive(Clone, Copy)]
pub enum ControlOperator {
    /// Traps.
    Unreachable,
    /// Does nothing.
    Nop,
    /// Opens a block that is left after its end.
    Block,
    /// Opens a block that begins anew.
    Loop,
    /// Opens a block of two parts, of which a number chooses one.
    If,
    /// Ends the first part.
    Else,
    /// Ends a block or a function.
    End,
    /// Goes to a block that is named.
    Branch,
    /// Goes there, but not on 0.
    BranchIf,
    /// Goes to one of several blocks, by a number.
    BranchTable,
    /// Leaves the function.
    Return,
    /// Calls a function.
    Call,
    /// Calls a function of the table.
    CallIndirect,
}

/// Operands, locals and constants.
#[derive(Clone, Copy)]
pub enum StackOperator {
    /// Drops an operand.
    Drop,
    /// Takes one of two operands, by a number.
    Select,
    /// Reads a local.
    LocalGet,
    /// Sets a local.
    LocalSet,
    /// Sets a local to an operand, which stays.
    LocalTee,
    /// A constant of 32 bits.
    ConstI32,
    /// A constant of 64 bits.
    ConstI64,
}

/// Globals, memory and segments.
#[derive(Clone, Copy)]
pub enum StoreOperator {
    /// Reads a global.
    GlobalGet,
    /// Sets a global.
    GlobalSet,
    /// Gives the size of memory.
    MemorySize,
    /// Adds pages to memory.
    MemoryGrow,
    /// Copies from a segment to memory.
    MemoryInit,
    /// Drops a segment.
    DataDrop,
    /// Copies from memory to memory.
    MemoryCopy,
    /// Fills memory with a byte.
    MemoryFill,
    /// Wakes those who wait at a place.
    Notify,
    /// Waits at a place.
    Wait,
    /// Stores a number.
    AtomicStore,
    /// Stores a number where an expected one stands.
    CompareExchange,
}

/// An operator of the table, by its group.
#[derive(Clone, Copy)]
pub enum Operation {
    /// Blocks, branches and calls.
    Control(ControlOperator),
    /// Operands, locals and constants.
    Stack(StackOperator),
    /// Globals, memory and segments.
    Storage(StoreOperator),
}
