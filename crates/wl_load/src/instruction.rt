//! Operators, as they are run.

use crate::block_type::BlockType;
use crate::blocks::Jump;
use crate::labels::Labels;
use crate::stack::Label;
use wl_numeric::{Computation, Load, Store, Value};

/// Globals, memory and segments.
#[derive(Clone, Copy)]
pub enum StorageInstruction {
    /// Reads a global.
    GlobalGet(u32),
    /// Sets a global.
    GlobalSet(u32),
    /// Gives the size of memory.
    MemorySize,
    /// Adds pages to memory.
    MemoryGrow,
    /// Copies from a segment to memory.
    MemoryInit(u32),
    /// Drops a segment.
    DataDrop(u32),
    /// Copies from memory to memory.
    MemoryCopy,
    /// Fills memory with a byte.
    MemoryFill,
    /// Wakes those who wait at a place, with this offset.
    Notify(u32),
    /// Waits at a place, with this offset.
    Wait(u32),
    /// Stores a number, with this offset.
    AtomicStore(u32),
    /// Stores a number where an expected one stands, with this offset.
    CompareExchange(u32),
}

/// An operator whose immediates have been read.
#[derive(Drop)]
pub enum Instruction {
    /// Computes a value of operands.
    Compute(Computation),
    /// Loads a value, with this offset.
    LoadValue(Load, usize),
    /// Stores a value, with this offset.
    StoreValue(Store, usize),
    /// Traps.
    Unreachable,
    /// Does nothing.
    Nop,
    /// Opens a block or a loop.
    Open(Label),
    /// Opens a block of two parts, of which a number chooses one.
    OpenIf(BlockType, Jump),
    /// Ends the first part.
    EndThen,
    /// Ends a block or a function.
    EndBlock,
    /// Goes to a block that is named.
    Branch(u32),
    /// Goes there, but not on 0.
    BranchIf(u32),
    /// Goes to one of several blocks, by a number.
    BranchTable(Labels),
    /// Leaves the function.
    Return,
    /// Calls a function.
    Call(u32),
    /// Calls a function of the table, which has to be of this type.
    CallIndirect(u32),
    /// Drops an operand.
    DropOperand,
    /// Takes one of two operands, by a number.
    Select,
    /// Reads a local.
    LocalGet(u32),
    /// Sets a local.
    LocalSet(u32),
    /// Sets a local to an operand, which stays.
    LocalTee(u32),
    /// A constant.
    Constant(Value),
    /// Globals, memory and segments.
    Storage(StorageInstruction),
    /// An operator that no image runs.
    Foreign,
    /// An opening of a block that has no end.
    Invalid,
}
