//! What the output imports, and where its globals are from.

use wl_module::{GlobalType, MemoryType};

/// What an entity that the output imports is.
#[derive(Clone, Copy, PartialEq, Eq)]
pub enum OutputImportEntity {
    /// A function, with its type among the output types.
    Function { type_index: u32 },
    /// A global.
    Global(GlobalType),
    /// The memory.
    Memory(MemoryType),
}

/// What a global that the linker makes stands for.
#[derive(Clone, Copy, PartialEq, Eq)]
pub enum MadeGlobal {
    /// Where data may begin.
    MemoryBase,
    /// The first slot of the table.
    TableBase,
    /// The top of the stack.
    StackPointer,
    /// Where the data of this thread begins.
    TlsBase,
    /// How many bytes the data of a thread takes.
    TlsSize,
    /// The greatest alignment of the data of a thread.
    TlsAlign,
    /// An address that the linker knows.
    Address,
    /// The address of a data symbol.
    GotMem,
    /// The slot of a function.
    GotFunc,
    /// The address of an exported data symbol.
    Data,
}

/// Where a global of the output is from.
#[derive(Clone, Copy, PartialEq, Eq)]
pub enum GlobalOrigin {
    /// A global that an object defines: the object's number, and the global's in it, where
    /// definitions alone are counted.
    Object { object: usize, unit: u32 },
    /// A global that the linker makes.
    Made(MadeGlobal),
}
