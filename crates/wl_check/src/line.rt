//! The lines of a listing, with their fields.

use wl_lists::ItemList;
use wl_module::{ExternalKind, FuncType, GlobalType, MemoryType};
use wl_output::{Fixup, GlobalOrigin, OutputImportEntity};

/// A function that the linker makes under a name of its own.
#[derive(Clone, Copy, PartialEq, Eq)]
pub enum MadeFunction {
    /// What calls the constructors.
    CallCtors,
    /// What gives a thread its data.
    InitTls,
    /// What copies data for all threads.
    InitMemory,
}

/// Where a function of the output is from, with the names that a line gives.
#[derive(Drop)]
pub enum FunctionSource {
    /// A function that an object defines: the object's number, and the function's in it, where
    /// definitions alone are counted.
    Object { object: usize, unit: u32 },
    /// A function that the linker makes under a name.
    Made(MadeFunction),
    /// What stands in the place of a weak function of that name that nothing defines.
    Stub { name: ItemList<u8> },
    /// What runs the constructors around an export of that name.
    Wrap { name: ItemList<u8> },
}

/// Where a segment of the output goes.
#[derive(Clone, Copy, PartialEq, Eq)]
pub enum SegmentState {
    /// Into the memory at that address, when the module starts.
    Active { address: u32 },
    /// Into the memory at that address, copied by the first thread.
    Shared { address: u32 },
    /// Into the block of each thread, so many bytes past its start.
    Tls { offset: u32 },
    /// Nowhere by itself.
    Passive,
}

/// A line of a listing. Clauses see names and bytes as lists.
#[derive(Drop)]
pub enum Line {
    /// The first line, which gives the form of the listing.
    Version,
    /// A type of the output.
    OutputType {
        index: u32,
        ty: FuncType,
    },
    /// What is imported, from a module and under a name there.
    Import {
        module: ItemList<u8>,
        name: ItemList<u8>,
        entity: OutputImportEntity,
    },
    /// A function that isn't imported, with its type among the output types.
    Function {
        index: u32,
        ty: u32,
        source: FunctionSource,
    },
    /// The body of such a function.
    Body {
        index: u32,
        bytes: ItemList<u8>,
    },
    /// A global that isn't imported, with the bytes of its first value.
    Global {
        index: u32,
        ty: GlobalType,
        init: ItemList<u8>,
        origin: GlobalOrigin,
    },
    /// The memory, where it isn't imported.
    Memory(MemoryType),
    /// The table, with its size.
    Table {
        minimum: u64,
    },
    /// A slot of the table, with the function that it holds.
    Slot {
        slot: u32,
        function: u32,
    },
    /// A segment: its object and its number there, where it goes, and how many bytes it has.
    Segment {
        index: u32,
        object: usize,
        unit: u32,
        state: SegmentState,
        len: u32,
    },
    /// What others may refer to.
    Export {
        name: ItemList<u8>,
        kind: ExternalKind,
        index: u32,
    },
    /// The function that runs at the start.
    Start {
        function: u32,
    },
    /// What a kept relocation becomes.
    Fix(Fixup),
    /// A feature that the module is made for.
    Feature {
        name: ItemList<u8>,
    },
    /// A debug section of an object, with how many bytes it has.
    Debug {
        object: usize,
        name: ItemList<u8>,
        len: u32,
    },
    /// The last line.
    End,
}
