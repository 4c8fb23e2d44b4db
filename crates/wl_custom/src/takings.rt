//! What relocations take of what they name (object file linking, version 2, "Relocation Sections").

/// From where an address is counted.
#[derive(Clone, Copy, PartialEq, Eq)]
pub enum AddressBase {
    /// From the start of the memory.
    Memory,
    /// From the value of `__memory_base`.
    MemoryBase,
    /// From where the data of the thread begins.
    ThreadData,
}

/// What a relocation takes of the symbol or the type that it names.
#[derive(Clone, Copy, PartialEq, Eq)]
pub enum Taking {
    /// The index of the function that a symbol leads to.
    FunctionIndex,
    /// The slot of that function in the table.
    Slot,
    /// That slot, counted from the first one that holds a function.
    SlotBehindBase,
    /// The index of a type: no symbol is named.
    TypeIndex,
    /// The index of a global, or of that which holds an address or a slot.
    GlobalIndex,
    /// The number of the table, of which there is one.
    TableNumber,
    /// The address of data.
    Address(AddressBase),
}
