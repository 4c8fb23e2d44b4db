//! Indices of the spaces of the output.

/// The greatest number of entries of a space.
pub const MAX_ENTRIES: usize = 4_294_967_294;

/// The index of what the output doesn't hold.
pub const WASM_DEAD_INDEX: u32 = 4_294_967_295;

/// The value of `__table_base`: the first place of the table stays free, so that no function stands
/// where a null pointer leads.
pub const LINKER_TABLE_BASE: u32 = 1;
