//! Types of blocks, as operators name them.

use wl_module::ValType;

/// The type of a block (core specification, "Block Types").
#[derive(Clone, Copy)]
pub enum BlockType {
    /// No parameters and no results.
    Nothing,
    /// No parameters, and one result.
    Single(ValType),
    /// The type of this number.
    Listed(u32),
}
