//! Where the things of an object stand in the output: indices, and addresses of data; and where
//! the stack and the heap stand beside these.
#![tactic(auto)]

mod data_address;
mod index;
mod index_map;
mod memory;

pub use data_address::WasmDataAddress;
pub use index::{LINKER_TABLE_BASE, MAX_ENTRIES, WASM_DEAD_INDEX};
pub use index_map::WasmObjectIndexMap;
pub use memory::{LINKER_MEMORY_BASE, STACK_ALIGNMENT, behind_data, heap_start, stack_top};
