//! Where the things of an object stand in the output.

ghost use Rattle.std.specs.Prelude.{◌≡◌, slice_get};

use crate::data_address::WasmDataAddress;
use wl_lists::ItemList;

/// Where the things of an object stand in the output. Four lists go by the numbers that the object
/// gives its types, functions, globals and segments; 4294967295 stands where the output doesn't
/// have it. Four go by its symbols.
#[derive(Drop)]
pub struct WasmObjectIndexMap {
    /// The output type of each type.
    pub type_indices: ItemList<u32>,
    /// The index of each function in the function space, imported ones first.
    pub function_indices: ItemList<u32>,
    /// The index of each global in the global space, imported ones first.
    pub global_indices: ItemList<u32>,
    /// The number of each segment among those of the output.
    pub segment_indices: ItemList<u32>,
    /// Where each data symbol lies.
    pub data_addresses: ItemList<WasmDataAddress>,
    /// The index of the function that each function symbol leads to.
    pub function_symbol_redirects: ItemList<Option<u32>>,
    /// The index of the global with the address of each data symbol, where a kept relocation names
    /// the symbol by the number of a global.
    pub got_mem_globals: ItemList<Option<u32>>,
    /// The index of the global with the slot of the function that each function symbol leads to,
    /// likewise.
    pub got_func_globals: ItemList<Option<u32>>,
}

impl WasmObjectIndexMap {
    /// Where the symbol of that number lies, if it has an entry.
    pub fn data_address(&self, symbol: u32) -> Option<WasmDataAddress>
        ensures { result ≡ slice_get self.now.data_addresses symbol }
    {
        self.data_addresses.as_slice().get(symbol as usize).copied()
    }
}
