//! The parts of a module, as they are loaded.

ghost use Rattle.std.specs.Prelude.{◌≡◌, ◌≤◌, ◌<◌, ◌+◌, ◌*◌, length, IsTrue, IfSome, ◌↔◌, ℕ, Option};
ghost use Rattle.std.specs.List.{AllByRecursion};
ghost use Rattle.wl_module.specs.declared.limits.TheConstants.{WASM_PAGE_SIZE};
ghost use Rattle.wl_load.specs.Pages.{AreWholePages};
ghost use Rattle.wl_load.specs.declared.parts.ImageFunction.{ImageFunction as FunctionOfImage};
ghost use Rattle.wl_load.specs.Loading.{AreFit};

use crate::memory::MAX_IMAGE_PAGES;
use wl_lists::ItemList;
use wl_module::{FuncType, WASM_PAGE_SIZE};
use wl_numeric::Value;

/// A function that isn't the host's.
#[derive(Drop)]
pub struct ImageFunction {
    /// The number of its type.
    pub type_index: u32,
    /// Its body, with the fields of relocations filled in.
    pub body: ItemList<u8>,
}

/// The parts of a module.
#[derive(Drop)]
pub struct ImageParts {
    /// The types of functions.
    pub types: ItemList<FuncType>,
    /// Memory as it is at the start.
    pub memory: ItemList<u8>,
    /// How many pages memory may have at most.
    pub maximum_pages: Option<u64>,
    /// Whether memory is shared.
    pub shared: bool,
    /// The globals as they are at the start.
    pub globals: ItemList<Value>,
    /// The table: the function in each slot, by its number, the host's functions first.
    pub table: ItemList<Option<u32>>,
    /// The numbers of the types of the host's functions.
    pub hosts: ItemList<u32>,
    /// The other functions.
    pub functions: ItemList<ImageFunction>,
    /// The bytes of the segments. One that lies in memory already counts as dropped, and has none.
    pub segments: ItemList<ItemList<u8>>,
}

/// Whether memory has whole pages, and not more than an image may have.
fn are_whole_pages(memory: &[u8]) -> bool
    ensures { IsTrue result ↔ AreWholePages memory.now }
{
    let len = memory.len() as u64;
    len % u64::from(WASM_PAGE_SIZE) == 0 && len <= MAX_IMAGE_PAGES * u64::from(WASM_PAGE_SIZE)
}

/// Whether there is a type for each of the host's functions.
fn have_types(hosts: &[u32], types: usize) -> bool
    ensures { IsTrue result ↔ AllByRecursion (λ (t : ℕ). t < types) hosts.now }
{
    for ty in hosts {
        if *ty as usize >= types {
            return false;
        }
    }
    true
}

/// Whether there is a type for each of the other functions.
fn are_typed(functions: &[ImageFunction], types: usize) -> bool
    ensures { IsTrue result
        ↔ AllByRecursion (λ (f : FunctionOfImage). f.type_index < types) functions.now }
{
    for function in functions {
        if function.type_index as usize >= types {
            return false;
        }
    }
    true
}

/// Whether a slot of the table holds a function that is there, or none.
fn is_filled(slot: Option<u32>, functions: usize) -> bool
    ensures { IsTrue result ↔ IfSome slot (λ f. f < functions) }
{
    match slot {
        Some(function) => (function as usize) < functions,
        None => true,
    }
}

/// Whether all slots of the table do.
fn are_filled(table: &[Option<u32>], functions: usize) -> bool
    ensures { IsTrue result
        ↔ AllByRecursion (λ (slot : Option ℕ). IfSome slot (λ f. f < functions)) table.now }
{
    for slot in table {
        if !is_filled(*slot, functions) {
            return false;
        }
    }
    true
}

/// Whether memory has no more pages than it may have.
fn is_within(memory: &[u8], maximum_pages: Option<u64>) -> bool
    ensures { IsTrue result
        ↔ IfSome maximum_pages (λ n. length memory.now ≤ n * WASM_PAGE_SIZE) }
{
    match maximum_pages {
        Some(maximum) => (memory.len() as u64).div_ceil(u64::from(WASM_PAGE_SIZE)) <= maximum,
        None => true,
    }
}

impl ImageParts {
    /// Whether the parts fit together, as [`Image::new`](crate::Image::new) asks: memory has whole
    /// pages, no more than an image may have and than its maximum, and the types and functions that
    /// are named by numbers are there.
    pub fn are_fit(&self) -> bool
        ensures { IsTrue result ↔ AreFit self.now }
    {
        let memory = self.memory.as_slice();
        let types = self.types.as_slice().len();
        let (hosts, functions) = (self.hosts.as_slice(), self.functions.as_slice());
        are_whole_pages(memory)
            && is_within(memory, self.maximum_pages)
            && have_types(hosts, types)
            && are_typed(functions, types)
            && are_filled(self.table.as_slice(), hosts.len() + functions.len())
    }
}
