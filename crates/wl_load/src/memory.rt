//! The bytes of memory.

ghost use Rattle.std.specs.Prelude.{◌≡◌, ◌≤◌, ◌+◌, ◌*◌, ◌/◌, ◌%◌, ◌++◌, length, replicate, OnOk, OnErr, IfErr, Ok, Err, Some, IsTrue, [], ◌∷◌, take, drop};
ghost use Rattle.wl_module.specs.declared.limits.TheConstants.{WASM_PAGE_SIZE};
ghost use Rattle.wl_ops.specs.Standing.{window};
ghost use Rattle.wl_load.specs.declared.memory.TheConstants.{MAX_IMAGE_PAGES};
ghost use Rattle.wl_load.specs.Pages.{AreWholePages};
ghost use Rattle.wl_numeric.specs.Memory.{overlay, little_endian, little_endian_of, stored_to};
ghost use Rattle.wl_numeric.specs.Table.{IsWritable};

use std::alloc::{AllocError, Global};
use std::marker::Model;
use wl_lists::ItemList;
use wl_module::WASM_PAGE_SIZE;
use wl_numeric::{Store, TrapKind, Value, store_to};

/// How many bytes a page has.
const PAGE_BYTES: usize = WASM_PAGE_SIZE as usize;

/// How many pages the memory of an image has at most, whatever its maximum.
pub const MAX_IMAGE_PAGES: u64 = 1024;

/// The bytes of memory: whole pages, and not more than there may be. Clauses see it as the bytes.
#[derive(Drop)]
pub struct Memory {
    bytes: Vec<u8>,
}

impl Model for Memory {
    ghost use Rattle.std.specs.Prelude.{List, ℕ};
    ghost use Rattle.wl_load.specs.Pages.{AreWholePages};

    ghost Value = { List ℕ };

    ghost view = { λ m. m.bytes.items };

    ghost invariant = { λ m. AreWholePages m.bytes.items };
}

impl Memory {
    /// Memory with these bytes.
    pub(crate) fn new(bytes: ItemList<u8>) -> Self
        requires { AreWholePages bytes }
        ensures { result ≡ bytes }
    {
        Memory {
            bytes: bytes.into_vec(),
        }
    }

    /// The bytes.
    pub(crate) fn as_slice(&self) -> &[u8]
        ensures value { result.now ≡ self.now }
        ensures few { length self.now ≤ MAX_IMAGE_PAGES * WASM_PAGE_SIZE }
    {
        self.bytes.as_slice()
    }

    /// How many pages there are.
    pub(crate) fn page_count(&self) -> u32
        ensures { result ≡ length self.now / WASM_PAGE_SIZE }
    {
        (self.bytes.len() / PAGE_BYTES) as u32
    }

    /// Adds pages of zeros.
    pub(crate) fn grow(&mut self, pages: u32) -> Result<(), AllocError>
        requires { length self.old / WASM_PAGE_SIZE + pages ≤ MAX_IMAGE_PAGES }
        ensures ok { OnOk result (self.new ≡ self.old ++ replicate (pages * WASM_PAGE_SIZE) 0) }
        ensures err { OnErr result (self.new ≡ self.old) }
    {
        let len = self.bytes.len() + pages as usize * PAGE_BYTES;
        self.bytes.resize(len, 0)
    }

    /// Puts bytes at a place.
    pub(crate) fn put(&mut self, place: usize, bytes: &[u8])
        requires { place + length bytes.now ≤ length self.old }
        ensures { self.new ≡ overlay place bytes.now self.old }
    {
        self.bytes[place..place + bytes.len()].copy_from_slice(bytes);
    }

    /// Copies bytes to another place.
    pub(crate) fn copy(&mut self, to: usize, from: usize, count: usize)
        requires from { from + count ≤ length self.old }
        requires to { to + count ≤ length self.old }
        ensures { self.new ≡ overlay to (window from count self.old) self.old }
    {
        self.bytes.copy_within(from..from + count, to);
    }

    /// Fills a place with a byte.
    pub(crate) fn fill(&mut self, place: usize, byte: u8, count: usize)
        requires { place + count ≤ length self.old }
        ensures { self.new ≡ overlay place (replicate count byte) self.old }
    {
        self.bytes[place..place + count].fill(byte);
    }

    /// Writes a value where a store asks for it.
    pub(crate) fn store(
        &mut self,
        store: Store,
        address: u32,
        offset: usize,
        value: Value,
    ) -> Result<(), TrapKind>
        requires { IsWritable store }
        ensures ok { OnOk result (stored_to store self.old (address + offset) value ≡ Ok self.new) }
        ensures err { IfErr result
            (λ trap. stored_to store self.old (address + offset) value ≡ Err trap) }
        ensures kept { OnErr result (self.new ≡ self.old) }
    {
        store_to(store, self.bytes.as_mut_slice(), address, offset, value)
    }
}
