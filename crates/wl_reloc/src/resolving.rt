//! What the field of a relocation takes.

ghost use Rattle.std.specs.Prelude.{◌≡◌, Some, None, IfOk, IfErr};
ghost use Rattle.wl_reloc.specs.Resolving.{kept_index, redirect, got_global, slot_in, function_index, slot_of, behind_first, global_index, table_number, address_in, address_of, symbol_named, Resolver as ResolverRecord, resolved};
ghost use Rattle.wl_reloc.specs.declared.error.RelocError.TheVariants.{OutOfRange};

use crate::addresses::{AddressBases, address_value};
use crate::error::RelocError;
use std::marker::Model;
use wl_custom::{AddressBase, Taking};
use wl_index::{LINKER_TABLE_BASE, WASM_DEAD_INDEX, WasmDataAddress, WasmObjectIndexMap};
use wl_linking::{WasmRelocation, WasmSymbol, WasmSymbolKind};

/// What is known beside a relocation. Clauses see it as a record of the same name.
#[derive(Drop)]
struct Resolver<'r, 'a> {
    map: &'r WasmObjectIndexMap,
    symbols: &'r [WasmSymbol<'a>],
    slots: &'r [u32],
    bases: AddressBases,
}

impl<'r, 'a> Model for Resolver<'r, 'a> {
    ghost use Rattle.wl_reloc.specs.Resolving.{Resolver as Known};

    ghost Value = { Known };

    ghost view = { λ r. record {
      map = r.map.now;
      symbols = r.symbols.now;
      slots = r.slots.now;
      bases = r.bases;
    } };
}

/// An index of a list, where the output has it.
fn kept_index(index: Option<u32>) -> Result<u32, RelocError>
    ensures { result ≡ kept_index index }
{
    match index {
        None => Err(RelocError::OutOfRange),
        Some(WASM_DEAD_INDEX) => Err(RelocError::Removed),
        Some(index) => Ok(index),
    }
}

/// The function that a symbol leads to, where the output has it.
fn redirect(index: Option<Option<u32>>) -> Result<u32, RelocError>
    ensures { result ≡ redirect index }
{
    match index {
        None => Err(RelocError::OutOfRange),
        Some(None) => Err(RelocError::Removed),
        Some(Some(index)) => Ok(index),
    }
}

/// The global that holds an address or a slot, where there is one.
fn got_global(index: Option<Option<u32>>) -> Result<u32, RelocError>
    ensures { result ≡ got_global index }
{
    match index {
        None => Err(RelocError::OutOfRange),
        Some(None) => Err(RelocError::NoGot),
        Some(Some(index)) => Ok(index),
    }
}

/// The slot of a function, where it has one.
fn slot_in(slot: Option<u32>) -> Result<u32, RelocError>
    ensures { result ≡ slot_in slot }
{
    match slot {
        None | Some(WASM_DEAD_INDEX) => Err(RelocError::NoSlot),
        Some(slot) => Ok(slot),
    }
}

impl<'r, 'a> Resolver<'r, 'a> {
    /// The index of the function that a symbol leads to.
    fn function_index(&self, symbol: &WasmSymbol<'_>, number: u32) -> Result<u32, RelocError>
        ensures { result ≡ function_index self.now symbol.now.kind number }
    {
        if !symbol.kind.is_function() {
            return Err(RelocError::WrongKind);
        }
        let redirects = self.map.function_symbol_redirects.as_slice();
        redirect(redirects.get(number as usize).copied())
    }

    /// The slot of that function in the table.
    fn slot(&self, symbol: &WasmSymbol<'_>, number: u32) -> Result<u32, RelocError>
        ensures { result ≡ slot_of self.now (function_index self.now symbol.now.kind number) }
    {
        let index = self.function_index(symbol, number)?;
        slot_in(self.slots.get(index as usize).copied())
    }

    /// That slot after the first one, which holds no function; 0 for what has none.
    fn slot_behind_base(&self, symbol: &WasmSymbol<'_>, number: u32) -> Result<u32, RelocError>
        ensures { result
            ≡ behind_first (slot_of self.now (function_index self.now symbol.now.kind number)) }
    {
        let slot = self.slot(symbol, number)?;
        Ok(slot.saturating_sub(LINKER_TABLE_BASE))
    }

    /// The index of a global symbol's global, or of that which holds the address or the slot of
    /// another symbol.
    fn global_index(&self, symbol: &WasmSymbol<'_>, number: u32) -> Result<u32, RelocError>
        ensures { result ≡ global_index self.now symbol.now.kind number symbol.now.index }
    {
        match symbol.kind {
            WasmSymbolKind::Global => {
                let indices = self.map.global_indices.as_slice();
                kept_index(indices.get(symbol.index as usize).copied())
            }
            WasmSymbolKind::Data => {
                let globals = self.map.got_mem_globals.as_slice();
                got_global(globals.get(number as usize).copied())
            }
            WasmSymbolKind::Func => {
                let globals = self.map.got_func_globals.as_slice();
                got_global(globals.get(number as usize).copied())
            }
            WasmSymbolKind::Section | WasmSymbolKind::Event | WasmSymbolKind::Table => {
                Err(RelocError::WrongKind)
            }
        }
    }

    /// The address of data, where it has one.
    fn address_in(
        &self,
        base: AddressBase,
        addend: i64,
        address: Option<WasmDataAddress>,
    ) -> Result<u32, RelocError>
        ensures { result ≡ address_in self.now base addend address }
    {
        match address {
            None => Err(RelocError::OutOfRange),
            Some(address) => address_value(base, self.bases, address, addend),
        }
    }

    /// The address of a data symbol.
    fn address(
        &self,
        base: AddressBase,
        symbol: &WasmSymbol<'_>,
        reloc: &WasmRelocation,
    ) -> Result<u32, RelocError>
        ensures { result
            ≡ address_of self.now base reloc.now.addend symbol.now.kind reloc.now.index }
    {
        if !symbol.kind.is_data() {
            return Err(RelocError::WrongKind);
        }
        self.address_in(base, reloc.addend, self.map.data_address(reloc.index))
    }

    /// The symbol that a relocation names.
    fn symbol(&self, reloc: &WasmRelocation) -> Result<&'r WasmSymbol<'a>, RelocError>
        ensures ok { IfOk result (λ s. symbol_named self.now reloc.now ≡ Some s.now) }
        ensures err { IfErr result (λ e. (e ≡ OutOfRange)
            × (symbol_named self.now reloc.now ≡ None)) }
    {
        match self.symbols.get(reloc.index as usize) {
            None => Err(RelocError::OutOfRange),
            Some(symbol) => Ok(symbol),
        }
    }

    /// What the field of a relocation takes.
    fn resolve(&self, reloc: &WasmRelocation) -> Result<u32, RelocError>
        ensures { result ≡ resolved self.now reloc.now }
    {
        let number = reloc.index;
        match reloc.ty.takes() {
            Taking::TypeIndex => {
                let indices = self.map.type_indices.as_slice();
                kept_index(indices.get(number as usize).copied())
            }
            Taking::FunctionIndex => self.function_index(self.symbol(reloc)?, number),
            Taking::Slot => self.slot(self.symbol(reloc)?, number),
            Taking::SlotBehindBase => self.slot_behind_base(self.symbol(reloc)?, number),
            Taking::GlobalIndex => self.global_index(self.symbol(reloc)?, number),
            Taking::TableNumber => table_number(self.symbol(reloc)?.kind),
            Taking::Address(base) => self.address(base, self.symbol(reloc)?, reloc),
        }
    }
}

/// The number of the table, of which there is one.
fn table_number(kind: WasmSymbolKind) -> Result<u32, RelocError>
    ensures { result ≡ table_number kind }
{
    if kind.is_table() {
        Ok(0)
    } else {
        Err(RelocError::WrongKind)
    }
}

/// What the field of a relocation takes, by where the things of its object stand, by its object's
/// symbols, by the slots of the functions of the output, 4294967295 being none, and by the value of
/// `__memory_base` and where the data of the thread begins. The addend of an address that counts
/// from the start of the memory is left to be added.
///
/// # Errors
/// Each as [`RelocError`] says, exactly where it has its cause (the law [`crate::value_or_fault`]).
pub fn resolve_reloc(
    map: &WasmObjectIndexMap,
    reloc: &WasmRelocation,
    symbols: &[WasmSymbol<'_>],
    function_table_slots: &[u32],
    memory_base: u32,
    tls_base: u32,
) -> Result<u32, RelocError>
    ensures { let by : ResolverRecord = record {
      map = map.now;
      symbols = symbols.now;
      slots = function_table_slots.now;
      bases = record { memory_base = memory_base; tls_base = tls_base };
    } in result ≡ resolved by reloc.now }
{
    let resolver = Resolver {
        map,
        symbols,
        slots: function_table_slots,
        bases: AddressBases {
            memory_base,
            tls_base,
        },
    };
    resolver.resolve(reloc)
}
