//! What the globals of the output start with.

ghost use Rattle.std.specs.Prelude.{◌≡◌, IfOk, OnErr, Contains, length, slice_get};
ghost use Rattle.wl_symbols.specs.LinkerNames.{named_global};
ghost use Rattle.wl_bind.specs.ExportedAddresses.{exported_addresses};
ghost use Rattle.wl_bind.specs.ExportedData.{dynamic_data, forced_data};
ghost use Rattle.wl_bind.specs.GlobalSpace.{GlobalOf, AddressOf, DataOf};
ghost use Rattle.wl_bind.specs.Scan.{got_mem, got_func};
ghost use Rattle.wl_bind.specs.declared.binding.GlobalTarget.TheVariants as global;
ghost use Rattle.wl_places.specs.Addresses.{address_of_definition, symbol_address};
ghost use Rattle.wl_plan.specs.steps.Globals.{AreSources, AnswersStart};
ghost use Rattle.wl_plan.specs.Globals.{constant_or_range, got_address, own_place, common_address, own_address, is_own, first_asking};
ghost use Rattle.wl_places.specs.declared.placing.Placing.{Placing as SpecPlacing};

use crate::bindings::Bindings;
use crate::table::slot_of;
use crate::threads::place_in_block;
use wl_bind::{DataSymbol, got_mem_of};
use wl_bytes::Form;
use wl_index::{LINKER_MEMORY_BASE, LINKER_TABLE_BASE, WasmDataAddress, WasmObjectIndexMap};
use wl_linking::LinkError;
use wl_output::MadeGlobal;
use wl_places::{AddressBook, linker_address};
use wl_symbols::{Definition, LinkInput, NamedGlobal, WasmLinkerSymbol, kept_relocations};

// ---- numbers

/// The greatest number that is written as it is.
const MAX_CONSTANT: u32 = 2_147_483_647;

/// The number, unless it is above the greatest that is written as it is.
fn constant_or_range(number: u32) -> Result<u32, LinkError>
    ensures { result ≡ constant_or_range number }
{
    if number > MAX_CONSTANT {
        return Err(LinkError::ConstantRange { value: number });
    }
    Ok(number)
}

// ---- addresses

/// The address of an entry of the GOT list of data, which stands for that definition; what lies in
/// the block of a thread is set when the thread starts.
fn mem_number(
    input: &LinkInput<'_, '_>,
    definition: Definition,
    address: WasmDataAddress,
) -> Result<u32, LinkError>
    ensures { result ≡ got_address (first_asking input.now definition) address }
{
    match address {
        WasmDataAddress::Placed(place) => Ok(place),
        WasmDataAddress::Missing => Ok(0),
        WasmDataAddress::Passive => Err(LinkError::Unsupported {
            object: first_asking(input, definition),
            form: Form::PassiveAddress,
        }),
        WasmDataAddress::TlsOffset(place) => {
            constant_or_range(place)?;
            Ok(0)
        }
    }
}

/// A place in the data of a thread, unless it is before that or above the greatest number.
fn own_place(object: usize, base: u32, place: u32) -> Result<u32, LinkError>
    ensures { result ≡ own_place object base place }
{
    match place.checked_sub(base) {
        Some(offset) if offset <= MAX_CONSTANT => Ok(offset),
        Some(_) | None => Err(LinkError::Unsupported {
            object,
            form: Form::TlsAddress,
        }),
    }
}

/// The address of exported data that all threads have in common.
fn common_address(object: usize, address: WasmDataAddress) -> Result<u32, LinkError>
    ensures { result ≡ common_address object address }
{
    match address {
        WasmDataAddress::Missing => Ok(0),
        WasmDataAddress::Placed(place) => Ok(place),
        WasmDataAddress::Passive => Err(LinkError::Unsupported {
            object,
            form: Form::PassiveAddress,
        }),
        WasmDataAddress::TlsOffset(_) => Err(LinkError::Unsupported {
            object,
            form: Form::TlsAddress,
        }),
    }
}

/// The address of exported data of which each thread has its own, counted from the base of that.
fn own_address(object: usize, tls_base: u32, address: WasmDataAddress) -> Result<u32, LinkError>
    ensures { (g : SpecPlacing) → g.places.tls_base ≡ tls_base
        → result ≡ own_address g object address }
{
    match address {
        WasmDataAddress::Missing => Ok(0),
        WasmDataAddress::Placed(place) => own_place(object, tls_base, place),
        WasmDataAddress::Passive => Err(LinkError::Unsupported {
            object,
            form: Form::PassiveAddress,
        }),
        WasmDataAddress::TlsOffset(place) => own_place(object, 0, place),
    }
}

// ---- what globals start with

/// What the globals of the output are made from.
#[derive(Drop)]
pub(crate) struct GlobalSources<'g, 'b, 'i, 'a> {
    /// Where definitions lie.
    pub(crate) book: &'g AddressBook<'b, 'i, 'a>,
    /// What references are bound to, and where things stand.
    pub(crate) bindings: &'g Bindings<'a>,
    /// Where the things of each object stand.
    pub(crate) maps: &'g [WasmObjectIndexMap],
}

/// What a global that the linker makes is reported as and starts with, and whether it may change.
#[derive(Clone, Copy)]
pub(crate) struct Start {
    pub(crate) made: MadeGlobal,
    pub(crate) number: u32,
    pub(crate) mutable: bool,
}

impl<'g, 'b, 'i, 'a> GlobalSources<'g, 'b, 'i, 'a> {
    /// The definition of an entry of the GOT list of data.
    #[tactic(auto, using(crate::proofs::GlobalLaws::mem_at))]
    pub(crate) fn mem_definition(&self, place: usize) -> Option<Definition>
        requires { AreSources self.now }
        ensures { result ≡ slice_get (got_mem self.now.book.now.input.now) place }
    {
        let scan = &self.bindings.scan;
        scan.got_mem.key(place)
    }

    /// How many entries the GOT list of data has.
    #[tactic(auto, using(crate::proofs::GlobalLaws::mem_count))]
    pub(crate) fn mem_count(&self) -> usize
        requires { AreSources self.now }
        ensures { result ≡ length (got_mem self.now.book.now.input.now) }
    {
        let scan = &self.bindings.scan;
        scan.got_mem.len()
    }

    /// How many entries the GOT list of functions has.
    #[tactic(auto, using(crate::proofs::GlobalLaws::func_count))]
    pub(crate) fn func_count(&self) -> usize
        requires { AreSources self.now }
        ensures { result ≡ length (got_func self.now.book.now.input.now) }
    {
        let scan = &self.bindings.scan;
        scan.got_func.len()
    }

    /// The exported addresses of the linker's.
    pub(crate) fn addresses(&self) -> &[WasmLinkerSymbol]
        requires { AreSources self.now }
        ensures { result.now ≡ exported_addresses self.now.book.now.input.now.link.args }
    {
        self.bindings.indices.exported().addresses.as_slice()
    }

    /// The data of objects that `--export-dynamic` exports.
    pub(crate) fn dynamic(&self) -> &[DataSymbol]
        requires { AreSources self.now }
        ensures { result.now ≡ dynamic_data self.now.book.now.input.now }
    {
        self.bindings.indices.exported().dynamic.as_slice()
    }

    /// The data of objects whose names are to be exported.
    pub(crate) fn forced(&self) -> &[DataSymbol]
        requires { AreSources self.now }
        ensures { result.now ≡ forced_data self.now.book.now.input.now }
    {
        self.bindings.indices.exported().forced.as_slice()
    }

    /// The address of an entry of the GOT list of data: none of these is past the last address.
    pub(crate) fn mem_address(&self, definition: Definition) -> Result<WasmDataAddress, LinkError>
        requires sources { AreSources self.now }
        requires listed { Contains (got_mem self.now.book.now.input.now) definition }
        ensures ok { IfOk result (λ a. a ≡ address_of_definition
            self.now.book.now.input.now self.now.book.now.placing.now definition) }
        ensures err { OnErr result ⊥ }
    {
        self.book.of_definition(definition)
    }

    /// What an entry of the GOT list of data starts with.
    pub(crate) fn got_mem_start(&self, place: usize) -> Result<Start, LinkError>
        requires { AreSources self.now }
        ensures { AnswersStart self.now (GlobalOf (global.GotMem place)) result }
    {
        let Some(definition) = self.mem_definition(place) else {
            return Ok(Start {
                made: MadeGlobal::GotMem,
                number: 0,
                mutable: false,
            });
        };
        let address = self.mem_address(definition)?;
        Ok(Start {
            made: MadeGlobal::GotMem,
            number: mem_number(self.book.input, definition, address)?,
            mutable: place_in_block(address).is_some(),
        })
    }

    /// What an entry of the GOT list of functions starts with: the slot of its function, and 0 where
    /// it has none.
    #[tactic(auto, using(crate::proofs::GlobalLaws::func_at))]
    pub(crate) fn got_func_start(&self, place: usize) -> Result<Start, LinkError>
        requires { AreSources self.now }
        ensures { AnswersStart self.now (GlobalOf (global.GotFunc place)) result }
    {
        let scan = &self.bindings.scan;
        let slot = match scan.got_func.key(place) {
            Some((_, target)) => slot_of(self.book.input, self.bindings, target).unwrap_or(0),
            None => 0,
        };
        Ok(Start {
            made: MadeGlobal::GotFunc,
            number: constant_or_range(slot)?,
            mutable: false,
        })
    }

    /// What a global that the linker makes under a name starts with.
    pub(crate) fn made_start(&self, named: NamedGlobal) -> Result<Start, LinkError>
        requires { AreSources self.now }
        ensures { AnswersStart self.now (GlobalOf (global.Made (named_global named))) result }
    {
        let needs = self.bindings.indices.needs();
        let placing = self.book.placing;
        let (made, mutable, number) = match named {
            NamedGlobal::MemoryBase if needs.needs_memory_base => {
                (MadeGlobal::MemoryBase, false, LINKER_MEMORY_BASE)
            }
            NamedGlobal::MemoryBase => (MadeGlobal::MemoryBase, false, 0),
            NamedGlobal::TableBase => (MadeGlobal::TableBase, false, LINKER_TABLE_BASE),
            NamedGlobal::StackPointer => (MadeGlobal::StackPointer, true, placing.stack_pointer),
            NamedGlobal::TlsBase if needs.needs_tls_size => (MadeGlobal::TlsBase, true, 0),
            NamedGlobal::TlsBase => (MadeGlobal::TlsBase, false, placing.places.tls_base),
            NamedGlobal::TlsSize => {
                let size = constant_or_range(placing.places.tls_size)?;
                (MadeGlobal::TlsSize, false, size)
            }
            NamedGlobal::TlsAlign => {
                let align = constant_or_range(placing.places.tls_align)?;
                (MadeGlobal::TlsAlign, false, align)
            }
        };
        Ok(Start {
            made,
            number,
            mutable,
        })
    }

    /// The address of a data symbol.
    fn symbol_address(&self, datum: DataSymbol) -> WasmDataAddress
        requires { AreSources self.now }
        ensures { result ≡ symbol_address self.now.book.now.input.now
            self.now.book.now.placing.now datum.object datum.symbol }
    {
        match self.maps.get(datum.object) {
            Some(map) => map
                .data_address(datum.symbol)
                .unwrap_or(WasmDataAddress::Missing),
            None => WasmDataAddress::Missing,
        }
    }

    /// What the global of exported data of an object starts with: its address.
    pub(crate) fn data_start(&self, datum: DataSymbol) -> Result<Start, LinkError>
        requires { AreSources self.now }
        ensures { AnswersStart self.now (DataOf datum) result }
    {
        let address = self.symbol_address(datum);
        let number = if is_own(self.book.input, datum) {
            own_address(datum.object, self.book.placing.places.tls_base, address)?
        } else {
            common_address(datum.object, address)?
        };
        Ok(Start {
            made: MadeGlobal::Data,
            number,
            mutable: false,
        })
    }

    /// What the global of exported data of the linker's starts with: its address.
    pub(crate) fn address_start(&self, made: WasmLinkerSymbol) -> Result<Start, LinkError>
        requires sources { AreSources self.now }
        requires exported { Contains
            (exported_addresses self.now.book.now.input.now.link.args) made }
        ensures { AnswersStart self.now (AddressOf made) result }
    {
        let address = linker_address(self.book.input, self.book.placing, made)?;
        Ok(Start {
            made: MadeGlobal::Address,
            number: address.unwrap_or(0),
            mutable: false,
        })
    }
}

/// The symbol says that each thread has its own of the data.
fn is_own(input: &LinkInput<'_, '_>, datum: DataSymbol) -> bool
    ensures { result ≡ is_own input.now datum }
{
    let Some(file) = input.files().get(datum.object) else {
        return false;
    };
    match file.symbols().get(datum.symbol as usize) {
        Some(symbol) => symbol.is_thread_local(),
        None => false,
    }
}

/// The object of the first kept relocation that asks for the entry of that definition.
fn first_asking(input: &LinkInput<'_, '_>, definition: Definition) -> usize
    ensures { result ≡ first_asking input.now definition }
{
    for relocated in kept_relocations(input) {
        if got_mem_of(input, &relocated).is_some_and(|other| definition == other) {
            return relocated.object;
        }
    }
    0
}
