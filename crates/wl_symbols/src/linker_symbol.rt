//! The names that the linker makes.

ghost use Rattle.std.specs.Prelude.{◌≡◌, IfOk, IfErr, OnErr};
ghost use Rattle.wl_symbols.specs.LinkerNames.{row_of, name_of, sort_of, kind_of, IsOfSort, all_made, symbol_named, exists_under, made_of, materializes_on_export, is_exported_as_data, is_imported_as, matches_kind};
ghost use Rattle.wl_symbols.specs.LinkerAddresses.{data_places, address_of, IsTooHigh};
ghost use Rattle.wl_linking.specs.declared.error.Quantity.TheVariants.{Address};

use crate::made_sort::{MadeSort, NamedFunction, NamedGlobal};
use std::marker::Model;
use wl_index::heap_start;
use wl_linking::{LinkError, Quantity, WasmSymbolKind};
use wl_module::WASM_PAGE_SIZE;
use wl_words::WasmArgs;

/// The options under which a name exists.
#[derive(Clone, Copy, PartialEq, Eq)]
pub(crate) enum MadeUnder {
    /// Under all.
    AnyOptions,
    /// Where threads share memory.
    SharedMemory,
}

/// A row of the table of names: what it stands for, and the options under which it exists.
#[derive(Drop)]
pub(crate) struct LinkerRow {
    name: &'static str,
    sort: MadeSort,
    under: MadeUnder,
}

impl Model for LinkerRow {
    ghost use Rattle.wl_symbols.specs.LinkerRows.{LinkerRow as Row};

    ghost Value = { Row };

    ghost view = { λ r. record { name = r.name.now; sort = r.sort; under = r.under } };
}

/// A row of the table.
fn row(name: &'static str, sort: MadeSort, under: MadeUnder) -> LinkerRow
    ensures { result ≡ record { name = name.now; sort = sort; under = under } }
{
    LinkerRow { name, sort, under }
}

/// A name that the linker makes, where no object defines it.
#[derive(Clone, Copy, PartialEq, Eq, Hash)]
pub enum WasmLinkerSymbol {
    /// The end of the data.
    DataEnd,
    /// The start of the data.
    GlobalBase,
    /// The start of the heap.
    HeapBase,
    /// The end of the memory that there is at the start.
    HeapEnd,
    /// The end of the first page.
    WasmFirstPageEnd,
    /// What sets this module apart from others that are loaded: the start of its data.
    DsoHandle,
    /// Where the module's memory begins.
    MemoryBase,
    /// Where the module's functions begin in the table.
    TableBase,
    /// The stack pointer.
    StackPointer,
    /// Where the data of a thread begins.
    TlsBase,
    /// How many bytes the data of a thread has.
    TlsSize,
    /// The alignment of the data of a thread.
    TlsAlign,
    /// The function that calls the constructors.
    CallCtors,
    /// The function that fills the data of a thread.
    InitTls,
}

/// Whether a symbol of the second kind stands for an import of the first: functions and globals
/// are imported.
pub(crate) fn is_imported_as(kind: WasmSymbolKind, other: WasmSymbolKind) -> bool
    ensures { result ≡ is_imported_as kind other }
{
    kind.is_function() && other.is_function() || kind.is_global() && other.is_global()
}

impl WasmLinkerSymbol {
    /// Its row in the table of names.
    fn row(self) -> LinkerRow
        ensures { result ≡ row_of self }
    {
        use MadeSort::{Data, Function, Global};
        use MadeUnder::{AnyOptions, SharedMemory};
        match self {
            Self::DataEnd => row("__data_end", Data, AnyOptions),
            Self::GlobalBase => row("__global_base", Data, AnyOptions),
            Self::HeapBase => row("__heap_base", Data, AnyOptions),
            Self::HeapEnd => row("__heap_end", Data, AnyOptions),
            Self::WasmFirstPageEnd => row("__wasm_first_page_end", Data, AnyOptions),
            Self::DsoHandle => row("__dso_handle", Data, AnyOptions),
            Self::MemoryBase => row("__memory_base", Global(NamedGlobal::MemoryBase), AnyOptions),
            Self::TableBase => row("__table_base", Global(NamedGlobal::TableBase), AnyOptions),
            Self::StackPointer => row(
                "__stack_pointer",
                Global(NamedGlobal::StackPointer),
                AnyOptions,
            ),
            Self::TlsBase => row("__tls_base", Global(NamedGlobal::TlsBase), AnyOptions),
            Self::TlsSize => row("__tls_size", Global(NamedGlobal::TlsSize), SharedMemory),
            Self::TlsAlign => row("__tls_align", Global(NamedGlobal::TlsAlign), SharedMemory),
            Self::CallCtors => row(
                "__wasm_call_ctors",
                Function(NamedFunction::CallCtors),
                AnyOptions,
            ),
            Self::InitTls => row(
                "__wasm_init_tls",
                Function(NamedFunction::InitTls),
                SharedMemory,
            ),
        }
    }

    /// All of them.
    fn all() -> &'static [Self]
        ensures { result.now ≡ all_made }
    {
        &[
            Self::DataEnd,
            Self::GlobalBase,
            Self::HeapBase,
            Self::HeapEnd,
            Self::WasmFirstPageEnd,
            Self::DsoHandle,
            Self::MemoryBase,
            Self::TableBase,
            Self::StackPointer,
            Self::TlsBase,
            Self::TlsSize,
            Self::TlsAlign,
            Self::CallCtors,
            Self::InitTls,
        ]
    }

    /// Its name, as text.
    pub fn text(self) -> &'static str
        ensures { result.now ≡ name_of self }
    {
        self.row().name
    }

    /// Its name.
    pub fn name(self) -> &'static [u8]
        ensures { result.now ≡ name_of self }
    {
        self.text().as_bytes()
    }

    /// What it stands for.
    #[tactic(auto, using(crate::proofs::MadeLaws::by_sort))]
    pub fn sort(self) -> MadeSort
        ensures is { result ≡ sort_of self }
        ensures named { IsOfSort self result }
    {
        self.row().sort
    }

    /// Of which kind symbols of its name are.
    pub fn kind(self) -> WasmSymbolKind
        ensures { result ≡ kind_of self }
    {
        self.sort().kind()
    }

    /// The one of that name, whether it exists or not.
    pub fn parse(name: &str) -> Option<Self>
        ensures { result ≡ symbol_named name.now }
    {
        // Each of the names begins so, and few others do: the rest is compared with none.
        let [b'_', b'_', ..] = name.as_bytes() else {
            return None;
        };
        let mut all = Self::all().iter().copied();
        all.find(|made| made.text() == name)
    }

    /// Whether the linker makes it under these options, where something asks for it.
    pub fn exists(self, args: &WasmArgs) -> bool
        ensures { result ≡ exists_under args.now self }
    {
        match self.row().under {
            MadeUnder::AnyOptions => true,
            MadeUnder::SharedMemory => args.shared_memory,
        }
    }

    /// The one of that name, where it exists under these options.
    pub(crate) fn parse_existing(name: &str, args: &WasmArgs) -> Option<Self>
        ensures { result ≡ made_of args.now name.now }
    {
        Self::parse(name).filter(|made| made.exists(args))
    }

    /// Whether it is made where nothing but an export asks for it.
    pub fn materialize_on_export(self) -> bool
        ensures { result ≡ materializes_on_export self }
    {
        !matches!(
            self,
            Self::TlsBase | Self::TlsSize | Self::TlsAlign | Self::InitTls
        )
    }

    /// Whether an export of the name is a global with an address; that of the heap's end needs a
    /// memory.
    pub fn exported_as_data_global(self, has_memory: bool) -> bool
        ensures { result ≡ is_exported_as_data has_memory self }
    {
        self.kind().is_data() && (has_memory || self != Self::HeapEnd)
    }

    /// Whether an import of that kind can be bound to it.
    pub fn matches_import_kind(self, kind: WasmSymbolKind) -> bool
        ensures { result ≡ matches_kind kind self }
    {
        is_imported_as(kind, self.kind())
    }

    /// The address of a data name, by where the data begins and ends, the bytes of the stack, the
    /// heap's end if it is known, and whether the stack comes before the data. Other names
    /// have none, and so has the heap's end where it isn't known.
    ///
    /// # Errors
    /// `TooLarge` where the address is above 4294967295.
    pub fn data_address(
        self,
        data_start: u32,
        data_end: u32,
        stack_size: u32,
        heap_end: Option<u32>,
        stack_first: bool,
    ) -> Result<Option<u32>, LinkError>
        ensures ok { let at = data_places data_start data_end stack_size heap_end stack_first in
            IfOk result (λ address. address ≡ address_of self at) }
        ensures err { IfErr result (λ e. e ≡ LinkError.TooLarge Address) }
        ensures high { let at = data_places data_start data_end stack_size heap_end stack_first
            in OnErr result (IsTooHigh (address_of self at)) }
    {
        match self {
            Self::DataEnd => Ok(Some(data_end)),
            Self::GlobalBase | Self::DsoHandle => Ok(Some(data_start)),
            Self::HeapBase => match heap_start(data_end, stack_size, stack_first) {
                Some(base) => Ok(Some(base)),
                None => Err(LinkError::TooLarge {
                    what: Quantity::Address,
                }),
            },
            Self::HeapEnd => Ok(heap_end),
            Self::WasmFirstPageEnd => Ok(Some(WASM_PAGE_SIZE)),
            Self::MemoryBase
            | Self::TableBase
            | Self::StackPointer
            | Self::TlsBase
            | Self::TlsSize
            | Self::TlsAlign
            | Self::CallCtors
            | Self::InitTls => Ok(None),
        }
    }
}
