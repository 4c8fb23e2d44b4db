//! What the names that the linker makes stand for.

ghost use Rattle.std.specs.Prelude.{◌≡◌};
ghost use Rattle.wl_symbols.specs.LinkerNames.{named_global};
ghost use Rattle.wl_symbols.specs.LinkerRows.{kind_of_sort};

use crate::linker_symbol::WasmLinkerSymbol;
use wl_linking::WasmSymbolKind;

/// A function that the linker makes under a name.
#[derive(Clone, Copy, PartialEq, Eq)]
pub enum NamedFunction {
    /// The one that calls the constructors.
    CallCtors,
    /// The one that fills the data of a thread.
    InitTls,
}

/// A global that the linker makes under a name.
#[derive(Clone, Copy, PartialEq, Eq)]
pub enum NamedGlobal {
    /// Where the module's memory begins.
    MemoryBase,
    /// Where the module's functions begin in the table.
    TableBase,
    /// The stack pointer.
    StackPointer,
    /// Where the data of a thread begins.
    TlsBase,
    /// How many bytes the data of a thread has.
    TlsSize,
    /// The alignment of the data of a thread.
    TlsAlign,
}

/// What a name that the linker makes stands for.
#[derive(Clone, Copy, PartialEq, Eq)]
pub enum MadeSort {
    /// A function.
    Function(NamedFunction),
    /// A global.
    Global(NamedGlobal),
    /// An address, as that of data.
    Data,
}

impl NamedGlobal {
    /// The name of it.
    pub fn made(self) -> WasmLinkerSymbol
        ensures { result ≡ named_global self }
    {
        match self {
            NamedGlobal::MemoryBase => WasmLinkerSymbol::MemoryBase,
            NamedGlobal::TableBase => WasmLinkerSymbol::TableBase,
            NamedGlobal::StackPointer => WasmLinkerSymbol::StackPointer,
            NamedGlobal::TlsBase => WasmLinkerSymbol::TlsBase,
            NamedGlobal::TlsSize => WasmLinkerSymbol::TlsSize,
            NamedGlobal::TlsAlign => WasmLinkerSymbol::TlsAlign,
        }
    }
}

impl MadeSort {
    /// Of which kind symbols of its name are.
    pub(crate) fn kind(self) -> WasmSymbolKind
        ensures { result ≡ kind_of_sort self }
    {
        match self {
            MadeSort::Function(_) => WasmSymbolKind::Func,
            MadeSort::Global(_) => WasmSymbolKind::Global,
            MadeSort::Data => WasmSymbolKind::Data,
        }
    }
}
