//! What is bound: objects, the table of their names, what is kept of them, and the options.

ghost use Rattle.std.specs.Prelude.{◌≡◌};
ghost use Rattle.wl_symbols.specs.Live.{IsLiveOf};
ghost use Rattle.wl_symbols.specs.Input.{keeps_slot};

use crate::live_set::LiveSet;
use crate::table::SymbolTable;
use crate::units::WasmGcUnit;
use std::marker::Model;
use wl_linking::{FileList, WasmSymbolKind};
use wl_words::WasmArgs;

/// What is bound: the objects and options of a table of names, and what is kept of them. Clauses
/// see it as an `Input`: the link, and what is kept of it.
#[derive(Drop)]
pub struct LinkInput<'i, 'a> {
    symbols: &'i SymbolTable<'i, 'a>,
    live: &'i LiveSet,
}

impl<'i, 'a> Model for LinkInput<'i, 'a> {
    ghost use Rattle.wl_symbols.specs.Input.{Input};
    ghost use Rattle.wl_symbols.specs.Live.{IsLiveOf as IsKept};

    ghost Value = { Input };

    ghost view = { λ i. record { link = i.symbols.now; live = i.live.now } };

    ghost invariant = { λ i. IsKept i.symbols.now i.live.now };
}

impl<'i, 'a> LinkInput<'i, 'a> {
    /// The live set has to be that of the table.
    pub fn new(symbols: &'i SymbolTable<'i, 'a>, live: &'i LiveSet) -> Self
        requires kept { IsLiveOf symbols.now live.now }
        ensures { result ≡ record { link = symbols.now; live = live.now } }
    {
        LinkInput { symbols, live }
    }

    /// The objects.
    pub fn files(&self) -> &'i FileList<'a>
        ensures objects { result.now ≡ self.now.link.objects }
        ensures kept { IsLiveOf self.now.link self.now.live }
    {
        let _ = self.live;
        self.symbols.files()
    }

    /// The table of their names.
    pub fn symbols(&self) -> &'i SymbolTable<'i, 'a>
        ensures { result.now ≡ self.now.link }
    {
        self.symbols
    }

    /// What is kept of them.
    pub fn live(&self) -> &'i LiveSet
        ensures live { result.now ≡ self.now.live }
        ensures kept { IsLiveOf self.now.link self.now.live }
    {
        self.live
    }

    /// The options.
    pub fn args(&self) -> &'i WasmArgs
        ensures { result.now ≡ self.now.link.args }
    {
        self.symbols.args()
    }

    /// Whether an import slot of that kind and number is kept.
    pub fn keeps_slot(&self, kind: WasmSymbolKind, object: usize, number: u32) -> bool
        ensures { result ≡ keeps_slot self.now kind object number }
    {
        match kind {
            WasmSymbolKind::Func => {
                self.live
                    .is_live(object, WasmGcUnit::FunctionImport(number))
            }
            WasmSymbolKind::Global => {
                self.live.is_live(object, WasmGcUnit::GlobalImport(number))
            }
            WasmSymbolKind::Data
            | WasmSymbolKind::Section
            | WasmSymbolKind::Event
            | WasmSymbolKind::Table => false,
        }
    }
}
