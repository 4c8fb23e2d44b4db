//! What the symbols of all objects stand for.

ghost use Rattle.std.specs.Prelude.{◌≡◌, ◌+◌, ◌<◌, ◌≤◌, ◌^◌, length, slice_get, IfOk, OnOk};
ghost use Rattle.std.specs.Option.{option_and_then};
ghost use Rattle.wl_symbols.specs.Entries.{entries_at, entries_from, entries_of, symbol_count};
ghost use Rattle.wl_symbols.specs.Adding.{firsts_in};
ghost use Rattle.wl_symbols.specs.Definitions.{defined_by, row_from, rows_from};

use crate::entry::{Definition, Place, is_private};
use crate::names::CountedNames;
use std::alloc::{AllocError, Global};
use std::sync::ledger::Ledger;
use wl_linking::{FileList, WasmSymbol};
use wl_rows::RowList;
use wl_steps::Steps;
use wl_words::WasmArgs;

/// What each symbol stands for, a row for each object.
#[derive(Drop)]
pub(crate) struct DefinitionRows {
    rows: RowList<Definition>,
}

/// What a symbol stands for. Where other objects know it, that takes a step.
fn define<L: Ledger>(
    names: &CountedNames<'_>,
    args: &WasmArgs,
    place: Place,
    symbol: &WasmSymbol<'_>,
    steps: &mut Steps<L>,
) -> Definition
    ensures value { result ≡ defined_by (firsts_in names.now.names.firsts) args.now
        place.object place.symbol symbol.now }
    ensures cost { steps.new
        ≡ steps.old + length (entries_at place.object place.symbol symbol.now) }
{
    let itself = Definition::at(place);
    if is_private(symbol) {
        return itself;
    }
    let firsts = names.firsts(symbol.name, steps);
    firsts.choose(symbol.name, args).unwrap_or(itself)
}

/// Puts what an object's symbols stand for in place of what the row holds.
fn define_symbols<L: Ledger>(
    row: &mut Vec<Definition>,
    names: &CountedNames<'_>,
    args: &WasmArgs,
    object: usize,
    symbols: &[WasmSymbol<'_>],
    steps: &mut Steps<L>,
) -> Result<(), AllocError>
    requires { length symbols.now < 2 ^ 32 }
    ensures row { OnOk result (row.new.items
        ≡ row_from (defined_by (firsts_in names.now.names.firsts) args.now object) 0 symbols.now) }
    ensures counted { OnOk result
        (steps.new ≡ steps.old + length (entries_from object 0 symbols.now)) }
    ensures cost { steps.new ≤ steps.old + length symbols.now }
{
    row.clear();
    for (i, symbol) in symbols.iter().enumerate() {
        let place = Place {
            object,
            symbol: i as u32,
        };
        row.push(define(names, args, place, symbol, steps))?;
    }
    Ok(())
}

impl DefinitionRows {
    /// What the symbols of these objects stand for, by what each name has.
    pub(crate) fn of<L: Ledger>(
        alloc: Global,
        names: &CountedNames<'_>,
        files: &FileList<'_>,
        args: &WasmArgs,
        steps: &mut Steps<L>,
    ) -> Result<Self, AllocError>
        ensures rows { IfOk result (λ d. d.rows
            ≡ rows_from (defined_by (firsts_in names.now.names.firsts) args.now) 0 files.now) }
        ensures counted { OnOk result
            (steps.new ≡ steps.old + length (entries_of 0 files.now)) }
        ensures cost { steps.new ≤ steps.old + symbol_count files.now }
    {
        let mut rows = RowList::new(alloc);
        let mut row = Vec::new(alloc);
        for (object, file) in files.as_slice().iter().enumerate() {
            file.stands_for_an_object();
            define_symbols(&mut row, names, args, object, file.symbols(), steps)?;
            rows.push(&mut row)?;
        }
        Ok(DefinitionRows { rows })
    }

    /// What the symbol of that number in the object of that number stands for, if there is one.
    pub(crate) fn get(&self, object: usize, symbol: u32) -> Option<Definition>
        ensures { result
            ≡ option_and_then (λ row. slice_get row symbol) (slice_get self.now.rows object) }
    {
        self.rows.get(object, symbol as usize)
    }
}
