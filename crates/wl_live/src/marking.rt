//! Marks for the units that are kept.

ghost use Rattle.std.specs.Prelude.{◌≡◌, ◌≤◌, ◌+◌, ◌++◌, Bool, List, length, IfOk, OnOk};
ghost use Rattle.std.specs.Option.{option_to_list};
ghost use Rattle.wl_symbols.specs.Units.{units_of, unit_number_if, total_of};
ghost use Rattle.wl_live.specs.Facts.{AreAllFacts};
ghost use Rattle.wl_live.specs.Laying.{all_edges};
ghost use Rattle.wl_live.specs.Table.{found, most_steps, references, roots};
ghost use Rattle.wl_symbols.specs.Live.{IsLiveOf, IsNumberingOf};
ghost use Rattle.wl_live.specs.Marking.{UnitsReached, search_steps, steps_to};

use crate::object_facts::ObjectFacts;
use crate::roots::collect_roots;
use crate::table::lay_table;
use std::alloc::{AllocError, Global};
use std::sync::ledger::Ledger;
use wl_ops::numbers_are_one;
use wl_reach::{Marks, reach_counted};
use wl_steps::Steps;
use wl_symbols::{LinkUnit, SymbolTable, UnitNumbers};
use wl_words::WasmArgs;

/// Adds a number, if there is one.
fn push_number(list: &mut Vec<usize>, number: Option<usize>) -> Result<(), AllocError>
    ensures { OnOk result (list.new.items ≡ list.old.items ++ option_to_list number) }
{
    if let Some(number) = number {
        list.push(number)?;
    }
    Ok(())
}

/// The numbers of the units that exist.
pub(crate) fn collect_numbers(
    alloc: Global,
    numbers: &UnitNumbers,
    units: &[LinkUnit],
) -> Result<Vec<usize>, AllocError>
    ensures { IfOk result (λ v. v.items ≡ found (unit_number_if numbers.now) units.now) }
{
    let mut list = Vec::new(alloc);
    for unit in units {
        push_number(&mut list, numbers.number(*unit))?;
    }
    Ok(list)
}

/// Marks the units that a chain of references leads to from one that is kept by itself.
fn reach_units<L: Ledger>(
    alloc: Global,
    symbols: &SymbolTable<'_, '_>,
    numbers: &UnitNumbers,
    facts: &[ObjectFacts],
    steps: &mut Steps<L>,
) -> Result<Marks, AllocError>
    ensures each { IfOk result (λ m. length m ≡ total_of numbers.now) }
    ensures marks { IfOk result (UnitsReached numbers.now
        (references symbols.now numbers.now facts.now) (roots symbols.now numbers.now)) }
    ensures steps { IfOk result (λ m. (numbering : List Bool) → steps.new ≡ steps.old
        + search_steps (record { units = numbers.now; marks = m; numbering = numbering })
        (references symbols.now numbers.now facts.now)) }
    ensures cost { steps.new ≤ steps.old + (total_of numbers.now
        + length (all_edges symbols.now numbers.now facts.now)) }
{
    let table = lay_table(alloc, symbols, numbers, facts)?;
    let roots = collect_roots(alloc, symbols, numbers)?;
    let starts = collect_numbers(alloc, numbers, &roots)?;
    let marks = reach_counted(alloc, &table, &starts, steps)?;
    Ok(marks)
}

/// Marks the units that are kept.
pub(crate) fn mark_units<L: Ledger>(
    alloc: Global,
    symbols: &SymbolTable<'_, '_>,
    args: &WasmArgs,
    numbers: &UnitNumbers,
    facts: &[ObjectFacts],
    steps: &mut Steps<L>,
) -> Result<Marks, AllocError>
    requires args { args.now ≡ symbols.now.args }
    requires units { numbers.now ≡ units_of symbols.now.objects }
    requires facts { AreAllFacts symbols.now.objects facts.now }
    ensures each { IfOk result (λ m. length m ≡ total_of numbers.now) }
    ensures marks { IfOk result (λ m. (numbering : List Bool)
        → IsNumberingOf symbols.now numbers.now numbering
        → IsLiveOf symbols.now
        (record { units = numbers.now; marks = m; numbering = numbering })) }
    ensures steps { IfOk result (λ m. (numbering : List Bool) → steps.new ≡ steps.old
        + steps_to symbols.now facts.now
        (record { units = numbers.now; marks = m; numbering = numbering })) }
    ensures cost { steps.new ≤ steps.old + most_steps symbols.now facts.now }
{
    numbers_are_one();
    if !args.gc_sections {
        let marks = Marks::filled(alloc, numbers.total())?;
        return Ok(marks);
    }
    let marks = reach_units(alloc, symbols, numbers, facts, steps)?;
    Ok(marks)
}
