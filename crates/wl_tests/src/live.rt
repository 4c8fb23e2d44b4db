//! What the units of a small object refer to, by the calls that tell it of one unit.

ghost use Rattle.std.specs.Prelude.{◌≡◌};
ghost use Rattle.wl_symbols.specs.Units.{units_of};
ghost use Rattle.wl_live.specs.Facts.{AreAllFacts};

use crate::samples::{PAIR, args_of, one_file};
use std::alloc::Global;
use wl_linking::FileList;
use wl_live::{LinkUnit, ObjectFacts, UnitNumbers, WasmGcUnit, all_facts, references_of, roots_of};
use wl_symbols::SymbolTable;
use wl_words::WasmArgs;

/// The function of that number.
const fn function(number: u32) -> LinkUnit {
    LinkUnit {
        object: 0,
        unit: WasmGcUnit::DefinedFunction(number),
    }
}

/// Whether the first function is the one root.
fn is_root(alloc: Global, symbols: &SymbolTable<'_, '_>, numbers: &UnitNumbers) -> bool
    requires { numbers.now ≡ units_of symbols.now.objects }
{
    match roots_of(alloc, symbols, numbers) {
        Ok(roots) => roots.as_slice() == [function(0)].as_slice(),
        Err(_) => false,
    }
}

/// Whether it refers to the second one alone.
fn refers_to_second(
    alloc: Global,
    symbols: &SymbolTable<'_, '_>,
    numbers: &UnitNumbers,
    facts: &[ObjectFacts],
) -> bool
    requires units { numbers.now ≡ units_of symbols.now.objects }
    requires facts { AreAllFacts symbols.now.objects facts.now }
{
    match references_of(alloc, symbols, numbers, facts, function(0)) {
        Ok(called) => called.as_slice() == [function(1)].as_slice(),
        Err(_) => false,
    }
}

/// The same by what the objects say of their units.
fn is_caller(alloc: Global, symbols: &SymbolTable<'_, '_>, numbers: &UnitNumbers) -> bool
    requires { numbers.now ≡ units_of symbols.now.objects }
{
    match all_facts(alloc, symbols.files()) {
        Ok(facts) => refers_to_second(alloc, symbols, numbers, facts.as_slice()),
        Err(_) => false,
    }
}

/// Whether both is so in this link.
fn is_told(alloc: Global, symbols: &SymbolTable<'_, '_>) -> bool {
    match UnitNumbers::new(alloc, symbols.files()) {
        Ok(numbers) => is_root(alloc, symbols, &numbers) && is_caller(alloc, symbols, &numbers),
        Err(_) => false,
    }
}

/// Whether it is so of these objects.
fn is_told_of(alloc: Global, files: &FileList<'_>, args: &WasmArgs) -> bool {
    match SymbolTable::build(alloc, files, args) {
        Ok(symbols) => is_told(alloc, &symbols),
        Err(_) => false,
    }
}

/// Whether it is so of the object with two functions.
fn is_told_of_pair(alloc: Global, args: &WasmArgs) -> bool {
    match one_file(alloc, PAIR) {
        Some(files) => is_told_of(alloc, &files, args),
        None => false,
    }
}

/// Whether it is so where the first function is the entry.
fn is_told_of_entry(alloc: Global) -> bool {
    match args_of(alloc, &["a.o", "--entry=a"]) {
        Some(args) => is_told_of_pair(alloc, &args),
        None => false,
    }
}

#[test]
fn a_function_refers_to_what_it_calls(rt: HostRuntime) {
    assert!(rt; is_told_of_entry(rt.alloc()));
}
