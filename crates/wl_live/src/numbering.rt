//! Marks for the functions whose bodies number segments.

ghost use Rattle.std.specs.Prelude.{◌≡◌, length, IfOk};
ghost use Rattle.wl_symbols.specs.Units.{unit_number_if, total_of};
ghost use Rattle.wl_symbols.specs.Live.{IsNumberingOf};
ghost use Rattle.wl_live.specs.Facts.{AreAllFacts};
ghost use Rattle.wl_live.specs.Numbering.{numbering_units, with_mark, with_units};

use crate::object_facts::{ObjectFacts, SegmentUse};
use std::alloc::{AllocError, Global};
use wl_ops::numbers_are_one;
use wl_reach::Marks;
use wl_symbols::{LinkUnit, SymbolTable, UnitNumbers, WasmGcUnit};

/// Marks a unit, if it exists.
fn mark_unit(marks: &mut Marks, numbers: &UnitNumbers, unit: LinkUnit)
    requires { length marks.old ≡ total_of numbers.now }
    ensures each { length marks.new ≡ length marks.old }
    ensures marks { marks.new ≡ with_mark marks.old (unit_number_if numbers.now unit) }
{
    if let Some(number) = numbers.number(unit) {
        marks.set(number);
    }
}

/// Marks the functions of an object whose bodies number segments.
fn mark_object(marks: &mut Marks, numbers: &UnitNumbers, object: usize, segments: &[SegmentUse])
    requires { length marks.old ≡ total_of numbers.now }
    ensures each { length marks.new ≡ length marks.old }
    ensures marks { marks.new
        ≡ with_units numbers.now marks.old (numbering_units object segments.now) }
{
    for used in segments {
        let unit = WasmGcUnit::DefinedFunction(used.function);
        mark_unit(marks, numbers, LinkUnit { object, unit });
    }
}

/// Marks the functions of all objects whose bodies number segments.
pub(crate) fn mark_numbering(
    alloc: Global,
    symbols: &SymbolTable<'_, '_>,
    numbers: &UnitNumbers,
    facts: &[ObjectFacts],
) -> Result<Marks, AllocError>
    requires { AreAllFacts symbols.now.objects facts.now }
    ensures { IfOk result (IsNumberingOf symbols.now numbers.now) }
{
    numbers_are_one();
    let mut marks = Marks::new(alloc, numbers.total())?;
    for (object, said) in facts.iter().enumerate() {
        mark_object(&mut marks, numbers, object, said.segments());
    }
    Ok(marks)
}
