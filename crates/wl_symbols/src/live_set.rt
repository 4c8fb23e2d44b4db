//! The units that are kept, once they are known.

ghost use Rattle.std.specs.Prelude.{◌≡◌, length};
ghost use Rattle.wl_symbols.specs.Units.{total_of};
ghost use Rattle.wl_symbols.specs.Live.{is_live, numbers_segments, ordinal_of};
ghost use Rattle.wl_symbols.specs.declared.units.WasmGcUnit.TheVariants.{DefinedFunction};

use crate::unit_numbers::UnitNumbers;
use crate::units::{LinkUnit, WasmGcUnit, unit_index};
use std::marker::Model;
use wl_reach::{Marks, RankedMarks};

/// The units that are kept, and the functions whose bodies number segments. Clauses see it as a
/// `Live`: how many units each object has, and two marks for each unit.
#[derive(Drop)]
pub struct LiveSet {
    numbers: UnitNumbers,
    marks: RankedMarks,
    numbering: Marks,
}

impl Model for LiveSet {
    ghost use Rattle.std.specs.Prelude.{◌≡◌, length};
    ghost use Rattle.wl_symbols.specs.Units.{total_of};
    ghost use Rattle.wl_symbols.specs.Live.{Live};

    ghost Value = { Live };

    ghost view = { λ s. record {
      units = s.numbers;
      marks = s.marks;
      numbering = s.numbering;
    } };

    ghost invariant = { λ s. record {
      marks : length s.marks ≡ total_of s.numbers;
      numbering : length s.numbering ≡ total_of s.numbers;
    } };
}

impl LiveSet {
    /// The units of all objects, and two marks for each, by their numbers: one is set where it is
    /// kept, the other where it is a function whose body numbers segments.
    pub fn new(numbers: UnitNumbers, marks: RankedMarks, numbering: Marks) -> Self
        requires marks { length marks ≡ total_of numbers }
        requires numbering { length numbering ≡ total_of numbers }
        ensures { result ≡ record { units = numbers; marks = marks; numbering = numbering } }
    {
        LiveSet {
            numbers,
            marks,
            numbering,
        }
    }

    /// Whether a unit is kept. One that doesn't exist isn't.
    pub fn is_live(&self, object: usize, unit: WasmGcUnit) -> bool
        ensures { result ≡ is_live self.now (record { object = object; unit = unit }) }
    {
        match self.numbers.number(LinkUnit { object, unit }) {
            Some(number) => self.marks.get(number),
            None => false,
        }
    }

    /// Whether the body of a function numbers segments. One that doesn't exist doesn't.
    pub fn numbers_segments(&self, object: usize, function: u32) -> bool
        ensures { result ≡ numbers_segments self.now
            (record { object = object; unit = DefinedFunction function }) }
    {
        let unit = WasmGcUnit::DefinedFunction(function);
        match self.numbers.number(LinkUnit { object, unit }) {
            Some(number) => self.numbering.get(number),
            None => false,
        }
    }

    /// How many kept units of its kind stand before a kept one in its object; nothing for one that
    /// isn't kept.
    pub fn live_ordinal(&self, object: usize, unit: WasmGcUnit) -> Option<u32>
        ensures { result ≡ ordinal_of self.now (record { object = object; unit = unit }) }
    {
        if !self.is_live(object, unit) {
            return None;
        }
        let number = self.numbers.number(LinkUnit { object, unit })?;
        let first = number - unit_index(unit) as usize;
        let count = self.marks.count_before(number) - self.marks.count_before(first);
        Some(count as u32)
    }
}
