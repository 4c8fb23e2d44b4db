//! A number for each unit of all objects.

ghost use Rattle.std.specs.Prelude.{◌≡◌, ◌<◌, ◌+◌, ◌^◌, IfOk};
ghost use Rattle.wl_symbols.specs.Units.{units_of, units_at, unit_number_if, total_of, unit_count, IsSmall};

use crate::units::{LinkUnit, UnitCounts, counts_of, has_unit, number_in_object, unit_count};
use std::alloc::{AllocError, Global};
use std::marker::Model;
use wl_linking::FileList;

/// No units at all.
const NO_UNITS: UnitCounts = UnitCounts {
    functions: 0,
    globals: 0,
    segments: 0,
    function_imports: 0,
    global_imports: 0,
};

/// A number for each unit of all objects: object by object, kind by kind. Clauses see it as how
/// many units of each kind each object has.
#[derive(Drop)]
pub struct UnitNumbers {
    counts: Vec<UnitCounts>,
    bases: Vec<usize>,
    total: usize,
}

impl Model for UnitNumbers {
    ghost use Rattle.std.specs.Prelude.{List};
    ghost use Rattle.wl_symbols.specs.declared.units.UnitCounts.{UnitCounts as Counts};
    ghost use Rattle.wl_symbols.specs.Units.{AreBases};

    ghost Value = { List Counts };

    ghost view = { λ n. n.counts.items };

    ghost invariant = { λ n. AreBases n.counts.items n.bases.items n.total };
}

/// How many units there are with those of one more object. No memory has room for more than a
/// number can count.
fn total_with(total: usize, counts: UnitCounts) -> Result<usize, AllocError>
    requires { IsSmall counts }
    ensures sum { IfOk result (λ n. n ≡ total + unit_count counts) }
    ensures fits { IfOk result (λ n. n < 2 ^ 64) }
{
    total.checked_add(unit_count(counts)).ok_or(AllocError)
}

impl UnitNumbers {
    /// Numbers the units of these objects.
    pub fn new(alloc: Global, files: &FileList<'_>) -> Result<Self, AllocError>
        ensures { IfOk result (λ n. n ≡ units_of files.now) }
    {
        let mut counts: Vec<UnitCounts> = Vec::new(alloc);
        let mut bases: Vec<usize> = Vec::new(alloc);
        let mut total: usize = 0;
        for file in files.as_slice() {
            let units = counts_of(file);
            counts.push(units)?;
            bases.push(total)?;
            total = total_with(total, units)?;
        }
        Ok(UnitNumbers {
            counts,
            bases,
            total,
        })
    }

    /// How many units there are.
    pub fn total(&self) -> usize
        ensures { result ≡ total_of self.now }
    {
        self.total
    }

    /// The number of a unit, if it exists.
    pub fn number(&self, unit: LinkUnit) -> Option<usize>
        ensures { result ≡ unit_number_if self.now unit }
    {
        let counts = self.counts(unit.object);
        if !has_unit(counts, unit.unit) {
            return None;
        }
        Some(self.bases[unit.object] + number_in_object(counts, unit.unit))
    }

    /// How many units of each kind an object has.
    pub fn counts(&self, object: usize) -> UnitCounts
        ensures units { result ≡ units_at self.now object }
        ensures small { IsSmall result }
    {
        match self.counts.get(object) {
            Some(counts) => *counts,
            None => NO_UNITS,
        }
    }
}
