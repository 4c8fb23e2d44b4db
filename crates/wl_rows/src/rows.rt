//! Rows of items in one list, which clauses see as a list of rows.

ghost use Rattle.std.specs.Prelude.{◌≡◌, [], ◌∷◌, ◌++◌, option_map, slice_get, OnOk, OnErr};
ghost use Rattle.std.specs.Option.{option_and_then};

use std::alloc::{AllocError, Global};
use std::marker::Model;
use std::mem;

/// Where a row begins among the items of all rows, and how many it has.
#[derive(Clone, Copy)]
struct Stretch {
    start: usize,
    len: usize,
}

/// Rows of items, one behind the other in one list, so that no row takes memory of its own. Clauses
/// see it as the list of the rows.
#[derive(Drop)]
pub struct RowList<T: Drop> {
    items: Vec<T>,
    stretches: Vec<Stretch>,
}

impl<T: Drop> Model for RowList<T> {
    ghost use Rattle.std.specs.Prelude.{List};
    ghost use Rattle.wl_rows.specs.Rows.{rows_of, AreWithin};

    ghost Value = { List (List T) };

    ghost view = { λ r. rows_of r.items.items r.stretches.items };

    ghost invariant = { λ r. AreWithin r.items.items r.stretches.items };
}

/// Moves the items of a row behind these. Where there are none, the lists change places: a large row
/// isn't copied then.
fn move_items<T: Drop>(items: &mut Vec<T>, row: &mut Vec<T>) -> Result<(), AllocError>
    ensures ok { OnOk result (items.new.items ≡ items.old.items ++ row.old.items) }
    ensures taken { OnOk result (row.new.items ≡ []) }
    ensures err { OnErr result (items.new.items ≡ items.old.items) }
{
    if items.is_empty() {
        mem::swap(items, row);
        return Ok(());
    }
    items.append(row)
}

impl<T: Drop> RowList<T> {
    /// No rows.
    pub fn new(alloc: Global) -> Self
        ensures { result ≡ [] }
    {
        RowList {
            items: Vec::new(alloc),
            stretches: Vec::new(alloc),
        }
    }

    /// Puts a row of these items at the end, and takes them out of their list.
    ///
    /// # Errors
    /// `AllocError` where memory runs out. The rows are as they were then.
    #[tactic(auto, using(crate::proofs::Stretches::rows_stay, crate::proofs::Stretches::within_stays, crate::proofs::Stretches::rows_pushed, crate::proofs::Stretches::within_pushed))]
    pub fn push(&mut self, row: &mut Vec<T>) -> Result<(), AllocError>
        ensures ok { OnOk result (self.new ≡ self.old ++ row.old.items ∷ []) }
        ensures taken { OnOk result (row.new.items ≡ []) }
        ensures err { OnErr result (self.new ≡ self.old) }
    {
        let start = self.items.len();
        let len = row.len();
        move_items(&mut self.items, row)?;
        self.stretches.push(Stretch { start, len })?;
        Ok(())
    }

    /// The row of that number, if there is one.
    pub fn row(&self, row: usize) -> Option<&[T]>
        ensures { option_map (λ r. r.now) result ≡ slice_get self.now row }
    {
        let stretch = self.stretches.get(row)?;
        let rest = self.items.as_slice().split_at(stretch.start).1;
        Some(rest.split_at(stretch.len).0)
    }
}

impl<T: Copy + Drop> RowList<T> {
    /// The item of a row at a place, if there is one.
    pub fn get(&self, row: usize, place: usize) -> Option<T>
        ensures { result ≡ option_and_then (λ r. slice_get r place) (slice_get self.now row) }
    {
        self.row(row)?.get(place).copied()
    }
}
