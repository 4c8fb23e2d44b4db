//! The table as it is at the start.

ghost use Rattle.std.specs.Prelude.{◌≡◌, ◌++◌, map, replicate, Some, None, OnOk, IfOk};
ghost use Rattle.wl_run.specs.Tables.{first_table};

use std::alloc::{AllocError, Global};
use wl_lists::ItemList;
use wl_module::TableType;

/// Puts so many slots that hold no function after the others.
fn push_empty(slots: &mut Vec<Option<u32>>, count: u64) -> Result<(), AllocError>
    ensures { OnOk result (slots.new.items ≡ slots.old.items ++ replicate count None) }
{
    for _ in 0..count {
        slots.push(None)?;
    }
    Ok(())
}

/// Puts slots that hold these functions after the others.
fn push_filled(slots: &mut Vec<Option<u32>>, elements: &[u32]) -> Result<(), AllocError>
    ensures { OnOk result (slots.new.items ≡ slots.old.items ++ map Some elements.now) }
{
    for function in elements {
        slots.push(Some(*function))?;
    }
    Ok(())
}

/// The slots of the table: the first holds no function, those after it hold these, and the others
/// none.
///
/// # Errors
/// `AllocError` where memory runs out.
pub fn first_table(
    alloc: Global,
    table: Option<TableType>,
    elements: &[u32],
) -> Result<ItemList<Option<u32>>, AllocError>
    ensures { IfOk result (λ slots. slots ≡ first_table table elements.now) }
{
    let Some(table) = table else {
        return Ok(ItemList::empty(alloc));
    };
    let mut slots = Vec::new(alloc);
    slots.push(None)?;
    push_filled(&mut slots, elements)?;
    let left = table.initial.saturating_sub(slots.len() as u64);
    push_empty(&mut slots, left)?;
    Ok(ItemList::new(slots))
}
