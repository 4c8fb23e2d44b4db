//! What import slots of one kind are resolved to, row by row, and the rows of both kinds together.

ghost use Rattle.std.specs.Prelude.{◌≡◌, ◌++◌, ◌∷◌, [], None, IfOk, OnOk};
ghost use Rattle.wl_bind.specs.steps.SlotRows.{joined_rows};

use crate::resolution::{ImportResolution, ObjectImportResolutions, ResolutionList};
use std::alloc::{AllocError, Global};
use std::mem;
use wl_rows::RowList;

/// What a slot is resolved to, and, where it is left to the host, the place of its import.
#[derive(Clone, Copy)]
pub(crate) struct BoundSlot {
    pub(crate) resolution: ImportResolution,
    pub(crate) place: Option<usize>,
}

impl BoundSlot {
    /// A slot that isn't left to the host.
    pub(crate) fn without_import(resolution: ImportResolution) -> Self
        ensures resolution { result.resolution ≡ resolution }
        ensures place { result.place ≡ None }
    {
        BoundSlot {
            resolution,
            place: None,
        }
    }
}

/// The slots of an object, slot by slot.
#[derive(Drop)]
pub(crate) struct SlotRow {
    pub(crate) resolutions: Vec<ImportResolution>,
    pub(crate) places: Vec<Option<usize>>,
}

impl SlotRow {
    /// The row of no slot.
    pub(crate) fn new(alloc: Global) -> Self
        ensures resolutions { result.resolutions.items ≡ [] }
        ensures places { result.places.items ≡ [] }
    {
        SlotRow {
            resolutions: Vec::new(alloc),
            places: Vec::new(alloc),
        }
    }

    /// Takes all slots out.
    pub(crate) fn clear(&mut self)
        ensures resolutions { self.new.resolutions.items ≡ [] }
        ensures places { self.new.places.items ≡ [] }
    {
        self.resolutions.clear();
        self.places.clear();
    }

    /// Adds the next slot.
    ///
    /// # Errors
    /// `AllocError` where memory runs out.
    pub(crate) fn push(&mut self, slot: BoundSlot) -> Result<(), AllocError>
        ensures resolutions { OnOk result
            (self.new.resolutions.items ≡ self.old.resolutions.items ++ slot.resolution ∷ []) }
        ensures places { OnOk result
            (self.new.places.items ≡ self.old.places.items ++ slot.place ∷ []) }
    {
        self.resolutions.push(slot.resolution)?;
        self.places.push(slot.place)?;
        Ok(())
    }
}

/// The slots of all objects, a row an object.
#[derive(Drop)]
pub(crate) struct SlotRows {
    pub(crate) resolutions: Vec<ResolutionList>,
    pub(crate) places: RowList<Option<usize>>,
}

impl SlotRows {
    /// The rows of no object.
    pub(crate) fn new(alloc: Global) -> Self
        ensures resolutions { result.resolutions.items ≡ [] }
        ensures places { result.places ≡ [] }
    {
        SlotRows {
            resolutions: Vec::new(alloc),
            places: RowList::new(alloc),
        }
    }

    /// Adds the row of the next object, and takes its slots out of it.
    ///
    /// # Errors
    /// `AllocError` where memory runs out.
    pub(crate) fn push(&mut self, alloc: Global, row: &mut SlotRow) -> Result<(), AllocError>
        ensures resolutions { OnOk result (self.new.resolutions.items
            ≡ self.old.resolutions.items ++ row.old.resolutions.items ∷ []) }
        ensures places { OnOk result
            (self.new.places ≡ self.old.places ++ row.old.places.items ∷ []) }
    {
        let resolutions = mem::replace(&mut row.resolutions, Vec::new(alloc));
        self.resolutions.push(ResolutionList::new(resolutions))?;
        self.places.push(&mut row.places)
    }
}

/// What the slots of both kinds are resolved to, object by object.
///
/// # Errors
/// `AllocError` where memory runs out.
pub(crate) fn join_rows(
    alloc: Global,
    functions: Vec<ResolutionList>,
    globals: Vec<ResolutionList>,
) -> Result<Vec<ObjectImportResolutions>, AllocError>
    ensures { IfOk result (λ rows. rows.items ≡ joined_rows functions.items globals.items) }
{
    let mut rows = Vec::new(alloc);
    for (function_resolutions, global_resolutions) in functions.into_iter().zip(globals) {
        rows.push(ObjectImportResolutions {
            function_resolutions,
            global_resolutions,
        })?;
    }
    Ok(rows)
}
