//! The imports that the host is asked for.

ghost use Rattle.std.specs.Prelude.{◌≡◌, IfOk, OnOk, IfErr};
ghost use Rattle.wl_linking.specs.Steps.{Clear, Refuses};
ghost use Rattle.wl_bind.specs.Conflicts.{IsHostConflict};
ghost use Rattle.wl_bind.specs.steps.HostSlots.{AreHostFunctions, AreHostGlobals};
ghost use Rattle.wl_bind.specs.Resolutions.{resolutions, by_all_rules};
ghost use Rattle.wl_bind.specs.Shared.{shared_of, place_in, place_at};

use crate::conflicts::{SlotImports, check_types};
use crate::function_slots::FunctionSlots;
use crate::global_slots::GlobalSlots;
use crate::resolution::ObjectImportResolutions;
use crate::scanning::gather;
use std::alloc::Global;
use std::marker::Model;
use wl_linking::{LinkError, WasmSymbolKind};
use wl_rows::RowList;
use wl_symbols::{HostImport, HostImports, ImportSlot, LinkInput};

/// The imports of a kind that the host is asked for, and which of them each slot of that kind is.
pub(crate) struct SharedImports<'a> {
    /// One per module and field name, in order of their first slots.
    pub(crate) imports: HostImports<'a>,
    /// For each slot of each object that is left to the host the place of its import.
    pub(crate) places: RowList<Option<usize>>,
}

impl<'a> Drop for SharedImports<'a> {
    fn drop(self) {
        let Self {
            imports: _,
            places: _,
        } = self;
    }
}

/// The slots of a kind that are left to the host.
#[derive(Drop)]
pub(crate) struct HostSlots<'i, 'a> {
    /// The slots, in order.
    pub(crate) slots: Vec<ImportSlot<'i, 'a>>,
    /// The imports that they are, and which of them each slot of the kind is.
    pub(crate) shared: SharedImports<'a>,
}

/// The functions and globals that the host is asked for, one per module and field name, and which
/// of them each import slot is. Clauses see it as a `Shared`.
pub struct SharedUnresolvedImports<'a> {
    functions: SharedImports<'a>,
    globals: SharedImports<'a>,
}

impl<'a> Model for SharedUnresolvedImports<'a> {
    ghost use Rattle.wl_bind.specs.Shared.{Shared};

    ghost Value = { Shared };

    ghost view = { λ s. record {
      functions = s.functions.imports;
      globals = s.globals.imports;
      function_places = s.functions.places;
      global_places = s.globals.places;
    } };
}

impl<'a> Drop for SharedUnresolvedImports<'a> {
    fn drop(self) {
        let Self {
            functions: _,
            globals: _,
        } = self;
    }
}

impl<'a> SharedUnresolvedImports<'a> {
    /// The functions that the host is asked for, in order of their first slots.
    pub fn functions(&self) -> &[HostImport<'a>]
        ensures { result.now ≡ self.now.functions }
    {
        self.functions.imports.as_slice()
    }

    /// The globals that it is asked for, likewise.
    pub fn globals(&self) -> &[HostImport<'a>]
        ensures { result.now ≡ self.now.globals }
    {
        self.globals.imports.as_slice()
    }

    /// The place, among the imports of its kind, of the import that the slot of that kind and
    /// number of an object is, where the slot is left to the host.
    pub fn place(&self, object: usize, kind: WasmSymbolKind, slot: u32) -> Option<usize>
        ensures { result ≡ place_at self.now kind object slot }
    {
        match kind {
            WasmSymbolKind::Func => place_in(&self.functions.places, object, slot),
            WasmSymbolKind::Global => place_in(&self.globals.places, object, slot),
            WasmSymbolKind::Data
            | WasmSymbolKind::Section
            | WasmSymbolKind::Event
            | WasmSymbolKind::Table => None,
        }
    }
}

/// The place that these rows say for a slot of an object.
fn place_in(rows: &RowList<Option<usize>>, object: usize, slot: u32) -> Option<usize>
    ensures { result ≡ place_in rows.now object slot }
{
    rows.get(object, slot as usize)?
}

// ---- the slots of a link

/// Sees that the slots of each host import have one type.
///
/// # Errors
/// `ConflictingTypes` where a slot that is left to the host has another type than the first slot of
/// its import.
#[tactic(auto, using(crate::proofs::SharedLaws::function_conflict, crate::proofs::SharedLaws::global_conflict))]
pub(crate) fn check_hosts(
    alloc: Global,
    input: &LinkInput<'_, '_>,
    functions: &HostSlots<'_, '_>,
    globals: &HostSlots<'_, '_>,
) -> Result<(), LinkError>
    requires functions { AreHostFunctions input.now functions.now }
    requires globals { AreHostGlobals input.now globals.now }
    ensures clear { OnOk result (Clear (IsHostConflict input.now)) }
    ensures err { IfErr result (Refuses (IsHostConflict input.now)) }
{
    let imports = SlotImports::Hosts(&functions.shared.imports);
    check_types(alloc, input, imports, &functions.slots)?;
    let imports = SlotImports::Hosts(&globals.shared.imports);
    check_types(alloc, input, imports, &globals.slots)?;
    Ok(())
}

impl<'a> SharedUnresolvedImports<'a> {
    /// What the host is asked for: the imports that these functions and these globals are.
    pub(crate) fn of(functions: HostSlots<'_, 'a>, globals: HostSlots<'_, 'a>) -> Self
        ensures { result ≡ record {
          functions = functions.entry.shared.imports;
          globals = globals.entry.shared.imports;
          function_places = functions.entry.shared.places;
          global_places = globals.entry.shared.places;
        } }
    {
        SharedUnresolvedImports {
            functions: functions.shared,
            globals: globals.shared,
        }
    }
}

/// Collects the functions and globals that the host is asked for, one per module and field name.
///
/// # Errors
/// `ConflictingTypes` where a slot that is left to the host has another type than the first slot of
/// its import.
pub fn collect_shared_unresolved_imports<'a>(
    alloc: Global,
    input: &LinkInput<'_, 'a>,
    _rows: &[ObjectImportResolutions],
) -> Result<SharedUnresolvedImports<'a>, LinkError>
    requires rows { _rows.now ≡ resolutions input.now (by_all_rules input.now) }
    ensures ok { IfOk result (λ s. s ≡ shared_of input.now) }
    ensures clear { OnOk result (Clear (IsHostConflict input.now)) }
    ensures err { IfErr result (Refuses (IsHostConflict input.now)) }
{
    let functions = FunctionSlots::new(alloc, input)?;
    let scan = gather(alloc, input, &functions.bindings)?;
    let globals = GlobalSlots::new(alloc, input, &scan)?;
    check_hosts(alloc, input, &functions.hosts, &globals.hosts)?;
    Ok(SharedUnresolvedImports::of(functions.hosts, globals.hosts))
}
