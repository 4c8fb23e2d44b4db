//! Slots of one import with different types.

ghost use Rattle.std.specs.Prelude.{◌≡◌, [], map, option_map, IfOk, OnOk, IfErr};
ghost use Rattle.indexmap.specs.IndexSet.{insert_all};
ghost use Rattle.wl_linking.specs.Steps.{Clear, Refuses};
ghost use Rattle.wl_bind.specs.Conflicts.{global_type, same_slot_type, IsConflict};
ghost use Rattle.wl_bind.specs.ConflictSteps.{conflict_of, same_slot, slot_at, place_among, AreImportsOf};

use crate::types::slot_type;
use std::alloc::{AllocError, Global};
use wl_linking::{FileList, LinkError};
use wl_lists::Text;
use wl_module::{GlobalType, ImportEntity};
use wl_symbols::{HostImports, ImportSlot, LinkInput, Stubs};

// ---- types of slots

/// The type of a global that is imported.
fn global_type(entity: ImportEntity) -> Option<GlobalType>
    ensures { result ≡ global_type entity }
{
    match entity {
        ImportEntity::Global(ty) => Some(ty),
        ImportEntity::Func(_) | ImportEntity::Table(_) | ImportEntity::Memory(_) => None,
    }
}

/// Whether two slots have the same type, as functions and as globals.
fn same_slot_type(files: &FileList<'_>, a: &ImportSlot<'_, '_>, b: &ImportSlot<'_, '_>) -> bool
    ensures { result ≡ same_slot_type files.now a.now b.now }
{
    slot_type(files, a) == slot_type(files, b) && global_type(a.entity()) == global_type(b.entity())
}

// ---- all slots

/// The imports that slots are: stubs, or imports of the host.
#[derive(Clone, Copy)]
pub(crate) enum SlotImports<'h, 'a> {
    Stubs(&'h Stubs<'a>),
    Hosts(&'h HostImports<'a>),
}

impl<'h, 'a> SlotImports<'h, 'a> {
    /// The place of the import that a slot is.
    fn place(self, slot: &ImportSlot<'_, '_>) -> Option<usize>
        ensures { result ≡ place_among self.entry slot.now }
    {
        match self {
            SlotImports::Stubs(stubs) => stubs.place(slot.field()),
            SlotImports::Hosts(hosts) => hosts.place(slot.module(), slot.field()),
        }
    }
}

/// The slot of that place, if there is one.
fn slot_at<'s, 'f, 'a>(
    slots: &[&'s ImportSlot<'f, 'a>],
    place: Option<usize>,
) -> Option<&'s ImportSlot<'f, 'a>>
    ensures { option_map (λ t. t.now) result ≡ slot_at (map (λ t. t.now) slots.now) place }
{
    slots.get(place?).copied()
}

/// The refusal of two slots of one import with different types.
fn refusal(
    alloc: Global,
    first: &ImportSlot<'_, '_>,
    second: &ImportSlot<'_, '_>,
) -> Result<LinkError, AllocError>
    ensures { IfOk result
        (λ e. e ≡ conflict_of (record { first = first.now; second = second.now })) }
{
    Ok(LinkError::ConflictingTypes {
        name: Text::new(String::from_str(alloc, first.field())?),
        first_object: first.object(),
        first_slot: first.number(),
        second_object: second.object(),
        second_slot: second.number(),
    })
}

/// Sees that the slots of each import have one type, and answers the first slot of each.
///
/// # Errors
/// `ConflictingTypes` where a slot has another type than the first slot of its import: it names the
/// first such slot.
pub(crate) fn check_types<'s, 'f, 'a>(
    alloc: Global,
    input: &LinkInput<'_, '_>,
    imports: SlotImports<'_, '_>,
    slots: &'s [ImportSlot<'f, 'a>],
) -> Result<Vec<&'s ImportSlot<'f, 'a>>, LinkError>
    requires { AreImportsOf slots.now imports }
    ensures firsts { IfOk result (λ firsts. map (λ t. t.now) firsts.items
        ≡ insert_all (same_slot imports.entry) [] slots.now) }
    ensures clear { OnOk result
        (Clear (IsConflict input.now.link.objects (same_slot imports.entry) slots.now)) }
    ensures err { IfErr result
        (Refuses (IsConflict input.now.link.objects (same_slot imports.entry) slots.now)) }
{
    let files = input.files();
    let mut firsts: Vec<&'s ImportSlot<'f, 'a>> = Vec::new(alloc);
    for slot in slots {
        let Some(first) = slot_at(firsts.as_slice(), imports.place(slot)) else {
            firsts.push(slot)?;
            continue;
        };
        if !same_slot_type(files, first, slot) {
            return Err(refusal(alloc, first, slot)?);
        }
    }
    Ok(firsts)
}
