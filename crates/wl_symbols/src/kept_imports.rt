//! The import slots that are kept.

ghost use Rattle.std.specs.Prelude.{◌≡◌, filter, IfOk};
ghost use Rattle.wl_symbols.specs.KeptSlots.{is_kept_slot, kept_slots, left_slots};
ghost use Rattle.wl_symbols.specs.KeptSlots.{is_left_slot};

use crate::input::LinkInput;
use crate::slots::{ImportSlot, fill_slots};
use crate::targets::slot_target;
use std::alloc::{AllocError, Global};
use wl_linking::WasmSymbolKind;

/// Whether a slot is kept.
pub fn is_kept_slot(input: &LinkInput<'_, '_>, slot: &ImportSlot<'_, '_>) -> bool
    ensures { result ≡ is_kept_slot input.now slot.now }
{
    input.keeps_slot(slot.kind(), slot.object(), slot.number())
}

/// Leaves out the slots that aren't kept.
fn retain_kept(input: &LinkInput<'_, '_>, slots: &mut Vec<ImportSlot<'_, '_>>)
    ensures { slots.new.items ≡ filter (is_kept_slot input.now) slots.old.items }
{
    slots.retain(
        |slot: &ImportSlot<'_, '_>| -> bool
            ensures { result ≡ is_kept_slot input.entry.now slot.now }
        { is_kept_slot(input, slot) },
    );
}

/// The kept slots of a kind, object by object.
///
/// # Errors
/// `AllocError` where memory runs out.
pub fn kept_slots<'i, 'a>(
    alloc: Global,
    input: &LinkInput<'i, 'a>,
    kind: WasmSymbolKind,
) -> Result<Vec<ImportSlot<'i, 'a>>, AllocError>
    ensures { IfOk result (λ v. v.items ≡ kept_slots input.now kind) }
{
    let mut kept = Vec::new(alloc);
    let mut slots = Vec::new(alloc);
    for object in 0..input.files().len() {
        fill_slots(alloc, input.symbols(), object, kind, &mut slots)?;
        retain_kept(input, &mut slots);
        kept.append(&mut slots)?;
    }
    Ok(kept)
}

/// Whether names bind nothing to a slot.
#[tactic(auto, unfolding(crate::specs::KeptSlots::is_left_slot))]
fn is_left(input: &LinkInput<'_, '_>, slot: &ImportSlot<'_, '_>) -> bool
    ensures { result ≡ is_left_slot input.now slot.now }
{
    slot_target(input.symbols(), slot).is_none()
}

/// Leaves out the slots to which names bind something.
fn retain_left(input: &LinkInput<'_, '_>, slots: &mut Vec<ImportSlot<'_, '_>>)
    ensures { slots.new.items ≡ filter (is_left_slot input.now) slots.old.items }
{
    slots.retain(
        |slot: &ImportSlot<'_, '_>| -> bool
            ensures { result ≡ is_left_slot input.entry.now slot.now }
        { is_left(input, slot) },
    );
}

/// The kept slots of a kind to which names bind nothing, object by object.
///
/// # Errors
/// `AllocError` where memory runs out.
pub fn left_slots<'i, 'a>(
    alloc: Global,
    input: &LinkInput<'i, 'a>,
    kind: WasmSymbolKind,
) -> Result<Vec<ImportSlot<'i, 'a>>, AllocError>
    ensures { IfOk result (λ v. v.items ≡ left_slots input.now kind) }
{
    let mut left = Vec::new(alloc);
    let mut slots = Vec::new(alloc);
    for object in 0..input.files().len() {
        fill_slots(alloc, input.symbols(), object, kind, &mut slots)?;
        retain_kept(input, &mut slots);
        // Few are left, and so few are moved.
        retain_left(input, &mut slots);
        left.append(&mut slots)?;
    }
    Ok(left)
}
