//! Stubs: functions that are named weakly, and that nothing defines.

ghost use Rattle.std.specs.Prelude.{◌≡◌, ◌++◌, option_map, IfOk, OnOk, OnErr, IfErr, filter_map, map};
ghost use Rattle.std.specs.Option.{option_to_list};
ghost use Rattle.wl_linking.specs.Steps.{Clear, Refuses};
ghost use Rattle.wl_bind.specs.Stepped.{stepped, step_at};
ghost use Rattle.wl_bind.specs.FunctionTypes.{slot_type, stub_types};
ghost use Rattle.wl_bind.specs.steps.FunctionSlots.{AreFunctionSlots};
ghost use Rattle.wl_bind.specs.Conflicts.{IsStubConflict};
ghost use Rattle.wl_bind.specs.Later.{with_functions};
ghost use Rattle.wl_bind.specs.Resolutions.{resolutions, by_names_and_got, by_all_rules};

use crate::conflicts::{SlotImports, check_types};
use crate::function_slots::FunctionSlots;
use crate::resolution::{ObjectImportResolutions, ResolutionList};
use crate::types::slot_type;
use std::alloc::{AllocError, Global};
use wl_linking::{FileList, LinkError};
use wl_module::FuncType;
use wl_symbols::{ImportSlot, LinkInput};
use wl_types::copy_type;

// ---- the types of stubs

/// Adds the type of a slot, if it has one.
fn push_type(
    alloc: Global,
    types: &mut Vec<FuncType>,
    ty: Option<&FuncType>,
) -> Result<(), AllocError>
    ensures { OnOk result
        (types.new.items ≡ types.old.items ++ option_to_list (option_map (λ t. t.now) ty.entry)) }
{
    if let Some(ty) = ty {
        types.push(copy_type(alloc, ty)?)?;
    }
    Ok(())
}

/// The types of these slots.
fn slot_types(
    alloc: Global,
    files: &FileList<'_>,
    slots: &[&ImportSlot<'_, '_>],
) -> Result<Vec<FuncType>, AllocError>
    ensures { IfOk result
        (λ v. v.items ≡ filter_map (slot_type files.now) (map (λ t. t.now) slots.now)) }
{
    let mut types = Vec::new(alloc);
    for slot in slots {
        push_type(alloc, &mut types, slot_type(files, slot))?;
    }
    Ok(types)
}

/// The types of the stubs, in order.
///
/// # Errors
/// `ConflictingTypes` where a slot has another type than the first slot of its stub.
pub(crate) fn stub_types(
    alloc: Global,
    input: &LinkInput<'_, '_>,
    slots: &FunctionSlots<'_, '_>,
) -> Result<Vec<FuncType>, LinkError>
    requires { AreFunctionSlots input.now slots.now }
    ensures types { IfOk result (λ types. types.items ≡ stub_types input.now) }
    ensures clear { OnOk result (Clear (IsStubConflict input.now)) }
    ensures err { IfErr result (Refuses (IsStubConflict input.now)) }
{
    let weak = &slots.weak;
    let firsts = check_types(alloc, input, SlotImports::Stubs(&weak.stubs), &weak.slots)?;
    Ok(slot_types(alloc, input.files(), &firsts)?)
}

// ---- the slots of stubs

/// Puts the resolutions of the function slots of an object into its row, if there is one.
fn set_functions_at(rows: &mut [ObjectImportResolutions], object: usize, functions: ResolutionList)
    ensures { rows.new ≡ step_at with_functions object object functions rows.old }
{
    if object < rows.len() {
        rows[object].function_resolutions = functions;
    }
}

/// Puts the resolutions of the function slots of all objects into their rows.
fn set_functions(rows: &mut [ObjectImportResolutions], functions: Vec<ResolutionList>)
    ensures { rows.new ≡ stepped with_functions 0 functions.items rows.old }
{
    for (object, list) in functions.into_iter().enumerate() {
        set_functions_at(rows, object, list);
    }
}

/// Binds the function slots that names leave as stubs, one per field name: where each kept slot of
/// that field name that names leave has symbols, and only weak ones. Answers the types of the
/// stubs, in order.
///
/// # Errors
/// `ConflictingTypes` where a slot has another type than the first slot of its stub; the
/// resolutions are as they were then.
pub fn absorb_weak_undef_function_imports(
    alloc: Global,
    input: &LinkInput<'_, '_>,
    rows: &mut [ObjectImportResolutions],
) -> Result<Vec<FuncType>, LinkError>
    requires { rows.old ≡ resolutions input.now (by_names_and_got input.now) }
    ensures rows { OnOk result (rows.new ≡ resolutions input.now (by_all_rules input.now)) }
    ensures types { IfOk result (λ types. types.items ≡ stub_types input.now) }
    ensures clear { OnOk result (Clear (IsStubConflict input.now)) }
    ensures err { IfErr result (Refuses (IsStubConflict input.now)) }
    ensures same { OnErr result (rows.new ≡ rows.old) }
{
    let slots = FunctionSlots::new(alloc, input)?;
    let types = stub_types(alloc, input, &slots)?;
    set_functions(rows, slots.resolutions);
    Ok(types)
}
