//! Which types of an object the output has a use for.

ghost use Rattle.std.specs.Prelude.{◌≡◌, ◌≤◌, None, Some, if◌then◌else◌, length, map, slice_get, IfOk};
ghost use Rattle.wl_bytes.specs.declared.reader.TheConstants.{MAX_LEN};
ghost use Rattle.wl_custom.specs.declared.symbols.WasmSymbolKind.TheVariants.{Func};
ghost use Rattle.wl_symbols.specs.Relocations.{object_relocations};
ghost use Rattle.wl_bind.specs.FunctionTypes.{type_number};
ghost use Rattle.wl_bind.specs.steps.Shared.{is_host_at};
ghost use Rattle.wl_bind.specs.Resolutions.{resolutions, by_all_rules};
ghost use Rattle.wl_bind.specs.OutputTypes.{is_live_type};
ghost use Rattle.wl_bind.specs.steps.Merging.{mark, mark_all, AreMarked, function_types, host_types, named_type};

use crate::report::is_host_at;
use crate::resolution::ObjectImportResolutions;
use crate::types::type_number;
use std::alloc::{AllocError, Global};
use wl_linking::{File, WasmSymbolKind};
use wl_module::ImportEntity;
use wl_symbols::{LinkInput, Relocated, WasmGcUnit, is_slot_of, kept_of_object};

/// Marks the type of that number, if one is named and there is one.
fn mark(marks: &mut Vec<bool>, number: Option<u32>)
    ensures { marks.new.items ≡ mark marks.old.items number }
{
    if let Some(number) = number {
        let place = number as usize;
        if place < marks.len() {
            marks[place] = true;
        }
    }
}

// ---- kept functions

/// Marks the types of the functions of an object that are kept.
fn mark_functions(
    marks: &mut Vec<bool>,
    input: &LinkInput<'_, '_>,
    object: usize,
    functions: &[u32],
)
    requires { length functions.now ≤ MAX_LEN }
    ensures { marks.new.items
        ≡ mark_all marks.old.items (function_types input.now object 0 functions.now) }
{
    for (number, ty) in functions.iter().enumerate() {
        let unit = WasmGcUnit::DefinedFunction(number as u32);
        mark(marks, input.live().is_live(object, unit).then_some(*ty));
    }
}

// ---- slots that are left to the host

/// Marks the type under which the function slot of that number is imported, if the slot is left to
/// the host.
fn mark_host(
    marks: &mut Vec<bool>,
    input: &LinkInput<'_, '_>,
    rows: &[ObjectImportResolutions],
    object: usize,
    number: u32,
    entity: ImportEntity,
)
    requires { rows.now ≡ resolutions input.now (by_all_rules input.now) }
    ensures { marks.new.items ≡ mark marks.old.items
        (if is_host_at input.now Func object number then type_number entity else None) }
{
    if is_host_at(input, rows, WasmSymbolKind::Func, object, number) {
        mark(marks, type_number(entity));
    }
}

/// Marks the types of the function slots of an object that are left to the host.
fn mark_hosts(
    marks: &mut Vec<bool>,
    input: &LinkInput<'_, '_>,
    rows: &[ObjectImportResolutions],
    object: usize,
    file: &File<'_>,
)
    requires rows { rows.now ≡ resolutions input.now (by_all_rules input.now) }
    requires object { slice_get input.now.link.objects object ≡ Some file.now }
    ensures { marks.new.items ≡ mark_all marks.old.items (host_types input.now object) }
{
    file.stands_for_an_object();
    let mut number: u32 = 0;
    for import in file.imports() {
        if is_slot_of(WasmSymbolKind::Func, import.entity) {
            mark_host(marks, input, rows, object, number, import.entity);
            number += 1;
        }
    }
}

// ---- kept relocations

/// Marks the types that kept relocations of an object name.
fn mark_relocations(
    marks: &mut Vec<bool>,
    input: &LinkInput<'_, '_>,
    object: usize,
    file: &File<'_>,
)
    ensures { marks.new.items ≡ mark_all marks.old.items
        (map named_type (object_relocations input.now.live object file.now)) }
{
    for relocated in kept_of_object(input, object, file) {
        let relocation = relocated.relocation;
        mark(
            marks,
            relocation.ty.names_a_type().then_some(relocation.index),
        );
    }
}

// ---- all of them

/// Which types of an object the output has a use for.
///
/// # Errors
/// `AllocError` where memory runs out.
pub(crate) fn live_marks(
    alloc: Global,
    input: &LinkInput<'_, '_>,
    rows: &[ObjectImportResolutions],
    object: usize,
    file: &File<'_>,
) -> Result<Vec<bool>, AllocError>
    requires rows { rows.now ≡ resolutions input.now (by_all_rules input.now) }
    requires object { slice_get input.now.link.objects object ≡ Some file.now }
    ensures { IfOk result (λ marks. AreMarked (length file.now.types)
        (is_live_type input.now object file.now) marks.items) }
{
    file.stands_for_an_object();
    let mut marks = vec![in alloc; false; file.types().len()]?;
    mark_functions(&mut marks, input, object, file.functions());
    mark_hosts(&mut marks, input, rows, object, file);
    mark_relocations(&mut marks, input, object, file);
    Ok(marks)
}
