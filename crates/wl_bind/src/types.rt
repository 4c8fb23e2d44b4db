//! The types of functions, as they are declared and as they are.

ghost use Rattle.std.specs.Prelude.{◌≡◌, ◌++◌, not, false, option_map, option_to_list, slice_get, IfOk, OnOk};
ghost use Rattle.std.specs.Option.{option_map_or, option_and_then};
ghost use Rattle.wl_module.specs.Types.{same_type};
ghost use Rattle.wl_custom.specs.declared.symbols.WasmSymbolKind.TheVariants.{Func};
ghost use Rattle.wl_symbols.specs.ImportSlots.{import_slots};
ghost use Rattle.wl_bind.specs.FunctionTypes.{type_in, type_of_defined, type_number, made_params, type_of_made, slot_type, declared_type};
ghost use Rattle.wl_bind.specs.BindingSteps.{numbers_in, slot_numbers, number_at, is_other_type};

use crate::binding::FunctionTarget;
use std::alloc::{AllocError, Global};
use std::marker::Model;
use wl_linking::{File, FileList, WasmSymbol, WasmSymbolKind};
use wl_module::{FuncType, ImportEntity, ValType};
use wl_rows::RowList;
use wl_symbols::{ImportSlot, MadeSort, NamedFunction, WasmLinkerSymbol, own_number};

/// The type of that number of the object of that number.
pub(crate) fn type_in<'f>(
    files: &'f FileList<'_>,
    object: usize,
    number: u32,
) -> Option<&'f FuncType>
    ensures { option_map (λ t. t.now) result ≡ type_in files.now object number }
{
    let file = files.get(object)?;
    file.types().get(number as usize)
}

/// The type of the function of that number that the object of that number defines.
pub(crate) fn type_of_defined<'f>(
    files: &'f FileList<'_>,
    object: usize,
    number: u32,
) -> Option<&'f FuncType>
    ensures { option_map (λ t. t.now) result ≡ type_of_defined files.now object number }
{
    let file = files.get(object)?;
    let number = file.functions().get(number as usize)?;
    file.types().get(*number as usize)
}

/// The number of the type under which a function is imported.
pub(crate) fn type_number(entity: ImportEntity) -> Option<u32>
    ensures { result ≡ type_number entity }
{
    match entity {
        ImportEntity::Func(number) => Some(number),
        ImportEntity::Table(_) | ImportEntity::Memory(_) | ImportEntity::Global(_) => None,
    }
}

/// The type under which a function slot is imported.
pub(crate) fn slot_type<'f>(
    files: &'f FileList<'_>,
    slot: &ImportSlot<'_, '_>,
) -> Option<&'f FuncType>
    ensures { option_map (λ t. t.now) result ≡ slot_type files.now slot.now }
{
    let number = type_number(slot.entity())?;
    type_in(files, slot.object(), number)
}

/// The numbers of the types under which the function slots of each object are imported. Clauses see
/// it as a row for each object.
#[derive(Drop)]
pub struct SlotTypes {
    rows: RowList<u32>,
}

impl Model for SlotTypes {
    ghost use Rattle.std.specs.Prelude.{ℕ, List};

    ghost Value = { List (List ℕ) };

    ghost view = { λ t. t.rows };
}

/// Adds the number of the type of an import, if it is a function.
fn push_number(list: &mut Vec<u32>, entity: ImportEntity) -> Result<(), AllocError>
    ensures { OnOk result
        (list.new.items ≡ list.old.items ++ option_to_list (type_number entity)) }
{
    if let Some(number) = type_number(entity) {
        list.push(number)?;
    }
    Ok(())
}

/// Puts the numbers of the types of the functions that an object imports in place of what the list
/// holds.
fn fill_numbers(list: &mut Vec<u32>, file: &File<'_>) -> Result<(), AllocError>
    ensures { OnOk result (list.new.items ≡ numbers_in file.now.imports) }
{
    list.clear();
    for import in file.imports() {
        push_number(list, import.entity)?;
    }
    Ok(())
}

impl SlotTypes {
    /// The types of the slots of these objects.
    ///
    /// # Errors
    /// `AllocError` where memory runs out.
    pub fn new(alloc: Global, files: &FileList<'_>) -> Result<Self, AllocError>
        ensures { IfOk result (λ types. types ≡ slot_numbers files.now) }
    {
        let mut rows = RowList::new(alloc);
        let mut row = Vec::new(alloc);
        for file in files.as_slice() {
            fill_numbers(&mut row, file)?;
            rows.push(&mut row)?;
        }
        Ok(SlotTypes { rows })
    }

    /// The number of the type of a slot.
    pub fn number(&self, object: usize, slot: u32) -> Option<u32>
        ensures { result ≡ number_at self.now object slot }
    {
        self.rows.get(object, slot as usize)
    }
}

/// The type under which the function slot of that number of an object is imported.
pub fn type_of_slot<'f>(
    files: &'f FileList<'_>,
    types: &SlotTypes,
    object: usize,
    slot: u32,
) -> Option<&'f FuncType>
    requires { types.now ≡ slot_numbers files.now }
    ensures { option_map (λ t. t.now) result ≡ option_and_then (slot_type files.now)
        (slice_get (import_slots files.now object Func) slot) }
{
    let number = types.number(object, slot)?;
    type_in(files, object, number)
}

/// The type under which the object of that number knows its function symbol: the import's where it
/// is undefined, else that of its own function.
pub(crate) fn declared_type<'f>(
    files: &'f FileList<'_>,
    types: &SlotTypes,
    object: usize,
    symbol: &WasmSymbol<'_>,
) -> Option<&'f FuncType>
    requires { types.now ≡ slot_numbers files.now }
    ensures { option_map (λ t. t.now) result ≡ declared_type files.now object symbol.now }
{
    if symbol.is_undefined() {
        type_of_slot(files, types, object, symbol.index)
    } else {
        let file = files.get(object)?;
        let number = own_number(WasmSymbolKind::Func, file, symbol.index)?;
        type_of_defined(files, object, number)
    }
}

/// The parameters of a function that the linker makes, which has no results.
pub(crate) fn made_params(function: NamedFunction) -> &'static [ValType]
    ensures { result.now ≡ made_params function }
{
    match function {
        NamedFunction::CallCtors => &[],
        NamedFunction::InitTls => &[ValType::I32],
    }
}

/// Whether a function that the linker makes has another type than this one.
fn is_other_made(declared: &FuncType, made: WasmLinkerSymbol) -> bool
    ensures { result ≡ option_map_or
        (λ actual. not (same_type declared.now actual)) (type_of_made made) false }
{
    match made.sort() {
        MadeSort::Function(function) => {
            declared.params() != made_params(function) || !declared.results().is_empty()
        }
        MadeSort::Global(_) | MadeSort::Data => false,
    }
}

/// Whether what is no import has another type than this one: a function that an object defines or
/// that the linker makes.
pub(crate) fn is_other_type(
    files: &FileList<'_>,
    declared: &FuncType,
    target: FunctionTarget,
) -> bool
    ensures { result ≡ is_other_type files.now declared.now target }
{
    match target {
        FunctionTarget::Defined { object, function } => {
            match type_of_defined(files, object, function) {
                Some(actual) => declared != actual,
                None => false,
            }
        }
        FunctionTarget::Made(made) => is_other_made(declared, made),
        FunctionTarget::Host { .. } | FunctionTarget::Stub { .. } => false,
    }
}
