//! What import slots are bound to by what names stand for, whatever is kept.

ghost use Rattle.std.specs.Prelude.{◌≡◌, IfOk};
ghost use Rattle.wl_symbols.specs.Names.{def};
ghost use Rattle.wl_symbols.specs.SlotTargets.{own_number, is_definition_of, symbol_target, object_target, made_target, by_definition, by_symbol_name, by_field_name, slot_target, slot_targets};

use crate::entry::Definition;
use crate::linker_symbol::{WasmLinkerSymbol, is_imported_as};
use crate::slots::{ImportSlot, import_slots};
use crate::table::SymbolTable;
use crate::units::defined_number;
use std::alloc::{AllocError, Global};
use wl_linking::{File, WasmSymbol, WasmSymbolKind};
use wl_lists::ItemList;

/// What an import slot is bound to, of its kind.
#[derive(Clone, Copy, PartialEq, Eq)]
pub enum SlotTarget {
    /// The function or global of that number among those that the object defines.
    Defined { object: usize, number: u32 },
    /// What the linker makes.
    Made(WasmLinkerSymbol),
}

/// The number of a function or global among those that the object defines, by its index: nothing
/// where it is imported, or where there is none.
pub fn own_number(kind: WasmSymbolKind, file: &File<'_>, index: u32) -> Option<u32>
    ensures { result ≡ own_number kind file.now index }
{
    match kind {
        WasmSymbolKind::Func => defined_number(
            file.num_function_imports(),
            file.num_defined_functions(),
            index,
        ),
        WasmSymbolKind::Global => defined_number(
            file.num_global_imports(),
            file.num_defined_globals(),
            index,
        ),
        WasmSymbolKind::Data
        | WasmSymbolKind::Section
        | WasmSymbolKind::Event
        | WasmSymbolKind::Table => None,
    }
}

/// Whether the symbol is a definition of that kind.
fn is_definition_of(kind: WasmSymbolKind, symbol: &WasmSymbol<'_>) -> bool
    ensures { result ≡ is_definition_of kind symbol.now }
{
    symbol.is_defined() && is_imported_as(kind, symbol.kind)
}

/// What a symbol of the object of that number defines of that kind.
pub fn symbol_target(
    kind: WasmSymbolKind,
    object: usize,
    file: &File<'_>,
    symbol: &WasmSymbol<'_>,
) -> Option<SlotTarget>
    ensures { result ≡ symbol_target kind object file.now symbol.now }
{
    if is_definition_of(kind, symbol) {
        let number = own_number(kind, file, symbol.index)?;
        Some(SlotTarget::Defined { object, number })
    } else {
        None
    }
}

/// What an object defines of that kind, where this is its definition.
pub fn object_target(
    table: &SymbolTable<'_, '_>,
    kind: WasmSymbolKind,
    definition: Definition,
) -> Option<SlotTarget>
    ensures { result ≡ object_target table.now kind definition }
{
    match definition {
        Definition::Made(_) => None,
        Definition::Symbol { object, symbol } => {
            let file = table.files().get(object)?;
            let symbol = file.symbols().get(symbol as usize)?;
            symbol_target(kind, object, file, symbol)
        }
    }
}

/// What the linker makes of that kind, where this is its definition.
fn made_target(kind: WasmSymbolKind, definition: Definition) -> Option<SlotTarget>
    ensures { result ≡ made_target kind definition }
{
    match definition {
        Definition::Symbol { .. } => None,
        Definition::Made(made) => {
            if made.matches_import_kind(kind) {
                Some(SlotTarget::Made(made))
            } else {
                None
            }
        }
    }
}

/// What the symbol of those numbers stands for: itself, where there is none.
fn definition_of(table: &SymbolTable<'_, '_>, object: usize, symbol: u32) -> Definition
    ensures { result ≡ def table.now object symbol }
{
    if table.has_symbol(object, symbol) {
        table.definition(object, symbol)
    } else {
        Definition::Symbol { object, symbol }
    }
}

/// The definition of the slot's kind that an object has and an undefined symbol on it stands for.
fn by_definition(table: &SymbolTable<'_, '_>, slot: &ImportSlot<'_, '_>) -> Option<SlotTarget>
    ensures { result ≡ by_definition table.now slot.now }
{
    for symbol in slot.symbols() {
        let definition = definition_of(table, slot.object(), *symbol);
        if let Some(target) = object_target(table, slot.kind(), definition) {
            return Some(target);
        }
    }
    None
}

/// What the linker makes of that kind and an undefined symbol on the slot stands for.
fn by_symbol_name(table: &SymbolTable<'_, '_>, slot: &ImportSlot<'_, '_>) -> Option<SlotTarget>
    ensures { result ≡ by_symbol_name table.now slot.now }
{
    for symbol in slot.symbols() {
        let definition = definition_of(table, slot.object(), *symbol);
        if let Some(target) = made_target(slot.kind(), definition) {
            return Some(target);
        }
    }
    None
}

/// What the linker makes of that kind and the field name stands for. Few names are those of what it
/// makes, so few are looked up.
fn by_field_name(table: &SymbolTable<'_, '_>, slot: &ImportSlot<'_, '_>) -> Option<SlotTarget>
    ensures { result ≡ by_field_name table.now slot.now }
{
    if WasmLinkerSymbol::parse(slot.field()).is_none() {
        return None;
    }
    let definition = table.lookup(slot.field())?;
    made_target(slot.kind(), definition)
}

/// What the slot is bound to by what names stand for, whatever is kept: the function or global of
/// its kind that an object defines and an undefined symbol on it stands for; else what the linker
/// makes of that kind and such a symbol stands for; else what it makes of that kind and the field
/// name stands for. Nothing where none of them is: later rules bind the slot, or it is the host's.
pub fn slot_target(table: &SymbolTable<'_, '_>, slot: &ImportSlot<'_, '_>) -> Option<SlotTarget>
    ensures { result ≡ slot_target table.now slot.now }
{
    if let Some(target) = by_definition(table, slot) {
        return Some(target);
    }
    if let Some(target) = by_symbol_name(table, slot) {
        return Some(target);
    }
    by_field_name(table, slot)
}

/// What the slots of a kind of the object of that number are bound to by what names stand for, slot
/// by slot, as [`slot_target`] says of each. It takes one pass over the imports and one over the
/// symbols, and at most two look-ups of a name for a symbol on a slot and one for a slot.
///
/// # Errors
/// `AllocError` where memory runs out.
pub fn slot_targets(
    alloc: Global,
    table: &SymbolTable<'_, '_>,
    object: usize,
    kind: WasmSymbolKind,
) -> Result<ItemList<Option<SlotTarget>>, AllocError>
    ensures { IfOk result (λ list. list ≡ slot_targets table.now object kind) }
{
    let slots = import_slots(alloc, table, object, kind)?;
    let mut list = Vec::new(alloc);
    for slot in &slots {
        list.push(slot_target(table, slot))?;
    }
    Ok(ItemList::new(list))
}
