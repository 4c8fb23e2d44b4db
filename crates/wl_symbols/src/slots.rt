//! Import slots, and the undefined symbols that stand for them.

ghost use Rattle.std.specs.Prelude.{◌≡◌, [], IfOk, OnOk, if◌then◌else◌, ◌&&◌, false};
ghost use Rattle.std.specs.Option.{option_map_or};
ghost use Rattle.wl_custom.specs.Symbols.{is_undefined, is_weak};
ghost use Rattle.wl_symbols.specs.Entries.{symbol_in};
ghost use Rattle.wl_symbols.specs.LinkerNames.{is_imported_as};
ghost use Rattle.wl_symbols.specs.ImportSlots.{is_slot_of, slot_imports, numbered_slots, object_slots, import_slots, has_symbols, are_symbols_weak};
ghost use Rattle.wl_symbols.specs.SlotSteps.{with_symbol, with_symbol_at};

use crate::linker_symbol::is_imported_as;
use crate::table::SymbolTable;
use smallvec::SmallVec;
use std::alloc::{AllocError, Global};
use std::marker::Model;
use wl_linking::{File, WasmSymbol, WasmSymbolKind};
use wl_module::{Import, ImportEntity};

/// An import slot: a function or global that an object imports, with the undefined symbols that
/// stand for it. Clauses see it as a record of the same name.
#[derive(Drop)]
pub struct ImportSlot<'f, 'a> {
    object: usize,
    kind: WasmSymbolKind,
    number: u32,
    import: &'f Import<'a>,
    // nearly always one
    symbols: SmallVec<u32, 2>,
}

impl<'f, 'a> Model for ImportSlot<'f, 'a> {
    ghost use Rattle.wl_symbols.specs.ImportSlots.{ImportSlot as Slot};

    ghost Value = { Slot };

    ghost view = { λ t. record {
      object = t.object;
      kind = t.kind;
      number = t.number;
      item = t.import.now;
      symbols = t.symbols.items;
    } };
}

impl<'f, 'a> ImportSlot<'f, 'a> {
    /// The number of the object that imports it.
    pub fn object(&self) -> usize
        ensures { result ≡ self.now.object }
    {
        self.object
    }

    /// What it is, a function or a global.
    pub fn kind(&self) -> WasmSymbolKind
        ensures { result ≡ self.now.kind }
    {
        self.kind
    }

    /// Its number among the imports of its kind of the object.
    pub fn number(&self) -> u32
        ensures { result ≡ self.now.number }
    {
        self.number
    }

    /// The name of the module that it is from.
    pub fn module(&self) -> &'a str
        ensures { result.now ≡ self.now.item.origin }
    {
        let import = self.import;
        import.module
    }

    /// The name that it has there.
    pub fn field(&self) -> &'a str
        ensures { result.now ≡ self.now.item.name }
    {
        let import = self.import;
        import.name
    }

    /// The type under which it is imported: that of a global, or the number of that of a function.
    pub fn entity(&self) -> ImportEntity
        ensures { result ≡ self.now.item.entity }
    {
        let import = self.import;
        import.entity
    }

    /// The undefined symbols that stand for it, by their numbers in the object, in order.
    pub fn symbols(&self) -> &[u32]
        ensures { result.now ≡ self.now.symbols }
    {
        self.symbols.as_slice()
    }

    /// Whether a symbol stands for it.
    pub fn has_symbols(&self) -> bool
        ensures { result ≡ has_symbols self.now }
    {
        !self.symbols().is_empty()
    }

    /// Whether all symbols that stand for it are weak.
    pub fn are_symbols_weak(&self, table: &SymbolTable<'_, '_>) -> bool
        ensures { result ≡ are_symbols_weak table.now.objects self.now }
    {
        for symbol in self.symbols() {
            if !is_weak_at(table, self.object, *symbol) {
                return false;
            }
        }
        true
    }

    /// Adds one more symbol that stands for it.
    fn push_symbol(&mut self, number: u32) -> Result<(), AllocError>
        ensures { OnOk result (self.new ≡ with_symbol number self.old) }
    {
        self.symbols.push(number)?;
        Ok(())
    }
}

/// Whether there is a symbol of those numbers, and it is weak.
fn is_weak_at(table: &SymbolTable<'_, '_>, object: usize, symbol: u32) -> bool
    ensures { result ≡ option_map_or is_weak (symbol_in table.now.objects object symbol) false }
{
    match table.symbol(object, symbol) {
        None => false,
        Some(symbol) => symbol.is_weak(),
    }
}

/// Whether what is imported has a slot of that kind: functions and globals have.
pub fn is_slot_of(kind: WasmSymbolKind, entity: ImportEntity) -> bool
    ensures { result ≡ is_slot_of kind entity }
{
    match kind {
        WasmSymbolKind::Func => matches!(entity, ImportEntity::Func(_)),
        WasmSymbolKind::Global => matches!(entity, ImportEntity::Global(_)),
        WasmSymbolKind::Data
        | WasmSymbolKind::Section
        | WasmSymbolKind::Event
        | WasmSymbolKind::Table => false,
    }
}

/// Puts the slots of a kind of an object, without symbols, in place of what the list holds.
fn fill_bare<'f, 'a>(
    alloc: Global,
    object: usize,
    kind: WasmSymbolKind,
    file: &'f File<'a>,
    slots: &mut Vec<ImportSlot<'f, 'a>>,
) -> Result<(), AllocError>
    ensures { OnOk result (slots.new.items
        ≡ numbered_slots object kind [] 0 (slot_imports kind file.now.imports)) }
{
    file.stands_for_an_object();
    slots.clear();
    let mut number: u32 = 0;
    for import in file.imports() {
        if is_slot_of(kind, import.entity) {
            slots.push(ImportSlot {
                object,
                kind,
                number,
                import,
                symbols: SmallVec::new(alloc),
            })?;
            number += 1;
        }
    }
    Ok(())
}

/// Adds a symbol to the slot of that place, if there is one.
fn push_symbol_at(
    slots: &mut Vec<ImportSlot<'_, '_>>,
    place: usize,
    number: u32,
) -> Result<(), AllocError>
    ensures { OnOk result (slots.new.items ≡ with_symbol_at place number slots.old.items) }
{
    if place < slots.len() {
        slots[place].push_symbol(number)?;
    }
    Ok(())
}

/// Adds a symbol to its slot, if it is an undefined one of that kind.
fn place_symbol(
    slots: &mut Vec<ImportSlot<'_, '_>>,
    kind: WasmSymbolKind,
    number: u32,
    symbol: &WasmSymbol<'_>,
) -> Result<(), AllocError>
    ensures { OnOk result (slots.new.items
        ≡ (if is_undefined symbol.now && is_imported_as kind symbol.now.kind
        then with_symbol_at symbol.now.index number slots.old.items else slots.old.items)) }
{
    if symbol.is_undefined() && is_imported_as(kind, symbol.kind) {
        push_symbol_at(slots, symbol.index as usize, number)?;
    }
    Ok(())
}

/// Puts the slots of a kind of an object, under its number, in place of what the list holds.
fn fill_from<'f, 'a>(
    alloc: Global,
    object: usize,
    kind: WasmSymbolKind,
    file: &'f File<'a>,
    slots: &mut Vec<ImportSlot<'f, 'a>>,
) -> Result<(), AllocError>
    ensures { OnOk result (slots.new.items ≡ object_slots object kind file.now) }
{
    file.stands_for_an_object();
    fill_bare(alloc, object, kind, file, slots)?;
    let symbols = file.symbols();
    for (i, symbol) in symbols.iter().enumerate() {
        place_symbol(slots, kind, i as u32, symbol)?;
    }
    Ok(())
}

/// Puts the slots of a kind of the object of that number in place of what the list holds, so that
/// the slots of many objects, one after the other, take memory once.
///
/// # Errors
/// `AllocError` where memory runs out.
pub fn fill_slots<'t, 'a>(
    alloc: Global,
    table: &SymbolTable<'t, 'a>,
    object: usize,
    kind: WasmSymbolKind,
    slots: &mut Vec<ImportSlot<'t, 'a>>,
) -> Result<(), AllocError>
    ensures { OnOk result (slots.new.items ≡ import_slots table.now.objects object kind) }
{
    if let Some(file) = table.files().get(object) {
        return fill_from(alloc, object, kind, file, slots);
    }
    slots.clear();
    Ok(())
}

/// The slots of a kind of the object of that number, a function or global each: none for other
/// kinds, and none where there is no such object.
///
/// # Errors
/// `AllocError` where memory runs out.
pub fn import_slots<'t, 'a>(
    alloc: Global,
    table: &SymbolTable<'t, 'a>,
    object: usize,
    kind: WasmSymbolKind,
) -> Result<Vec<ImportSlot<'t, 'a>>, AllocError>
    ensures { IfOk result (λ v. v.items ≡ import_slots table.now.objects object kind) }
{
    let mut slots = Vec::new(alloc);
    fill_slots(alloc, table, object, kind, &mut slots)?;
    Ok(slots)
}
