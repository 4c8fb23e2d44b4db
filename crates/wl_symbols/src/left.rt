//! Slots to which names bind nothing: which of them are stubs, and which are left to the host.

ghost use Rattle.std.specs.Prelude.{◌≡◌, ◌&&◌, ◌++◌, ◌∷◌, [], ℕ, List, if◌then◌else◌, IfOk, OnOk, map, not};
ghost use Rattle.std.specs.List.{filter};
ghost use Rattle.indexmap.specs.IndexSet.{insert_key, insert_all};
ghost use Rattle.wl_symbols.specs.ImportSlots.{ImportSlot as Slot};
ghost use Rattle.wl_symbols.specs.Left.{is_weak_slot, is_stub_name, stub_slots, stubs, host_slots, first_imports, first_slot, place_of_name, place_of_import};
ghost use Rattle.wl_symbols.specs.LeftSteps.{has_same_name, has_same_names, TellsNames, TellsImports, is_told_stub};

use crate::slots::ImportSlot;
use crate::table::SymbolTable;
use std::alloc::{AllocError, Global};
use std::collections::HashMap;
use std::marker::Model;

/// An import that slots are: what the host is asked for, or a stub. Clauses see it as a record of
/// the same name.
#[derive(Drop)]
pub struct HostImport<'a> {
    /// The name of the module that it is from; for a stub that of its first slot.
    pub module: &'a str,
    /// The name that it has there.
    pub name: &'a str,
    /// The object of its first slot.
    pub object: usize,
    /// The number of its first slot among the imports of its kind of that object.
    pub slot: u32,
}

impl<'a> Model for HostImport<'a> {
    ghost use Rattle.wl_symbols.specs.Left.{HostImport as Import};

    ghost Value = { Import };

    ghost view = { λ h. record {
      module_ = h.module.now;
      name = h.name.now;
      object = h.object;
      slot = h.slot;
    } };
}

impl<'a> HostImport<'a> {
    /// The import that a slot is.
    fn of(slot: &ImportSlot<'_, 'a>) -> Self
        ensures { result ≡ first_slot slot.now }
    {
        HostImport {
            module: slot.module(),
            name: slot.field(),
            object: slot.object(),
            slot: slot.number(),
        }
    }
}

/// Adds the import that a slot is, unless there is one of its field name.
fn add_name<'a>(
    list: &mut Vec<HostImport<'a>>,
    places: &mut HashMap<&'a str, usize>,
    slot: &ImportSlot<'_, 'a>,
) -> Result<(), AllocError>
    requires told { TellsNames list.old.items places.old }
    ensures list { OnOk result
        (list.new.items ≡ insert_key has_same_name list.old.items (first_slot slot.now)) }
    ensures told { OnOk result (TellsNames list.new.items places.new) }
{
    let name = slot.field();
    if places.contains_key(name) {
        return Ok(());
    }
    let place = list.len();
    list.push(HostImport::of(slot))?;
    places.insert(name, place)?;
    Ok(())
}

/// The stubs of a list of slots, one per field name, in order of their first slots. Clauses see it
/// as the list of their first slots.
#[derive(Drop)]
pub struct Stubs<'a> {
    list: Vec<HostImport<'a>>,
    places: HashMap<&'a str, usize>,
}

impl<'a> Model for Stubs<'a> {
    ghost use Rattle.std.specs.Prelude.{List};
    ghost use Rattle.wl_symbols.specs.Left.{HostImport as Import};
    ghost use Rattle.wl_symbols.specs.LeftSteps.{TellsNames as Tells};

    ghost Value = { List Import };

    ghost view = { λ s. s.list.items };

    ghost invariant = { λ s. Tells s.list.items s.places };
}

impl<'a> Stubs<'a> {
    /// The stubs, in order.
    pub fn as_slice(&self) -> &[HostImport<'a>]
        ensures { result.now ≡ self.now }
    {
        self.list.as_slice()
    }

    /// The place of the stub of that field name.
    pub fn place(&self, name: &str) -> Option<usize>
        ensures { result ≡ place_of_name name.now self.now }
    {
        self.places.get(name).copied()
    }
}

/// The stubs that these slots are.
fn stubs_of<'a>(alloc: Global, slots: &[ImportSlot<'_, 'a>]) -> Result<Stubs<'a>, AllocError>
    ensures { IfOk result (λ s. s ≡ insert_all has_same_name [] (map first_slot slots.now)) }
{
    let mut list = Vec::new(alloc);
    let mut places = HashMap::new(alloc);
    for slot in slots {
        add_name(&mut list, &mut places, slot)?;
    }
    Ok(Stubs { list, places })
}

/// Adds the import that a slot is, unless there is one of its module and field name.
fn add_import<'a>(
    list: &mut Vec<HostImport<'a>>,
    places: &mut HashMap<(&'a str, &'a str), usize>,
    slot: &ImportSlot<'_, 'a>,
) -> Result<(), AllocError>
    requires told { TellsImports list.old.items places.old }
    ensures list { OnOk result
        (list.new.items ≡ insert_key has_same_names list.old.items (first_slot slot.now)) }
    ensures told { OnOk result (TellsImports list.new.items places.new) }
{
    let names = (slot.module(), slot.field());
    if places.contains_key(&names) {
        return Ok(());
    }
    let place = list.len();
    list.push(HostImport::of(slot))?;
    places.insert(names, place)?;
    Ok(())
}

/// The host imports of a list of slots, one per module and field name, in order of their first
/// slots. Clauses see it as the list of their first slots.
#[derive(Drop)]
pub struct HostImports<'a> {
    list: Vec<HostImport<'a>>,
    places: HashMap<(&'a str, &'a str), usize>,
}

impl<'a> Model for HostImports<'a> {
    ghost use Rattle.std.specs.Prelude.{List};
    ghost use Rattle.wl_symbols.specs.Left.{HostImport as Import};
    ghost use Rattle.wl_symbols.specs.LeftSteps.{TellsImports as Tells};

    ghost Value = { List Import };

    ghost view = { λ s. s.list.items };

    ghost invariant = { λ s. Tells s.list.items s.places };
}

impl<'a> HostImports<'a> {
    /// The host imports, in order.
    pub fn as_slice(&self) -> &[HostImport<'a>]
        ensures { result.now ≡ self.now }
    {
        self.list.as_slice()
    }

    /// The place of the host import of that module and field name.
    pub fn place(&self, origin: &str, name: &str) -> Option<usize>
        ensures { result ≡ place_of_import origin.now name.now self.now }
    {
        self.places.get(&(origin, name)).copied()
    }
}

/// The host imports that these slots are.
///
/// # Errors
/// `AllocError` where memory runs out.
pub fn host_imports<'a>(
    alloc: Global,
    slots: &[ImportSlot<'_, 'a>],
) -> Result<HostImports<'a>, AllocError>
    ensures { IfOk result (λ h. h ≡ map first_slot (first_imports slots.now)) }
{
    let mut list = Vec::new(alloc);
    let mut places = HashMap::new(alloc);
    for slot in slots {
        add_import(&mut list, &mut places, slot)?;
    }
    Ok(HostImports { list, places })
}

/// Whether a symbol stands for the slot, and all that do are weak.
fn is_weak_slot(table: &SymbolTable<'_, '_>, slot: &ImportSlot<'_, '_>) -> bool
    ensures { result ≡ is_weak_slot table.now.objects slot.now }
{
    slot.has_symbols() && slot.are_symbols_weak(table)
}

/// Whether the field name may be a stub's: it may be one by the slots before, and by this one.
fn is_weak_with(before: bool, table: &SymbolTable<'_, '_>, slot: &ImportSlot<'_, '_>) -> bool
    ensures { result ≡ (before && is_weak_slot table.now.objects slot.now) }
{
    before && is_weak_slot(table, slot)
}

/// Whether the slot is a stub's by what is known of its field name; one that isn't known counts as
/// a stub's.
fn is_told_stub(names: &HashMap<&str, bool>, slot: &ImportSlot<'_, '_>) -> bool
    ensures { result ≡ is_told_stub names.now slot.now.item.name }
{
    names.get(slot.field()).copied().unwrap_or(true)
}

/// Which field names of these slots are stubs'.
fn stub_names<'a>(
    alloc: Global,
    table: &SymbolTable<'_, 'a>,
    slots: &[ImportSlot<'_, 'a>],
) -> Result<HashMap<&'a str, bool>, AllocError>
    ensures { IfOk result (λ m. (name : List ℕ)
        → is_told_stub m name ≡ is_stub_name table.now.objects slots.now name) }
{
    let mut names = HashMap::new(alloc);
    for slot in slots {
        let before = is_told_stub(&names, slot);
        let both = is_weak_with(before, table, slot);
        names.insert(slot.field(), both)?;
    }
    Ok(names)
}

/// Adds a slot to those of stubs, or to those that are left to the host.
fn push_slot<'t, 'a>(
    stub_slots: &mut Vec<ImportSlot<'t, 'a>>,
    host_slots: &mut Vec<ImportSlot<'t, 'a>>,
    is_stub: bool,
    slot: ImportSlot<'t, 'a>,
) -> Result<(), AllocError>
    ensures stub_slots { OnOk result
        (stub_slots.new.items ≡ stub_slots.old.items ++ (if is_stub then slot.entry ∷ [] else [])) }
    ensures host_slots { OnOk result
        (host_slots.new.items ≡ host_slots.old.items ++ (if is_stub then [] else slot.entry ∷ [])) }
{
    if is_stub {
        stub_slots.push(slot)?;
    } else {
        host_slots.push(slot)?;
    }
    Ok(())
}

/// Slots of stubs, and slots that are left to the host.
type SplitSlots<'t, 'a> = (Vec<ImportSlot<'t, 'a>>, Vec<ImportSlot<'t, 'a>>);

/// The slots of stubs by these names, and the others.
fn split_slots<'t, 'a>(
    alloc: Global,
    names: &HashMap<&str, bool>,
    slots: Vec<ImportSlot<'t, 'a>>,
) -> Result<SplitSlots<'t, 'a>, AllocError>
    ensures stub_slots { IfOk result (λ r. r.0.items
        ≡ filter (λ (t : Slot). is_told_stub names.now t.item.name) slots.entry.items) }
    ensures host_slots { IfOk result (λ r. r.1.items
        ≡ filter (λ (t : Slot). not (is_told_stub names.now t.item.name)) slots.entry.items) }
{
    let mut stub_slots = Vec::new(alloc);
    let mut host_slots = Vec::new(alloc);
    for slot in slots {
        let is_stub = is_told_stub(names, &slot);
        push_slot(&mut stub_slots, &mut host_slots, is_stub, slot)?;
    }
    Ok((stub_slots, host_slots))
}

/// Slots to which names bind nothing, those of stubs apart from those that are left to the host.
#[derive(Drop)]
pub struct DividedSlots<'t, 'a> {
    /// The slots of stubs, in order.
    pub stub_slots: Vec<ImportSlot<'t, 'a>>,
    /// The stubs.
    pub stubs: Stubs<'a>,
    /// The slots that are left to the host, in order.
    pub host_slots: Vec<ImportSlot<'t, 'a>>,
}

/// Divides slots of functions to which names bind nothing: a stub is for those of one field name,
/// where each of them has symbols, and only weak ones.
///
/// # Errors
/// `AllocError` where memory runs out.
pub fn divide_slots<'t, 'a>(
    alloc: Global,
    table: &SymbolTable<'t, 'a>,
    slots: Vec<ImportSlot<'t, 'a>>,
) -> Result<DividedSlots<'t, 'a>, AllocError>
    ensures stub_slots { IfOk result
        (λ d. d.stub_slots.items ≡ stub_slots table.now.objects slots.entry.items) }
    ensures stubs { IfOk result
        (λ d. d.stubs ≡ map first_slot (stubs table.now.objects slots.entry.items)) }
    ensures host_slots { IfOk result
        (λ d. d.host_slots.items ≡ host_slots table.now.objects slots.entry.items) }
{
    let names = stub_names(alloc, table, &slots)?;
    let (stub_slots, host_slots) = split_slots(alloc, &names, slots)?;
    let stubs = stubs_of(alloc, &stub_slots)?;
    Ok(DividedSlots {
        stub_slots,
        stubs,
        host_slots,
    })
}
