//! The names of imports, which symbols refer to by slots: numbers among the imports of a kind
//! (object file linking, version 2, "Symbol Table Subsection").

ghost use Rattle.std.specs.Prelude.{◌≡◌, ◌≤◌, ◌+◌, [], ◌∷◌, ◌++◌, ℕ, length, map, Option, Some, None, slice_get, OnOk, IfOk, IsTrue, MatchBool, MatchResult};
ghost use Rattle.wl_bytes.specs.declared.reader.TheConstants.{MAX_LEN};
ghost use Rattle.std.specs.List.{repeat, AllByRecursion};
ghost use Rattle.wl_linking.specs.Slots.{Slot, slot_of, slots_of, with_slot, with_import_name, claims, HasOneName, HasTwoNames, AgreeOnNames, SlotFault};
ghost use Rattle.wl_linking.specs.SlotsReading.{IsNamedWithin, slots_from, AreNamedByRange, IsNamedByRange, is_name_of, Agrees};
ghost use Rattle.wl_bytes.specs.Outcome.{HasCause};

use crate::spaces::{Counts, is_of_kind};
use std::alloc::{AllocError, Global};
use std::marker::Model;
use std::mem;
use wl_bytes::{ReadError, Why};
use wl_custom::{WasmSymbol, WasmSymbolKind, range_of};
use wl_lists::ItemList;
use wl_module::{ExternalKind, PlacedImport};

/// The field name of an import. Clauses see it as a `Slot`, with the name as a list.
#[derive(Drop)]
pub(crate) struct SlotName<'a> {
    name: &'a str,
    /// Where the name stands in the object's bytes.
    range: (u32, u32),
}

impl<'a> Model for SlotName<'a> {
    ghost use Rattle.wl_linking.specs.Slots.{Slot};

    ghost Value = { Slot };

    ghost view = { λ s. record { name = s.name.now; range = s.range } };
}

/// The field name of an import, where so many bytes of the object lie before its section's
/// payload.
fn slot_of<'a>(base: u32, placed: &PlacedImport<'a>) -> SlotName<'a>
    requires base { base ≤ MAX_LEN }
    requires place { placed.now.name_offset + length placed.now.import.name ≤ MAX_LEN }
    ensures { result ≡ slot_of base placed.now }
{
    let name = placed.import.name;
    SlotName {
        name,
        range: range_of(base, placed.name_offset + name.len(), name.len()),
    }
}

/// Adds the field name of an import that is of that kind.
fn push_slot<'a>(
    slots: &mut Vec<SlotName<'a>>,
    kind: ExternalKind,
    base: u32,
    placed: &PlacedImport<'a>,
) -> Result<(), AllocError>
    requires base { base ≤ MAX_LEN }
    requires place { placed.now.name_offset + length placed.now.import.name ≤ MAX_LEN }
    ensures { OnOk result (slots.new.items ≡ slots.old.items ++ slots_from kind base placed.now) }
{
    if is_of_kind(kind, &placed.import.entity) {
        slots.push(slot_of(base, placed))?;
    }
    Ok(())
}

/// The field names of the imports of a kind, where so many bytes of the object lie before the
/// payload of their section.
pub(crate) fn slots_of<'a>(
    alloc: Global,
    kind: ExternalKind,
    base: u32,
    imports: &[PlacedImport<'a>],
) -> Result<ItemList<SlotName<'a>>, AllocError>
    requires base { base ≤ MAX_LEN }
    requires places { AllByRecursion IsNamedWithin imports.now }
    ensures { IfOk result (λ slots. slots ≡ slots_of kind base imports.now) }
{
    let mut slots = Vec::new(alloc);
    for placed in imports {
        push_slot(&mut slots, kind, base, placed)?;
    }
    Ok(ItemList::new(slots))
}

/// Gives a symbol the name of its slot, if there is one.
fn name_by_slot<'a>(symbol: &mut WasmSymbol<'a>, slots: &[SlotName<'a>])
    ensures { symbol.new ≡ with_slot symbol.old (slice_get slots.now symbol.old.index) }
{
    if let Some(slot) = slots.get(symbol.index as usize) {
        symbol.set_name(slot.name, slot.range);
    }
}

/// Gives a symbol the name of its import, where it is to take that.
fn name_by_import<'a>(
    functions: &[SlotName<'a>],
    globals: &[SlotName<'a>],
    symbol: &mut WasmSymbol<'a>,
)
    ensures { symbol.new ≡ with_import_name functions.now globals.now symbol.old }
{
    if !symbol.is_undefined() || symbol.has_name() {
        return;
    }
    match symbol.kind {
        WasmSymbolKind::Func => name_by_slot(symbol, functions),
        WasmSymbolKind::Global => name_by_slot(symbol, globals),
        WasmSymbolKind::Data
        | WasmSymbolKind::Section
        | WasmSymbolKind::Event
        | WasmSymbolKind::Table => {}
    }
}

/// Gives each symbol without a name that of its import.
pub(crate) fn name_symbols<'a>(
    alloc: Global,
    functions: &[SlotName<'a>],
    globals: &[SlotName<'a>],
    symbols: &mut ItemList<WasmSymbol<'a>>,
) -> Result<(), AllocError>
    ensures { let named = with_import_name functions.now globals.now in
        OnOk result (symbols.new ≡ map named symbols.old) }
{
    let mut list = mem::replace(symbols, ItemList::empty(alloc)).into_vec();
    for i in 0..list.len() {
        name_by_import(functions, globals, &mut list[i]);
    }
    // In place of no symbols none of them is moved.
    symbols.append(ItemList::new(list))
}

/// Whether a symbol stands for an import of that kind, with a name to compare.
fn claims(kind: WasmSymbolKind, symbol: &WasmSymbol<'_>) -> bool
    ensures { result ≡ claims kind symbol.now }
{
    if !symbol.is_undefined() || symbol.kind != kind {
        return false;
    }
    match kind {
        WasmSymbolKind::Func | WasmSymbolKind::Global => true,
        WasmSymbolKind::Table => symbol.has_name(),
        WasmSymbolKind::Data | WasmSymbolKind::Section | WasmSymbolKind::Event => false,
    }
}

/// The name of an import as far as symbols have given it, with its place in the object. Clauses see
/// it as a `Slot`, if there is one.
#[derive(Drop)]
struct KnownName<'a> {
    name: Option<&'a str>,
    range: (u32, u32),
}

impl<'a> Model for KnownName<'a> {
    ghost use Rattle.std.specs.Prelude.{Option, option_map};
    ghost use Rattle.wl_linking.specs.Slots.{Slot};

    ghost Value = { Option Slot };

    ghost view = { λ k. option_map (λ n. record { name = n.now; range = k.range }) k.name };
}

/// No name for each of so many slots.
fn no_names<'a>(alloc: Global, count: usize) -> Result<Vec<KnownName<'a>>, AllocError>
    ensures { IfOk result (λ v. v.items ≡ repeat count (None ∷ [])) }
{
    let mut names = Vec::with_capacity(alloc, count)?;
    for _ in 0..count {
        names.push(KnownName {
            name: None,
            range: (0, 0),
        })?;
    }
    Ok(names)
}

/// Whether no name is known, or that of the symbol. A name at the same place of the object is the
/// same, whose bytes aren't looked at.
fn is_name_of(known: &KnownName<'_>, symbol: &WasmSymbol<'_>) -> bool
    requires { IsNamedByRange known.now symbol.now }
    ensures { result ≡ is_name_of known.now symbol.now }
{
    match known.name {
        None => true,
        Some(name) => known.range == symbol.name_range() || name == symbol.name,
    }
}

/// Takes down the name of a slot, and answers whether it is the one that was taken down before. The
/// name that came last is kept, so that those that take the import's, at one place, find it there.
/// For a slot that isn't there nothing is taken down.
fn agrees<'a>(names: &mut Vec<KnownName<'a>>, symbol: &WasmSymbol<'a>) -> bool
    requires { (known : Option Slot) → slice_get names.old.items symbol.now.index ≡ Some known
        → IsNamedByRange known symbol.now }
    ensures { Agrees names.old.items names.new.items symbol.now result }
{
    let slot = symbol.index as usize;
    if slot >= names.len() {
        return true;
    }
    let agrees = is_name_of(&names[slot], symbol);
    names[slot] = KnownName {
        name: Some(symbol.name),
        range: symbol.name_range(),
    };
    agrees
}

/// Whether the symbols of a kind stand for imports in ascending order, no two of them for the same.
fn ascend_by_slot(kind: WasmSymbolKind, symbols: &[WasmSymbol<'_>]) -> bool
    ensures { IsTrue result → (count : ℕ) → HasOneName kind count symbols.now }
{
    let mut behind: usize = 0;
    for symbol in symbols {
        if claims(kind, symbol) {
            let slot = symbol.index as usize;
            if slot < behind {
                return false;
            }
            behind = slot + 1;
        }
    }
    true
}

/// Whether the symbols of each of so many imports of that kind have one name.
fn have_one_name(
    alloc: Global,
    kind: WasmSymbolKind,
    count: usize,
    symbols: &[WasmSymbol<'_>],
) -> Result<bool, AllocError>
    requires { AreNamedByRange symbols.now }
    ensures { IfOk result (λ b. MatchBool b (HasOneName kind count symbols.now)
        (HasTwoNames kind count symbols.now)) }
{
    // Nearly always so, and then no names need be taken down.
    if ascend_by_slot(kind, symbols) {
        return Ok(true);
    }
    let mut names = no_names(alloc, count)?;
    for symbol in symbols {
        if claims(kind, symbol) && !agrees(&mut names, symbol) {
            return Ok(false);
        }
    }
    Ok(true)
}

/// Sees that the symbols of each import have one name, where so many functions, globals and tables
/// are imported.
pub(crate) fn check_slots(
    alloc: Global,
    spaces: Counts,
    symbols: &[WasmSymbol<'_>],
) -> Result<(), ReadError>
    requires { AreNamedByRange symbols.now }
    ensures { MatchResult result (λ _. AgreeOnNames spaces symbols.now)
        (HasCause (SlotFault spaces symbols.now)) }
{
    let (functions, globals, tables) = (
        spaces.imported_functions,
        spaces.imported_globals,
        spaces.imported_tables,
    );
    if have_one_name(alloc, WasmSymbolKind::Func, functions, symbols)?
        && have_one_name(alloc, WasmSymbolKind::Global, globals, symbols)?
        && have_one_name(alloc, WasmSymbolKind::Table, tables, symbols)?
    {
        Ok(())
    } else {
        Err(ReadError::Malformed(Why::SlotNames))
    }
}
