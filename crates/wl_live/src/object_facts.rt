//! What an object says of its units, whatever names stand for.

ghost use Rattle.std.specs.Prelude.{◌≡◌, ◌++◌, length, IfOk, OnOk};
ghost use Rattle.wl_live.specs.Facts.{use_of, section_uses, uses_of, slot_unit, slot_use, slot_uses, AreFacts, AreAllFacts};

use crate::faults::{BodyFacts, collect_faults};
use std::alloc::{AllocError, Global};
use std::marker::Model;
use wl_bytes::ReadError;
use wl_linking::{File, FileList, Site, WasmRelocation, WasmSymbol, whole_objects};
use wl_lists::ItemList;
use wl_symbols::{UnitCounts, WasmGcUnit, counts_of, sibling_of, unit_in};

/// A unit uses a symbol: by a relocation in it, or as the import slot of an undefined symbol.
#[derive(Clone, Copy, PartialEq, Eq)]
pub(crate) struct SymbolUse {
    pub(crate) unit: WasmGcUnit,
    /// The symbol's number in the object.
    pub(crate) symbol: u32,
}

/// The number of a segment stands in a body.
#[derive(Clone, Copy, PartialEq, Eq)]
pub(crate) struct SegmentUse {
    pub(crate) function: u32,
    pub(crate) segment: u32,
}

/// A unit can't be kept.
#[derive(Clone, Copy, PartialEq, Eq)]
pub(crate) struct UnitFault {
    pub(crate) unit: WasmGcUnit,
    pub(crate) error: ReadError,
}

/// What an object says of its units, whatever names stand for: which symbols they use, which
/// segments bodies number, and why units can't be kept. Clauses see it as `Facts`.
#[derive(Drop)]
pub struct ObjectFacts {
    // by relocations in units, and then as import slots
    used: ItemList<SymbolUse>,
    // how many of them by relocations
    split: usize,
    segments: ItemList<SegmentUse>,
    faults: ItemList<UnitFault>,
}

impl Model for ObjectFacts {
    ghost use Rattle.wl_live.specs.Facts.{Facts};
    ghost use Rattle.std.specs.Prelude.{◌≤◌, length, take, drop};

    ghost Value = { Facts };

    ghost view = { λ f. record {
      uses = take f.split f.used;
      slots = drop f.split f.used;
      segments = f.segments;
      faults = f.faults;
    } };

    ghost invariant = { λ f. f.split ≤ length f.used };
}

impl ObjectFacts {
    /// Which symbols the relocations in units name.
    pub(crate) fn uses(&self) -> &[SymbolUse]
        ensures { result.now ≡ self.now.uses }
    {
        self.used.as_slice().split_at(self.split).0
    }

    /// Which symbols import slots have.
    pub(crate) fn slots(&self) -> &[SymbolUse]
        ensures { result.now ≡ self.now.slots }
    {
        self.used.as_slice().split_at(self.split).1
    }

    /// Which segments bodies number.
    pub(crate) fn segments(&self) -> &[SegmentUse]
        ensures { result.now ≡ self.now.segments }
    {
        self.segments.as_slice()
    }

    /// Why units can't be kept.
    pub(crate) fn faults(&self) -> &[UnitFault]
        ensures { result.now ≡ self.now.faults }
    {
        self.faults.as_slice()
    }
}

/// Adds a relocation in a unit of that kind, unless it is against a type.
fn push_use(
    list: &mut Vec<SymbolUse>,
    kind: WasmGcUnit,
    relocation: &WasmRelocation,
    site: &Site,
) -> Result<(), AllocError>
    ensures { OnOk result
        (list.new.items ≡ list.old.items ++ use_of kind relocation.now site.now) }
{
    if !relocation.ty.names_a_type() {
        list.push(SymbolUse {
            unit: sibling_of(kind, site.unit),
            symbol: relocation.index,
        })?;
    }
    Ok(())
}

/// Adds the relocations of a section, whose fields lie in units of that kind.
fn push_uses(
    list: &mut Vec<SymbolUse>,
    kind: WasmGcUnit,
    relocations: &[WasmRelocation],
    sites: &[Site],
) -> Result<(), AllocError>
    requires each { length sites.now ≡ length relocations.now }
    ensures { OnOk result
        (list.new.items ≡ list.old.items ++ section_uses kind relocations.now sites.now) }
{
    for i in 0..relocations.len() {
        push_use(list, kind, &relocations[i], &sites[i])?;
    }
    Ok(())
}

/// Which symbols the relocations of an object name, code before data, with room for those that its
/// import slots have.
fn collect_uses(alloc: Global, file: &File<'_>) -> Result<Vec<SymbolUse>, AllocError>
    ensures { IfOk result (λ v. v.items ≡ uses_of file.now) }
{
    file.stands_for_an_object();
    whole_objects();
    let (code, data) = (file.code_relocations(), file.data_relocations());
    let count = code.len().saturating_add(data.len());
    let room = count.saturating_add(file.imports().len());
    let mut list = Vec::with_capacity(alloc, room)?;
    let functions = WasmGcUnit::DefinedFunction(0);
    push_uses(&mut list, functions, code, file.code_sites())?;
    let segments = WasmGcUnit::DataSegment(0);
    push_uses(&mut list, segments, data, file.data_sites())?;
    Ok(list)
}

/// The import slot of a symbol, if it is undefined.
fn slot_of(counts: UnitCounts, symbol: &WasmSymbol<'_>) -> Option<WasmGcUnit>
    ensures { result ≡ slot_unit counts symbol.now }
{
    if symbol.is_undefined() {
        unit_in(counts, symbol)
    } else {
        None
    }
}

/// Adds the import slot of a symbol, if it has one.
fn push_slot(
    list: &mut Vec<SymbolUse>,
    counts: UnitCounts,
    number: u32,
    symbol: &WasmSymbol<'_>,
) -> Result<(), AllocError>
    ensures { OnOk result
        (list.new.items ≡ list.old.items ++ slot_use counts number symbol.now) }
{
    if let Some(unit) = slot_of(counts, symbol) {
        list.push(SymbolUse {
            unit,
            symbol: number,
        })?;
    }
    Ok(())
}

/// Adds which symbols the import slots of an object have.
fn push_slots(list: &mut Vec<SymbolUse>, file: &File<'_>) -> Result<(), AllocError>
    ensures { OnOk result (list.new.items ≡ list.old.items ++ slot_uses file.now) }
{
    file.stands_for_an_object();
    let counts = counts_of(file);
    let listed = file.symbols();
    for (i, symbol) in listed.iter().enumerate() {
        push_slot(list, counts, i as u32, symbol)?;
    }
    Ok(())
}

/// What an object says of its units.
///
/// # Errors
/// `AllocError` where memory runs out.
pub fn facts(alloc: Global, file: &File<'_>) -> Result<ObjectFacts, AllocError>
    ensures { IfOk result (AreFacts file.now) }
{
    let mut used = collect_uses(alloc, file)?;
    let split = used.len();
    push_slots(&mut used, file)?;
    let BodyFacts { segments, faults } = collect_faults(alloc, file)?;
    Ok(ObjectFacts {
        used: ItemList::new(used),
        split,
        segments: ItemList::new(segments),
        faults: ItemList::new(faults),
    })
}

/// What each object says of its units.
///
/// # Errors
/// `AllocError` where memory runs out.
pub fn all_facts(alloc: Global, files: &FileList<'_>) -> Result<Vec<ObjectFacts>, AllocError>
    ensures { IfOk result (λ v. AreAllFacts files.now v.items) }
{
    let mut list = Vec::with_capacity(alloc, files.len())?;
    for file in files.as_slice() {
        list.push(facts(alloc, file)?)?;
    }
    Ok(list)
}
