//! Relocation sections (object file linking, version 2, "Relocation Sections").

ghost use Rattle.std.specs.Prelude.{◌≡◌, length};
ghost use Rattle.wl_bytes.specs.Outcome.{Yields, Gives};
ghost use Rattle.wl_custom.specs.Relocations.{may_stand, type_verdict, addend_where_at, entries_to_end_at, held_entries_at};

use crate::relocation_type::{LAST_TYPE, RelocationType};
use std::alloc::Global;
use std::marker::Model;
use wl_bytes::{Form, Item, ReadError, Reader, Why, expect_end, read_list};

/// A place in a section's payload that takes the value of a symbol or a type (object file linking,
/// version 2, "Relocation Sections").
#[derive(Clone, Copy, PartialEq, Eq)]
pub struct WasmRelocation {
    /// What the field takes.
    pub ty: RelocationType,
    /// How many bytes of the section's payload lie before the field.
    pub offset: u32,
    /// The number in its object of the symbol, or of the type for `TypeIndexLeb`.
    pub index: u32,
    /// What is added to an address; 0 for other values.
    pub addend: i64,
}

/// The entries of a relocation section, in file order. Clauses see it as a list.
#[derive(Drop)]
pub struct RelocationList {
    list: Vec<WasmRelocation>,
}

impl Model for RelocationList {
    ghost use Rattle.std.specs.Prelude.{List};
    ghost use Rattle.wl_custom.specs.declared.relocations.WasmRelocation.{WasmRelocation as Relocation};

    ghost Value = { List Relocation };

    ghost view = { λ l. l.list.items };
}

impl RelocationList {
    /// How many entries there are.
    pub fn num_relocations(&self) -> usize
        ensures { result ≡ length self.now }
    {
        self.list.len()
    }

    /// The entries as a slice.
    pub fn as_slice(&self) -> &[WasmRelocation]
        ensures { result.now ≡ self.now }
    {
        self.list.as_slice()
    }
}

/// A relocation section (object file linking, version 2, "Relocation Sections").
#[derive(Drop)]
pub struct WasmRelocSection {
    /// The number of the section that its entries are for, among all sections of the object.
    pub target_section: u32,
    /// Its entries in file order; none are read where they are for a debug section.
    pub relocations: RelocationList,
}

/// What the fields of a relocation section lie in.
#[derive(Clone, Copy, PartialEq, Eq)]
pub enum Target {
    /// The code section.
    Code,
    /// The data section.
    Data,
    /// A debug section.
    Debug,
}

/// A relocation section, and what its fields lie in.
#[derive(Drop)]
pub struct RelocHeld {
    /// What its fields lie in.
    pub target: Target,
    /// The section itself.
    pub section: WasmRelocSection,
}

/// Whether relocations of that type may be for that target.
fn may_stand(target: Target, ty: RelocationType) -> bool
    ensures { result ≡ may_stand target ty }
{
    match target {
        Target::Data => ty.may_stand_in_data(),
        Target::Code | Target::Debug => true,
    }
}

/// The type of that number, in that target.
fn read_type(target: Target, number: u8) -> Result<RelocationType, ReadError>
    ensures { Gives (λ t. t) result (type_verdict target number) }
{
    if number > LAST_TYPE {
        return Err(ReadError::Malformed(Why::RelocType));
    }
    match RelocationType::from_number(number) {
        Some(ty) if may_stand(target, ty) => Ok(ty),
        Some(_) | None => Err(ReadError::Unsupported(Form::RelocType)),
    }
}

/// The addend that comes next, where the type has one.
#[tactic(auto, unfolding(crate::specs::Relocations::addend_where_at))]
fn read_addend_where(has_addend: bool, reader: &mut Reader<'_>) -> Result<i64, ReadError>
    ensures { Yields (λ z. z) result reader.new (addend_where_at has_addend reader.old) }
{
    if has_addend {
        let addend = reader.read_s32()?;
        Ok(i64::from(addend))
    } else {
        Ok(0)
    }
}

impl<'a> Item<'a> for WasmRelocation {
    ghost use Rattle.wl_custom.specs.Relocations.{entry_at};

    type Under = Target;

    ghost item_at = { entry_at };

    #[tactic(auto, unfolding(crate::specs::Relocations::entry_at))]
    fn read(
        _alloc: Global,
        target: &mut Target,
        reader: &mut Reader<'a>,
    ) -> Result<Self, ReadError> {
        let number = reader.read_u8()?;
        let ty = read_type(*target, number)?;
        let offset = reader.read_u32()?;
        let index = reader.read_u32()?;
        let addend = read_addend_where(ty.has_addend(), reader)?;
        Ok(WasmRelocation {
            ty,
            offset,
            index,
            addend,
        })
    }
}

/// The entries up to the end of the payload.
#[tactic(auto, using(wl_bytes::proofs::Loops::list_kept))]
fn read_entries(
    alloc: Global,
    target: Target,
    reader: &mut Reader<'_>,
) -> Result<Vec<WasmRelocation>, ReadError>
    ensures { Gives (λ v. v.items) result (entries_to_end_at target reader.old) }
{
    let entries = read_list(alloc, target, reader)?;
    expect_end(reader)?;
    Ok(entries)
}

/// What follows the number of the section that a relocation section is for: its entries up to
/// the end of the payload, or none where they are for a debug section (object file linking, version
/// 2, "Relocation Sections").
///
/// # Errors
/// `Malformed` and `Unsupported` name the first thing at fault in the payload.
pub fn read_held_entries(
    alloc: Global,
    target: Target,
    reader: &mut Reader<'_>,
) -> Result<RelocationList, ReadError>
    ensures { Gives (λ l. l) result (held_entries_at target reader.old) }
{
    let list = match target {
        Target::Code | Target::Data => read_entries(alloc, target, reader)?,
        Target::Debug => Vec::new(alloc),
    };
    Ok(RelocationList { list })
}
