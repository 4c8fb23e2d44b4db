//! The text of each kind of line, put on a page: what has the things of a line, and not the line
//! itself, writes it with no copy of them.
//!
//! Each call has the line that it writes in its clause. Numbers of any size are written, and those
//! of a [`Line`](crate::Line) are in range.

ghost use Rattle.std.specs.Prelude.{◌≡◌, ◌++◌, OnOk, codes, decimal};
ghost use Rattle.std.specs.List.{flat_map};
ghost use Rattle.wl_check.specs.Texts.{newline, number, further_type, types, maximum, memory, origin_text, state_text, to_text, place_name, import_word, entity_text, line_text};
ghost use Rattle.wl_check.specs.Ranges.{AreBytes, IsMaximum, MemoryFits, EntityFits, OriginFits, StateFits, ToFits, FixupFits};
ghost use Rattle.wl_check.specs.declared.line.Line.TheVariants.{Version, OutputType, Import, Function, Body, Global, Memory, Table, Slot, Segment, Export, Start, Fix, Feature, Debug, End};
ghost use Rattle.wl_check.specs.declared.line.FunctionSource.TheVariants as source;

use crate::case::Case;
use crate::line::{MadeFunction, SegmentState};
use std::alloc::AllocError;
use wl_module::{ExternalKind, FuncType, GlobalType, MemoryType, ValType};
use wl_output::{Fixup, FixupTo, GlobalOrigin, OutputImportEntity};
use wl_symbols::FixupPlace;
use wl_text::Page;

// ---- the first line and the last

/// The first line.
pub fn push_version_line(page: &mut Page) -> Result<(), AllocError>
    ensures { OnOk result (page.new ≡ page.old ++ line_text Version) }
{
    page.push_word(b"wildplan 1\n")
}

/// The last line.
pub fn push_end_line(page: &mut Page) -> Result<(), AllocError>
    ensures { OnOk result (page.new ≡ page.old ++ line_text End) }
{
    page.push_word(b"end\n")
}

// ---- types

/// The names of value types, each after a comma.
fn push_further_types(page: &mut Page, listed: &[ValType]) -> Result<(), AllocError>
    ensures { OnOk result
        (page.new ≡ page.old ++ flat_map further_type listed.now) }
{
    for value_type in listed {
        page.push_word(b",")?;
        page.push_word(value_type.word())?;
    }
    Ok(())
}

/// The names of value types, with a comma between two of them, and a bracket.
fn push_types(page: &mut Page, listed: &[ValType]) -> Result<(), AllocError>
    ensures { OnOk result (page.new ≡ page.old ++ types listed.now) }
{
    if let [first, rest @ ..] = listed {
        page.push_word(first.word())?;
        push_further_types(page, rest)?;
    }
    page.push_word(b")")
}

/// The line of a type.
pub fn push_type_line(page: &mut Page, index: u64, ty: &FuncType) -> Result<(), AllocError>
    ensures { OnOk result
        (page.new ≡ page.old ++ line_text (OutputType index ty.now)) }
{
    page.push_decimal(b"type ", index)?;
    page.push_word(b" (")?;
    push_types(page, ty.params())?;
    page.push_word(b"->(")?;
    push_types(page, ty.results())?;
    page.push_word(b"\n")
}

// ---- imports

/// The greatest size of a memory, after a blank.
fn push_maximum(page: &mut Page, size: Option<u64>) -> Result<(), AllocError>
    ensures appended { OnOk result (page.new ≡ page.old ++ maximum size) }
    ensures fits { OnOk result (IsMaximum size) }
{
    match size {
        None => page.push_word(b"- "),
        Some(size) => {
            page.push_decimal(b"", size)?;
            page.push_word(b" ")
        }
    }
}

/// A memory.
fn push_memory(page: &mut Page, ty: MemoryType) -> Result<(), AllocError>
    ensures appended { OnOk result (page.new ≡ page.old ++ memory ty) }
    ensures fits { OnOk result (MemoryFits ty) }
{
    page.push_decimal(b"", ty.initial)?;
    page.push_word(b" ")?;
    push_maximum(page, ty.maximum)?;
    page.push_word(if ty.shared { b"shared\n" } else { b"-\n" })
}

/// What the line of an import begins with.
fn import_word(entity: OutputImportEntity) -> &'static [u8]
    ensures { result.now ≡ import_word entity }
{
    match entity {
        OutputImportEntity::Function { .. } => b"import func ",
        OutputImportEntity::Global(_) => b"import global ",
        OutputImportEntity::Memory(_) => b"import memory ",
    }
}

/// What is imported.
fn push_entity(page: &mut Page, entity: OutputImportEntity) -> Result<(), AllocError>
    ensures appended { OnOk result (page.new ≡ page.old ++ entity_text entity) }
    ensures fits { OnOk result (EntityFits entity) }
{
    match entity {
        OutputImportEntity::Function { type_index } => {
            page.push_decimal(b"", u64::from(type_index))?;
            page.push_word(b"\n")
        }
        OutputImportEntity::Global(ty) => {
            page.push_word(ty.content_type.word())?;
            page.push_word(if ty.mutable { b" var\n" } else { b" const\n" })
        }
        OutputImportEntity::Memory(ty) => push_memory(page, ty),
    }
}

/// The line of an import, with its two names.
pub fn push_import_line(
    page: &mut Page,
    origin: &[u8],
    name: &[u8],
    entity: OutputImportEntity,
) -> Result<(), AllocError>
    ensures appended { OnOk result
        (page.new ≡ page.old ++ line_text (Import origin.now name.now entity)) }
    ensures fits { OnOk result (EntityFits entity) }
{
    page.push_word(import_word(entity))?;
    page.push_quoted_bytes(origin)?;
    page.push_word(b" ")?;
    page.push_quoted_bytes(name)?;
    page.push_word(b" ")?;
    push_entity(page, entity)
}

// ---- functions

/// The line of a function that an object defines.
pub fn push_object_function_line(
    page: &mut Page,
    index: u64,
    ty: u32,
    object: usize,
    unit: u32,
) -> Result<(), AllocError>
    ensures { OnOk result
        (page.new ≡ page.old ++ line_text (Function index ty (source.Object object unit))) }
{
    page.push_decimal(b"func ", index)?;
    page.push_decimal(b" type ", u64::from(ty))?;
    page.push_decimal(b" object ", object as u64)?;
    page.push_decimal(b" unit ", u64::from(unit))?;
    page.push_word(b"\n")
}

/// The line of a function that the linker makes under a name.
pub fn push_made_function_line(
    page: &mut Page,
    index: u64,
    ty: u32,
    made: MadeFunction,
) -> Result<(), AllocError>
    ensures { OnOk result
        (page.new ≡ page.old ++ line_text (Function index ty (source.Made made))) }
{
    page.push_decimal(b"func ", index)?;
    page.push_decimal(b" type ", u64::from(ty))?;
    page.push_word(b" made ")?;
    page.push_word(made.word())?;
    page.push_word(b"\n")
}

/// The line of a stub.
pub fn push_stub_line(page: &mut Page, index: u64, ty: u32, name: &[u8]) -> Result<(), AllocError>
    ensures { OnOk result
        (page.new ≡ page.old ++ line_text (Function index ty (source.Stub name.now))) }
{
    page.push_decimal(b"func ", index)?;
    page.push_decimal(b" type ", u64::from(ty))?;
    page.push_word(b" stub ")?;
    page.push_quoted_bytes(name)?;
    page.push_word(b"\n")
}

/// The line of a wrapper.
pub fn push_wrapper_line(
    page: &mut Page,
    index: u64,
    ty: u32,
    name: &[u8],
) -> Result<(), AllocError>
    ensures { OnOk result
        (page.new ≡ page.old ++ line_text (Function index ty (source.Wrap name.now))) }
{
    page.push_decimal(b"func ", index)?;
    page.push_decimal(b" type ", u64::from(ty))?;
    page.push_word(b" wrap ")?;
    page.push_quoted_bytes(name)?;
    page.push_word(b"\n")
}

/// The line of a body.
pub fn push_body_line(page: &mut Page, index: u64, bytes: &[u8]) -> Result<(), AllocError>
    ensures appended { OnOk result (page.new ≡ page.old ++ line_text (Body index bytes.now)) }
    ensures fits { OnOk result (AreBytes bytes.now) }
{
    page.push_decimal(b"body ", index)?;
    page.push_word(b" ")?;
    page.push_hex(bytes)?;
    page.push_word(b"\n")
}

// ---- globals, the memory, the table

/// Where a global is from.
fn push_origin(page: &mut Page, origin: GlobalOrigin) -> Result<(), AllocError>
    ensures appended { OnOk result (page.new ≡ page.old ++ origin_text origin) }
    ensures fits { OnOk result (OriginFits origin) }
{
    match origin {
        GlobalOrigin::Object { object, unit } => {
            page.push_decimal(b"object ", object as u64)?;
            page.push_decimal(b" unit ", u64::from(unit))?;
            page.push_word(b"\n")
        }
        GlobalOrigin::Made(made) => {
            page.push_word(b"made ")?;
            page.push_word(made.word())?;
            page.push_word(b"\n")
        }
    }
}

/// The line of a global, with the bytes of its first value.
pub fn push_global_line(
    page: &mut Page,
    index: u64,
    ty: GlobalType,
    init: &[u8],
    origin: GlobalOrigin,
) -> Result<(), AllocError>
    ensures appended { OnOk result
        (page.new ≡ page.old ++ line_text (Global index ty init.now origin)) }
    ensures bytes { OnOk result (AreBytes init.now) }
    ensures fits { OnOk result (OriginFits origin) }
{
    page.push_decimal(b"global ", index)?;
    page.push_word(b" ")?;
    page.push_word(ty.content_type.word())?;
    page.push_word(if ty.mutable { b" var " } else { b" const " })?;
    page.push_hex(init)?;
    page.push_word(b" ")?;
    push_origin(page, origin)
}

/// The line of the memory.
pub fn push_memory_line(page: &mut Page, ty: MemoryType) -> Result<(), AllocError>
    ensures appended { OnOk result (page.new ≡ page.old ++ line_text (Memory ty)) }
    ensures fits { OnOk result (MemoryFits ty) }
{
    page.push_word(b"memory ")?;
    push_memory(page, ty)
}

/// The line of the table.
pub fn push_table_line(page: &mut Page, minimum: u64) -> Result<(), AllocError>
    ensures { OnOk result (page.new ≡ page.old ++ line_text (Table minimum)) }
{
    page.push_decimal(b"table ", minimum)?;
    page.push_word(b"\n")
}

/// The line of a slot.
pub fn push_slot_line(page: &mut Page, slot: u64, function: u32) -> Result<(), AllocError>
    ensures { OnOk result (page.new ≡ page.old ++ line_text (Slot slot function)) }
{
    page.push_decimal(b"slot ", slot)?;
    page.push_decimal(b" ", u64::from(function))?;
    page.push_word(b"\n")
}

// ---- segments

/// Where a segment goes, after a blank, and how many bytes it has.
fn push_state(page: &mut Page, state: SegmentState, len: u64) -> Result<(), AllocError>
    ensures appended { OnOk result
        (page.new ≡ page.old ++ codes " " ++ state_text state ++ number newline len) }
    ensures fits { OnOk result (StateFits state) }
{
    match state {
        SegmentState::Active { address } => page.push_decimal(b" active ", u64::from(address))?,
        SegmentState::Shared { address } => page.push_decimal(b" shared ", u64::from(address))?,
        SegmentState::Tls { offset } => page.push_decimal(b" tls ", u64::from(offset))?,
        SegmentState::Passive => page.push_word(b" passive -")?,
    }
    page.push_decimal(b" ", len)?;
    page.push_word(b"\n")
}

/// The line of a segment, with its object's number and its own there.
pub fn push_segment_line(
    page: &mut Page,
    index: u64,
    from: (usize, u32),
    state: SegmentState,
    len: u64,
) -> Result<(), AllocError>
    ensures appended { OnOk result
        (page.new ≡ page.old ++ line_text (Segment index from.0 from.1 state len)) }
    ensures fits { OnOk result (StateFits state) }
{
    let (object, unit) = from;
    page.push_decimal(b"segment ", index)?;
    page.push_decimal(b" object ", object as u64)?;
    page.push_decimal(b" unit ", u64::from(unit))?;
    push_state(page, state, len)?;
    Ok(())
}

// ---- exports and the start

/// The line of an export.
pub fn push_export_line(
    page: &mut Page,
    name: &[u8],
    kind: ExternalKind,
    index: u32,
) -> Result<(), AllocError>
    ensures { OnOk result
        (page.new ≡ page.old ++ line_text (Export name.now kind index)) }
{
    page.push_word(b"export ")?;
    page.push_quoted_bytes(name)?;
    page.push_word(b" ")?;
    page.push_word(kind.word())?;
    page.push_decimal(b" ", u64::from(index))?;
    page.push_word(b"\n")
}

/// The line of the function that runs at the start.
pub fn push_start_line(page: &mut Page, function: u32) -> Result<(), AllocError>
    ensures { OnOk result (page.new ≡ page.old ++ line_text (Start function)) }
{
    page.push_decimal(b"start ", u64::from(function))?;
    page.push_word(b"\n")
}

// ---- relocations

/// What a field lies in, after a blank, and the number of that.
fn push_place(page: &mut Page, place: FixupPlace, unit: u32) -> Result<(), AllocError>
    ensures { OnOk result (page.new ≡ page.old ++
        (codes " " ++ place_name place ++ codes " " ++ decimal unit)) }
{
    match place {
        FixupPlace::Code => page.push_decimal(b" code ", u64::from(unit)),
        FixupPlace::Segment => page.push_decimal(b" segment ", u64::from(unit)),
    }
}

/// What a field takes, after a blank.
fn push_to(page: &mut Page, to: FixupTo) -> Result<(), AllocError>
    ensures appended { OnOk result (page.new ≡ page.old ++ codes " " ++ to_text to) }
    ensures fits { OnOk result (ToFits to) }
{
    match to {
        FixupTo::Value { value, addend_left } => {
            page.push_decimal(b" ", u64::from(value))?;
            page.push_signed(b" ", i64::from(addend_left))?;
        }
        FixupTo::Deferred { offset } => page.push_signed(b" deferred ", i64::from(offset))?,
    }
    page.push_word(b"\n")
}

/// The line of a relocation.
pub fn push_fixup_line(page: &mut Page, fixup: Fixup) -> Result<(), AllocError>
    ensures appended { OnOk result (page.new ≡ page.old ++ line_text (Fix fixup)) }
    ensures fits { OnOk result (FixupFits fixup) }
{
    page.push_decimal(b"fix ", fixup.object as u64)?;
    push_place(page, fixup.place, fixup.unit)?;
    page.push_decimal(b" ", u64::from(fixup.position))?;
    page.push_word(b" ")?;
    page.push_word(fixup.ty.word())?;
    push_to(page, fixup.to)?;
    Ok(())
}

// ---- features and debug sections

/// The line of a feature.
pub fn push_feature_line(page: &mut Page, name: &[u8]) -> Result<(), AllocError>
    ensures { OnOk result (page.new ≡ page.old ++ line_text (Feature name.now)) }
{
    page.push_word(b"feature ")?;
    page.push_quoted_bytes(name)?;
    page.push_word(b"\n")
}

/// The line of a debug section, with how many bytes it has.
pub fn push_debug_line(
    page: &mut Page,
    object: usize,
    name: &[u8],
    len: u64,
) -> Result<(), AllocError>
    ensures { OnOk result
        (page.new ≡ page.old ++ line_text (Debug object name.now len)) }
{
    page.push_decimal(b"debug ", object as u64)?;
    page.push_word(b" ")?;
    page.push_quoted_bytes(name)?;
    page.push_decimal(b" ", len)?;
    page.push_word(b"\n")
}
