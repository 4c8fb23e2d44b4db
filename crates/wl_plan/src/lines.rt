//! The listing of a plan, line by line.

ghost use Rattle.std.specs.Prelude.{◌≡◌, ◌≤◌, ◌<◌, ◌+◌, ◌-◌, ◌^◌, ◌++◌, [], map, length, IfOk, OnOk};
ghost use Rattle.std.specs.List.{flat_map, AllByRecursion};
ghost use Rattle.wl_check.specs.Ranges.{InRange, IsSmall};
ghost use Rattle.wl_check.specs.Spelled.{IsListing};
ghost use Rattle.wl_check.specs.Texts.{line_text};
ghost use Rattle.wl_check.specs.declared.line.Line.TheVariants.{Fix, Feature};
ghost use Rattle.wl_plan.specs.PlanLines.{numbered_lines, type_line, import_line, made_function, function_line, body_line, global_line, memory_lines, table_lines, slot_line, state_of, segment_line, export_line, start_lines, debug_line, output_segments, lines_of, listing_text, HaveNumbers, ArePayloadsSmall, AreDebugSectionsSmall, HasListing};

use crate::layout::{
    FunctionOrigin, LinkPlan, OutputFunction, OutputImport, PlannedGlobal, count_output_imports,
};
use crate::object_segments::{ObjectSegment, output_segments, segment_count};
use std::alloc::{AllocError, Global};
use wl_check::{
    Line, ListingError, MadeFunction, SegmentState, push_body_line, push_debug_line, push_end_line,
    push_export_line, push_feature_line, push_fixup_line, push_global_line, push_import_line,
    push_made_function_line, push_memory_line, push_object_function_line, push_segment_line,
    push_slot_line, push_start_line, push_stub_line, push_table_line, push_type_line,
    push_version_line, push_wrapper_line, read_listing,
};
use wl_data::WasmDataSegmentLayout;
use wl_linking::DebugSectionInput;
use wl_lists::ItemList;
use wl_module::{FuncType, MemoryType, OutputExport, TableType, WasmFunctionBody};
use wl_output::Fixup;
use wl_symbols::WasmLinkerSymbol;
use wl_text::Page;

// ---- types and imports

/// A line for each type.
fn push_types(page: &mut Page, types: &[FuncType]) -> Result<(), AllocError>
    ensures appended { OnOk result (page.new ≡ page.old
        ++ flat_map line_text (numbered_lines type_line 0 types.now)) }
    ensures fits { OnOk result (HaveNumbers 0 types.now
        → AllByRecursion InRange (numbered_lines type_line 0 types.now)) }
{
    for (i, ty) in types.iter().enumerate() {
        push_type_line(page, i as u64, ty)?;
    }
    Ok(())
}

/// The line of an import.
fn push_import(page: &mut Page, import: &OutputImport) -> Result<(), AllocError>
    ensures appended { OnOk result
        (page.new ≡ page.old ++ line_text (import_line import.now)) }
    ensures fits { OnOk result (InRange (import_line import.now)) }
{
    let (module, name) = (import.module.as_bytes(), import.name.as_bytes());
    push_import_line(page, module, name, import.entity)
}

/// A line for each import.
fn push_imports(page: &mut Page, imports: &[OutputImport]) -> Result<(), AllocError>
    ensures appended { OnOk result
        (page.new ≡ page.old ++ flat_map line_text (map import_line imports.now)) }
    ensures fits { OnOk result (AllByRecursion InRange (map import_line imports.now)) }
{
    for import in imports {
        push_import(page, import)?;
    }
    Ok(())
}

// ---- functions

/// Which of the functions that the linker makes under a name it is.
fn made_function(made: WasmLinkerSymbol) -> MadeFunction
    ensures { result ≡ made_function made }
{
    if made == WasmLinkerSymbol::InitTls {
        MadeFunction::InitTls
    } else {
        MadeFunction::CallCtors
    }
}

/// The line of a function.
fn push_function(page: &mut Page, i: usize, function: &OutputFunction<'_>) -> Result<(), AllocError>
    ensures appended { OnOk result
        (page.new ≡ page.old ++ line_text (function_line i function.now)) }
    ensures fits { OnOk result (IsSmall i → InRange (function_line i function.now)) }
{
    let (index, ty) = (i as u64, function.type_index);
    match function.origin {
        FunctionOrigin::Object { object, unit } => {
            push_object_function_line(page, index, ty, object, unit)
        }
        FunctionOrigin::Made(made) => {
            push_made_function_line(page, index, ty, made_function(made))
        }
        FunctionOrigin::InitMemory => {
            push_made_function_line(page, index, ty, MadeFunction::InitMemory)
        }
        FunctionOrigin::Stub { name } => push_stub_line(page, index, ty, name.as_bytes()),
        FunctionOrigin::Wrap { name } => push_wrapper_line(page, index, ty, name.as_bytes()),
    }
}

/// A line for each function.
fn push_functions(
    page: &mut Page,
    first: usize,
    functions: &[OutputFunction<'_>],
) -> Result<(), AllocError>
    requires { first + length functions.now ≤ 2 ^ 64 - 1 }
    ensures appended { OnOk result (page.new ≡ page.old
        ++ flat_map line_text (numbered_lines function_line first functions.now)) }
    ensures fits { OnOk result (HaveNumbers first functions.now
        → AllByRecursion InRange (numbered_lines function_line first functions.now)) }
{
    for (i, function) in functions.iter().enumerate() {
        push_function(page, first + i, function)?;
    }
    Ok(())
}

/// The line of a body.
fn push_body(page: &mut Page, i: usize, body: &WasmFunctionBody<'_>) -> Result<(), AllocError>
    ensures appended { OnOk result
        (page.new ≡ page.old ++ line_text (body_line i body.now)) }
    ensures fits { OnOk result (IsSmall i → InRange (body_line i body.now)) }
{
    push_body_line(page, i as u64, body.bytes.as_slice())
}

/// A line for each body.
fn push_bodies(
    page: &mut Page,
    first: usize,
    bodies: &[WasmFunctionBody<'_>],
) -> Result<(), AllocError>
    requires { first + length bodies.now ≤ 2 ^ 64 - 1 }
    ensures appended { OnOk result (page.new ≡ page.old
        ++ flat_map line_text (numbered_lines body_line first bodies.now)) }
    ensures fits { OnOk result (HaveNumbers first bodies.now
        → AllByRecursion InRange (numbered_lines body_line first bodies.now)) }
{
    for (i, body) in bodies.iter().enumerate() {
        push_body(page, first + i, body)?;
    }
    Ok(())
}

// ---- globals, the memory, the table

/// The line of a global.
fn push_global(page: &mut Page, i: usize, global: &PlannedGlobal<'_>) -> Result<(), AllocError>
    ensures appended { OnOk result
        (page.new ≡ page.old ++ line_text (global_line i global.now)) }
    ensures fits { OnOk result (IsSmall i → InRange (global_line i global.now)) }
{
    let init = global.global.init_expr_body.as_slice();
    push_global_line(page, i as u64, global.global.ty, init, global.origin)
}

/// A line for each global.
fn push_globals(
    page: &mut Page,
    first: usize,
    globals: &[PlannedGlobal<'_>],
) -> Result<(), AllocError>
    requires { first + length globals.now ≤ 2 ^ 64 - 1 }
    ensures appended { OnOk result (page.new ≡ page.old
        ++ flat_map line_text (numbered_lines global_line first globals.now)) }
    ensures fits { OnOk result (HaveNumbers first globals.now
        → AllByRecursion InRange (numbered_lines global_line first globals.now)) }
{
    for (i, global) in globals.iter().enumerate() {
        push_global(page, first + i, global)?;
    }
    Ok(())
}

/// The line of the memory, where it isn't imported.
fn push_memory(page: &mut Page, memory: Option<MemoryType>) -> Result<(), AllocError>
    ensures appended { OnOk result
        (page.new ≡ page.old ++ flat_map line_text (memory_lines memory)) }
    ensures fits { OnOk result (AllByRecursion InRange (memory_lines memory)) }
{
    match memory {
        None => Ok(()),
        Some(memory) => push_memory_line(page, memory),
    }
}

/// The line of the table, where there is one.
fn push_table(page: &mut Page, table: Option<TableType>) -> Result<(), AllocError>
    ensures appended { OnOk result
        (page.new ≡ page.old ++ flat_map line_text (table_lines table)) }
    ensures fits { OnOk result (AllByRecursion InRange (table_lines table)) }
{
    match table {
        None => Ok(()),
        Some(table) => push_table_line(page, table.initial),
    }
}

/// A line for each slot of the table that holds a function.
fn push_slots(page: &mut Page, elements: &[u32]) -> Result<(), AllocError>
    requires { 1 + length elements.now ≤ 2 ^ 64 - 1 }
    ensures appended { OnOk result (page.new ≡ page.old
        ++ flat_map line_text (numbered_lines slot_line 1 elements.now)) }
    ensures fits { OnOk result (HaveNumbers 1 elements.now
        → AllByRecursion InRange (numbered_lines slot_line 1 elements.now)) }
{
    for (i, index) in elements.iter().enumerate() {
        push_slot_line(page, 1 + i as u64, *index)?;
    }
    Ok(())
}

// ---- segments

/// Where a segment goes.
fn state_of(layout: &WasmDataSegmentLayout<'_>) -> SegmentState
    ensures { result ≡ state_of layout.now }
{
    let address = layout.output_memory_offset;
    if layout.tls_template {
        SegmentState::Tls { offset: address }
    } else if layout.shared_init {
        SegmentState::Shared { address }
    } else if layout.passive {
        SegmentState::Passive
    } else {
        SegmentState::Active { address }
    }
}

/// The line of a segment.
fn push_segment(
    page: &mut Page,
    i: usize,
    segment: &ObjectSegment<'_, '_>,
) -> Result<(), AllocError>
    ensures appended { OnOk result
        (page.new ≡ page.old ++ line_text (segment_line i segment.now)) }
    ensures fits { OnOk result (IsSmall i → IsSmall (length segment.now.layout.payload)
        → InRange (segment_line i segment.now)) }
{
    let layout = segment.layout;
    let from = (segment.object, layout.segment_index);
    let len = layout.payload.len() as u64;
    push_segment_line(page, i as u64, from, state_of(layout), len)
}

/// A line for each segment.
fn push_segments(page: &mut Page, segments: &[ObjectSegment<'_, '_>]) -> Result<(), AllocError>
    ensures appended { OnOk result (page.new ≡ page.old
        ++ flat_map line_text (numbered_lines segment_line 0 segments.now)) }
    ensures fits { OnOk result (HaveNumbers 0 segments.now → ArePayloadsSmall segments.now
        → AllByRecursion InRange (numbered_lines segment_line 0 segments.now)) }
{
    for (i, segment) in segments.iter().enumerate() {
        push_segment(page, i, segment)?;
    }
    Ok(())
}

// ---- exports and the start

/// The line of an export.
fn push_export(page: &mut Page, export: &OutputExport<'_>) -> Result<(), AllocError>
    ensures appended { OnOk result
        (page.new ≡ page.old ++ line_text (export_line export.now)) }
    ensures fits { OnOk result (InRange (export_line export.now)) }
{
    push_export_line(page, export.name.as_bytes(), export.kind, export.index)
}

/// A line for each export.
fn push_exports(page: &mut Page, exports: &[OutputExport<'_>]) -> Result<(), AllocError>
    ensures appended { OnOk result
        (page.new ≡ page.old ++ flat_map line_text (map export_line exports.now)) }
    ensures fits { OnOk result (AllByRecursion InRange (map export_line exports.now)) }
{
    for export in exports {
        push_export(page, export)?;
    }
    Ok(())
}

/// The line of the function that runs at the start, where there is one.
fn push_start(page: &mut Page, start: Option<u32>) -> Result<(), AllocError>
    ensures appended { OnOk result
        (page.new ≡ page.old ++ flat_map line_text (start_lines start)) }
    ensures fits { OnOk result (AllByRecursion InRange (start_lines start)) }
{
    match start {
        None => Ok(()),
        Some(start) => push_start_line(page, start),
    }
}

// ---- relocations, features and debug sections

/// A line for each relocation.
fn push_fixups(page: &mut Page, fixups: &[Fixup]) -> Result<(), AllocError>
    ensures appended { OnOk result
        (page.new ≡ page.old ++ flat_map line_text (map Fix fixups.now)) }
    ensures fits { OnOk result (AllByRecursion InRange (map Fix fixups.now)) }
{
    for fixup in fixups {
        push_fixup_line(page, *fixup)?;
    }
    Ok(())
}

/// A line for each feature.
fn push_features(page: &mut Page, names: &[&str]) -> Result<(), AllocError>
    ensures appended { OnOk result (page.new ≡ page.old
        ++ flat_map line_text (map Feature (map (λ n. n.now) names.now))) }
    ensures fits { OnOk result
        (AllByRecursion InRange (map Feature (map (λ n. n.now) names.now))) }
{
    for name in names {
        push_feature_line(page, name.as_bytes())?;
    }
    Ok(())
}

/// The line of a debug section.
fn push_debug_section(page: &mut Page, section: &DebugSectionInput<'_>) -> Result<(), AllocError>
    ensures appended { OnOk result
        (page.new ≡ page.old ++ line_text (debug_line section.now)) }
    ensures fits { OnOk result
        (IsSmall (length section.now.payload) → InRange (debug_line section.now)) }
{
    let len = section.payload.len() as u64;
    push_debug_line(page, section.object_index, section.name.as_bytes(), len)
}

/// A line for each debug section.
fn push_debug_sections(
    page: &mut Page,
    sections: &[DebugSectionInput<'_>],
) -> Result<(), AllocError>
    ensures appended { OnOk result
        (page.new ≡ page.old ++ flat_map line_text (map debug_line sections.now)) }
    ensures fits { OnOk result (AreDebugSectionsSmall sections.now
        → AllByRecursion InRange (map debug_line sections.now)) }
{
    for section in sections {
        push_debug_section(page, section)?;
    }
    Ok(())
}

// ---- the listing

/// How many bytes the line of a fixup takes, or some more.
const FIXUP_LINE: usize = 64;

/// How many bytes the lines of a function and of its body take beside the body, or some more.
const FUNCTION_LINES: usize = 64;

/// How many bytes the line of a global that the linker makes takes, or some more.
const GLOBAL_LINE: usize = 48;

/// How many bytes the line of a segment takes, or some more.
const SEGMENT_LINE: usize = 64;

/// About how many bytes the listing takes: a text that has to grow is copied.
fn expected_room(plan: &LinkPlan) -> usize {
    let globals = plan.layout.globals.as_slice().len();
    let mut room = plan.fixups.as_slice().len().saturating_mul(FIXUP_LINE);
    room = room.saturating_add(globals.saturating_mul(GLOBAL_LINE));
    let segments = segment_count(plan.layout.object_data_layouts.as_slice());
    room = room.saturating_add(segments.saturating_mul(SEGMENT_LINE));
    for body in plan.layout.function_bodies.as_slice() {
        let digits = body.bytes.as_slice().len().saturating_mul(2);
        room = room.saturating_add(digits.saturating_add(FUNCTION_LINES));
    }
    room
}

/// Writes the lines of a plan, whose segments are these, on an empty page.
fn push_lines(
    page: &mut Page,
    plan: &LinkPlan<'_>,
    segments: &[ObjectSegment<'_, '_>],
) -> Result<(), AllocError>
    requires empty { page.old ≡ [] }
    requires segments { segments.now ≡ output_segments plan.now }
    ensures text { OnOk result (page.new ≡ listing_text plan.now) }
    ensures fits { OnOk result (HasListing plan.now
        → AllByRecursion InRange (lines_of plan.now)) }
{
    let layout = &plan.layout;
    let (functions, globals) = count_output_imports(layout);
    push_version_line(page)?;
    push_types(page, layout.output_types.as_slice())?;
    push_imports(page, layout.imports.as_slice())?;
    push_functions(page, functions, layout.function_type_indices.as_slice())?;
    push_bodies(page, functions, layout.function_bodies.as_slice())?;
    push_globals(page, globals, layout.globals.as_slice())?;
    push_memory(page, layout.memory)?;
    push_table(page, layout.table)?;
    push_slots(page, layout.element_functions.as_slice())?;
    push_segments(page, segments)?;
    push_exports(page, layout.exports.as_slice())?;
    push_start(page, layout.start_function)?;
    push_fixups(page, plan.fixups.as_slice())?;
    push_features(page, layout.features.as_slice())?;
    push_debug_sections(page, layout.debug_sections.as_slice())?;
    push_end_line(page)
}

/// The listing of a plan: the texts of its lines, one after the other.
///
/// # Errors
/// `AllocError` where memory runs out.
pub fn listing(alloc: Global, plan: &LinkPlan<'_>) -> Result<Vec<u8>, AllocError>
    ensures text { IfOk result (λ text. text.items ≡ listing_text plan.now) }
    ensures fits { OnOk result (HasListing plan.now
        → AllByRecursion InRange (lines_of plan.now)) }
{
    let segments = output_segments(alloc, plan.layout.object_data_layouts.as_slice())?;
    let mut page = Page::with_room(alloc, expected_room(plan))?;
    push_lines(&mut page, plan, &segments)?;
    page.into_text()
}

/// The lines of a plan, as its listing has them.
///
/// # Errors
/// `AllocError` where memory runs out.
pub fn plan_lines(alloc: Global, plan: &LinkPlan<'_>) -> Result<ItemList<Line>, AllocError>
    requires { HasListing plan.now }
    ensures lines { IfOk result (λ lines. lines ≡ lines_of plan.now) }
    ensures in_range { IfOk result (λ lines. AllByRecursion InRange lines) }
{
    let text = listing(alloc, plan)?;
    match read_listing(alloc, &text) {
        Ok(lines) => Ok(ItemList::new(lines)),
        Err(ListingError::OutOfMemory) => Err(AllocError),
        // No line of a plan's listing is bad.
        Err(ListingError::Bad { .. }) => unreachable!(),
    }
}
