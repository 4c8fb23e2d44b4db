//! What the linker makes: which functions and globals of its own the output has.

ghost use Rattle.std.specs.Prelude.{◌≡◌, ◌&&◌, ◌||◌, not, IfOk};
ghost use Rattle.std.specs.List.{list_any};
ghost use Rattle.wl_symbols.specs.declared.units.WasmGcUnit.TheVariants.{DataSegment};
ghost use Rattle.wl_symbols.specs.Input.{Input as Linked, keeps};
ghost use Rattle.wl_bind.specs.Made.{is_bound, is_forced, has_init_functions, is_filled, keeps_thread_data, keeps_common_data, has_shared_tls, has_init_memory, linker_needs, is_made};
ghost use Rattle.wl_bind.specs.steps.Needs.{is_asked_for, leads_to, row_leads_to};
ghost use Rattle.wl_bind.specs.Parts.{any_object};
ghost use Rattle.wl_bind.specs.Resolutions.{resolutions, by_all_rules};
ghost use Rattle.wl_bind.specs.Scan.{scan_of};

use crate::resolution::{ImportResolution, ObjectImportResolutions};
use crate::scan::RelocScan;
use crate::thread_segments::thread_data;
use std::alloc::{AllocError, Global};
use wl_linking::File;
use wl_module::{DataKind, WasmDataSegment};
use wl_symbols::{LinkInput, MadeSort, NamedFunction, NamedGlobal, WasmGcUnit, WasmLinkerSymbol};

/// Which of the things that the linker can make kept slots and kept relocations ask for, functions
/// that run at the start, and blocks of threads. What is made for an export alone isn't among them.
#[derive(Clone, Copy, PartialEq, Eq)]
pub struct LinkerImportAbsorption {
    /// `__memory_base`, which has the value 1024 then; made for an export alone it has 0.
    pub needs_memory_base: bool,
    /// `__table_base`.
    pub needs_table_base: bool,
    /// `__tls_base`.
    pub needs_tls_base: bool,
    /// `__tls_size`.
    pub needs_tls_size: bool,
    /// `__tls_align`.
    pub needs_tls_align: bool,
    /// `__wasm_init_tls`.
    pub needs_init_tls: bool,
    /// `__wasm_call_ctors`.
    pub needs_ctors: bool,
}

/// Whether the name is to be exported.
fn is_forced(input: &LinkInput<'_, '_>, made: WasmLinkerSymbol) -> bool
    ensures { result ≡ is_forced input.now made }
{
    let names = input.args().force_export_symbol_names();
    let name = made.name();
    for other in names {
        if name == other.as_bytes() {
            return true;
        }
    }
    false
}

/// Whether it is made, whatever is to be exported.
fn is_asked_for(needs: LinkerImportAbsorption, made: WasmLinkerSymbol) -> bool
    ensures { result ≡ is_asked_for needs made }
{
    match made.sort() {
        MadeSort::Function(NamedFunction::CallCtors) => needs.needs_ctors,
        MadeSort::Function(NamedFunction::InitTls) => needs.needs_init_tls,
        MadeSort::Global(NamedGlobal::MemoryBase) => needs.needs_memory_base,
        MadeSort::Global(NamedGlobal::TableBase) => needs.needs_table_base,
        MadeSort::Global(NamedGlobal::StackPointer) => true,
        MadeSort::Global(NamedGlobal::TlsBase) => needs.needs_tls_base,
        MadeSort::Global(NamedGlobal::TlsSize) => needs.needs_tls_size,
        MadeSort::Global(NamedGlobal::TlsAlign) => needs.needs_tls_align,
        MadeSort::Data => false,
    }
}

/// Whether the output has what the linker makes under a name: what is asked for, and what is to be
/// exported where that is enough.
pub fn is_made(
    input: &LinkInput<'_, '_>,
    needs: LinkerImportAbsorption,
    made: WasmLinkerSymbol,
) -> bool
    requires { needs ≡ linker_needs input.now }
    ensures { result ≡ is_made input.now made }
{
    is_asked_for(needs, made) || (made.materialize_on_export() && is_forced(input, made))
}

// ---- slots

/// Whether a slot is resolved to what the linker makes.
fn leads_to(resolution: &ImportResolution, made: WasmLinkerSymbol) -> bool
    ensures { result ≡ leads_to made resolution.now }
{
    matches!(resolution, ImportResolution::LinkerDefined(other) if made == *other)
}

/// Whether a slot of an object is resolved to what the linker makes.
fn row_leads_to(row: &ObjectImportResolutions, made: WasmLinkerSymbol) -> bool
    ensures { result ≡ row_leads_to made row.now }
{
    let functions = row.function_resolutions.as_slice();
    let globals = row.global_resolutions.as_slice();
    functions
        .iter()
        .chain(globals.iter())
        .any(|resolution| leads_to(resolution, made))
}

/// Whether a slot of one of the objects is resolved to what the linker makes.
fn any_row_leads_to(rows: &[ObjectImportResolutions], made: WasmLinkerSymbol) -> bool
    ensures { result ≡ list_any (row_leads_to made) rows.now }
{
    rows.iter().any(|row| row_leads_to(row, made))
}

/// Whether it is asked for already, or a kept slot is bound to it.
fn is_needed(rows: &[ObjectImportResolutions], is_asked: bool, made: WasmLinkerSymbol) -> bool
    ensures { (input : Linked) → rows.now ≡ resolutions input (by_all_rules input)
        → result ≡ (is_asked || is_bound input made) }
{
    is_asked || any_row_leads_to(rows, made)
}

// ---- segments

/// Which segments are kept: some of which each thread has its own, and some with bytes that go into
/// the memory, which all threads have in common.
#[derive(Clone, Copy)]
struct KeptData {
    thread: bool,
    common: bool,
}

/// What is kept of two together.
fn joined(one: KeptData, other: KeptData) -> KeptData
    ensures thread { result.thread ≡ (one.thread || other.thread) }
    ensures common { result.common ≡ (one.common || other.common) }
{
    KeptData {
        thread: one.thread || other.thread,
        common: one.common || other.common,
    }
}

/// What is kept by a segment of that number, of which each thread may have its own.
fn kept_by_segment(
    input: &LinkInput<'_, '_>,
    object: usize,
    number: u32,
    is_thread_data: bool,
    segment: &WasmDataSegment<'_>,
) -> KeptData
    ensures thread { result.thread
        ≡ (keeps input.now object (DataSegment number) && is_thread_data) }
    ensures common { result.common
        ≡ (keeps input.now object (DataSegment number) && not is_thread_data
        && is_filled segment.now) }
{
    let is_kept = input
        .live()
        .is_live(object, WasmGcUnit::DataSegment(number));
    KeptData {
        thread: is_kept && is_thread_data,
        common: is_kept
            && !is_thread_data
            && segment.kind == DataKind::Active
            && !segment.payload.is_empty(),
    }
}

/// Which segments of an object are kept.
fn kept_data_in(
    alloc: Global,
    input: &LinkInput<'_, '_>,
    object: usize,
    file: &File<'_>,
) -> Result<KeptData, AllocError>
    ensures thread { IfOk result (λ d. d.thread ≡ keeps_thread_data input.now object file.now) }
    ensures common { IfOk result (λ d. d.common ≡ keeps_common_data input.now object file.now) }
{
    file.stands_for_an_object();
    let marks = thread_data(alloc, file)?;
    let of_threads = marks.as_slice();
    let mut kept = KeptData {
        thread: false,
        common: false,
    };
    for (k, segment) in file.segments().iter().enumerate() {
        let here = kept_by_segment(input, object, k as u32, of_threads[k], segment);
        kept = joined(kept, here);
    }
    Ok(kept)
}

/// Which segments of all objects are kept.
fn kept_data(alloc: Global, input: &LinkInput<'_, '_>) -> Result<KeptData, AllocError>
    ensures thread { IfOk result
        (λ d. d.thread ≡ any_object (keeps_thread_data input.now) 0 input.now.link.objects) }
    ensures common { IfOk result
        (λ d. d.common ≡ any_object (keeps_common_data input.now) 0 input.now.link.objects) }
{
    let mut kept = KeptData {
        thread: false,
        common: false,
    };
    for (object, file) in input.files().as_slice().iter().enumerate() {
        kept = joined(kept, kept_data_in(alloc, input, object, file)?);
    }
    Ok(kept)
}

/// Whether each thread gets a block of its own.
fn has_shared_tls(
    input: &LinkInput<'_, '_>,
    rows: &[ObjectImportResolutions],
    keeps_data: bool,
) -> bool
    requires rows { rows.now ≡ resolutions input.now (by_all_rules input.now) }
    requires kept { keeps_data ≡ any_object (keeps_thread_data input.now) 0 input.now.link.objects }
    ensures { result ≡ has_shared_tls input.now }
{
    let is_asked = is_needed(rows, false, WasmLinkerSymbol::InitTls);
    let is_asked = is_needed(rows, is_asked, WasmLinkerSymbol::TlsAlign);
    let is_asked = is_needed(rows, is_asked, WasmLinkerSymbol::TlsSize);
    input.args().shared_memory && (keeps_data || is_asked)
}

// ---- all of it

/// What the linker is asked for, and whether the first thread has data to copy.
#[derive(Clone, Copy)]
pub(crate) struct LinkerNeeds {
    /// What is asked for.
    pub(crate) absorption: LinkerImportAbsorption,
    /// Whether there is a function that copies data for all threads.
    pub(crate) init_memory: bool,
}

/// Whether an object has functions that run at the start (object file linking, version 2, "Init
/// Funcs Subsection").
pub fn has_init_functions(input: &LinkInput<'_, '_>) -> bool
    ensures { result ≡ has_init_functions input.now }
{
    let files = input.files().as_slice();
    files.iter().any(|file| !file.init_funcs().is_empty())
}

/// What the linker is asked for.
///
/// # Errors
/// `AllocError` where memory runs out.
pub(crate) fn linker_needs(
    alloc: Global,
    input: &LinkInput<'_, '_>,
    rows: &[ObjectImportResolutions],
    scan: &RelocScan<'_>,
) -> Result<LinkerNeeds, AllocError>
    requires rows { rows.now ≡ resolutions input.now (by_all_rules input.now) }
    requires scan { scan.now ≡ scan_of input.now }
    ensures absorption { IfOk result (λ needs. needs.absorption ≡ linker_needs input.now) }
    ensures init_memory { IfOk result (λ needs. needs.init_memory ≡ has_init_memory input.now) }
{
    let kept = kept_data(alloc, input)?;
    let has_block = has_shared_tls(input, rows, kept.thread);
    let has_functions = has_init_functions(input);
    let needs = scan.needs;
    Ok(LinkerNeeds {
        absorption: LinkerImportAbsorption {
            needs_memory_base: is_needed(rows, needs.memory_base, WasmLinkerSymbol::MemoryBase),
            needs_table_base: is_needed(rows, needs.table_base, WasmLinkerSymbol::TableBase),
            needs_tls_base: is_needed(rows, has_block, WasmLinkerSymbol::TlsBase),
            needs_tls_size: has_block,
            needs_tls_align: has_block,
            needs_init_tls: has_block,
            needs_ctors: is_needed(rows, has_functions, WasmLinkerSymbol::CallCtors),
        },
        init_memory: input.args().shared_memory && kept.common,
    })
}
