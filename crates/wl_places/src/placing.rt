//! Where data, stack and heap lie, and the memory that holds them.

ghost use Rattle.std.specs.Prelude.{◌≡◌, ◌≤◌, length, IfOk, OnOk, IfErr};
ghost use Rattle.std.specs.List.{AllByRecursion, flat_map, list_any};
ghost use Rattle.wl_module.specs.declared.limits.TheConstants.{MAX_PAGES};
ghost use Rattle.wl_linking.specs.Fitting.{IsWhole};
ghost use Rattle.wl_linking.specs.Steps.{Clear, Refuses};
ghost use Rattle.wl_data.specs.DataPlaces.{IsDataPlaces};
ghost use Rattle.wl_data.specs.Stack.{IsBadStackSize};
ghost use Rattle.wl_bind.specs.Made.{linker_needs, greatest};
ghost use Rattle.wl_index.specs.declared.index.TheConstants.{MAX_ENTRIES};
ghost use Rattle.wl_places.specs.Addresses.{segment_space};
ghost use Rattle.wl_places.specs.KeptData.{all_segments};
ghost use Rattle.wl_places.specs.Placing.{has_memory, defines_memory, least_pages, first_pages, memory_base, data_options, data_input, placing_of, IsPlacing, AreTooManySegments, memory_steps, place_fault};
ghost use Rattle.wl_places.specs.steps.Placing.{is_memory_import, import_pages, imported_memories, most_pages};

use crate::kept_data::all_segments;
use std::alloc::Global;
use wl_bind::LinkerImportAbsorption;
use wl_data::{
    DataOptions, DataPlaces, KeptSegment, ensure_memory_covers, ensure_stack_size_aligned,
    heap_end_from_initial_pages, place_all, places_are_one, segments_have_layouts,
    stack_pointer_init,
};
use wl_index::{LINKER_MEMORY_BASE, MAX_ENTRIES};
use wl_linking::{File, LinkError, Quantity, memories_are_small, segments_keep_bounds};
use wl_lists::ItemList;
use wl_module::{Import, ImportEntity, MemoryType};
use wl_symbols::LinkInput;

/// Where data, stack and heap lie, and the memory that holds them.
#[derive(Drop)]
pub struct Placing<'a> {
    /// Where the data of all objects lies.
    pub places: DataPlaces<'a>,
    /// The address from which that of data counts.
    pub memory_base: u32,
    /// The top of the stack, which grows downwards.
    pub stack_pointer: u32,
    /// The memory.
    pub memory: MemoryType,
    /// Where the heap ends at first.
    pub heap_end: u32,
}

// ---- the memories of objects

/// The least size of a memory that is imported, in pages; 0 for other things.
fn import_pages(import: &Import<'_>) -> u64
    ensures { result ≡ import_pages import.now }
{
    match &import.entity {
        ImportEntity::Memory(memory) => memory.initial,
        ImportEntity::Func(_) | ImportEntity::Table(_) | ImportEntity::Global(_) => 0,
    }
}

/// Whether what is imported is a memory.
fn is_memory_import(import: &Import<'_>) -> bool
    ensures { result ≡ is_memory_import import.now }
{
    match &import.entity {
        ImportEntity::Memory(_) => true,
        ImportEntity::Func(_) | ImportEntity::Table(_) | ImportEntity::Global(_) => false,
    }
}

/// Whether an object imports a memory.
fn imports_memory(file: &File<'_>) -> bool
    ensures { result ≡ list_any is_memory_import file.now.imports }
{
    file.imports().iter().any(|import| is_memory_import(import))
}

/// Whether an object defines a memory.
fn defines_memory(file: &File<'_>) -> bool
    ensures { result ≡ defines_memory file.now }
{
    !file.memory_types().is_empty()
}

/// Whether an object has a memory: it defines or imports one.
fn has_memory(file: &File<'_>) -> bool
    ensures { result ≡ has_memory file.now }
{
    let imports = imports_memory(file);
    let defines = defines_memory(file);
    imports || defines
}

/// Whether one of the objects has a memory.
fn any_has_memory(files: &[File<'_>]) -> bool
    ensures { result ≡ list_any has_memory files.now }
{
    files.iter().any(|file| has_memory(file))
}

/// Whether one of the objects defines a memory.
fn any_defines_memory(files: &[File<'_>]) -> bool
    ensures { result ≡ list_any defines_memory files.now }
{
    files.iter().any(|file| defines_memory(file))
}

/// The greatest least size of the memories that are imported, in pages; 0 where none is.
fn imported_pages(imports: &[Import<'_>]) -> u64
    ensures { result ≡ most_pages (imported_memories imports.now) }
{
    let mut pages: u64 = 0;
    for import in imports {
        pages = pages.max(import_pages(import));
    }
    pages
}

/// The greatest least size of these memories, in pages; 0 without any.
fn defined_pages(memories: &[MemoryType]) -> u64
    ensures { result ≡ most_pages memories.now }
{
    let mut pages: u64 = 0;
    for memory in memories {
        pages = pages.max(memory.initial);
    }
    pages
}

/// The greatest least size of the memories of an object, in pages; 0 where it has none.
fn object_pages(file: &File<'_>) -> u64
    ensures { result ≡ greatest (least_pages file.now) }
{
    let imported = imported_pages(file.imports());
    imported.max(defined_pages(file.memory_types()))
}

/// The greatest of these of all objects.
fn all_pages(files: &[File<'_>]) -> u64
    ensures { result ≡ greatest (flat_map least_pages files.now) }
{
    let mut pages: u64 = 0;
    for file in files {
        pages = pages.max(object_pages(file));
    }
    pages
}

/// The pages that the memory begins with before it is raised.
fn first_pages(files: &[File<'_>]) -> u64
    requires { AllByRecursion IsWhole files.now }
    ensures pages { result ≡ first_pages files.now }
    ensures few { result ≤ MAX_PAGES }
{
    memories_are_small();
    let pages = all_pages(files);
    if any_defines_memory(files) {
        pages
    } else {
        pages.max(2)
    }
}

// ---- what places rest on

/// The address from which that of data counts.
fn memory_base(input: &LinkInput<'_, '_>, needs: LinkerImportAbsorption) -> u32
    requires { needs ≡ linker_needs input.now }
    ensures { result ≡ memory_base input.now }
{
    let has_memory = any_has_memory(input.files().as_slice());
    if has_memory || needs.needs_memory_base {
        LINKER_MEMORY_BASE
    } else {
        0
    }
}

/// What decides where data lies.
fn data_options(input: &LinkInput<'_, '_>, needs: LinkerImportAbsorption) -> DataOptions
    requires { needs ≡ linker_needs input.now }
    ensures { result ≡ data_options input.now }
{
    let args = input.args();
    DataOptions {
        memory_base: memory_base(input, needs),
        stack_first: args.stack_first,
        stack_size: args.z_stack_size,
        shared_memory: args.shared_memory,
        shared_tls: needs.needs_tls_size,
    }
}

/// Refuses more segments than a space may have.
fn check_segment_count(
    input: &LinkInput<'_, '_>,
    segments: &[ItemList<KeptSegment<'_>>],
) -> Result<(), LinkError>
    requires { segments.now ≡ all_segments input.now }
    ensures clear { OnOk result (Clear (AreTooManySegments input.now)) }
    ensures err { IfErr result (AreTooManySegments input.now) }
{
    let mut count: u64 = 0;
    for object in segments {
        count = count.saturating_add(object.as_slice().len() as u64);
    }
    if count > MAX_ENTRIES as u64 {
        return Err(LinkError::TooLarge {
            what: Quantity::Space,
        });
    }
    Ok(())
}

/// The same with the memory, where the data lies there.
fn place_memory<'a>(
    input: &LinkInput<'_, 'a>,
    options: DataOptions,
    places: DataPlaces<'a>,
) -> Result<Placing<'a>, LinkError>
    requires options { options ≡ data_options input.now }
    requires size { Clear (IsBadStackSize options.stack_size) }
    requires places { IsDataPlaces (data_input input.now) places }
    ensures ok { IfOk result (λ g. g ≡ placing_of input.now places.entry) }
    ensures clear { OnOk result (Clear (memory_steps input.now places.entry)) }
    ensures err { IfErr result (memory_steps input.now places.entry) }
{
    let args = input.args();
    let (stack_size, stack_first) = (options.stack_size, options.stack_first);
    let stack_pointer = stack_pointer_init(places.data_end, stack_size, stack_first)?;
    let mut memory = MemoryType {
        initial: first_pages(input.files().as_slice()),
        maximum: None,
        shared: args.shared_memory,
    };
    let pages = ensure_memory_covers(
        &mut memory,
        places.data_end,
        options.memory_base,
        stack_size,
        stack_first,
        args.initial_memory,
        args.max_memory,
        args.shared_memory,
    )?;
    Ok(Placing {
        heap_end: heap_end_from_initial_pages(pages)?,
        places,
        memory_base: options.memory_base,
        stack_pointer,
        memory,
    })
}

/// Places the data of all objects, the stack and the heap, and makes the memory large enough.
///
/// # Errors
/// The first of these that is the case. `TooLarge` where there would be more than 4294967294
/// segments. `BadStackSize` where the stack's size is no multiple of 16. `TooLarge` where data or
/// stack would pass the last address. `BadMemorySize` where a size that is asked for can't be.
/// `TooLarge` where the heap would end past the last address.
pub fn place_data<'a>(
    alloc: Global,
    input: &LinkInput<'_, 'a>,
    needs: LinkerImportAbsorption,
) -> Result<Placing<'a>, LinkError>
    requires { needs ≡ linker_needs input.now }
    ensures ok { IfOk result (IsPlacing input.now) }
    ensures few { IfOk result (λ g. length (segment_space g) ≤ MAX_ENTRIES) }
    ensures clear { OnOk result (Clear (place_fault input.now)) }
    ensures err { IfErr result (Refuses (place_fault input.now)) }
{
    places_are_one();
    segments_have_layouts();
    segments_keep_bounds();
    let _files = input.files().as_slice();
    let segments = all_segments(alloc, input)?;
    check_segment_count(input, segments.as_slice())?;
    let options = data_options(input, needs);
    ensure_stack_size_aligned(options.stack_size)?;
    let places = place_all(alloc, segments.as_slice(), options)?;
    place_memory(input, options, places)
}
