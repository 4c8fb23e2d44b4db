//! The globals that hold the addresses and slots of the symbols of an object.

ghost use Rattle.std.specs.Prelude.{◌≡◌, map, length, replicate, IfOk, IsSome, Some, None, slice_get};
ghost use Rattle.std.specs.List.{range_with_len};
ghost use Rattle.wl_symbols.specs.Entries.{symbol_in};
ghost use Rattle.wl_bind.specs.GlobalSpace.{global_space};
ghost use Rattle.wl_bind.specs.steps.GotGlobals.{marked, mem_global_if, func_global_if};
ghost use Rattle.wl_bind.specs.IndexMaps.{has_global, mem_place, got_mem_globals, func_place, got_func_globals};
ghost use Rattle.wl_bind.specs.steps.Numbering.{IsNumbering};
ghost use Rattle.wl_bind.specs.Parts.{IsPlaceOf, ArePlacesOf};

use crate::numbering::Numbering;
use std::alloc::{AllocError, Global};
use wl_linking::File;
use wl_lists::ItemList;
use wl_symbols::{LinkInput, Relocated, kept_of_object};

// ---- which symbols are named

/// Marks the symbol that a relocation names by the number of a global, if there is one of that
/// number.
fn mark_symbol(marks: &mut Vec<bool>, relocated: &Relocated)
    ensures { marks.new.items ≡ marked marks.old.items relocated.now }
{
    let number = relocated.relocation.index as usize;
    if relocated.relocation.ty.is_global_index() && number < marks.len() {
        marks[number] = true;
    }
}

/// For each symbol of an object, whether a kept relocation of the object names it by the number of
/// a global.
fn global_marks(
    alloc: Global,
    input: &LinkInput<'_, '_>,
    object: usize,
    file: &File<'_>,
) -> Result<Vec<bool>, AllocError>
    ensures { IfOk result (λ marks. marks.items
        ≡ map (has_global input.now object file.now) (range_with_len 0 (length file.now.symbols))) }
{
    let mut marks = vec![in alloc; false; file.symbols().len()]?;
    for relocated in kept_of_object(input, object, file) {
        mark_symbol(&mut marks, &relocated);
    }
    Ok(marks)
}

// ---- where nothing asks for a global

/// No global for each of so many symbols.
fn no_globals(alloc: Global, count: usize) -> Result<ItemList<Option<u32>>, AllocError>
    ensures { IfOk result (λ globals. globals ≡ replicate count None) }
{
    let globals: Vec<Option<u32>> = vec![in alloc; None; count]?;
    Ok(ItemList::new(globals))
}

// ---- data

/// The place of the definition of a symbol in the GOT list of data.
fn mem_place(numbering: &Numbering<'_, '_, '_>, object: usize, number: u32) -> Option<usize>
    requires numbering { IsNumbering numbering.now.input.now numbering.now }
    requires there { IsSome (symbol_in numbering.now.input.now.link.objects object number) }
    ensures { result ≡ mem_place numbering.now.input.now object number }
{
    let definition = numbering.input.symbols().definition(object, number);
    let scan = numbering.scan;
    scan.got_mem.place(definition)
}

/// The index of the global with the address of a symbol, if it is data that is marked and the GOT
/// list of data has its definition.
fn got_mem_global(
    numbering: &Numbering<'_, '_, '_>,
    object: usize,
    number: u32,
    mark: bool,
) -> Option<u32>
    requires numbering { IsNumbering numbering.now.input.now numbering.now }
    requires there { IsSome (symbol_in numbering.now.input.now.link.objects object number) }
    ensures { IsPlaceOf (global_space numbering.now.input.now)
        (mem_global_if numbering.now.input.now object number mark) result }
{
    let symbol = numbering.input.symbols().symbol(object, number);
    let is_data = symbol.is_some_and(|symbol| symbol.kind.is_data());
    if !is_data || !mark {
        return None;
    }
    let place = mem_place(numbering, object, number)?;
    Some(numbering.indices.got_mem(place))
}

// ---- functions

/// The place of the definition of a symbol, with the function that it leads to, in the GOT list of
/// functions.
fn func_place(numbering: &Numbering<'_, '_, '_>, object: usize, number: u32) -> Option<usize>
    requires numbering { IsNumbering numbering.now.input.now numbering.now }
    requires there { IsSome (symbol_in numbering.now.input.now.link.objects object number) }
    ensures { result ≡ func_place numbering.now.input.now object number }
{
    let function = numbering
        .bindings
        .function(numbering.input, object, number)?;
    let definition = numbering.input.symbols().definition(object, number);
    let scan = numbering.scan;
    scan.got_func.place((definition, function))
}

/// The index of the global with the slot of the function that a symbol leads to, if it is marked and
/// the GOT list of functions has its definition.
fn got_func_global(
    numbering: &Numbering<'_, '_, '_>,
    object: usize,
    number: u32,
    mark: bool,
) -> Option<u32>
    requires numbering { IsNumbering numbering.now.input.now numbering.now }
    requires there { IsSome (symbol_in numbering.now.input.now.link.objects object number) }
    ensures { IsPlaceOf (global_space numbering.now.input.now)
        (func_global_if numbering.now.input.now object number mark) result }
{
    if !mark {
        return None;
    }
    let place = func_place(numbering, object, number)?;
    Some(numbering.indices.got_func(place))
}

// ---- both

/// The globals that hold the addresses and slots of the symbols of an object.
#[derive(Drop)]
pub(crate) struct GotGlobals {
    /// For each symbol the index of the global with its address.
    pub(crate) mem: ItemList<Option<u32>>,
    /// For each symbol the index of the global with the slot of the function that it leads to.
    pub(crate) func: ItemList<Option<u32>>,
}

/// The globals that hold the addresses and slots of the symbols of an object which a kept
/// relocation of the object names by the number of a global. Where no GOT list has an entry, no
/// relocation is looked at.
///
/// # Errors
/// `AllocError` where memory runs out.
pub(crate) fn got_globals(
    alloc: Global,
    numbering: &Numbering<'_, '_, '_>,
    object: usize,
    file: &File<'_>,
) -> Result<GotGlobals, AllocError>
    requires numbering { IsNumbering numbering.now.input.now numbering.now }
    requires here { slice_get numbering.now.input.now.link.objects object ≡ Some file.now }
    ensures mem { let input = numbering.now.input.now in IfOk result
        (λ globals. ArePlacesOf (global_space input) (got_mem_globals input object file.now)
        globals.mem) }
    ensures func { let input = numbering.now.input.now in IfOk result
        (λ globals. ArePlacesOf (global_space input) (got_func_globals input object file.now)
        globals.func) }
{
    file.stands_for_an_object();
    let scan = numbering.scan;
    if scan.got_mem.is_empty() && scan.got_func.is_empty() {
        let count = file.symbols().len();
        return Ok(GotGlobals {
            mem: no_globals(alloc, count)?,
            func: no_globals(alloc, count)?,
        });
    }
    let marks = global_marks(alloc, numbering.input, object, file)?;
    let mut mem = ItemList::empty(alloc);
    let mut func = ItemList::empty(alloc);
    for (number, mark) in marks.iter().enumerate() {
        let symbol = number as u32;
        mem.push(got_mem_global(numbering, object, symbol, *mark))?;
        func.push(got_func_global(numbering, object, symbol, *mark))?;
    }
    Ok(GotGlobals { mem, func })
}
