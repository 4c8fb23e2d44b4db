//! The globals of the output that aren't imported, each with what it starts with.

ghost use Rattle.std.specs.Prelude.{◌≡◌, map, Some, IfOk, OnOk, IfErr, slice_get};
ghost use Rattle.std.specs.List.{flat_map};
ghost use Rattle.wl_linking.specs.Steps.{Clear, Refuses};
ghost use Rattle.wl_bind.specs.ExportedAddresses.{exported_addresses};
ghost use Rattle.wl_bind.specs.GlobalSpace.{DataOf, address_part, got_mem_part, got_func_part, globals_of, object_globals};
ghost use Rattle.wl_plan.specs.steps.Globals.{AreSources, AddsMade, AddsPart, IsPartFault, named_part, own_global_part};
ghost use Rattle.wl_plan.specs.Globals.{global_in, ArePlannedGlobals, IsGlobalFault};

use crate::global_starts::{GlobalSources, Start};
use crate::layout::PlannedGlobal;
use std::alloc::{AllocError, Global};
use std::borrow::CowSlice;
use wl_bind::{DataSymbol, is_made};
use wl_bytes::push_sleb;
use wl_linking::{File, LinkError};
use wl_lists::ItemList;
use wl_module::{GlobalType, OutputGlobal, ValType};
use wl_output::GlobalOrigin;
use wl_symbols::{NamedGlobal, WasmGcUnit, WasmLinkerSymbol};

// ---- constants

/// The opcode of `i32.const`.
const I32_CONST: u8 = 0x41;

// ---- the globals, part by part

/// Adds a global that the linker makes, which starts so.
fn push_made<'a>(
    alloc: Global,
    globals: &mut Vec<PlannedGlobal<'a>>,
    start: Start,
) -> Result<(), AllocError>
    ensures { OnOk result (AddsMade start globals.old.items globals.new.items) }
{
    let mut body = Vec::new(alloc);
    body.push(I32_CONST)?;
    push_sleb(&mut body, start.number.cast_signed() as i64)?;
    globals.push(PlannedGlobal {
        global: OutputGlobal {
            ty: GlobalType {
                content_type: ValType::I32,
                mutable: start.mutable,
            },
            init_expr_body: CowSlice::Owned(body),
        },
        origin: GlobalOrigin::Made(start.made),
    })?;
    Ok(())
}

/// Adds the globals that the linker makes under these names, where the output has them.
fn push_named<'a>(
    alloc: Global,
    globals: &mut Vec<PlannedGlobal<'a>>,
    sources: &GlobalSources<'_, '_, '_, 'a>,
    names: &[NamedGlobal],
) -> Result<(), LinkError>
    requires { AreSources sources.now }
    ensures ok { OnOk result (AddsPart sources.now
        (flat_map (named_part sources.now.book.now.input.now) names.now)
        globals.old.items globals.new.items) }
    ensures err { IfErr result (Refuses (IsPartFault sources.now
        (flat_map (named_part sources.now.book.now.input.now) names.now))) }
{
    let needs = sources.bindings.indices.needs();
    for named in names {
        if is_made(sources.book.input, needs, named.made()) {
            let start = sources.made_start(*named)?;
            push_made(alloc, globals, start)?;
        }
    }
    Ok(())
}

/// The globals that the linker makes under names of their own, in order.
const LINKER_GLOBALS: [NamedGlobal; 6] = [
    NamedGlobal::MemoryBase,
    NamedGlobal::TableBase,
    NamedGlobal::StackPointer,
    NamedGlobal::TlsBase,
    NamedGlobal::TlsSize,
    NamedGlobal::TlsAlign,
];

/// Adds the exported addresses of the linker's.
fn push_addresses<'a>(
    alloc: Global,
    globals: &mut Vec<PlannedGlobal<'a>>,
    sources: &GlobalSources<'_, '_, '_, 'a>,
    addresses: &[WasmLinkerSymbol],
) -> Result<(), LinkError>
    requires sources { AreSources sources.now }
    requires all { addresses.now ≡ exported_addresses sources.now.book.now.input.now.link.args }
    ensures ok { OnOk result (AddsPart sources.now
        (address_part sources.now.book.now.input.now) globals.old.items globals.new.items) }
    ensures err { IfErr result (Refuses (IsPartFault sources.now
        (address_part sources.now.book.now.input.now))) }
{
    for made in addresses {
        let start = sources.address_start(*made)?;
        push_made(alloc, globals, start)?;
    }
    Ok(())
}

/// Adds the entries of the GOT list of data.
fn push_got_mem<'a>(
    alloc: Global,
    globals: &mut Vec<PlannedGlobal<'a>>,
    sources: &GlobalSources<'_, '_, '_, 'a>,
) -> Result<(), LinkError>
    requires { AreSources sources.now }
    ensures ok { OnOk result (AddsPart sources.now
        (got_mem_part sources.now.book.now.input.now) globals.old.items globals.new.items) }
    ensures err { IfErr result (Refuses (IsPartFault sources.now
        (got_mem_part sources.now.book.now.input.now))) }
{
    for place in 0..sources.mem_count() {
        let start = sources.got_mem_start(place)?;
        push_made(alloc, globals, start)?;
    }
    Ok(())
}

/// Adds the entries of the GOT list of functions.
fn push_got_func<'a>(
    alloc: Global,
    globals: &mut Vec<PlannedGlobal<'a>>,
    sources: &GlobalSources<'_, '_, '_, 'a>,
) -> Result<(), LinkError>
    requires { AreSources sources.now }
    ensures ok { OnOk result (AddsPart sources.now
        (got_func_part sources.now.book.now.input.now) globals.old.items globals.new.items) }
    ensures err { IfErr result (Refuses (IsPartFault sources.now
        (got_func_part sources.now.book.now.input.now))) }
{
    for place in 0..sources.func_count() {
        let start = sources.got_func_start(place)?;
        push_made(alloc, globals, start)?;
    }
    Ok(())
}

/// Adds the addresses of exported data of objects.
fn push_data<'a>(
    alloc: Global,
    globals: &mut Vec<PlannedGlobal<'a>>,
    sources: &GlobalSources<'_, '_, '_, 'a>,
    exported: &[DataSymbol],
) -> Result<(), LinkError>
    requires { AreSources sources.now }
    ensures ok { OnOk result (AddsPart sources.now
        (map DataOf exported.now) globals.old.items globals.new.items) }
    ensures err { IfErr result (Refuses (IsPartFault sources.now (map DataOf exported.now))) }
{
    for datum in exported {
        let start = sources.data_start(*datum)?;
        push_made(alloc, globals, start)?;
    }
    Ok(())
}

// ---- what objects define

/// Adds a global of an object, where it is kept.
fn push_kept<'a>(
    alloc: Global,
    globals: &mut Vec<PlannedGlobal<'a>>,
    sources: &GlobalSources<'_, '_, '_, 'a>,
    object: usize,
    number: u32,
    global: &OutputGlobal<'a>,
) -> Result<(), AllocError>
    requires { global_in sources.now.book.now.input.now.link.objects object number
        ≡ Some global.now }
    ensures { OnOk result (AddsPart sources.now
        (own_global_part sources.now.book.now.input.now object number)
        globals.old.items globals.new.items) }
{
    let live = sources.book.input.live();
    if !live.is_live(object, WasmGcUnit::DefinedGlobal(number)) {
        return Ok(());
    }
    globals.push(PlannedGlobal {
        global: global.duplicate(alloc)?,
        origin: GlobalOrigin::Object {
            object,
            unit: number,
        },
    })?;
    Ok(())
}

/// Adds the kept globals of an object.
fn push_globals<'a>(
    alloc: Global,
    globals: &mut Vec<PlannedGlobal<'a>>,
    sources: &GlobalSources<'_, '_, '_, 'a>,
    object: usize,
    file: &File<'a>,
) -> Result<(), AllocError>
    requires { slice_get sources.now.book.now.input.now.link.objects object ≡ Some file.now }
    ensures { OnOk result (AddsPart sources.now
        (globals_of sources.now.book.now.input.now object file.now)
        globals.old.items globals.new.items) }
{
    file.stands_for_an_object();
    for (number, global) in file.globals().iter().enumerate() {
        push_kept(alloc, globals, sources, object, number as u32, global)?;
    }
    Ok(())
}

/// Adds the kept globals of all objects.
fn push_objects<'a>(
    alloc: Global,
    globals: &mut Vec<PlannedGlobal<'a>>,
    sources: &GlobalSources<'_, '_, '_, 'a>,
) -> Result<(), AllocError>
    ensures { OnOk result (AddsPart sources.now
        (object_globals sources.now.book.now.input.now) globals.old.items globals.new.items) }
{
    for (object, file) in sources.book.input.files().as_slice().iter().enumerate() {
        push_globals(alloc, globals, sources, object, file)?;
    }
    Ok(())
}

// ---- all of them

/// How many globals the linker makes at most, beside those that have an address of a symbol.
const MADE_GLOBALS: usize = 14;

/// The globals of the output that aren't imported: what the linker makes, and then what objects
/// define.
///
/// # Errors
/// `Unsupported` where an entry of the GOT list of data or exported data has an address that has no
/// value, and `ConstantRange` where a number is above 2147483647.
pub(crate) fn planned_globals<'a>(
    alloc: Global,
    sources: &GlobalSources<'_, '_, '_, 'a>,
) -> Result<ItemList<PlannedGlobal<'a>>, LinkError>
    requires { AreSources sources.now }
    ensures ok { IfOk result
        (ArePlannedGlobals sources.now.book.now.input.now sources.now.book.now.placing.now) }
    ensures clear { OnOk result (Clear
        (IsGlobalFault sources.now.book.now.input.now sources.now.book.now.placing.now)) }
    ensures err { IfErr result (Refuses
        (IsGlobalFault sources.now.book.now.input.now sources.now.book.now.placing.now)) }
{
    let entries = sources.mem_count().saturating_add(sources.func_count());
    let room = entries.saturating_add(MADE_GLOBALS);
    let mut globals = Vec::with_capacity(alloc, room)?;
    push_named(alloc, &mut globals, sources, &LINKER_GLOBALS)?;
    push_addresses(alloc, &mut globals, sources, sources.addresses())?;
    push_got_mem(alloc, &mut globals, sources)?;
    push_got_func(alloc, &mut globals, sources)?;
    push_data(alloc, &mut globals, sources, sources.dynamic())?;
    push_data(alloc, &mut globals, sources, sources.forced())?;
    push_objects(alloc, &mut globals, sources)?;
    Ok(ItemList::new(globals))
}
