//! What a thread's block holds when it begins.

ghost use Rattle.std.specs.Prelude.{◌≡◌, ◌<◌, ◌++◌, length, IfOk, IfErr, OnOk};
ghost use Rattle.std.specs.List.{AllByRecursion, AllZip};
ghost use Rattle.std.specs.Option.{option_to_list};
ghost use Rattle.wl_linking.specs.Fitting.{IsWhole};
ghost use Rattle.wl_linking.specs.Steps.{Clear};
ghost use Rattle.wl_linking.specs.declared.error.LinkError.TheVariants.{OutOfMemory};
ghost use Rattle.wl_bind.specs.Scan.{got_mem};
ghost use Rattle.wl_places.specs.AddressSteps.{IsBook};
ghost use Rattle.wl_places.specs.Addresses.{layouts_of, segment_start};
ghost use Rattle.wl_plan.specs.Fixups.{AreFixups};
ghost use Rattle.wl_plan.specs.steps.Globals.{AreSources};
ghost use Rattle.wl_plan.specs.Globals.{IsGlobalFault};
ghost use Rattle.wl_plan.specs.Running.{pointer_to};
ghost use Rattle.wl_plan.specs.steps.Threads.{AddsGot, IsFixupOf};
ghost use Rattle.wl_plan.specs.Threads.{place_in_block, tls_pointers, got_places, IsGotFixup};

use crate::global_starts::GlobalSources;
use std::alloc::{AllocError, Global};
use wl_data::{places_end_in_time, segments_have_layouts};
use wl_index::WasmDataAddress;
use wl_linking::{LinkError, whole_objects};
use wl_output::{Fixup, FixupTo};
use wl_places::AddressBook;
use wl_synth::{TlsGotFixup, TlsPointerFixup};

// ---- pointers

/// A place in the block of a thread, if the address is one.
pub(crate) fn place_in_block(address: WasmDataAddress) -> Option<u32>
    ensures { result ≡ place_in_block address }
{
    match address {
        WasmDataAddress::TlsOffset(place) => Some(place),
        WasmDataAddress::Missing | WasmDataAddress::Placed(_) | WasmDataAddress::Passive => None,
    }
}

/// Adds the pointer of a fixup whose field is known when a thread starts.
fn push_pointer(
    pointers: &mut Vec<TlsPointerFixup>,
    book: &AddressBook<'_, '_, '_>,
    fixup: &Fixup,
) -> Result<(), AllocError>
    requires book { IsBook book.now }
    requires whole { AllByRecursion IsWhole book.now.input.now.link.objects }
    requires kept { IsFixupOf book.now.input.now book.now.placing.now fixup.now }
    ensures { OnOk result (pointers.new.items ≡ pointers.old.items ++ option_to_list
        (pointer_to fixup.now (place_in_block
        (segment_start (layouts_of book.now.placing.now fixup.now.object) fixup.now.unit))
        fixup.now.to)) }
{
    whole_objects();
    segments_have_layouts();
    places_end_in_time();
    let offset = match fixup.to {
        FixupTo::Deferred { offset } => offset,
        FixupTo::Value {
            value: _,
            addend_left: _,
        } => return Ok(()),
    };
    let Some(start) = place_in_block(book.start(fixup.object, fixup.unit)) else {
        return Ok(());
    };
    // The size of the block is a number of 32 bits, so a place in it is one.
    let _size = book.placing.places.tls_size;
    pointers.push(TlsPointerFixup {
        dest: start + fixup.position,
        offset,
    })?;
    Ok(())
}

/// The pointers that a thread stores in its block, in the order of the fixups.
pub(crate) fn tls_pointers(
    alloc: Global,
    book: &AddressBook<'_, '_, '_>,
    fixups: &[Fixup],
) -> Result<Vec<TlsPointerFixup>, AllocError>
    requires book { IsBook book.now }
    requires whole { AllByRecursion IsWhole book.now.input.now.link.objects }
    requires fixups { AreFixups book.now.input.now book.now.placing.now fixups.now }
    ensures { IfOk result
        (λ pointers. pointers.items ≡ tls_pointers book.now.input.now book.now.placing.now) }
{
    let mut pointers = Vec::new(alloc);
    for fixup in fixups {
        push_pointer(&mut pointers, book, fixup)?;
    }
    Ok(pointers)
}

// ---- globals

/// Adds what a thread sets the global of an entry of the GOT list of data to, where its data lies
/// in the block.
fn push_got(
    fixups: &mut Vec<TlsGotFixup>,
    sources: &GlobalSources<'_, '_, '_, '_>,
    place: usize,
) -> Result<(), LinkError>
    requires sources { AreSources sources.now }
    requires low { Clear (IsGlobalFault sources.now.book.now.input.now
        sources.now.book.now.placing.now) }
    requires within { place < length (got_mem sources.now.book.now.input.now) }
    ensures ok { OnOk result (AddsGot sources.now.book.now.input.now
        sources.now.book.now.placing.now place fixups.old.items fixups.new.items) }
    ensures err { IfErr result (λ e. e ≡ OutOfMemory) }
{
    let definition = match sources.mem_definition(place) {
        Some(definition) => definition,
        None => return Ok(()),
    };
    let offset = match place_in_block(sources.mem_address(definition)?) {
        Some(offset) => offset,
        None => return Ok(()),
    };
    let global = sources.bindings.indices.got_mem(place);
    fixups.push(TlsGotFixup {
        global,
        offset: offset as i32,
    })?;
    Ok(())
}

/// The globals that hold addresses in the block, each with its place there.
pub(crate) fn got_fixups(
    alloc: Global,
    sources: &GlobalSources<'_, '_, '_, '_>,
) -> Result<Vec<TlsGotFixup>, LinkError>
    requires sources { AreSources sources.now }
    requires low { Clear (IsGlobalFault sources.now.book.now.input.now
        sources.now.book.now.placing.now) }
    ensures ok { IfOk result (λ fixups. AllZip (IsGotFixup sources.now.book.now.input.now)
        (got_places sources.now.book.now.input.now sources.now.book.now.placing.now)
        fixups.items) }
    ensures err { IfErr result (λ e. e ≡ OutOfMemory) }
{
    let mut fixups = Vec::new(alloc);
    for place in 0..sources.mem_count() {
        push_got(&mut fixups, sources, place)?;
    }
    Ok(fixups)
}
