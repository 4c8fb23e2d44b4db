//! The bodies of the functions, and the debug sections beside them.

ghost use Rattle.std.specs.Prelude.{◌≡◌, ◌≤◌, ◌<◌, ◌^◌, ◌++◌, length, map, true, Some, OnOk, IfOk, IfErr, slice_get};
ghost use Rattle.std.specs.List.{AllByRecursion};
ghost use Rattle.wl_linking.specs.Fitting.{IsWhole};
ghost use Rattle.wl_linking.specs.Steps.{Clear};
ghost use Rattle.wl_linking.specs.declared.error.LinkError.TheVariants.{OutOfMemory};
ghost use Rattle.wl_index.specs.declared.index.TheConstants.{MAX_ENTRIES};
ghost use Rattle.wl_symbols.specs.Input.{Input, keeps};
ghost use Rattle.wl_symbols.specs.declared.linker_symbol.WasmLinkerSymbol.TheVariants.{CallCtors, InitTls, TlsBase};
ghost use Rattle.wl_symbols.specs.declared.units.WasmGcUnit.TheVariants.{DefinedFunction};
ghost use Rattle.wl_bind.specs.FunctionSpace.{made_function_part, init_memory_part, stub_part, functions_of, object_functions};
ghost use Rattle.wl_bind.specs.GlobalSpace.{GlobalOf, global_space};
ghost use Rattle.wl_bind.specs.declared.binding.GlobalTarget.TheVariants as global;
ghost use Rattle.wl_synth.specs.Bodies.{call_sequence_ops};
ghost use Rattle.wl_synth.specs.Encoding.{IsEncoded};
ghost use Rattle.wl_places.specs.Addresses.{segment_space};
ghost use Rattle.wl_plan.specs.Bodies.{body_in, called, AreInitMemoryOps, AreInitTlsOps, AreOwnBodies, IsBodyIn, object_debug_sections};
ghost use Rattle.wl_plan.specs.BodySteps.{IsRenumbering, AreRewritten, AddsMadeBody, AddsBodies, debug_in};
ghost use Rattle.wl_plan.specs.steps.Bindings.{AreBindings};
ghost use Rattle.wl_plan.specs.Fixups.{AreFixups};
ghost use Rattle.wl_plan.specs.steps.Functions.{linker_functions, own_function_part};
ghost use Rattle.wl_plan.specs.steps.Globals.{AreSources};
ghost use Rattle.wl_plan.specs.Globals.{IsGlobalFault};
ghost use Rattle.wl_places.specs.Placing.{IsPlacing};
ghost use Rattle.wl_places.specs.declared.placing.Placing.{Placing as Places};
ghost use Rattle.wl_plan.specs.steps.Threads.{body_error, IsBodyRefusal, IsSpelledFor, IsUnspelled};

use crate::bindings::Bindings;
use crate::functions::function_room;
use crate::global_starts::GlobalSources;
use crate::rewriting::{Renumbering, RewrittenBody, rewrite, take_next};
use crate::threads::{got_fixups, tls_pointers};
use std::alloc::{AllocError, Global};
use std::borrow::CowSlice;
use wl_bind::entries_have_types;
use wl_ctors::InitCall;
use wl_linking::{DebugSectionInput, File, LinkError, whole_objects};
use wl_lists::ItemList;
use wl_module::{WasmFunctionBody, copy_bytes};
use wl_output::Fixup;
use wl_places::{Copied, Placing, all_copies, flag_is_where_memory_is_filled, segments_are_small};
use wl_symbols::{LinkInput, WasmGcUnit, WasmLinkerSymbol, unmarked_bodies_number_none};
use wl_synth::{
    SynthError, UNREACHABLE_FUNCTION_BODY, encode_call_sequence_body, encode_init_memory_body,
    encode_init_tls_body,
};

// ---- bodies of objects

/// The body of a function of an object as it is there.
fn copied<'a>(
    alloc: Global,
    body: &WasmFunctionBody<'a>,
    object: usize,
) -> Result<WasmFunctionBody<'a>, AllocError>
    ensures bytes { IfOk result (λ b. b.bytes ≡ body.now.bytes) }
    ensures owned { IfOk result (λ b. b.owned ≡ body.now.owned) }
    ensures code_offset { IfOk result (λ b. b.code_offset ≡ body.now.code_offset) }
    ensures object { IfOk result (λ b. b.object_index ≡ object) }
{
    Ok(WasmFunctionBody {
        bytes: copy_bytes(alloc, &body.bytes)?,
        code_offset: body.code_offset,
        object_index: object,
    })
}

/// The body of a kept function of an object in the output. One that numbers no segments is copied;
/// the live set knows which do. Another was rewritten with its fields, or is now.
///
/// # Errors
/// Want of memory alone.
fn output_body<'a>(
    alloc: Global,
    renumbering: &Renumbering<'_, '_, 'a>,
    rewritten: &mut Vec<RewrittenBody<'a>>,
    site: (usize, u32),
    body: &WasmFunctionBody<'a>,
) -> Result<WasmFunctionBody<'a>, LinkError>
    requires renumbering { IsRenumbering renumbering.now }
    requires rewritten { AreRewritten renumbering.now.input.now renumbering.now.placing.now
        rewritten.old.items }
    requires here { body_in renumbering.now.input.now site.0 site.1 ≡ Some body.now }
    requires kept { keeps renumbering.now.input.now site.0 (DefinedFunction site.1) ≡ true }
    ensures ok { IfOk result
        (IsBodyIn renumbering.now.input.now renumbering.now.placing.now site.0 site.1) }
    ensures rewritten { AreRewritten renumbering.now.input.now renumbering.now.placing.now
        rewritten.new.items }
    ensures err { IfErr result (λ e. e ≡ OutOfMemory) }
{
    unmarked_bodies_number_none();
    let (object, function) = site;
    if !renumbering.input.live().numbers_segments(object, function) {
        return Ok(copied(alloc, body, object)?);
    }
    match take_next(rewritten, site) {
        Some(body) => Ok(body),
        None => rewrite(alloc, renumbering, site, body, &mut []),
    }
}

// ---- bodies

/// Adds a body that the linker makes.
pub(crate) fn push_made<'a>(
    bodies: &mut Vec<WasmFunctionBody<'a>>,
    bytes: Vec<u8>,
) -> Result<(), AllocError>
    ensures { OnOk result (AddsMadeBody bytes.items bodies.old.items bodies.new.items) }
{
    bodies.push(WasmFunctionBody {
        bytes: CowSlice::Owned(bytes),
        code_offset: 0,
        object_index: 0,
    })?;
    Ok(())
}

/// The functions that are called at the start, each with the number of its results.
fn called(alloc: Global, calls: &[InitCall]) -> Result<Vec<(u32, u32)>, AllocError>
    ensures { IfOk result (λ pairs. pairs.items ≡ map called calls.now) }
{
    let mut pairs = Vec::new(alloc);
    for call in calls {
        pairs.push((call.index, call.results))?;
    }
    Ok(pairs)
}

/// The body of what calls the constructors.
fn call_ctors_body(alloc: Global, calls: &[InitCall]) -> Result<Vec<u8>, AllocError>
    ensures { IfOk result
        (λ body. IsEncoded (call_sequence_ops (map called calls.now)) body.items) }
{
    let pairs = called(alloc, calls)?;
    match encode_call_sequence_body(alloc, &pairs) {
        Ok(body) => Ok(body),
        Err(_) => Err(AllocError),
    }
}

/// Adds the body of what calls the constructors, where the output has it.
fn push_call_ctors<'a>(
    alloc: Global,
    bodies: &mut Vec<WasmFunctionBody<'a>>,
    bindings: &Bindings<'a>,
) -> Result<(), AllocError>
    ensures { (input : Input) (g : Places) → AreBindings input bindings.now
        → OnOk result (AddsBodies input g (made_function_part input CallCtors)
        bodies.old.items bodies.new.items) }
{
    match bindings.indices.index(WasmLinkerSymbol::CallCtors) {
        Some(_) => {
            let body = call_ctors_body(alloc, bindings.calls.as_slice())?;
            push_made(bodies, body)
        }
        None => Ok(()),
    }
}

/// What is reported where a body isn't encoded.
fn body_error(error: SynthError) -> LinkError
    ensures { result ≡ body_error error }
{
    match error {
        SynthError::OutOfMemory => LinkError::OutOfMemory,
        SynthError::Range(value) => LinkError::ConstantRange { value },
    }
}

/// The body of what fills the block of a thread, whose base stands in that global.
fn init_tls_body(
    alloc: Global,
    sources: &GlobalSources<'_, '_, '_, '_>,
    fixups: &[Fixup],
    base_global: u32,
) -> Result<Vec<u8>, LinkError>
    requires sources { AreSources sources.now }
    requires whole { AllByRecursion IsWhole sources.now.book.now.input.now.link.objects }
    requires fixups { AreFixups sources.now.book.now.input.now sources.now.book.now.placing.now
        fixups.now }
    requires room { length (segment_space sources.now.book.now.placing.now) ≤ MAX_ENTRIES }
    requires low { Clear (IsGlobalFault sources.now.book.now.input.now
        sources.now.book.now.placing.now) }
    requires base { slice_get (global_space sources.now.book.now.input.now) base_global
        ≡ Some (GlobalOf (global.Made TlsBase)) }
    ensures ok { IfOk result (λ body. IsSpelledFor (AreInitTlsOps sources.now.book.now.input.now
        sources.now.book.now.placing.now) body.items) }
    ensures err { IfErr result (IsUnspelled (AreInitTlsOps sources.now.book.now.input.now
        sources.now.book.now.placing.now)) }
{
    segments_are_small();
    let book = sources.book;
    let layouts = book.placing.places.layouts.as_slice();
    let copies = all_copies(alloc, Copied::Template, layouts)?;
    let pointers = tls_pointers(alloc, book, fixups)?;
    let got = got_fixups(alloc, sources)?;
    let size = book.placing.places.tls_size;
    match encode_init_tls_body(alloc, base_global, size, &copies, &pointers, &got) {
        Ok(body) => Ok(body),
        Err(error) => Err(body_error(error)),
    }
}

/// Adds the body of what fills the block of a thread, where the output has it.
fn push_init_tls<'a>(
    alloc: Global,
    bodies: &mut Vec<WasmFunctionBody<'a>>,
    sources: &GlobalSources<'_, '_, '_, 'a>,
    fixups: &[Fixup],
) -> Result<(), LinkError>
    requires sources { AreSources sources.now }
    requires whole { AllByRecursion IsWhole sources.now.book.now.input.now.link.objects }
    requires fixups { AreFixups sources.now.book.now.input.now sources.now.book.now.placing.now
        fixups.now }
    requires room { length (segment_space sources.now.book.now.placing.now) ≤ MAX_ENTRIES }
    requires low { Clear (IsGlobalFault sources.now.book.now.input.now
        sources.now.book.now.placing.now) }
    ensures ok { OnOk result (AddsBodies sources.now.book.now.input.now
        sources.now.book.now.placing.now
        (made_function_part sources.now.book.now.input.now InitTls)
        bodies.old.items bodies.new.items) }
    ensures err { IfErr result (IsBodyRefusal sources.now.book.now.input.now
        sources.now.book.now.placing.now) }
{
    let indices = &sources.bindings.indices;
    if indices.index(WasmLinkerSymbol::InitTls).is_none() {
        return Ok(());
    }
    let base_global = match indices.index(WasmLinkerSymbol::TlsBase) {
        Some(index) => index,
        None => return Ok(()),
    };
    let body = init_tls_body(alloc, sources, fixups, base_global)?;
    push_made(bodies, body)?;
    Ok(())
}

/// The body of what copies data for all threads, by that flag.
fn init_memory_body(
    alloc: Global,
    input: &LinkInput<'_, '_>,
    placing: &Placing<'_>,
    flag: u32,
) -> Result<Vec<u8>, LinkError>
    requires whole { AllByRecursion IsWhole input.now.link.objects }
    requires placed { IsPlacing input.now placing.now }
    requires room { length (segment_space placing.now) ≤ MAX_ENTRIES }
    requires flag { placing.now.places.flag ≡ Some flag }
    ensures ok { IfOk result (λ body. IsSpelledFor (AreInitMemoryOps placing.now) body.items) }
    ensures err { IfErr result (IsUnspelled (AreInitMemoryOps placing.now)) }
{
    segments_are_small();
    let layouts = placing.places.layouts.as_slice();
    let copies = all_copies(alloc, Copied::Shared, layouts)?;
    match encode_init_memory_body(alloc, flag, &copies) {
        Ok(body) => Ok(body),
        Err(error) => Err(body_error(error)),
    }
}

/// Adds the body of what copies data for all threads, where the output has it.
fn push_init_memory<'a>(
    alloc: Global,
    bodies: &mut Vec<WasmFunctionBody<'a>>,
    input: &LinkInput<'_, 'a>,
    placing: &Placing<'a>,
    bindings: &Bindings<'a>,
) -> Result<(), LinkError>
    requires whole { AllByRecursion IsWhole input.now.link.objects }
    requires bindings { AreBindings input.now bindings.now }
    requires placed { IsPlacing input.now placing.now }
    requires room { length (segment_space placing.now) ≤ MAX_ENTRIES }
    ensures ok { OnOk result (AddsBodies input.now placing.now (init_memory_part input.now)
        bodies.old.items bodies.new.items) }
    ensures err { IfErr result (IsBodyRefusal input.now placing.now) }
{
    flag_is_where_memory_is_filled();
    if bindings.indices.init_memory().is_none() {
        return Ok(());
    }
    let flag = match placing.places.flag {
        Some(flag) => flag,
        None => return Ok(()),
    };
    let body = init_memory_body(alloc, input, placing, flag)?;
    push_made(bodies, body)?;
    Ok(())
}

/// Adds the bodies of the stubs, one for each of their types.
fn push_stubs<'a>(
    alloc: Global,
    bodies: &mut Vec<WasmFunctionBody<'a>>,
    bindings: &Bindings<'a>,
) -> Result<(), AllocError>
    ensures { (input : Input) (g : Places) → AreBindings input bindings.now
        → OnOk result (AddsBodies input g (stub_part input)
        bodies.old.items bodies.new.items) }
{
    entries_have_types();
    let types = bindings.stubs.as_slice();
    let mut made = 0;
    while made < types.len() {
        push_made(bodies, Vec::from_slice(alloc, &UNREACHABLE_FUNCTION_BODY)?)?;
        made += 1;
    }
    Ok(())
}

/// Adds the body of a function of an object, where that is kept.
fn push_kept<'a>(
    alloc: Global,
    bodies: &mut Vec<WasmFunctionBody<'a>>,
    renumbering: &Renumbering<'_, '_, 'a>,
    rewritten: &mut Vec<RewrittenBody<'a>>,
    site: (usize, usize),
    body: &WasmFunctionBody<'a>,
) -> Result<(), LinkError>
    requires renumbering { IsRenumbering renumbering.now }
    requires rewritten { AreRewritten renumbering.now.input.now renumbering.now.placing.now
        rewritten.old.items }
    requires few { site.1 < 2 ^ 32 }
    requires here { body_in renumbering.now.input.now site.0 site.1 ≡ Some body.now }
    ensures ok { OnOk result (AddsBodies renumbering.now.input.now renumbering.now.placing.now
        (own_function_part renumbering.now.input.now site.0 site.1)
        bodies.old.items bodies.new.items) }
    ensures rewritten { AreRewritten renumbering.now.input.now renumbering.now.placing.now
        rewritten.new.items }
    ensures err { IfErr result (λ e. e ≡ OutOfMemory) }
{
    let (object, function) = (site.0, site.1 as u32);
    let unit = WasmGcUnit::DefinedFunction(function);
    if !renumbering.input.live().is_live(object, unit) {
        return Ok(());
    }
    let kept = output_body(alloc, renumbering, rewritten, (object, function), body)?;
    bodies.push(kept)?;
    Ok(())
}

/// Adds the bodies of the kept functions of an object.
fn push_bodies<'a>(
    alloc: Global,
    bodies: &mut Vec<WasmFunctionBody<'a>>,
    renumbering: &Renumbering<'_, '_, 'a>,
    rewritten: &mut Vec<RewrittenBody<'a>>,
    object: usize,
    file: &File<'a>,
) -> Result<(), LinkError>
    requires renumbering { IsRenumbering renumbering.now }
    requires rewritten { AreRewritten renumbering.now.input.now renumbering.now.placing.now
        rewritten.old.items }
    requires here { slice_get renumbering.now.input.now.link.objects object ≡ Some file.now }
    ensures ok { OnOk result (AddsBodies renumbering.now.input.now renumbering.now.placing.now
        (functions_of renumbering.now.input.now object file.now)
        bodies.old.items bodies.new.items) }
    ensures rewritten { AreRewritten renumbering.now.input.now renumbering.now.placing.now
        rewritten.new.items }
    ensures err { IfErr result (λ e. e ≡ OutOfMemory) }
{
    file.stands_for_an_object();
    whole_objects();
    for (function, body) in file.bodies().iter().enumerate() {
        push_kept(
            alloc,
            bodies,
            renumbering,
            rewritten,
            (object, function),
            body,
        )?;
    }
    Ok(())
}

/// Adds the bodies of what the linker makes by itself, where the output has it.
fn push_linker_made<'a>(
    alloc: Global,
    bodies: &mut Vec<WasmFunctionBody<'a>>,
    sources: &GlobalSources<'_, '_, '_, 'a>,
    fixups: &[Fixup],
) -> Result<(), LinkError>
    requires sources { AreSources sources.now }
    requires whole { AllByRecursion IsWhole sources.now.book.now.input.now.link.objects }
    requires fixups { AreFixups sources.now.book.now.input.now sources.now.book.now.placing.now
        fixups.now }
    requires room { length (segment_space sources.now.book.now.placing.now) ≤ MAX_ENTRIES }
    requires low { Clear (IsGlobalFault sources.now.book.now.input.now
        sources.now.book.now.placing.now) }
    ensures ok { OnOk result (AddsBodies sources.now.book.now.input.now
        sources.now.book.now.placing.now (linker_functions sources.now.book.now.input.now)
        bodies.old.items bodies.new.items) }
    ensures err { IfErr result (IsBodyRefusal sources.now.book.now.input.now
        sources.now.book.now.placing.now) }
{
    let input = sources.book.input;
    let placing = sources.book.placing;
    let bindings = sources.bindings;
    push_call_ctors(alloc, bodies, bindings)?;
    push_init_tls(alloc, bodies, sources, fixups)?;
    push_init_memory(alloc, bodies, input, placing, bindings)
}

/// Adds the bodies of the kept functions of all objects.
fn push_objects<'a>(
    alloc: Global,
    bodies: &mut Vec<WasmFunctionBody<'a>>,
    renumbering: &Renumbering<'_, '_, 'a>,
    rewritten: &mut Vec<RewrittenBody<'a>>,
    files: &[File<'a>],
) -> Result<(), LinkError>
    requires renumbering { IsRenumbering renumbering.now }
    requires rewritten { AreRewritten renumbering.now.input.now renumbering.now.placing.now
        rewritten.old.items }
    requires files { files.now ≡ renumbering.now.input.now.link.objects }
    ensures ok { OnOk result (AddsBodies renumbering.now.input.now renumbering.now.placing.now
        (object_functions renumbering.now.input.now) bodies.old.items bodies.new.items) }
    ensures err { IfErr result (λ e. e ≡ OutOfMemory) }
{
    for (object, file) in files.iter().enumerate() {
        push_bodies(alloc, bodies, renumbering, rewritten, object, file)?;
    }
    Ok(())
}

/// The bodies of the functions of the space that aren't imported, in order, of which some were
/// rewritten with their fields.
///
/// # Errors
/// `ConstantRange` where a constant of a body that the linker makes is above 2147483647.
pub(crate) fn own_bodies<'a>(
    alloc: Global,
    sources: &GlobalSources<'_, '_, '_, 'a>,
    fixups: &[Fixup],
    renumbering: &Renumbering<'_, '_, 'a>,
    rewritten: &mut Vec<RewrittenBody<'a>>,
) -> Result<Vec<WasmFunctionBody<'a>>, LinkError>
    requires sources { AreSources sources.now }
    requires fixups { AreFixups sources.now.book.now.input.now sources.now.book.now.placing.now
        fixups.now }
    requires room { length (segment_space sources.now.book.now.placing.now) ≤ MAX_ENTRIES }
    requires low { Clear (IsGlobalFault sources.now.book.now.input.now
        sources.now.book.now.placing.now) }
    requires renumbering { IsRenumbering renumbering.now }
    requires input { renumbering.now.input.now ≡ sources.now.book.now.input.now }
    requires placing { renumbering.now.placing.now ≡ sources.now.book.now.placing.now }
    requires rewritten { AreRewritten renumbering.now.input.now renumbering.now.placing.now
        rewritten.old.items }
    ensures ok { IfOk result (λ bodies. AreOwnBodies sources.now.book.now.input.now
        sources.now.book.now.placing.now bodies.items) }
    ensures err { IfErr result (IsBodyRefusal sources.now.book.now.input.now
        sources.now.book.now.placing.now) }
{
    let input = sources.book.input;
    let room = function_room(input, sources.bindings.stubs.as_slice().len());
    let mut bodies = Vec::with_capacity(alloc, room)?;
    push_linker_made(alloc, &mut bodies, sources, fixups)?;
    push_stubs(alloc, &mut bodies, sources.bindings)?;
    let files = input.files().as_slice();
    push_objects(alloc, &mut bodies, renumbering, rewritten, files)?;
    Ok(bodies)
}

// ---- debug sections

/// Adds the debug sections of an object.
fn push_debug_sections<'a>(
    sections: &mut Vec<DebugSectionInput<'a>>,
    object: usize,
    more: &[DebugSectionInput<'a>],
) -> Result<(), AllocError>
    ensures { OnOk result
        (sections.new.items ≡ sections.old.items ++ map (debug_in object) more.now) }
{
    for section in more {
        sections.push(DebugSectionInput {
            name: section.name,
            payload: section.payload,
            object_index: object,
        })?;
    }
    Ok(())
}

/// The debug sections of all objects.
pub(crate) fn all_debug_sections<'a>(
    alloc: Global,
    files: &[File<'a>],
) -> Result<ItemList<DebugSectionInput<'a>>, AllocError>
    ensures { IfOk result (λ sections. sections ≡ object_debug_sections 0 files.now) }
{
    let mut sections = Vec::new(alloc);
    for (object, file) in files.iter().enumerate() {
        push_debug_sections(&mut sections, object, file.debug_inputs())?;
    }
    Ok(ItemList::new(sections))
}
