//! The plan of a link, part by part, where it is known what is kept.

ghost use Rattle.std.specs.Prelude.{◌≡◌, ◌≤◌, length, OnOk, IfOk, IfErr};
ghost use Rattle.wl_linking.specs.Steps.{Clear, Refuses};
ghost use Rattle.wl_linking.specs.declared.error.LinkError.TheVariants.{OutOfMemory};
ghost use Rattle.wl_index.specs.declared.index.TheConstants.{MAX_ENTRIES};
ghost use Rattle.wl_exports.specs.Sources.{AreSources};
ghost use Rattle.wl_features.specs.Taken.{AreTaken};
ghost use Rattle.wl_bind.specs.FunctionSpace.{function_space};
ghost use Rattle.wl_bind.specs.IndexMaps.{AreIndexMaps};
ghost use Rattle.wl_places.specs.Addresses.{segment_space, IsAddressTooHigh};
ghost use Rattle.wl_plan.specs.Bodies.{AreBodies};
ghost use Rattle.wl_plan.specs.BodySteps.{AreRewritten, AreSoundBodies};
ghost use Rattle.wl_plan.specs.steps.Bindings.{AreBindings};
ghost use Rattle.wl_plan.specs.Faults.{IsNumberFault, IsValueFault, value_steps, placed_fault, laid_fault, kept_fault};
ghost use Rattle.wl_plan.specs.Fixups.{AreFixups};
ghost use Rattle.wl_plan.specs.Globals.{IsGlobalFault};
ghost use Rattle.wl_places.specs.IndexedMaps.{AreWholeMaps};
ghost use Rattle.wl_plan.specs.steps.Outline.{AreFew, HasOutline, HasWrapperRoom};
ghost use Rattle.wl_places.specs.Placing.{IsPlacing};
ghost use Rattle.wl_plan.specs.Plan.{IsPlan};
ghost use Rattle.wl_plan.specs.steps.Positions.{AreMovedFields};
ghost use Rattle.wl_plan.specs.steps.Plan.{ArePlacedThings, IsBookOf, IsRenumberingOf, HasValues, HasNames, HasPartsOf, IsOutputModule};
ghost use Rattle.wl_plan.specs.steps.Threads.{IsBodyRefusal};

use crate::bindings::Bindings;
use crate::bodies::own_bodies;
use crate::extras::{output_debug_sections, output_features};
use crate::fixups::{FixupSources, all_fixups};
use crate::global_starts::GlobalSources;
use crate::globals::planned_globals;
use crate::imports::output_imports;
use crate::layout::{LinkPlan, OutputFunction, OutputImport, PlannedGlobal, WasmLayout};
use crate::outline::{Outline, outline_of, sources_of};
use crate::positions::moved_fields;
use crate::rewriting::{Renumbering, RewrittenBody};
use crate::sizes::{SectionSizes, section_sizes};
use crate::table::{element_functions, output_table, space_slots};
use crate::wrappers::{push_wrapper_bodies, push_wrapper_slots};
use std::alloc::{AllocError, Global};
use wl_bind::{
    build_index_maps, entries_stand_once, same_targets_are_one, table_functions_stand_once,
};
use wl_bytes::shortest_form_is_one;
use wl_ctors::init_calls_are_one;
use wl_exports::{ExportSources, Wrapper, check_exports};
use wl_features::FeatureList;
use wl_index::WasmObjectIndexMap;
use wl_linking::{DebugSectionInput, LinkError};
use wl_lists::ItemList;
use wl_module::{FuncType, MemoryType, TableType, WasmFunctionBody};
use wl_ops::numbers_are_one;
use wl_output::Fixup;
use wl_places::{
    AddressBook, Placing, all_segment_numbers, all_starts, check_exported, place_data,
    placings_are_one, whole_maps,
};
use wl_symbols::LinkInput;
use wl_synth::body_or_fault;
use wl_words::WasmArgs;

/// What a plan is made from, where it is known where things lie.
#[derive(Drop)]
struct PlacedThings<'p, 'i, 'a> {
    /// The link, and what is kept of it.
    input: &'p LinkInput<'i, 'a>,
    /// Where data, stack and heap lie.
    placing: &'p Placing<'a>,
    /// What the references are bound to.
    bindings: &'p Bindings<'a>,
    /// Where the things of each object stand.
    maps: &'p [WasmObjectIndexMap],
    /// The functions that aren't imported, with the wrappers.
    functions: &'p [OutputFunction<'a>],
    /// The wrappers.
    wrappers: &'p [Wrapper<'a>],
}

/// The bodies of the functions that aren't imported, in order, where the globals can start and the
/// fields have taken their addresses.
///
/// # Errors
/// `ConstantRange` where a constant of a body that the linker makes is above 2147483647.
fn output_bodies<'a>(
    alloc: Global,
    things: &PlacedThings<'_, '_, 'a>,
    book: &AddressBook<'_, '_, 'a>,
    fixups: &[Fixup],
    renumbering: &Renumbering<'_, '_, 'a>,
    rewritten: &mut Vec<RewrittenBody<'a>>,
) -> Result<ItemList<WasmFunctionBody<'a>>, LinkError>
    requires things { ArePlacedThings things.now }
    requires book { IsBookOf things.now book.now }
    requires fixups { AreFixups things.now.input.now things.now.placing.now fixups.now }
    requires renumbering { IsRenumberingOf things.now renumbering.now }
    requires rewritten { AreRewritten things.now.input.now things.now.placing.now
        rewritten.old.items }
    requires low { Clear (IsAddressTooHigh things.now.input.now things.now.placing.now) }
    requires globals { Clear (IsGlobalFault things.now.input.now things.now.placing.now) }
    ensures ok { IfOk result (AreBodies things.now.input.now things.now.placing.now) }
    ensures err { IfErr result (IsBodyRefusal things.now.input.now things.now.placing.now) }
{
    let (input, bindings) = (things.input, things.bindings);
    let sources = GlobalSources {
        book,
        bindings,
        maps: things.maps,
    };
    let mut bodies = own_bodies(alloc, &sources, fixups, renumbering, rewritten)?;
    push_wrapper_bodies(
        alloc,
        &mut bodies,
        input,
        bindings,
        things.functions,
        things.wrappers,
    )?;
    Ok(ItemList::new(bodies))
}

/// How many functions there are without the wrappers.
fn space_len(things: &PlacedThings<'_, '_, '_>) -> usize
    requires { ArePlacedThings things.now }
    ensures { result ≡ length (function_space things.now.input.now) }
{
    let hosts = things.bindings.shared.functions().len();
    hosts + things.functions.len() - things.wrappers.len()
}

/// What takes its numbers from where things lie.
#[derive(Drop)]
struct OutputValues<'a> {
    globals: ItemList<PlannedGlobal<'a>>,
    elements: ItemList<u32>,
    slots: ItemList<u32>,
    fixups: ItemList<Fixup>,
}

/// What takes its numbers from where things lie.
fn output_values<'a>(
    alloc: Global,
    things: &PlacedThings<'_, '_, 'a>,
    book: &AddressBook<'_, '_, 'a>,
    positions: &[u32],
) -> Result<OutputValues<'a>, LinkError>
    requires things { ArePlacedThings things.now }
    requires book { IsBookOf things.now book.now }
    requires positions { AreMovedFields things.now.input.now things.now.placing.now
        positions.now }
    requires low { Clear (IsAddressTooHigh things.now.input.now things.now.placing.now) }
    ensures ok { IfOk result (HasValues things.now.input.now things.now.placing.now) }
    ensures clear { OnOk result
        (Clear (IsNumberFault things.now.input.now things.now.placing.now)) }
    ensures err { IfErr result
        (Refuses (IsNumberFault things.now.input.now things.now.placing.now)) }
{
    table_functions_stand_once();
    same_targets_are_one();
    let (input, placing, bindings, maps) = (
        things.input,
        things.placing,
        things.bindings,
        things.maps,
    );
    let globals = planned_globals(
        alloc,
        &GlobalSources {
            book,
            bindings,
            maps,
        },
    )?;
    let elements = element_functions(alloc, input, placing, bindings, maps)?;
    let count = space_len(things);
    let mut slots = space_slots(alloc, input, bindings, elements.as_slice(), count)?;
    let sources = FixupSources {
        book,
        maps,
        slots: slots.as_slice(),
    };
    let fixups = all_fixups(alloc, &sources, positions)?;
    push_wrapper_slots(&mut slots, things.wrappers)?;
    Ok(OutputValues {
        globals,
        elements,
        slots,
        fixups,
    })
}

/// What stands in a layout beside these: what is imported, and debug sections.
#[derive(Drop)]
struct OutputNames<'a> {
    imports: ItemList<OutputImport<'a>>,
    debug_sections: ItemList<DebugSectionInput<'a>>,
}

/// What is imported, and the debug sections.
fn output_names<'a>(
    alloc: Global,
    things: &PlacedThings<'_, '_, 'a>,
    args: &'a WasmArgs,
) -> Result<OutputNames<'a>, LinkError>
    requires things { ArePlacedThings things.now }
    requires args { args.now ≡ things.now.input.now.link.args }
    ensures ok { IfOk result (HasNames things.now.input.now things.now.placing.now) }
    ensures err { IfErr result (λ e. e ≡ OutOfMemory) }
{
    let (input, placing, bindings) = (things.input, things.placing, things.bindings);
    let maps = things.maps;
    Ok(OutputNames {
        imports: output_imports(alloc, input, args, bindings, maps, placing)?,
        debug_sections: output_debug_sections(alloc, input.files(), args)?,
    })
}

/// All parts that are made from where things lie.
#[derive(Drop)]
struct OutputParts<'a> {
    bodies: ItemList<WasmFunctionBody<'a>>,
    values: OutputValues<'a>,
    names: OutputNames<'a>,
    sizes: SectionSizes,
}

/// What takes its numbers from where things lie, and the bodies of the functions that aren't
/// imported.
fn values_and_bodies<'a>(
    alloc: Global,
    things: &PlacedThings<'_, '_, 'a>,
    book: &AddressBook<'_, '_, 'a>,
) -> Result<(OutputValues<'a>, ItemList<WasmFunctionBody<'a>>), LinkError>
    requires things { ArePlacedThings things.now }
    requires sound { AreSoundBodies things.now.input.now }
    requires book { IsBookOf things.now book.now }
    requires low { Clear (IsAddressTooHigh things.now.input.now things.now.placing.now) }
    ensures values { IfOk result
        (λ r. HasValues things.now.input.now things.now.placing.now r.0) }
    ensures bodies { IfOk result
        (λ r. AreBodies things.now.input.now things.now.placing.now r.1) }
    ensures clear { OnOk result
        (Clear (IsNumberFault things.now.input.now things.now.placing.now)) }
    ensures err { IfErr result
        (Refuses (IsValueFault things.now.input.now things.now.placing.now)) }
{
    let rows = all_segment_numbers(alloc, things.input, things.placing, things.maps)?;
    let renumbering = Renumbering {
        input: things.input,
        placing: things.placing,
        rows: rows.as_slice(),
    };
    let mut moved = moved_fields(alloc, &renumbering)?;
    let values = output_values(alloc, things, book, &moved.positions)?;
    let fixups = values.fixups.as_slice();
    let bodies = output_bodies(alloc, things, book, fixups, &renumbering, &mut moved.bodies)?;
    Ok((values, bodies))
}

/// All parts that are made from where things lie, where there can be these exports.
fn output_parts<'a>(
    alloc: Global,
    things: &PlacedThings<'_, '_, 'a>,
    book: &AddressBook<'_, '_, 'a>,
    exports: &ExportSources<'_, '_, 'a>,
) -> Result<OutputParts<'a>, LinkError>
    requires things { ArePlacedThings things.now }
    requires sound { AreSoundBodies things.now.input.now }
    requires book { IsBookOf things.now book.now }
    requires exports { AreSources exports.now }
    requires input { exports.now.input.now ≡ things.now.input.now }
    requires low { Clear (IsAddressTooHigh things.now.input.now things.now.placing.now) }
    ensures ok { IfOk result (HasPartsOf things.now.input.now things.now.placing.now) }
    ensures clear { OnOk result (Clear (value_steps things.now.input.now things.now.placing.now)) }
    ensures err { IfErr result
        (Refuses (value_steps things.now.input.now things.now.placing.now)) }
{
    numbers_are_one();
    shortest_form_is_one();
    init_calls_are_one();
    body_or_fault();
    entries_stand_once();
    let (values, bodies) = values_and_bodies(alloc, things, book)?;
    // Reported where each value was found, and before sizes.
    check_exports(alloc, exports)?;
    let layouts = things.placing.places.layouts.as_slice();
    let sizes = section_sizes(bodies.as_slice(), layouts)?;
    Ok(OutputParts {
        names: output_names(alloc, things, exports.args)?,
        bodies,
        values,
        sizes,
    })
}

/// What the options and the bindings say of the module as a whole.
#[derive(Clone, Copy)]
struct OutputModule {
    memory: Option<MemoryType>,
    table: Option<TableType>,
    start_function: Option<u32>,
    shared_memory_tls: bool,
}

/// What the options and the bindings say of the module as a whole.
fn output_module(
    input: &LinkInput<'_, '_>,
    placing: &Placing<'_>,
    bindings: &Bindings<'_>,
) -> OutputModule
    requires { AreBindings input.now bindings.now }
    ensures { IsOutputModule input.now placing.now result }
{
    OutputModule {
        memory: match &input.args().import_memory {
            Some(_) => None,
            None => Some(placing.memory),
        },
        table: output_table(input, &bindings.scan),
        start_function: bindings.indices.init_memory(),
        shared_memory_tls: bindings.indices.needs().needs_tls_size,
    }
}

/// All parts that are made from where things lie, and the maps of the objects with their data, of a
/// link with that outline.
fn placed_parts<'a>(
    alloc: Global,
    input: &LinkInput<'_, 'a>,
    args: &'a WasmArgs,
    outline: &Outline<'a>,
    placing: &Placing<'a>,
    maps: ItemList<WasmObjectIndexMap>,
) -> Result<(ItemList<WasmObjectIndexMap>, OutputParts<'a>), LinkError>
    requires sound { AreSoundBodies input.now }
    requires outline { HasOutline input.now outline.now }
    requires placed { IsPlacing input.now placing.now }
    requires maps { AreIndexMaps input.now maps }
    requires few { AreFew input.now }
    requires wrapper_room { HasWrapperRoom input.now }
    requires segments { length (segment_space placing.now) ≤ MAX_ENTRIES }
    requires args { args.now ≡ input.now.link.args }
    ensures maps { IfOk result (λ r. AreWholeMaps input.now placing.now r.0) }
    ensures parts { IfOk result (λ r. HasPartsOf input.now placing.now r.1) }
    ensures clear { OnOk result (Clear (placed_fault input.now placing.now)) }
    ensures err { IfErr result (Refuses (placed_fault input.now placing.now)) }
{
    let starts = all_starts(alloc, input, placing)?;
    let book = AddressBook {
        input,
        placing,
        starts: starts.as_slice(),
    };
    let maps = whole_maps(alloc, &book, maps)?;
    check_exported(input, placing, outline.bindings.indices.exported())?;
    let things = PlacedThings {
        input,
        placing,
        bindings: &outline.bindings,
        maps: maps.as_slice(),
        functions: outline.functions.as_slice(),
        wrappers: outline.interface.wrappers.as_slice(),
    };
    let bindings = &outline.bindings;
    let exports = sources_of(input, args, bindings, maps.as_slice(), &outline.features);
    let parts = output_parts(alloc, &things, &book, &exports)?;
    Ok((maps, parts))
}

/// The types of the output, and no more of what the references are bound to.
///
/// # Errors
/// `AllocError` where memory runs out.
fn types_of(bindings: Bindings<'_>) -> Result<ItemList<FuncType>, AllocError>
    ensures { IfOk result (λ types. types ≡ bindings.entry.types) }
{
    bindings.types.into_types()
}

/// The plan of a link with that outline, where things lie there, of these parts.
///
/// # Errors
/// `AllocError` where memory runs out.
fn plan_of<'a>(
    alloc: Global,
    input: &LinkInput<'_, 'a>,
    outline: Outline<'a>,
    placing: Placing<'a>,
    maps: ItemList<WasmObjectIndexMap>,
    parts: OutputParts<'a>,
) -> Result<LinkPlan<'a>, AllocError>
    requires outline { HasOutline input.now outline }
    requires placed { IsPlacing input.now placing }
    requires maps { AreWholeMaps input.now placing maps }
    requires parts { HasPartsOf input.now placing parts }
    ensures { IfOk result (IsPlan input.now) }
{
    let whole = output_module(input, &placing, &outline.bindings);
    let output_types = types_of(outline.bindings)?;
    let (interface, places) = (outline.interface, placing.places);
    let (values, names, sizes) = (parts.values, parts.names, parts.sizes);
    Ok(LinkPlan {
        layout: WasmLayout {
            output_types,
            imports: names.imports,
            function_type_indices: outline.functions,
            function_bodies: parts.bodies,
            globals: values.globals,
            memory: whole.memory,
            table: whole.table,
            element_functions: values.elements,
            function_table_slots: values.slots,
            object_data_layouts: places.layouts,
            exports: interface.exports,
            start_function: whole.start_function,
            memory_base: placing.memory_base,
            tls_base: places.tls_base,
            shared_memory_tls: whole.shared_memory_tls,
            tls_size: places.tls_size,
            tls_align: places.tls_align,
            data_end: places.data_end,
            code_section_size: sizes.code,
            data_section_size: sizes.segments,
            features: output_features(alloc, input.args(), outline.features),
            debug_sections: names.debug_sections,
            object_index_maps: maps,
        },
        fixups: values.fixups,
    })
}

/// Where things lie in a link with that outline, and the maps of the objects with their data, and
/// all parts that are made from that.
fn laid_parts<'a>(
    alloc: Global,
    input: &LinkInput<'_, 'a>,
    args: &'a WasmArgs,
    outline: &Outline<'a>,
    maps: ItemList<WasmObjectIndexMap>,
) -> Result<(Placing<'a>, ItemList<WasmObjectIndexMap>, OutputParts<'a>), LinkError>
    requires sound { AreSoundBodies input.now }
    requires args { args.now ≡ input.now.link.args }
    requires outline { HasOutline input.now outline.now }
    requires maps { AreIndexMaps input.now maps }
    requires few { AreFew input.now }
    requires wrapper_room { HasWrapperRoom input.now }
    ensures placing { IfOk result (λ r. IsPlacing input.now r.0) }
    ensures maps { IfOk result (λ r. AreWholeMaps input.now r.0 r.1) }
    ensures parts { IfOk result (λ r. HasPartsOf input.now r.0 r.2) }
    ensures clear { OnOk result (Clear (laid_fault input.now)) }
    ensures err { IfErr result (Refuses (laid_fault input.now)) }
{
    placings_are_one();
    // Segments, stack, memory and heap, and then what takes its value from where these lie.
    let placing = place_data(alloc, input, outline.bindings.indices.needs())?;
    let (maps, parts) = placed_parts(alloc, input, args, outline, &placing, maps)?;
    Ok((placing, maps, parts))
}

/// The plan of a link, of which it is known what is kept.
///
/// # Errors
/// As [`build_index_maps`]; then `TooLarge` where with the wrappers there are too many functions;
/// then as [`place_data`]; then `TooLarge` where data lies past the last address; then
/// `Unsupported`, `RelocationRange` or `ConstantRange` where a global or a field can't take its
/// value; then what [`wl_exports::check_exports`] refuses; then `TooLarge` where code or data has
/// too many bytes.
pub(crate) fn plan_kept<'a>(
    alloc: Global,
    input: &LinkInput<'_, 'a>,
    args: &'a WasmArgs,
    features: FeatureList<'a>,
) -> Result<LinkPlan<'a>, LinkError>
    requires sound { AreSoundBodies input.now }
    requires args { args.now ≡ input.now.link.args }
    requires features { AreTaken input.now.link features }
    ensures ok { IfOk result (IsPlan input.now) }
    ensures clear { OnOk result (Clear (kept_fault input.now)) }
    ensures err { IfErr result (Refuses (kept_fault input.now)) }
{
    // What references lead to, and the number of each thing; the wrappers come on top.
    let bound = build_index_maps(alloc, input)?;
    let (outline, maps) = outline_of(alloc, input, args, bound, features)?;
    let (placing, maps, parts) = laid_parts(alloc, input, args, &outline, maps)?;
    Ok(plan_of(alloc, input, outline, placing, maps, parts)?)
}
