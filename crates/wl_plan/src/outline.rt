//! What of the output is known before it is known where its data lies.

ghost use Rattle.std.specs.Prelude.{◌≡◌, ◌≤◌, length, IfOk, IfErr, OnOk};
ghost use Rattle.wl_linking.specs.Steps.{Clear, Refuses};
ghost use Rattle.wl_index.specs.declared.index.TheConstants.{MAX_ENTRIES};
ghost use Rattle.wl_bind.specs.BoundIndices.{IsBoundIndices};
ghost use Rattle.wl_bind.specs.FunctionSpace.{function_space};
ghost use Rattle.wl_bind.specs.IndexMaps.{AreIndexMaps};
ghost use Rattle.wl_bind.specs.References.{IsSettled};
ghost use Rattle.wl_bind.specs.Signatures.{IsMismatch};
ghost use Rattle.wl_bind.specs.OutputTypes.{output_types};
ghost use Rattle.wl_exports.specs.Interface.{IsInterface};
ghost use Rattle.wl_exports.specs.Sources.{AreSources, HaveIndices};
ghost use Rattle.wl_exports.specs.Wrapped.{AreTooManyWrappers};
ghost use Rattle.wl_features.specs.Taken.{AreTaken};
ghost use Rattle.wl_plan.specs.steps.Bindings.{AreBindings};
ghost use Rattle.wl_plan.specs.Functions.{AreOutputFunctions};
ghost use Rattle.wl_plan.specs.steps.Outline.{AreFew, HasOutline};

use crate::bindings::Bindings;
use crate::functions::own_functions;
use crate::layout::OutputFunction;
use crate::wrappers::with_wrappers;
use std::alloc::{AllocError, Global};
use wl_bind::BoundIndices;
use wl_ctors::init_calls;
use wl_exports::{ExportSources, OutputInterface, output_interface};
use wl_features::FeatureList;
use wl_index::WasmObjectIndexMap;
use wl_linking::LinkError;
use wl_lists::ItemList;
use wl_symbols::LinkInput;
use wl_words::WasmArgs;

/// What of the output is known before it is known where its data lies.
#[derive(Drop)]
pub(crate) struct Outline<'a> {
    /// What the references are bound to.
    pub(crate) bindings: Bindings<'a>,
    /// The functions that aren't imported, with the wrappers.
    pub(crate) functions: ItemList<OutputFunction<'a>>,
    /// The exports, and the wrappers that some of them lead to.
    pub(crate) interface: OutputInterface<'a>,
    /// The features that are used.
    pub(crate) features: FeatureList<'a>,
}

/// The parts of the bound link that a plan is made from, with what is called at the start, and the
/// maps of its objects.
fn bindings_of<'a>(
    alloc: Global,
    input: &LinkInput<'_, 'a>,
    bound: BoundIndices<'a>,
) -> Result<(Bindings<'a>, ItemList<WasmObjectIndexMap>), AllocError>
    requires settled { IsSettled input.now }
    requires signatures { Clear (IsMismatch input.now) }
    requires bound { IsBoundIndices input.now bound }
    requires room { length (function_space input.now) ≤ MAX_ENTRIES }
    ensures bindings { IfOk result (λ r. AreBindings input.now r.0) }
    ensures maps { IfOk result (λ r. AreIndexMaps input.now r.1) }
{
    let calls = init_calls(alloc, input, bound.maps.as_slice())?;
    let types = bound.types;
    let bindings = Bindings {
        scan: bound.scan,
        stubs: bound.stubs,
        shared: bound.shared,
        indices: bound.indices,
        types: types.types,
        calls,
    };
    Ok((bindings, bound.maps))
}

/// What the exports of a link whose references are bound are made from.
pub(crate) fn sources_of<'s, 'i, 'a>(
    input: &'s LinkInput<'i, 'a>,
    args: &'a WasmArgs,
    bindings: &'s Bindings<'a>,
    maps: &'s [WasmObjectIndexMap],
    features: &'s FeatureList<'a>,
) -> ExportSources<'s, 'i, 'a>
    requires args { args.now ≡ input.now.link.args }
    requires bindings { AreBindings input.now bindings.now }
    requires maps { HaveIndices input.now maps.now }
    requires few { AreFew input.now }
    requires features { AreTaken input.now.link features.now }
    ensures sources { AreSources result }
    ensures input { result.input.now ≡ input.now }
    ensures maps { result.maps.now ≡ maps.now }
{
    ExportSources {
        input,
        args,
        maps,
        indices: &bindings.indices,
        features,
    }
}

/// What others see of the output, and the functions that aren't imported, with the wrappers.
///
/// # Errors
/// `TooLarge` where with the wrappers there are more than 4294967294 functions.
fn seen_of<'a>(
    alloc: Global,
    input: &LinkInput<'_, 'a>,
    bindings: &Bindings<'a>,
    sources: &ExportSources<'_, '_, 'a>,
) -> Result<(OutputInterface<'a>, ItemList<OutputFunction<'a>>), LinkError>
    requires bindings { AreBindings input.now bindings.now }
    requires sources { AreSources sources.now }
    requires same { sources.now.input.now ≡ input.now }
    requires maps { AreIndexMaps input.now sources.now.maps.now }
    ensures interface { IfOk result (λ r. IsInterface input.now r.0) }
    ensures functions { IfOk result
        (λ r. AreOutputFunctions input.now (output_types input.now) r.1) }
    ensures clear { OnOk result (Clear (AreTooManyWrappers input.now)) }
    ensures err { IfErr result (Refuses (AreTooManyWrappers input.now)) }
{
    let own = own_functions(alloc, input, bindings, sources.maps)?;
    let hosts = bindings.shared.functions().len();
    let interface = output_interface(alloc, sources, hosts, hosts + own.len())?;
    let functions = with_wrappers(own, input, hosts, interface.wrappers.as_slice())?;
    Ok((interface, functions))
}

/// What is known of the output of a link whose references are bound, with the maps of its objects.
///
/// # Errors
/// `TooLarge` where with the wrappers there are more than 4294967294 functions.
pub(crate) fn outline_of<'a>(
    alloc: Global,
    input: &LinkInput<'_, 'a>,
    args: &'a WasmArgs,
    bound: BoundIndices<'a>,
    features: FeatureList<'a>,
) -> Result<(Outline<'a>, ItemList<WasmObjectIndexMap>), LinkError>
    requires settled { IsSettled input.now }
    requires signatures { Clear (IsMismatch input.now) }
    requires args { args.now ≡ input.now.link.args }
    requires bound { IsBoundIndices input.now bound }
    requires few { AreFew input.now }
    requires features { AreTaken input.now.link features }
    ensures outline { IfOk result (λ r. HasOutline input.now r.0) }
    ensures maps { IfOk result (λ r. AreIndexMaps input.now r.1) }
    ensures clear { OnOk result (Clear (AreTooManyWrappers input.now)) }
    ensures err { IfErr result (Refuses (AreTooManyWrappers input.now)) }
{
    let (bindings, maps) = bindings_of(alloc, input, bound)?;
    let sources = sources_of(input, args, &bindings, maps.as_slice(), &features);
    let (interface, functions) = seen_of(alloc, input, &bindings, &sources)?;
    let outline = Outline {
        bindings,
        functions,
        interface,
        features,
    };
    Ok((outline, maps))
}
