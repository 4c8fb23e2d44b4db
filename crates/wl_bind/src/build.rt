//! The references of a link, bound, and its things numbered.

ghost use Rattle.std.specs.Prelude.{◌≡◌, OnOk, IfOk, IfErr};
ghost use Rattle.wl_linking.specs.Steps.{Clear, Refuses};
ghost use Rattle.wl_bind.specs.Bound.{bound_of};
ghost use Rattle.wl_bind.specs.BoundIndices.{IsBoundIndices};
ghost use Rattle.wl_bind.specs.IndexMaps.{AreIndexMaps};
ghost use Rattle.wl_bind.specs.MadeIndices.{AreMadeIndices};
ghost use Rattle.wl_bind.specs.OutputTypes.{IsMerged};
ghost use Rattle.wl_bind.specs.SpaceFaults.{AreTooMany, IsSpaceOver, IsSpaceTooLarge, index_fault};

use crate::bound::{BoundReferences, bind_references};
use crate::index_maps::index_maps_of;
use crate::indices::LinkerDefinedIndices;
use crate::merging::{MergedTypes, merge_live_output_types};
use crate::numbering::Numbering;
use crate::resolution::ObjectImportResolutions;
use crate::scan::RelocScan;
use crate::shared::SharedUnresolvedImports;
use std::alloc::Global;
use wl_index::WasmObjectIndexMap;
use wl_linking::LinkError;
use wl_lists::ItemList;
use wl_module::FuncType;
use wl_symbols::LinkInput;

/// What the references of a link are bound to, and where its things stand in the output.
#[derive(Drop)]
pub struct BoundIndices<'a> {
    /// What the import slots of each object are resolved to.
    pub resolutions: ItemList<ObjectImportResolutions>,
    /// What kept relocations ask for.
    pub scan: RelocScan<'a>,
    /// The types of the stubs, in order.
    pub stubs: ItemList<FuncType>,
    /// What the host is asked for.
    pub shared: SharedUnresolvedImports<'a>,
    /// Where the things that the linker makes stand in the spaces of the output.
    pub indices: LinkerDefinedIndices,
    /// The types of the output, and where those of each object went.
    pub types: MergedTypes,
    /// Where the things of each object stand.
    pub maps: ItemList<WasmObjectIndexMap>,
}

/// The maps of all objects.
fn index_maps(
    alloc: Global,
    input: &LinkInput<'_, '_>,
    bound: &BoundReferences<'_>,
    indices: &LinkerDefinedIndices,
    types: &MergedTypes,
) -> Result<ItemList<WasmObjectIndexMap>, LinkError>
    requires bound { bound.now ≡ bound_of input.now }
    requires indices { AreMadeIndices input.now indices.now }
    requires types { IsMerged input.now types.now }
    ensures ok { IfOk result (AreIndexMaps input.now) }
    ensures room { OnOk result (AreTooMany input.now → ⊥) }
    ensures err { IfErr result (IsSpaceOver input.now) }
{
    let numbering = Numbering::new(alloc, input, bound, indices)?;
    Ok(index_maps_of(alloc, &numbering, types)?)
}

/// Where the things of a link stand in the output, by what its references are bound to.
fn index_things(
    alloc: Global,
    input: &LinkInput<'_, '_>,
    bound: &BoundReferences<'_>,
) -> Result<
    (
        LinkerDefinedIndices,
        MergedTypes,
        ItemList<WasmObjectIndexMap>,
    ),
    LinkError,
>
    requires { bound.now ≡ bound_of input.now }
    ensures indices { IfOk result (λ i. AreMadeIndices input.now i.0) }
    ensures types { IfOk result (λ i. IsMerged input.now i.1) }
    ensures maps { IfOk result (λ i. AreIndexMaps input.now i.2) }
    ensures clear { OnOk result (Clear (IsSpaceTooLarge input.now)) }
    ensures err { IfErr result (Refuses (IsSpaceTooLarge input.now)) }
{
    let rows = bound.resolutions.as_slice();
    let stubs = bound.stubs.as_slice();
    let indices = LinkerDefinedIndices::compute(
        alloc,
        input,
        rows,
        &bound.scan,
        &bound.shared,
        stubs,
    )?;
    let types = merge_live_output_types(alloc, input, rows, &indices, stubs)?;
    let maps = index_maps(alloc, input, bound, &indices, &types)?;
    Ok((indices, types, maps))
}

/// Binds the references of a link, and numbers what the output has.
///
/// # Errors
/// As [`bind_references`]; then `TooLarge` where a space would get more than 4294967294 entries:
/// the types, the functions, or the globals. Wrappers of exports come on top of these.
pub fn build_index_maps<'a>(
    alloc: Global,
    input: &LinkInput<'_, 'a>,
) -> Result<BoundIndices<'a>, LinkError>
    ensures ok { IfOk result (IsBoundIndices input.now) }
    ensures clear { OnOk result (Clear (index_fault input.now)) }
    ensures err { IfErr result (Refuses (index_fault input.now)) }
{
    let bound = bind_references(alloc, input)?;
    let (indices, types, maps) = index_things(alloc, input, &bound)?;
    Ok(BoundIndices {
        resolutions: bound.resolutions,
        scan: bound.scan,
        stubs: bound.stubs,
        shared: bound.shared,
        indices,
        types,
        maps,
    })
}
