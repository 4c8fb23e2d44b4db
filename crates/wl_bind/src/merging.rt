//! The types of the output, and where the types of each object went.

ghost use Rattle.std.specs.Prelude.{◌≡◌, ◌∷◌, ◌++◌, [], Some, length, slice_get, IfOk, IfErr, OnOk};
ghost use Rattle.indexmap.specs.IndexSet.{insert_all};
ghost use Rattle.wl_module.specs.Types.{same_type};
ghost use Rattle.wl_types.specs.Types.{IsFull};
ghost use Rattle.wl_bind.specs.FunctionTypes.{stub_types};
ghost use Rattle.wl_symbols.specs.Input.{Input as Linked};
ghost use Rattle.wl_bind.specs.MadeIndices.{AreMadeIndices};
ghost use Rattle.wl_bind.specs.steps.Merging.{is_marked, entry_if, merged, type_where, made_functions};
ghost use Rattle.wl_bind.specs.OutputTypes.{made_types, output_types, types_if, local_types, live_types, IsMerged};
ghost use Rattle.wl_bind.specs.Parts.{by_object, AreRows, IsIndexOf, AreIndicesOf};
ghost use Rattle.wl_bind.specs.Resolutions.{resolutions, by_all_rules};

use crate::indices::LinkerDefinedIndices;
use crate::resolution::ObjectImportResolutions;
use crate::type_marks::live_marks;
use std::alloc::{AllocError, Global};
use wl_index::WASM_DEAD_INDEX;
use wl_linking::{File, LinkError};
use wl_lists::ItemList;
use wl_module::{FuncType, ValType};
use wl_symbols::{LinkInput, WasmLinkerSymbol};
use wl_types::TypeMerger;

/// The types of the output, each once, and for each object the index of each of its types:
/// 4294967295 where the output has no use for it.
#[derive(Drop)]
pub struct MergedTypes {
    /// The types of the output.
    pub types: TypeMerger,
    /// The indices of the types of each object.
    pub indices: ItemList<ItemList<u32>>,
}

// ---- the types of an object

/// Adds a type, where it is marked, and answers its index: 4294967295 where it isn't.
fn merge_type(merger: &mut TypeMerger, ty: &FuncType, marked: bool) -> Result<u32, LinkError>
    ensures types { OnOk result (merger.new ≡ merged merger.old (entry_if marked ty.now ∷ [])) }
    ensures index { IfOk result (IsIndexOf merger.new (entry_if marked ty.now)) }
    ensures err { IfErr result (IsFull (merged merger.old (entry_if marked ty.now ∷ []))) }
{
    if marked {
        merger.add(ty)
    } else {
        Ok(WASM_DEAD_INDEX)
    }
}

/// Adds those of these types that are marked, and answers the index of each.
fn merge_marked(
    alloc: Global,
    merger: &mut TypeMerger,
    types: &[FuncType],
    marks: &[bool],
) -> Result<ItemList<u32>, LinkError>
    requires { length marks.now ≡ length types.now }
    ensures types { OnOk result
        (merger.new ≡ merged merger.old (types_if (is_marked marks.now) 0 types.now)) }
    ensures indices { IfOk result
        (AreIndicesOf merger.new (types_if (is_marked marks.now) 0 types.now)) }
    ensures err { IfErr result
        (IsFull (merged merger.old (types_if (is_marked marks.now) 0 types.now))) }
{
    let mut indices = ItemList::empty(alloc);
    for (number, ty) in types.iter().enumerate() {
        let index = merge_type(merger, ty, marks[number])?;
        indices.push(index)?;
    }
    Ok(indices)
}

/// Adds the live types of an object, and answers the index of each of its types.
fn merge_object(
    alloc: Global,
    merger: &mut TypeMerger,
    input: &LinkInput<'_, '_>,
    rows: &[ObjectImportResolutions],
    object: usize,
    file: &File<'_>,
) -> Result<ItemList<u32>, LinkError>
    requires rows { rows.now ≡ resolutions input.now (by_all_rules input.now) }
    requires here { slice_get input.now.link.objects object ≡ Some file.now }
    ensures types { OnOk result
        (merger.new ≡ merged merger.old (local_types input.now object file.now)) }
    ensures indices { IfOk result
        (AreIndicesOf merger.new (local_types input.now object file.now)) }
    ensures err { IfErr result
        (IsFull (merged merger.old (local_types input.now object file.now))) }
{
    let marks = live_marks(alloc, input, rows, object, file)?;
    merge_marked(alloc, merger, file.types(), &marks)
}

/// Merges the live types of all objects.
fn merge_objects(
    alloc: Global,
    input: &LinkInput<'_, '_>,
    rows: &[ObjectImportResolutions],
) -> Result<MergedTypes, LinkError>
    requires rows { rows.now ≡ resolutions input.now (by_all_rules input.now) }
    ensures types { IfOk result (λ merged. merged.types ≡ insert_all same_type []
        (by_object (live_types input.now) 0 input.now.link.objects)) }
    ensures indices { IfOk result (λ merged. AreRows
        (λ object o. AreIndicesOf merged.types (local_types input.now object o))
        0 input.now.link.objects merged.indices) }
    ensures err { IfErr result (IsFull (insert_all same_type []
        (by_object (live_types input.now) 0 input.now.link.objects))) }
{
    let files = input.files().as_slice();
    let mut merged = MergedTypes {
        types: TypeMerger::new(alloc),
        indices: ItemList::empty(alloc),
    };
    for (object, file) in files.iter().enumerate() {
        let row = merge_object(alloc, &mut merged.types, input, rows, object, file)?;
        merged.indices.push(row)?;
    }
    Ok(merged)
}

// ---- the types of what the linker makes

/// Adds these types.
fn merge_listed(merger: &mut TypeMerger, types: &[FuncType]) -> Result<(), LinkError>
    ensures types { OnOk result (merger.new ≡ insert_all same_type merger.old types.now) }
    ensures err { IfErr result (IsFull (insert_all same_type merger.old types.now)) }
{
    for ty in types {
        merger.add(ty)?;
    }
    Ok(())
}

/// Adds the type with these parameters and no results to the list, where there is such a function.
fn push_made(
    alloc: Global,
    types: &mut Vec<FuncType>,
    exists: bool,
    params: &[ValType],
) -> Result<(), AllocError>
    ensures { OnOk result (types.new.items ≡ types.old.items ++ type_where exists params.now) }
{
    if exists {
        let params = Vec::from_slice(alloc, params)?;
        types.push(FuncType::new(params, Vec::new(alloc)))?;
    }
    Ok(())
}

/// The types of the functions that the linker makes, without those of stubs.
fn made_functions(
    alloc: Global,
    indices: &LinkerDefinedIndices,
) -> Result<Vec<FuncType>, AllocError>
    ensures { (input : Linked) → AreMadeIndices input indices.now
        → IfOk result (λ types. types.items ≡ made_functions input) }
{
    let calls_ctors = indices.index(WasmLinkerSymbol::CallCtors).is_some();
    let fills_thread = indices.index(WasmLinkerSymbol::InitTls).is_some();
    let copies_data = indices.init_memory().is_some();
    let mut types = Vec::new(alloc);
    push_made(alloc, &mut types, calls_ctors, &[])?;
    push_made(alloc, &mut types, fills_thread, &[ValType::I32])?;
    push_made(alloc, &mut types, copies_data, &[])?;
    Ok(types)
}

/// Adds the types of what the linker makes, those of stubs last.
fn merge_made(
    alloc: Global,
    merger: &mut TypeMerger,
    indices: &LinkerDefinedIndices,
    stubs: &[FuncType],
) -> Result<(), LinkError>
    ensures types { (input : Linked) → AreMadeIndices input indices.now
        → stubs.now ≡ stub_types input
        → OnOk result (merger.new ≡ insert_all same_type merger.old (made_types input)) }
    ensures err { (input : Linked) → AreMadeIndices input indices.now
        → stubs.now ≡ stub_types input
        → IfErr result (IsFull (insert_all same_type merger.old (made_types input))) }
{
    let made = made_functions(alloc, indices)?;
    merge_listed(merger, &made)?;
    merge_listed(merger, stubs)
}

// ---- the types of the output

/// Merges the types of kept functions, of what the host is asked for, and of what kept relocations
/// name, object by object, and then those of what the linker makes.
///
/// # Errors
/// `TooLarge` where there would be more than 4294967294 of them.
pub fn merge_live_output_types(
    alloc: Global,
    input: &LinkInput<'_, '_>,
    rows: &[ObjectImportResolutions],
    indices: &LinkerDefinedIndices,
    stubs: &[FuncType],
) -> Result<MergedTypes, LinkError>
    requires rows { rows.now ≡ resolutions input.now (by_all_rules input.now) }
    requires indices { AreMadeIndices input.now indices.now }
    requires stubs { stubs.now ≡ stub_types input.now }
    ensures ok { IfOk result (IsMerged input.now) }
    ensures err { IfErr result (IsFull (output_types input.now)) }
{
    let mut merged = merge_objects(alloc, input, rows)?;
    merge_made(alloc, &mut merged.types, indices, stubs)?;
    Ok(merged)
}
