//! The indices of the functions that function symbols lead to.

ghost use Rattle.std.specs.Prelude.{◌≡◌, ◌≤◌, length, slice_get, IfOk, Some};
ghost use Rattle.wl_index.specs.declared.index.TheConstants.{MAX_ENTRIES};
ghost use Rattle.wl_bind.specs.FunctionSpace.{function_space, local_functions};
ghost use Rattle.wl_bind.specs.IndexMaps.{symbol_functions};
ghost use Rattle.wl_bind.specs.Parts.{AreIndicesOf, ArePlacesOf, AreRows};
ghost use Rattle.wl_bind.specs.steps.Redirects.{row_place, definition_function, redirect_of};

use crate::link_laws::link_laws;
use std::alloc::{AllocError, Global};
use wl_index::WASM_DEAD_INDEX;
use wl_linking::File;
use wl_lists::ItemList;
use wl_symbols::{Definition, LinkInput};

/// A function of an object, by its index there: imported ones come first.
#[derive(Clone, Copy, Drop)]
struct LocalFunction {
    object: usize,
    index: u32,
}

/// The index of a function of an object, where the output has it.
fn row_place(rows: &[ItemList<u32>], function: LocalFunction) -> Option<u32>
    ensures { result ≡ row_place rows.now function }
{
    let row = rows.get(function.object)?;
    let index = *row.as_slice().get(function.index as usize)?;
    if index == WASM_DEAD_INDEX {
        None
    } else {
        Some(index)
    }
}

/// The function that an object defines, where this is its definition.
fn definition_function(input: &LinkInput<'_, '_>, definition: Definition) -> Option<LocalFunction>
    ensures { result ≡ definition_function input.now.link.objects definition }
{
    let Definition::Symbol {
        object,
        symbol: number,
    } = definition
    else {
        return None;
    };
    let symbol = input.symbols().symbol(object, number)?;
    if symbol.is_defined_function() {
        Some(LocalFunction {
            object,
            index: symbol.index,
        })
    } else {
        None
    }
}

/// The index of the function that a symbol leads to, where it is a function's and the output has
/// that function: the one of its own index, or the one that a weak and defined symbol stands for.
fn redirect(
    input: &LinkInput<'_, '_>,
    rows: &[ItemList<u32>],
    object: usize,
    number: u32,
) -> Option<u32>
    ensures { result ≡ redirect_of input.now.link rows.now object number }
{
    let symbol = input.symbols().symbol(object, number)?;
    if !symbol.kind.is_function() {
        return None;
    }
    let own = LocalFunction {
        object,
        index: symbol.index,
    };
    if symbol.is_undefined() || !symbol.is_weak() {
        return row_place(rows, own);
    }
    let definition = input.symbols().definition(object, number);
    row_place(rows, definition_function(input, definition).unwrap_or(own))
}

/// For each symbol of an object the index of the function that it leads to, where it is a
/// function's and the output has that function.
///
/// # Errors
/// `AllocError` where memory runs out.
pub(crate) fn function_redirects(
    alloc: Global,
    input: &LinkInput<'_, '_>,
    function_rows: &[ItemList<u32>],
    object: usize,
    file: &File<'_>,
) -> Result<ItemList<Option<u32>>, AllocError>
    requires rows { AreRows (λ object o. AreIndicesOf (function_space input.now)
        (local_functions input.now object o)) 0 input.now.link.objects function_rows.now }
    requires room { length (function_space input.now) ≤ MAX_ENTRIES }
    requires here { slice_get input.now.link.objects object ≡ Some file.now }
    ensures { IfOk result (λ list. ArePlacesOf (function_space input.now)
        (symbol_functions input.now object file.now) list) }
{
    link_laws();
    let _ = input.live();
    let _ = input.files().as_slice();
    file.stands_for_an_object();
    let mut list = ItemList::empty(alloc);
    for number in 0..file.symbols().len() {
        list.push(redirect(input, function_rows, object, number as u32))?;
    }
    Ok(list)
}
