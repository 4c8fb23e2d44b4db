//! Types of functions, once more.

ghost use Rattle.std.specs.Prelude.{◌≡◌, IfOk};

use std::alloc::{AllocError, Global};
use wl_lists::ItemList;
use wl_module::FuncType;
use wl_types::copy_type;

/// The same types, in memory of their own.
///
/// # Errors
/// `AllocError` where memory runs out.
pub fn copy_types(alloc: Global, types: &[FuncType]) -> Result<ItemList<FuncType>, AllocError>
    ensures { IfOk result (λ copies. copies ≡ types.now) }
{
    let mut copies = Vec::new(alloc);
    for ty in types {
        copies.push(copy_type(alloc, ty)?)?;
    }
    Ok(ItemList::new(copies))
}
