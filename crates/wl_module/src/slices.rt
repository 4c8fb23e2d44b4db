//! Bytes that are part of a module, or were made in their place.

ghost use Rattle.std.specs.Prelude.{◌≡◌, IfOk};
ghost use Rattle.std.specs.Cow.{cow_slice_items};
ghost use Rattle.wl_module.specs.Slices.{is_owned};

use std::alloc::{AllocError, Global};
use std::borrow::CowSlice;

/// The same bytes once more: borrowed ones stay borrowed, and others are copied.
///
/// # Errors
/// `AllocError` where memory runs out.
pub fn copy_bytes<'a>(
    alloc: Global,
    bytes: &CowSlice<'a, u8>,
) -> Result<CowSlice<'a, u8>, AllocError>
    ensures bytes { IfOk result (λ copy. cow_slice_items copy ≡ cow_slice_items bytes.now) }
    ensures owned { IfOk result (λ copy. is_owned copy ≡ is_owned bytes.now) }
{
    match bytes {
        CowSlice::Borrowed(bytes) => Ok(CowSlice::Borrowed(*bytes)),
        CowSlice::Owned(bytes) => Ok(CowSlice::Owned(Vec::from_slice(alloc, bytes.as_slice())?)),
    }
}
