//! Objects that no file holds.

ghost use Rattle.std.specs.Prelude.{◌≡◌, ◌≤◌, [], ◌∷◌, ◌++◌, length, OnOk, IfOk};
ghost use Rattle.wl_generate.specs.Generated.{generated};
ghost use Rattle.wl_generate.specs.declared.object.TheConstants.{LONGEST_OBJECT};
ghost use Rattle.wl_words.specs.declared.values.TheConstants.{MAX_GENERATED};

use std::alloc::{AllocError, Global};
use wl_generate::generated_object;
use wl_plan::{ObjectList, PushError};

/// Puts an object at the end.
fn push_object(objects: &mut ObjectList, object: Vec<u8>) -> Result<(), AllocError>
    requires { length object.items ≤ LONGEST_OBJECT }
    ensures { OnOk result (objects.new ≡ objects.old ++ object.items ∷ []) }
{
    match objects.push(object) {
        Ok(()) => Ok(()),
        // It is short, so that memory alone can be wanting.
        Err(PushError::OutOfMemory(_) | PushError::TooLong(_)) => Err(AllocError),
    }
}

/// So many objects: a chain of functions, each of which calls that of the next object.
///
/// # Errors
/// `AllocError` where memory runs out.
pub fn generate(alloc: Global, n: u32) -> Result<ObjectList, AllocError>
    requires some { 1 ≤ n }
    requires most { n ≤ MAX_GENERATED }
    ensures { IfOk result (λ objects. objects ≡ generated n) }
{
    let mut objects = ObjectList::new(alloc);
    for number in 0..n {
        push_object(&mut objects, generated_object(alloc, number, n)?)?;
    }
    Ok(objects)
}
