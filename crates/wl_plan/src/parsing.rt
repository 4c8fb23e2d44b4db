//! The objects that bytes are.

ghost use Rattle.std.specs.Prelude.{◌≡◌, IfOk, IfErr};
ghost use Rattle.wl_linking.specs.Steps.{Refuses};
ghost use Rattle.wl_plan.specs.Objects.{AreObjects, IsBadObject};
ghost use Rattle.wl_plan.specs.steps.Parsing.{link_error_of};

use crate::objects::ObjectList;
use std::alloc::Global;
use wl_bytes::ReadError;
use wl_linking::{FileList, LinkError, parse_wasm_module};

/// What is wrong with an object, as a refusal of the plan.
pub(crate) fn link_error(object: usize, error: ReadError) -> LinkError
    ensures { result ≡ link_error_of object error }
{
    match error {
        ReadError::OutOfMemory => LinkError::OutOfMemory,
        ReadError::Malformed(why) => LinkError::Malformed { object, why },
        ReadError::Unsupported(form) => LinkError::Unsupported { object, form },
    }
}

/// The objects that the bytes are, up to the first that isn't one.
///
/// # Errors
/// `Malformed` or `Unsupported` for the first object that isn't in the grammar or has a form that
/// isn't taken.
pub fn parse_objects<'a>(alloc: Global, objects: &'a ObjectList) -> Result<FileList<'a>, LinkError>
    ensures ok { IfOk result (λ files. AreObjects files objects.now) }
    ensures err { IfErr result (Refuses (IsBadObject objects.now)) }
{
    let mut files = FileList::new(alloc);
    while let Some(bytes) = objects.get(files.len()) {
        let file = match parse_wasm_module(alloc, bytes) {
            Ok(file) => file,
            Err(error) => return Err(link_error(files.len(), error)),
        };
        match files.push(file) {
            Ok(()) => {}
            Err(_) => return Err(LinkError::OutOfMemory),
        }
    }
    Ok(files)
}
