//! The bodies of objects that number segments, as the output has them: with its numbers, and with
//! the fields in them where they stand then.

ghost use Rattle.std.specs.Prelude.{◌≡◌, ◌≤◌, ◌<◌, ◌++◌, ◌∷◌, [], List, length, true, Some, All, Contains, IfOk, IfErr, IfSome, OnOk, IsTrue};
ghost use Rattle.wl_linking.specs.declared.error.LinkError.TheVariants.{OutOfMemory};
ghost use Rattle.wl_symbols.specs.Input.{keeps};
ghost use Rattle.wl_symbols.specs.declared.units.WasmGcUnit.TheVariants.{DefinedFunction};
ghost use Rattle.wl_places.specs.SegmentNumbers.{AreNewNumbers, AreAllNumbers};
ghost use Rattle.wl_plan.specs.Bodies.{body_in, IsBodyIn};
ghost use Rattle.wl_plan.specs.BodySteps.{AreMovedIn, IsRenumbering, IsTakenFrom};
ghost use Rattle.wl_plan.specs.declared.rewriting.RewrittenBody.{RewrittenBody as Rewritten};

use crate::parsing::link_error;
use std::alloc::Global;
use wl_linking::{LinkError, parts_of_objects_stand};
use wl_lists::ItemList;
use wl_module::{WasmFunctionBody, copy_bytes};
use wl_ops::remap_body_data_indices;
use wl_places::Placing;
use wl_symbols::{LinkInput, live_units_are_closed};

// ---- numbers of segments

/// What bodies are rewritten by.
#[derive(Clone, Copy)]
pub(crate) struct Renumbering<'r, 'i, 'a> {
    /// The link, and what is kept of it.
    pub(crate) input: &'r LinkInput<'i, 'a>,
    /// Where its data lies.
    pub(crate) placing: &'r Placing<'a>,
    /// The numbers of all segments in the output, object by object.
    pub(crate) rows: &'r [ItemList<Option<u32>>],
}

impl<'r, 'i, 'a> Renumbering<'r, 'i, 'a> {
    /// The numbers of the segments of that object.
    fn row(&self, object: usize) -> &'r [Option<u32>]
        requires numbers { AreAllNumbers self.now.input.now self.now.placing.now self.now.rows.now }
        requires within { object < length self.now.input.now.link.objects }
        ensures { AreNewNumbers self.now.input.now self.now.placing.now object result.now }
    {
        self.rows[object].as_slice()
    }
}

// ---- one body

/// The body of that function of an object, which is kept, with the numbers that segments have in the
/// output; fields of it, which are places in it, move along.
///
/// # Errors
/// Want of memory alone: kept bodies are decoded, and what they number is kept.
pub(crate) fn rewrite<'a>(
    alloc: Global,
    renumbering: &Renumbering<'_, '_, 'a>,
    site: (usize, u32),
    body: &WasmFunctionBody<'a>,
    fields: &mut [u32],
) -> Result<WasmFunctionBody<'a>, LinkError>
    requires renumbering { IsRenumbering renumbering.now }
    requires here { body_in renumbering.now.input.now site.0 site.1 ≡ Some body.now }
    requires kept { keeps renumbering.now.input.now site.0 (DefinedFunction site.1) ≡ true }
    requires fields { All (λ p. p ≤ length body.now.bytes) fields.old }
    ensures ok { IfOk result
        (IsBodyIn renumbering.now.input.now renumbering.now.placing.now site.0 site.1) }
    ensures moved { OnOk result (AreMovedIn renumbering.now.input.now renumbering.now.placing.now
        site.0 body.now.bytes fields.old fields.new) }
    ensures len { length fields.new ≡ length fields.old }
    ensures err { IfErr result (λ e. e ≡ OutOfMemory) }
{
    live_units_are_closed();
    parts_of_objects_stand();
    let (object, _) = site;
    let mut bytes = copy_bytes(alloc, &body.bytes)?;
    match remap_body_data_indices(alloc, &mut bytes, renumbering.row(object), fields) {
        Ok(_) => Ok(WasmFunctionBody {
            bytes,
            code_offset: body.code_offset,
            object_index: object,
        }),
        Err(error) => Err(link_error(object, error)),
    }
}

// ---- bodies that were rewritten with their fields

/// The body of a function of an object as the output has it.
#[derive(Drop)]
pub(crate) struct RewrittenBody<'a> {
    /// The object's number.
    pub(crate) object: usize,
    /// The function's, where definitions alone are counted.
    pub(crate) function: u32,
    /// The body.
    pub(crate) body: WasmFunctionBody<'a>,
}

/// Whether the last of these bodies is that of the function.
fn ends_with(bodies: &[RewrittenBody<'_>], site: (usize, u32)) -> bool
    ensures { IsTrue result → (before : List Rewritten) × (last : Rewritten)
        × (bodies.now ≡ before ++ last ∷ []) × (last.object ≡ site.0) × (last.function ≡ site.1) }
{
    match bodies.last() {
        Some(last) => last.object == site.0 && last.function == site.1,
        None => false,
    }
}

/// Takes the last of these bodies, if it is that of the function.
pub(crate) fn take_next<'a>(
    bodies: &mut Vec<RewrittenBody<'a>>,
    site: (usize, u32),
) -> Option<WasmFunctionBody<'a>>
    ensures taken { IfSome result (IsTakenFrom bodies.old.items site.0 site.1) }
    ensures left { (one : Rewritten) → Contains bodies.new.items one
        → Contains bodies.old.items one }
{
    if !ends_with(bodies, site) {
        return None;
    }
    match bodies.pop() {
        Some(last) => Some(last.body),
        None => None,
    }
}
