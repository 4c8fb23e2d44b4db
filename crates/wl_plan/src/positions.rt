//! Where the fields of kept relocations stand in what the output has.

ghost use Rattle.std.specs.Prelude.{◌≡◌, ◌<◌, ◌∷◌, List, map, length, true, false, Some, Contains, IfOk, IfErr, OnOk, slice_get};
ghost use Rattle.std.specs.List.{AllByRecursion, AllZip};
ghost use Rattle.wl_linking.specs.declared.error.LinkError.TheVariants.{OutOfMemory};
ghost use Rattle.wl_symbols.specs.Input.{keeps};
ghost use Rattle.wl_symbols.specs.Relocations.{relocations};
ghost use Rattle.wl_symbols.specs.declared.relocated.FixupPlace.TheVariants.{Code};
ghost use Rattle.wl_symbols.specs.declared.relocated.Relocated.{Relocated as KeptRelocation};
ghost use Rattle.wl_symbols.specs.declared.units.WasmGcUnit.TheVariants.{DefinedFunction};
ghost use Rattle.wl_plan.specs.Bodies.{body_in, IsBodyIn, IsMovedIn};
ghost use Rattle.wl_plan.specs.BodySteps.{AreSoundBodies, IsRenumbering, AreRewritten};
ghost use Rattle.wl_plan.specs.steps.Positions.{share_body, goes_on, AreOfOneBody, AreKept, IsThere, stays, IsMoving, AreMoved, AreMovedFields, NoneIsMarked, AddsMoved};
ghost use Rattle.wl_places.specs.declared.placing.Placing.{Placing as PlacingSeen};

use crate::rewriting::{Renumbering, RewrittenBody, rewrite};
use std::alloc::{AllocError, Global};
use wl_linking::{File, LinkError, whole_objects};
use wl_module::WasmFunctionBody;
use wl_symbols::{
    FixupPlace, LinkInput, LiveSet, Relocated, kept_relocations, unmarked_bodies_number_none,
};

/// The two fields lie in one body.
fn share_body(first: &Relocated, other: &Relocated) -> bool
    ensures { result ≡ share_body first.now other.now }
{
    first.place == FixupPlace::Code
        && other.place == FixupPlace::Code
        && first.object == other.object
        && first.site.unit == other.site.unit
}

/// A field lies in the body of these, or there are none.
fn goes_on(run: &[Relocated], relocated: &Relocated) -> bool
    ensures { result ≡ goes_on run.now relocated.now }
{
    match run.first() {
        None => true,
        Some(first) => share_body(first, relocated),
    }
}

/// Puts where these fields stand as the object has them in the place of what the list held.
fn set_positions(fields: &mut Vec<u32>, run: &[Relocated]) -> Result<(), AllocError>
    ensures { OnOk result
        (fields.new.items ≡ map (λ (r : KeptRelocation). r.site.position) run.now) }
{
    fields.clear();
    for relocated in run {
        fields.push(relocated.site.position)?;
    }
    Ok(())
}

/// The body there, where these fields of a body are in it. The list gets where they stand in what
/// the output has.
fn moved_in<'a>(
    alloc: Global,
    renumbering: &Renumbering<'_, '_, 'a>,
    site: (usize, u32),
    body: &WasmFunctionBody<'a>,
    run: &[Relocated],
    fields: &mut Vec<u32>,
) -> Result<WasmFunctionBody<'a>, LinkError>
    requires renumbering { IsRenumbering renumbering.now }
    requires here { body_in renumbering.now.input.now site.0 site.1 ≡ Some body.now }
    requires kept { keeps renumbering.now.input.now site.0 (DefinedFunction site.1) ≡ true }
    requires there { AllByRecursion (IsThere renumbering.now.input.now site.0 body.now) run.now }
    ensures positions { OnOk result
        (AllZip (IsMovedIn renumbering.now.input.now renumbering.now.placing.now) run.now
        fields.new.items) }
    ensures body { IfOk result
        (IsBodyIn renumbering.now.input.now renumbering.now.placing.now site.0 site.1) }
    ensures err { IfErr result (λ e. e ≡ OutOfMemory) }
{
    set_positions(fields, run)?;
    rewrite(alloc, renumbering, site, body, fields)
}

/// The same of a body of an object.
fn moved_file<'a>(
    alloc: Global,
    renumbering: &Renumbering<'_, '_, 'a>,
    file: &File<'a>,
    first: Relocated,
    run: &[Relocated],
    fields: &mut Vec<u32>,
) -> Result<WasmFunctionBody<'a>, LinkError>
    requires renumbering { IsRenumbering renumbering.now }
    requires kept { AreKept renumbering.now.input.now run.now }
    requires at { slice_get run.now 0 ≡ Some first }
    requires place { first.place ≡ Code }
    requires one { AreOfOneBody run.now }
    requires here { slice_get renumbering.now.input.now.link.objects first.object
        ≡ Some file.now }
    requires unit { first.site.unit < length file.now.bodies }
    ensures positions { OnOk result
        (AllZip (IsMovedIn renumbering.now.input.now renumbering.now.placing.now) run.now
        fields.new.items) }
    ensures body { IfOk result
        (IsBodyIn renumbering.now.input.now renumbering.now.placing.now first.object
        first.site.unit) }
    ensures err { IfErr result (λ e. e ≡ OutOfMemory) }
{
    whole_objects();
    let site = (first.object, first.site.unit);
    let body = &file.bodies()[first.site.unit as usize];
    moved_in(alloc, renumbering, site, body, run, fields)
}

/// The same of one body, that of the first of the fields.
fn moved_code<'a>(
    alloc: Global,
    renumbering: &Renumbering<'_, '_, 'a>,
    first: Relocated,
    run: &[Relocated],
    fields: &mut Vec<u32>,
) -> Result<WasmFunctionBody<'a>, LinkError>
    requires renumbering { IsRenumbering renumbering.now }
    requires kept { AreKept renumbering.now.input.now run.now }
    requires at { slice_get run.now 0 ≡ Some first }
    requires place { first.place ≡ Code }
    requires one { AreOfOneBody run.now }
    requires within { first.object < length renumbering.now.input.now.link.objects }
    ensures positions { OnOk result
        (AllZip (IsMovedIn renumbering.now.input.now renumbering.now.placing.now) run.now
        fields.new.items) }
    ensures body { IfOk result
        (IsBodyIn renumbering.now.input.now renumbering.now.placing.now first.object
        first.site.unit) }
    ensures err { IfErr result (λ e. e ≡ OutOfMemory) }
{
    whole_objects();
    let files = renumbering.input.files().as_slice();
    let file = &files[first.object];
    moved_file(alloc, renumbering, file, first, run, fields)
}

/// The field stands where it stood, and so do the others of its body: the body numbers no segments.
/// In data no field moves.
fn stays(input: &LinkInput<'_, '_>, relocated: &Relocated) -> bool
    ensures { result ≡ stays input.now relocated.now }
{
    match relocated.place {
        FixupPlace::Segment => true,
        FixupPlace::Code => {
            let (object, function) = (relocated.object, relocated.site.unit);
            !input.live().numbers_segments(object, function)
        }
    }
}

/// Where the fields of kept relocations stand in what the output has that don't stay where they
/// stood, and the bodies that were rewritten to know that.
#[derive(Drop)]
pub(crate) struct MovedFields<'a> {
    /// A place for each kept relocation whose field doesn't stay where it stood, in order.
    pub(crate) positions: Vec<u32>,
    /// The bodies with such fields.
    pub(crate) bodies: Vec<RewrittenBody<'a>>,
}

impl<'a> MovedFields<'a> {
    /// Adds where these fields of one body stand in what the output has, and that body. There may be
    /// none. What the other list holds doesn't count.
    ///
    /// # Errors
    /// Want of memory alone: kept bodies are decoded, and what they number is kept.
    fn push_run(
        &mut self,
        alloc: Global,
        renumbering: &Renumbering<'_, '_, 'a>,
        run: &[Relocated],
        fields: &mut Vec<u32>,
    ) -> Result<(), LinkError>
        requires renumbering { IsRenumbering renumbering.now }
        requires bodies { AreRewritten renumbering.now.input.now renumbering.now.placing.now
            self.old.bodies.items }
        requires kept { AreKept renumbering.now.input.now run.now }
        requires one { AreOfOneBody run.now }
        requires moving { IsMoving renumbering.now.input.now run.now }
        ensures ok { OnOk result (AddsMoved renumbering.now.input.now renumbering.now.placing.now
            run.now self.old.positions.items self.new.positions.items) }
        ensures bodies { OnOk result (AreRewritten renumbering.now.input.now
            renumbering.now.placing.now self.new.bodies.items) }
        ensures err { IfErr result (λ e. e ≡ OutOfMemory) }
    {
        whole_objects();
        if run.is_empty() {
            return Ok(());
        }
        let first = run[0];
        let body = moved_code(alloc, renumbering, first, run, fields)?;
        self.positions.append(fields)?;
        self.bodies.push(RewrittenBody {
            object: first.object,
            function: first.site.unit,
            body,
        })?;
        Ok(())
    }
}

/// Walks over the kept relocations for those whose fields don't stay.
///
/// # Errors
/// Want of memory alone: kept bodies are decoded, and what they number is kept.
fn walk_fields<'a>(
    alloc: Global,
    renumbering: &Renumbering<'_, '_, 'a>,
) -> Result<MovedFields<'a>, LinkError>
    requires renumbering { IsRenumbering renumbering.now }
    ensures positions { IfOk result (λ moved. AreMoved renumbering.now.input.now
        renumbering.now.placing.now (relocations renumbering.now.input.now) moved.positions.items) }
    ensures bodies { IfOk result (λ moved. AreRewritten renumbering.now.input.now
        renumbering.now.placing.now moved.bodies.items) }
    ensures err { IfErr result (λ e. e ≡ OutOfMemory) }
{
    let input = renumbering.input;
    let mut moved = MovedFields {
        positions: Vec::new(alloc),
        bodies: Vec::new(alloc),
    };
    // The fields of one body that numbers segments, as far as they have come.
    let mut run = Vec::new(alloc);
    // Where they stand: one list for all bodies.
    let mut fields = Vec::new(alloc);
    for relocated in kept_relocations(input) {
        if !goes_on(run.as_slice(), &relocated) {
            moved.push_run(alloc, renumbering, run.as_slice(), &mut fields)?;
            run.clear();
        }
        if !run.is_empty() || !stays(input, &relocated) {
            run.push(relocated)?;
        }
    }
    moved.push_run(alloc, renumbering, run.as_slice(), &mut fields)?;
    moved.bodies.reverse();
    Ok(moved)
}

/// Whether one of the first functions of an object, so many of them, has a body that numbers
/// segments.
fn any_is_marked(live: &LiveSet, object: usize, count: u32) -> bool
    ensures { result ≡ false → NoneIsMarked live.now object count }
{
    for function in 0..count {
        if live.numbers_segments(object, function) {
            return true;
        }
    }
    false
}

/// Whether a body of an object numbers segments.
fn any_in_object(live: &LiveSet, object: usize, file: &File<'_>) -> bool
    ensures { result ≡ false → NoneIsMarked live.now object (length file.now.bodies) }
{
    file.stands_for_an_object();
    any_is_marked(live, object, file.bodies().len() as u32)
}

/// Whether all fields stay where they stood, for no body numbers segments.
fn all_stay(input: &LinkInput<'_, '_>) -> bool
    requires { AreSoundBodies input.now }
    ensures { result ≡ true → (r : KeptRelocation) → Contains (relocations input.now) r
        → stays input.now r ≡ true }
{
    whole_objects();
    let live = input.live();
    for (object, file) in input.files().as_slice().iter().enumerate() {
        if any_in_object(live, object, file) {
            return false;
        }
    }
    true
}

/// Where the fields of kept relocations stand in what the output has that don't stay where they
/// stood, in order. The bodies that were rewritten to know that come in the same order, the last
/// one first.
///
/// # Errors
/// Want of memory alone: kept bodies are decoded, and what they number is kept.
pub(crate) fn moved_fields<'a>(
    alloc: Global,
    renumbering: &Renumbering<'_, '_, 'a>,
) -> Result<MovedFields<'a>, LinkError>
    requires renumbering { IsRenumbering renumbering.now }
    ensures positions { IfOk result (λ moved. AreMovedFields renumbering.now.input.now
        renumbering.now.placing.now moved.positions.items) }
    ensures bodies { IfOk result (λ moved. AreRewritten renumbering.now.input.now
        renumbering.now.placing.now moved.bodies.items) }
    ensures err { IfErr result (λ e. e ≡ OutOfMemory) }
{
    whole_objects();
    unmarked_bodies_number_none();
    if all_stay(renumbering.input) {
        return Ok(MovedFields {
            positions: Vec::new(alloc),
            bodies: Vec::new(alloc),
        });
    }
    walk_fields(alloc, renumbering)
}

/// Where the field of a kept relocation stands, and what is left behind it of the places of those
/// that don't stay.
pub(crate) fn next_position<'p>(
    input: &LinkInput<'_, '_>,
    relocated: &Relocated,
    moved: &'p [u32],
) -> (u32, &'p [u32])
    ensures at { (g : PlacingSeen) (more : List KeptRelocation)
        → AreMoved input.now g (relocated.now ∷ more) moved.now
        → (stays input.now relocated.now ≡ true
        → IsMovedIn input.now g relocated.now relocated.now.site.position)
        → IsMovedIn input.now g relocated.now result.0 }
    ensures left { (g : PlacingSeen) (more : List KeptRelocation)
        → AreMoved input.now g (relocated.now ∷ more) moved.now
        → AreMoved input.now g more result.1.now }
{
    let own = relocated.site.position;
    match moved.split_first() {
        None => (own, moved),
        Some((position, left)) => {
            if stays(input, relocated) {
                (own, moved)
            } else {
                (*position, left)
            }
        }
    }
}
