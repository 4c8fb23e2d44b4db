//! A session of objects, some of which are replaced.

ghost use Rattle.std.specs.Prelude.{◌≡◌, ◌<◌, List, [], length, All, OnOk, IfOk, IfErr};
ghost use Rattle.std.specs.List.{AllByRecursion};
ghost use Rattle.wl_linking.specs.Object.{Object};
ghost use Rattle.wl_linking.specs.Steps.{Refuses};
ghost use Rattle.wl_plan.specs.Objects.{AreObjects, IsBadObject};
ghost use Rattle.wl_plan.specs.Session.{holding};
ghost use Rattle.wl_session.specs.After.{after};
ghost use Rattle.wildplan.specs.Objects.{inputs_read};
ghost use Rattle.wildplan.specs.Replacing.{AreSound, HasPlanFault, IsBadReplacement, IsSoundReplacement, objects_after, replacements_of};

use crate::inputs::Inputs;
use std::alloc::Global;
use wl_linking::LinkError;
use wl_plan::{ObjectList, Session};
use wl_words::{ObjectReplacement, WasmArgs};

/// Puts each of these objects at the end.
fn push_all<'a>(session: &mut Session<'a>, objects: &'a ObjectList) -> Result<(), LinkError>
    requires { session.old.objects ≡ [] }
    ensures ok { OnOk result (session.new ≡ holding session.old objects.now) }
    ensures grammar { OnOk result ((files : List Object) × AreObjects files objects.now) }
    ensures err { IfErr result (Refuses (IsBadObject objects.now)) }
{
    objects.none_is_longer();
    while let Some(bytes) = objects.get(session.len()) {
        session.push(bytes)?;
    }
    Ok(())
}

/// Does each of these replacements in order, by what its file holds.
fn replace_all<'a>(
    session: &mut Session<'a>,
    replacements: &[ObjectReplacement],
    contents: &'a ObjectList,
) -> Result<(), LinkError>
    requires { All (λ r. r.object < length session.old.objects) replacements.now }
    ensures ok { OnOk result (session.new ≡ holding session.old
        (after session.old.objects (replacements_of replacements.now contents.now))) }
    ensures sound { OnOk result
        (AllByRecursion IsSoundReplacement (replacements_of replacements.now contents.now)) }
    ensures err { IfErr result
        (Refuses (IsBadReplacement (replacements_of replacements.now contents.now))) }
{
    for (place, replacement) in replacements.iter().enumerate() {
        if let Some(bytes) = contents.get(place) {
            session.replace(replacement.object, bytes)?;
        }
    }
    Ok(())
}

/// A session of the objects that were read, once each replacement was done. All objects are read
/// before the first replacement, so that one at fault is reported even where it is replaced.
///
/// # Errors
/// `Malformed` or `Unsupported`, with the number of the object, for the first object that isn't in
/// the grammar or has a form that isn't taken; where there is none, for the first replacement.
pub(crate) fn session_after<'a>(
    alloc: Global,
    inputs: &'a Inputs,
    args: &'a WasmArgs,
) -> Result<Session<'a>, LinkError>
    requires { All (λ r. r.object < length inputs.now.objects) args.now.replacements }
    ensures held { IfOk result (λ session. session
        ≡ record { objects = objects_after (inputs_read args.now inputs.now); args = args.now }) }
    ensures sound { OnOk result (AreSound (inputs_read args.now inputs.now)) }
    ensures err { IfErr result
        (Refuses (HasPlanFault (inputs_read args.now inputs.now) args.now)) }
{
    let mut session = Session::new(alloc, args);
    push_all(&mut session, &inputs.objects)?;
    replace_all(
        &mut session,
        args.replacements.as_slice(),
        &inputs.replacing,
    )?;
    Ok(session)
}
