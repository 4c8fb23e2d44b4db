//! Plans of small objects of which some are replaced, beside those of the same objects from nothing.

ghost use Rattle.std.specs.Prelude.{◌≤◌, length};
ghost use Rattle.wl_bytes.specs.declared.reader.TheConstants.{MAX_LEN};

use crate::check::LISTING;
use crate::samples::{CALLER, NOTHING, PAIR, STRONG, WEAK, args_of};
use std::alloc::Global;
use wl_linking::LinkError;
use wl_plan::{LinkPlan, ObjectList, Session, listing, plan_link};
use wl_words::WasmArgs;

/// One of four objects, by a number.
fn object_of(number: u32) -> &'static [u8]
    ensures { length result.now ≤ MAX_LEN }
{
    match number % 4 {
        0 => NOTHING,
        1 => STRONG,
        2 => WEAK,
        _ => CALLER,
    }
}

/// The listing of a plan, or an empty text where two objects define a name, or none does.
fn told(alloc: Global, planned: &Result<LinkPlan<'_>, LinkError>) -> Option<Vec<u8>> {
    match planned {
        Ok(plan) => listing(alloc, plan).ok(),
        Err(LinkError::DuplicateSymbol { .. } | LinkError::UndefinedSymbols(_)) => {
            Some(Vec::new(alloc))
        }
        Err(_) => None,
    }
}

/// Puts a copy of an object at the end, and says whether it is there.
pub(crate) fn push_copy(alloc: Global, list: &mut ObjectList, bytes: &[u8]) -> bool {
    match Vec::from_slice(alloc, bytes) {
        Ok(bytes) => list.push(bytes).is_ok(),
        Err(_) => false,
    }
}

/// What the plan of these objects comes to from nothing.
fn told_from_nothing(alloc: Global, objects: &[&[u8]], args: &WasmArgs) -> Option<Vec<u8>> {
    let mut list = ObjectList::new(alloc);
    let mut is_whole = true;
    for bytes in objects {
        is_whole = push_copy(alloc, &mut list, *bytes) && is_whole;
    }
    if is_whole {
        told(alloc, &plan_link(alloc, &list, args))
    } else {
        None
    }
}

/// Whether the session has a plan, where it comes to the same as that of these objects from nothing.
fn has_same_plan(
    alloc: Global,
    session: &Session<'_>,
    objects: &[&[u8]],
    args: &WasmArgs,
) -> Option<bool> {
    let kept = told(alloc, &session.plan(alloc));
    let anew = told_from_nothing(alloc, objects, args);
    match (&kept, &anew) {
        (Some(kept), Some(anew)) if kept == anew => Some(!kept.is_empty()),
        _ => None,
    }
}

/// Puts one of the four objects at the end, or in the place of another, by a number, and says
/// whether it is there.
fn change<'a>(session: &mut Session<'a>, objects: &mut Vec<&'a [u8]>, number: u32) -> bool {
    let bytes = object_of(number >> 16);
    let object = (number >> 20) as usize % 4;
    if object < session.len() && object < objects.len() {
        objects[object] = bytes;
        session.replace(object, bytes).is_ok()
    } else {
        objects.push(bytes).is_ok() && session.push(bytes).is_ok()
    }
}

/// Whether the session refuses bytes that are no object, at its end and in the place of the first.
fn refuses(session: &mut Session<'_>) -> bool {
    session.push(b"\0asm").is_err() && (session.is_empty() || session.replace(0, b"\0asm").is_err())
}

/// How many plans there are among so many changes, if that of the session is always the one from
/// nothing. What changes goes by a row of numbers that is always the same.
fn replay(alloc: Global, args: &WasmArgs, changes: u32) -> Option<u32> {
    let mut session = Session::new(alloc, args);
    let mut objects = Vec::new(alloc);
    let mut number = 1_u32;
    let mut plans = Some(0_u32);
    for _ in 0..changes {
        number = number.wrapping_mul(1_664_525).wrapping_add(1_013_904_223);
        let is_changed = refuses(&mut session) && change(&mut session, &mut objects, number);
        plans = match (plans, has_same_plan(alloc, &session, &objects, args)) {
            (Some(plans), Some(is_plan)) if is_changed => plans.checked_add(u32::from(is_plan)),
            _ => None,
        };
    }
    plans
}

/// Options under which all units are kept, and no function is started.
const WORDS: [&str; 3] = ["--no-gc-sections", "--no-entry", "a.o"];

/// How many plans there are among a thousand changes under these options.
fn plans_of_a_thousand(alloc: Global) -> Option<u32> {
    match args_of(alloc, &WORDS) {
        Some(args) => replay(alloc, &args, 1000),
        None => None,
    }
}

#[test]
fn plans_follow_replacements(rt: HostRuntime) {
    // In 503 of 1000 cases no name is defined twice, and `a` is defined where it is called.
    assert!(rt; plans_of_a_thousand(rt.alloc()) == Some(503));
}

/// Whether an object is refused for its bytes, by that number.
fn is_malformed(refused: Result<(), LinkError>, number: usize) -> bool {
    match &refused {
        Err(LinkError::Malformed { object, .. }) => *object == number,
        _ => false,
    }
}

/// Whether a session of one object has the same plan still, once two objects were refused.
fn stays(alloc: Global, args: &WasmArgs) -> bool {
    let mut session = Session::new(alloc, args);
    session.push(STRONG).is_ok()
        && is_malformed(session.push(b"\0asm"), 1)
        && session.len() == 1
        && is_malformed(session.replace(0, b"\0asm"), 0)
        && has_same_plan(alloc, &session, &[STRONG], args) == Some(true)
}

/// Whether it has under these options.
fn stays_under_options(alloc: Global) -> bool {
    match args_of(alloc, &WORDS) {
        Some(args) => stays(alloc, &args),
        None => false,
    }
}

#[test]
fn a_refused_object_changes_nothing(rt: HostRuntime) {
    assert!(rt; stays_under_options(rt.alloc()));
}

/// Whether the plan of a session is that of two functions alone, of which the first calls the second.
fn is_plan_of_a_pair(alloc: Global, session: &Session<'_>) -> bool {
    match told(alloc, &session.plan(alloc)) {
        Some(text) => text.as_slice() == LISTING,
        None => false,
    }
}

/// Whether no plan is made for two functions of one name, of which the object of that number has
/// the second one.
fn is_defined_twice(alloc: Global, session: &Session<'_>, second: usize) -> bool {
    matches!(
        session.plan(alloc).err(),
        Some(LinkError::DuplicateSymbol { second_object, .. }) if second_object == second
    )
}

/// Whether the same object twice has no plan, and that of one once the other has no sections, which
/// stays where what would replace it is no object.
fn plans_one_of_two(alloc: Global, args: &WasmArgs) -> bool {
    let mut session = Session::new(alloc, args);
    session.push(PAIR).is_ok()
        && is_plan_of_a_pair(alloc, &session)
        && session.push(PAIR).is_ok()
        && is_defined_twice(alloc, &session, 1)
        && session.replace(1, NOTHING).is_ok()
        && is_plan_of_a_pair(alloc, &session)
        && is_malformed(session.replace(0, b"\0asm\x01\0\0"), 0)
        && is_plan_of_a_pair(alloc, &session)
}

/// Whether it is so under these options.
fn plans_one_of_two_under_options(alloc: Global) -> bool {
    match args_of(alloc, &WORDS) {
        Some(args) => plans_one_of_two(alloc, &args),
        None => false,
    }
}

#[test]
fn a_replaced_object_defines_nothing_more(rt: HostRuntime) {
    assert!(rt; plans_one_of_two_under_options(rt.alloc()));
}

/// Whether the session has the plan of these objects. It asks twice, for room may be refused once.
fn has_plan_of(alloc: Global, session: &Session<'_>, objects: &[&[u8]], args: &WasmArgs) -> bool {
    has_same_plan(alloc, session, objects, args).is_some()
        || has_same_plan(alloc, session, objects, args).is_some()
}

/// Whether a session follows two pushes and a replacement, each where it was taken and only there.
fn follows(alloc: Global, args: &WasmArgs) -> bool {
    let mut session = Session::new(alloc, args);
    let is_there = session.push(STRONG).is_ok();
    let is_called = is_there && session.push(CALLER).is_ok();
    let is_replaced = is_there && session.replace(0, WEAK).is_ok();
    let first = if is_replaced { WEAK } else { STRONG };
    if is_called {
        has_plan_of(alloc, &session, &[first, CALLER], args)
    } else if is_there {
        has_plan_of(alloc, &session, &[first], args)
    } else {
        has_plan_of(alloc, &session, &[], args)
    }
}

/// Whether it does under these options, where there is room for them.
fn follows_under_options(alloc: Global) -> bool {
    match args_of(alloc, &WORDS) {
        Some(args) => follows(alloc, &args),
        None => true,
    }
}

#[test]
fn refused_room_changes_nothing(rt: HostRuntime) {
    // It holds as well where any one of its allocations is refused.
    assert!(rt; follows_under_options(rt.alloc()));
}
