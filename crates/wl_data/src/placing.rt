//! The data of all objects, placed.

ghost use Rattle.std.specs.Prelude.{ℕ, ◌≡◌, ◌≤◌, ◌<◌, ◌^◌, OnOk, IfOk, IfErr, IfSome, MatchOption, filter, length};
ghost use Rattle.std.specs.List.{AllByRecursion, list_any};
ghost use Rattle.wl_linking.specs.Steps.{Clear, Refuses};
ghost use Rattle.wl_data.specs.Layouts.{HasNoRoom};
ghost use Rattle.wl_data.specs.DataPlaces.{AllCanBePlaced, in_one_row, AreObjectsLaid, GrowByObject, greatest_alignment, data_of, is_thread_local, any_is_thread_local, any_is_common, tls_start, tls_base, data_end, flag_of, pass_over, data_start, IsDataPlaces, IsPastMemory};

use crate::align::{align_up, past_last_address};
use crate::layout::lay_out;
use crate::options::DataOptions;
use crate::pass::{Frontier, Pass};
use crate::places::DataPlaces;
use crate::segments::{KeptSegment, SegmentLayouts};
use std::alloc::Global;
use wl_linking::LinkError;
use wl_lists::ItemList;

/// The word that says whether segments were copied has four bytes, and stands at a multiple of
/// as many.
const FLAG_BYTES: u32 = 4;

// ---- questions on all segments

/// The greatest alignment of those of an object's segments of which each thread has its own.
fn tls_alignment_of(segments: &[KeptSegment<'_>]) -> u32
    ensures { result ≡ greatest_alignment (filter is_thread_local segments.now) }
{
    let mut greatest = 1;
    for segment in segments {
        greatest = segment.tls_alignment().max(greatest);
    }
    greatest
}

/// The greatest alignment of all segments of which each thread has its own, 1 without any.
fn tls_alignment(objects: &[ItemList<KeptSegment<'_>>]) -> u32
    ensures some { 0 < result }
    ensures greatest { let all = filter is_thread_local (in_one_row objects.now) in
        result ≡ greatest_alignment all }
{
    let mut greatest = 1;
    for object in objects {
        greatest = tls_alignment_of(object.as_slice()).max(greatest);
    }
    greatest
}

/// Whether each thread has its own of one of an object's segments.
fn any_is_thread_local(object: &ItemList<KeptSegment<'_>>) -> bool
    ensures { result ≡ any_is_thread_local object.now }
{
    object.as_slice().iter().any(|segment| segment.tls)
}

/// Whether each thread has its own of some segment.
fn has_tls(objects: &[ItemList<KeptSegment<'_>>]) -> bool
    ensures { result ≡ list_any any_is_thread_local objects.now }
{
    objects.iter().any(|object| any_is_thread_local(object))
}

/// Whether one of an object's segments has bytes in the memory that all threads have in common.
fn any_is_common(object: &ItemList<KeptSegment<'_>>) -> bool
    ensures { result ≡ any_is_common object.now }
{
    object.as_slice().iter().any(|segment| segment.is_common())
}

/// Whether some segment has bytes in the memory that all threads have in common.
fn has_common(objects: &[ItemList<KeptSegment<'_>>]) -> bool
    ensures { result ≡ list_any any_is_common objects.now }
{
    objects.iter().any(|object| any_is_common(object))
}

// ---- places beside the segments

/// What a pass over all objects is for.
fn pass_over(options: DataOptions, tls: bool) -> Pass
    ensures { result ≡ pass_over options tls }
{
    Pass {
        tls,
        shared_init: options.shared_memory,
        has_block: options.shared_tls,
    }
}

/// Where all data begins.
fn data_start(options: DataOptions) -> u32
    ensures { result ≡ data_start options }
{
    if options.stack_first {
        options.stack_size
    } else {
        options.memory_base
    }
}

/// Where the segments begin that follow those that end there.
fn tls_start(objects: &[ItemList<KeptSegment<'_>>], options: DataOptions, end: u32) -> Option<u32>
    ensures { MatchOption result (2 ^ 32 ≤ tls_start (data_of objects.now options) end)
        (λ start. start ≡ tls_start (data_of objects.now options) end) }
{
    if !has_tls(objects) || options.shared_tls {
        return Some(end);
    }
    align_up(end, tls_alignment(objects))
}

/// The address from which that of data counts of which each thread has its own, which begins there
/// where it follows the other data.
fn tls_base(objects: &[ItemList<KeptSegment<'_>>], options: DataOptions, start: u32) -> u32
    ensures { (end : ℕ) → start ≡ tls_start (data_of objects.now options) end
        → result ≡ tls_base (data_of objects.now options) end }
{
    if !has_tls(objects) {
        data_start(options)
    } else if options.shared_tls {
        0
    } else {
        start
    }
}

/// Where the word stands that says whether segments were copied, where there is one, and where
/// the data ends, of which the segments end there.
fn flag_and_end(
    objects: &[ItemList<KeptSegment<'_>>],
    options: DataOptions,
    end: u32,
) -> Option<(Option<u32>, u32)>
    ensures small { IfSome result (λ p. p.1 < 2 ^ 32) }
    ensures places { MatchOption result (2 ^ 32 ≤ data_end (data_of objects.now options) end)
        (λ p. (p.0 ≡ flag_of (data_of objects.now options) end)
        × (p.1 ≡ data_end (data_of objects.now options) end)) }
{
    if !options.shared_memory || !has_common(objects) {
        return Some((None, end));
    }
    let flag = align_up(end, FLAG_BYTES)?;
    Some((Some(flag), flag.checked_add(FLAG_BYTES)?))
}

// ---- the segments

/// Places the segments of all objects that a pass is for, object by object.
fn lay_objects<'a>(
    alloc: Global,
    pass: Pass,
    objects: &[ItemList<KeptSegment<'a>>],
    frontier: &mut Frontier,
) -> Result<Vec<SegmentLayouts<'a>>, LinkError>
    requires { AllByRecursion AllCanBePlaced objects.now }
    ensures ok { IfOk result (λ layouts.
        AreObjectsLaid pass objects.now frontier.old frontier.new layouts.items) }
    ensures err { IfErr result (Refuses (HasNoRoom pass (in_one_row objects.now) frontier.old)) }
{
    let mut layouts = Vec::new(alloc);
    for object in objects {
        let more = lay_out(alloc, pass, object.as_slice(), frontier)?;
        layouts.push(SegmentLayouts::new(more))?;
    }
    Ok(layouts)
}

/// The same, after the layouts that each object has.
fn append_objects<'a>(
    alloc: Global,
    pass: Pass,
    objects: &[ItemList<KeptSegment<'a>>],
    layouts: &mut Vec<SegmentLayouts<'a>>,
    frontier: &mut Frontier,
) -> Result<(), LinkError>
    requires sound { AllByRecursion AllCanBePlaced objects.now }
    requires each { length layouts.old.items ≡ length objects.now }
    ensures ok { OnOk result (GrowByObject
        (AreObjectsLaid pass objects.now frontier.old frontier.new)
        layouts.old.items layouts.new.items) }
    ensures low { OnOk result (frontier.new.block < 2 ^ 32) }
    ensures err { IfErr result (Refuses (HasNoRoom pass (in_one_row objects.now) frontier.old)) }
{
    for (index, object) in objects.iter().enumerate() {
        let more = lay_out(alloc, pass, object.as_slice(), frontier)?;
        layouts[index].append(more)?;
    }
    let _end = frontier.block;
    Ok(())
}

/// Places the data of all objects: first the segments that all threads have in common, then those
/// of which each thread has its own, and after them, where threads share the memory and the first
/// one copies segments, the word that says whether it has. Those of which each thread has its own
/// begin at a multiple of the greatest of their alignments or, with `shared_tls`, stand in a block
/// of each thread.
///
/// # Errors
/// `TooLarge` where the data would end past the last address, in the memory or in the block.
pub fn place_all<'a>(
    alloc: Global,
    objects: &[ItemList<KeptSegment<'a>>],
    options: DataOptions,
) -> Result<DataPlaces<'a>, LinkError>
    requires { AllByRecursion AllCanBePlaced objects.now }
    ensures ok { IfOk result (IsDataPlaces (data_of objects.now options)) }
    ensures clear { OnOk result (Clear (IsPastMemory (data_of objects.now options))) }
    ensures err { IfErr result (Refuses (IsPastMemory (data_of objects.now options))) }
{
    let start = data_start(options);
    let mut frontier = Frontier {
        memory: start,
        block: 0,
    };
    let common = pass_over(options, false);
    let mut layouts = lay_objects(alloc, common, objects, &mut frontier)?;
    let Some(tls_start) = tls_start(objects, options, frontier.memory) else {
        return Err(past_last_address());
    };
    frontier.memory = tls_start;
    let own = pass_over(options, true);
    append_objects(alloc, own, objects, &mut layouts, &mut frontier)?;
    let Some((flag, data_end)) = flag_and_end(objects, options, frontier.memory) else {
        return Err(past_last_address());
    };
    Ok(DataPlaces {
        layouts: ItemList::new(layouts),
        data_start: start,
        tls_base: tls_base(objects, options, tls_start),
        tls_size: if options.shared_tls {
            frontier.block
        } else {
            0
        },
        tls_align: if options.shared_tls {
            tls_alignment(objects)
        } else {
            0
        },
        flag,
        data_end,
    })
}
