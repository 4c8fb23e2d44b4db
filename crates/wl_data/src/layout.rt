//! Where the segments of an object go.

ghost use Rattle.std.specs.Prelude.{◌≡◌, ◌≤◌, ◌<◌, ◌+◌, ◌^◌, ◌∷◌, [], OnOk, OnErr, IfOk, IfErr, MatchOption};
ghost use Rattle.std.specs.Int.{next_multiple_of};
ghost use Rattle.std.specs.List.{AllByRecursion};
ghost use Rattle.wl_linking.specs.Steps.{Clear, Refuses};
ghost use Rattle.wl_data.specs.Layouts.{CanBePlaced, is_chosen, goes_to_block, goes_to_memory, is_shared_init, StandsThere, PassesAt, IsLayoutOf, AreLaidOut, IsLaidOne, GrowsBy, HasNoRoom, HasNoRoomAt, frontier_of, frontier_left, pass_of};

use crate::align::{align_up, past_last_address};
use crate::pass::{Frontier, Pass};
use crate::segments::{KeptSegment, WasmDataSegmentLayout};
use crate::sizes::output_data_segment_encoded_size;
use std::alloc::Global;
use wl_linking::LinkError;

/// A place at or after a cursor, and where so many bytes end that stand there.
fn stretch_behind(cursor: u32, alignment: u32, len: u32) -> Option<(u32, u32)>
    requires { 0 < alignment }
    ensures { MatchOption result (2 ^ 32 ≤ next_multiple_of cursor alignment + len)
        (λ p. (p.0 ≡ next_multiple_of cursor alignment) × (p.1 ≡ p.0 + len)) }
{
    let place = align_up(cursor, alignment)?;
    Some((place, place.checked_add(len)?))
}

/// Whether the segment goes into the block of each thread.
fn is_for_block(pass: Pass, segment: &KeptSegment<'_>) -> bool
    ensures { result ≡ goes_to_block pass segment.now }
{
    pass.has_block && segment.tls
}

/// Whether the segment goes into the memory.
fn is_for_memory(pass: Pass, segment: &KeptSegment<'_>) -> bool
    ensures { result ≡ goes_to_memory pass segment.now }
{
    !is_for_block(pass, segment) && segment.active
}

/// Whether the segment is copied into the memory by the first thread.
fn is_shared_init(pass: Pass, segment: &KeptSegment<'_>) -> bool
    ensures { result ≡ is_shared_init pass segment.now }
{
    pass.shared_init && segment.is_common()
}

/// The place of the next segment of a pass, and the frontier after it.
fn stand(pass: Pass, segment: &KeptSegment<'_>, frontier: Frontier) -> Option<(u32, Frontier)>
    requires { CanBePlaced segment.now }
    ensures { MatchOption result (PassesAt pass segment.now frontier) (λ p.
        StandsThere pass frontier p.1 (record { segment = segment.now; place = p.0 })) }
{
    if is_for_block(pass, segment) {
        let Some((place, end)) = stretch_behind(
            frontier.block,
            segment.block_alignment(),
            segment.size(),
        ) else {
            return None;
        };
        return Some((
            place,
            Frontier {
                memory: frontier.memory,
                block: end,
            },
        ));
    }
    if is_for_memory(pass, segment) {
        let Some((place, end)) = stretch_behind(
            frontier.memory,
            segment.alignment(),
            segment.size(),
        ) else {
            return None;
        };
        return Some((
            place,
            Frontier {
                memory: end,
                block: frontier.block,
            },
        ));
    }
    Some((0, frontier))
}

/// What the output makes of a segment at a place.
fn layout_at<'a>(
    pass: Pass,
    segment: &KeptSegment<'a>,
    place: u32,
) -> Result<WasmDataSegmentLayout<'a>, LinkError>
    requires { CanBePlaced segment.now }
    ensures ok { IfOk result (IsLayoutOf pass (record { segment = segment.now; place = place })) }
    ensures never { OnErr result ⊥ }
{
    let is_template = is_for_block(pass, segment);
    let in_memory = is_for_memory(pass, segment);
    let shared_init = is_shared_init(pass, segment);
    let passive = !in_memory || shared_init;
    let offset = if in_memory || is_template { place } else { 0 };
    let size = output_data_segment_encoded_size(segment.size(), offset, 0, passive)?;
    Ok(WasmDataSegmentLayout {
        segment_index: segment.original,
        payload: segment.payload,
        payload_start: segment.payload_start,
        output_memory_index: 0,
        output_memory_offset: offset,
        encoded_output_size: size,
        passive,
        tls_template: is_template,
        shared_init,
    })
}

/// Places the next segment of a pass.
fn lay_one<'a>(
    pass: Pass,
    segment: &KeptSegment<'a>,
    frontier: &mut Frontier,
) -> Result<WasmDataSegmentLayout<'a>, LinkError>
    requires { CanBePlaced segment.now }
    ensures ok { IfOk result (IsLaidOne pass segment.now frontier.old frontier.new) }
    ensures err { IfErr result (Refuses (HasNoRoomAt pass segment.now frontier.old)) }
{
    let Some((place, end)) = stand(pass, segment, *frontier) else {
        return Err(past_last_address());
    };
    let layout = layout_at(pass, segment, place)?;
    *frontier = end;
    Ok(layout)
}

/// Whether a pass is for the segment.
fn is_chosen(pass: Pass, segment: &KeptSegment<'_>) -> bool
    ensures { result ≡ is_chosen pass segment.now }
{
    if pass.tls { segment.tls } else { !segment.tls }
}

/// Adds the segment, where the pass is for it.
fn add<'a>(
    pass: Pass,
    segment: &KeptSegment<'a>,
    layouts: &mut Vec<WasmDataSegmentLayout<'a>>,
    frontier: &mut Frontier,
) -> Result<(), LinkError>
    requires { CanBePlaced segment.now }
    ensures ok { OnOk result (GrowsBy
        (AreLaidOut pass (segment.now ∷ []) frontier.old frontier.new)
        layouts.old.items layouts.new.items) }
    ensures err { IfErr result (Refuses (HasNoRoom pass (segment.now ∷ []) frontier.old)) }
{
    if !is_chosen(pass, segment) {
        return Ok(());
    }
    let layout = lay_one(pass, segment, frontier)?;
    layouts.push(layout)?;
    Ok(())
}

/// Places the segments of a pass, from frontier to frontier.
pub(crate) fn lay_out<'a>(
    alloc: Global,
    pass: Pass,
    segments: &[KeptSegment<'a>],
    frontier: &mut Frontier,
) -> Result<Vec<WasmDataSegmentLayout<'a>>, LinkError>
    requires { AllByRecursion CanBePlaced segments.now }
    ensures ok { IfOk result (λ layouts.
        AreLaidOut pass segments.now frontier.old frontier.new layouts.items) }
    ensures clear { OnOk result (Clear (HasNoRoom pass segments.now frontier.old)) }
    ensures err { IfErr result (Refuses (HasNoRoom pass segments.now frontier.old)) }
{
    let chosen = segments
        .iter()
        .filter(|segment| is_chosen(pass, segment))
        .count();
    let mut layouts = Vec::with_capacity(alloc, chosen)?;
    for segment in segments {
        add(pass, segment, &mut layouts, frontier)?;
    }
    // Both are addresses, so neither has passed the last one.
    let (_memory, _block) = (frontier.memory, frontier.block);
    Ok(layouts)
}

/// Places the segments of an object that a pass is for, in order: with `want_tls` those of which
/// each thread has its own, else the others. An active one stands in the memory, at the least
/// multiple of its alignment that isn't below the cursor, which then goes past it. With a cursor
/// for the block of each thread, all its segments stand there by the same rule, but an empty one
/// stands at the cursor as it is. Others have no address. With `shared_passive_init` those that the
/// memory holds, all threads have in common and aren't empty are copied by the first thread.
///
/// # Errors
/// `TooLarge` where a cursor would pass the last address; both stay as they were.
pub fn layout_object_data<'a>(
    alloc: Global,
    segments: &[KeptSegment<'a>],
    memory_cursor: &mut u32,
    want_tls: bool,
    shared_passive_init: bool,
    tls_cursor: Option<&mut u32>,
) -> Result<Vec<WasmDataSegmentLayout<'a>>, LinkError>
    requires { AllByRecursion CanBePlaced segments.now }
    ensures ok { IfOk result (λ layouts.
        AreLaidOut (pass_of want_tls shared_passive_init tls_cursor.entry) segments.now
        (frontier_of memory_cursor.old tls_cursor.entry)
        (frontier_left memory_cursor.new tls_cursor.exit) layouts.items) }
    ensures clear { OnOk result (Clear (HasNoRoom
        (pass_of want_tls shared_passive_init tls_cursor.entry) segments.now
        (frontier_of memory_cursor.old tls_cursor.entry))) }
    ensures err { IfErr result (Refuses (HasNoRoom
        (pass_of want_tls shared_passive_init tls_cursor.entry) segments.now
        (frontier_of memory_cursor.old tls_cursor.entry))) }
    ensures unchanged { OnErr result (frontier_left memory_cursor.new tls_cursor.exit
        ≡ frontier_of memory_cursor.old tls_cursor.entry) }
{
    let pass = Pass {
        tls: want_tls,
        shared_init: shared_passive_init,
        has_block: tls_cursor.is_some(),
    };
    match tls_cursor {
        None => {
            let mut frontier = Frontier {
                memory: *memory_cursor,
                block: 0,
            };
            let layouts = lay_out(alloc, pass, segments, &mut frontier)?;
            *memory_cursor = frontier.memory;
            Ok(layouts)
        }
        Some(tls_cursor) => {
            let mut frontier = Frontier {
                memory: *memory_cursor,
                block: *tls_cursor,
            };
            let layouts = lay_out(alloc, pass, segments, &mut frontier)?;
            *memory_cursor = frontier.memory;
            *tls_cursor = frontier.block;
            Ok(layouts)
        }
    }
}
