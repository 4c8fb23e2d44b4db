//! The line with the numbers of a plan.

ghost use Rattle.std.specs.Prelude.{◌≡◌, ◌<◌, ◌^◌, sum_by, IfOk};
ghost use Rattle.std.specs.List.{count_by};
ghost use Rattle.wl_plan.specs.Dropped.{is_dropped, dropped_in};
ghost use Rattle.wildplan.specs.Generated.{summary_text};

use std::alloc::{AllocError, Global};
use wl_index::{WASM_DEAD_INDEX, WasmObjectIndexMap};
use wl_plan::LinkPlan;

/// How many of these indices are of things that the output doesn't have.
fn count_dropped(indices: &[u32]) -> usize
    ensures { result ≡ count_by is_dropped indices.now }
{
    indices
        .iter()
        .filter(|index| **index == WASM_DEAD_INDEX)
        .count()
}

/// How many functions and globals of an object the output doesn't have.
fn dropped_in(map: &WasmObjectIndexMap) -> u128
    ensures count { result ≡ dropped_in map.now }
    ensures within { result < 2 ^ 64 }
{
    let functions = count_dropped(map.function_indices.as_slice());
    let globals = count_dropped(map.global_indices.as_slice());
    functions as u128 + globals as u128
}

/// How many functions and globals of all objects the output doesn't have.
fn dropped_in_all(maps: &[WasmObjectIndexMap]) -> u128
    ensures { result ≡ sum_by dropped_in maps.now }
{
    let mut dropped = 0_u128;
    for map in maps {
        dropped += dropped_in(map);
    }
    dropped
}

/// The line with the numbers of a plan: of its objects, of its functions that aren't imported,
/// of what it drops, and of its relocations.
///
/// What it drops are functions and globals of objects; segments aren't counted.
///
/// # Errors
/// `AllocError` where memory runs out.
pub fn summary(alloc: Global, plan: &LinkPlan<'_>) -> Result<Vec<u8>, AllocError>
    ensures { IfOk result (λ text. text.items ≡ summary_text plan.now) }
{
    let maps = plan.layout.object_index_maps.as_slice();
    let objects = maps.len();
    let functions = plan.layout.function_type_indices.as_slice().len();
    let dropped = dropped_in_all(maps);
    let fixups = plan.fixups.as_slice().len();
    let text = format!(in alloc;
        "objects {objects} functions {functions} dropped {dropped} fixups {fixups}\n"
    )?;
    Ok(text.into_bytes())
}
