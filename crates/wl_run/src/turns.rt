//! Runs of a function after the one that runs at the start.

ghost use Rattle.std.specs.Prelude.{◌≡◌, [], IsTrue, IfSome};
ghost use Rattle.wl_load.specs.Running.{can_run};
ghost use Rattle.wl_run.specs.Turns.{RunsInTurn};

use wl_load::{Image, RunEnd};

/// How many operators each run may take.
pub const FUEL: u64 = 1_000_000;

/// Runs a function after the one that runs at the start, where there is one. Neither takes
/// arguments, and each has fuel of its own.
///
/// It says how the first run ends that isn't done, or the last one where both are.
pub fn run_in_turn(image: &mut Image, start: Option<u32>, function: u32) -> RunEnd
    requires start { IfSome start (λ s. IsTrue (can_run image.old s [])) }
    requires function { IsTrue (can_run image.old function []) }
    ensures { RunsInTurn image.old start function result }
{
    let Some(start) = start else {
        return image.run(function, &[], FUEL);
    };
    match image.run(start, &[], FUEL) {
        RunEnd::Done(_) => image.run(function, &[], FUEL),
        end => end,
    }
}
