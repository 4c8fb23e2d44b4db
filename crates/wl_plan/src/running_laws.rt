//! What callers may count on when functions of a plan run: functions with an empty body, each of
//! which states a law.

ghost use Rattle.std.specs.Prelude.{◌≡◌, ◌≤◌, ℕ, ℤ, List, length, true, Contains};
ghost use Rattle.std.specs.List.{filter_map};
ghost use Rattle.wl_module.specs.Bodies.{Body};
ghost use Rattle.wl_symbols.specs.declared.linker_symbol.WasmLinkerSymbol.TheVariants.{CallCtors, InitTls};
ghost use Rattle.wl_synth.specs.Calls.{AnswerByType, TrapsAtOnce};
ghost use Rattle.wl_synth.specs.Machine.{World, State};
ghost use Rattle.wl_symbols.specs.Input.{Input};
ghost use Rattle.wl_exports.specs.Exports.{ExportEntry, thread_exports};
ghost use Rattle.wl_plan.specs.Origins.{OfLinker, OfInitMemory, OfStub, OfWrapper};
ghost use Rattle.wl_plan.specs.Plan.{IsPlan};
ghost use Rattle.wl_plan.specs.Resolved.{IsNumbered};
ghost use Rattle.wl_plan.specs.Running.{CallsConstructors, HasMadeBody, HasRoomFor, HoldsPlan, IsExported, IsPointerOf, LaysSegments, MakesBlock, WrapsFunction, pointer_by};
ghost use Rattle.wl_plan.specs.Threads.{tls_pointers};
ghost use Rattle.wl_output.specs.declared.fixups.Fixup.{Fixup as PlannedFixup};
ghost use Rattle.wl_output.specs.declared.fixups.FixupTo.TheVariants.{Deferred};
ghost use Rattle.wl_plan.specs.declared.layout.LinkPlan.{LinkPlan as SpecPlan};

use wl_data::{copied_segments_are_passive, places_end_in_time, segments_have_layouts};
use wl_linking::whole_objects;
use wl_synth::{
    call_sequence_makes_its_calls, segments_are_laid_once, short_bodies_run, thread_block_is_made,
    wrapper_makes_two_calls,
};

/// The function that fills the block of a thread makes it at the base that it is given: its
/// templates, the pointers in it and the globals that hold addresses in it.
pub fn thread_blocks_of_plans_are_made()
    ensures { (input : Input) (plan : SpecPlan) (is : IsPlan input plan) (w : World) (s : State)
        (base : ℕ) (b : Body) → IsNumbered input → HasMadeBody plan (OfLinker InitTls) b
        → HoldsPlan plan w s → HasRoomFor plan s base → MakesBlock input is.placing w s base b }
{
    whole_objects();
    segments_have_layouts();
    places_end_in_time();
    copied_segments_are_passive();
    thread_block_is_made();
}

/// The function that fills the memory lays the segments that all threads have in common once.
pub fn segments_of_plans_are_laid_once()
    ensures { (input : Input) (plan : SpecPlan) (is : IsPlan input plan) (w : World) (s : State)
        (b : Body) → HasMadeBody plan OfInitMemory b → HoldsPlan plan w s → w.is_shared ≡ true
        → plan.layout.data_end ≤ length s.memory → LaysSegments plan is.placing w s b }
{
    places_end_in_time();
    copied_segments_are_passive();
    segments_are_laid_once();
}

/// The function that calls the constructors makes the calls of the functions that run at the start,
/// in order.
pub fn constructors_of_plans_are_called()
    ensures { (input : Input) (plan : SpecPlan) (is : IsPlan input plan) (w : World) (s : State)
        (b : Body) → IsNumbered input → HasMadeBody plan (OfLinker CallCtors) b → HoldsPlan plan w s
        → AnswerByType w → CallsConstructors input w s b }
{
    call_sequence_makes_its_calls();
}

/// A wrapper calls the constructors, and then its function with its own arguments.
pub fn wrappers_of_plans_call_twice()
    ensures { (input : Input) (plan : SpecPlan) (is : IsPlan input plan) (w : World) (s : State)
        (name : List ℕ) (b : Body) → HasMadeBody plan (OfWrapper name) b → HoldsPlan plan w s
        → AnswerByType w → WrapsFunction input w s name b }
{
    wrapper_makes_two_calls();
}

/// A stub stops the program.
pub fn stubs_of_plans_trap()
    ensures { (input : Input) (plan : SpecPlan) (name : List ℕ) (b : Body) → IsPlan input plan
        → HasMadeBody plan (OfStub name) b → TrapsAtOnce b.bytes }
{
    short_bodies_run();
}

/// The pointers that a thread stores in its block are the fixups whose fields are known when it
/// starts, and each of these lies in the block.
pub fn deferred_fields_are_pointers()
    ensures list { (input : Input) (plan : SpecPlan) (is : IsPlan input plan)
        → tls_pointers input is.placing ≡ filter_map (pointer_by plan.layout) plan.fixups }
    ensures each { (input : Input) (plan : SpecPlan) (f : PlannedFixup) (offset : ℤ)
        → IsPlan input plan → IsNumbered input → Contains plan.fixups f → f.to ≡ Deferred offset
        → IsPointerOf plan.layout f offset }
{
    whole_objects();
    segments_have_layouts();
    places_end_in_time();
}

/// Each export of a thread's block, its size, its alignment and the function that fills it, leads to
/// its thing, unless an object, the memory or the entry has its name.
pub fn block_exports_name_their_things()
    ensures { (input : Input) (plan : SpecPlan) (e : ExportEntry) → IsPlan input plan
        → Contains (thread_exports input) e → IsExported input plan.layout.exports e }
{}
