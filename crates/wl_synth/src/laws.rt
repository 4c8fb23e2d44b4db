//! What callers may count on: functions that do nothing, each of which states a law of made bodies,
//! or of what bodies do when the machine runs them.

ghost use Rattle.std.specs.Prelude.{◌≡◌, ℕ, true, List, Some, length};
ghost use Rattle.std.specs.List.{AllByRecursion};
ghost use Rattle.wl_module.specs.Types.{FunctionType};
ghost use Rattle.wl_synth.specs.declared.parts.PassiveSegmentCopy.{PassiveSegmentCopy};
ghost use Rattle.wl_synth.specs.Encoding.{IsEncoded, EncodeFault};
ghost use Rattle.wl_synth.specs.declared.error.SynthError.TheVariants.{Range};
ghost use Rattle.wl_ops.specs.declared.op.Op.{Op};
ghost use Rattle.wl_synth.specs.Bodies.{call_sequence_ops, wrapper_ops, init_memory_ops, ThreadBlock, init_tls_ops};
ghost use Rattle.wl_synth.specs.Machine.{World, State, Outcome, Done, have_types, Runs};
ghost use Rattle.wl_synth.specs.Calls.{AnswerByType, HasResults, MakesCalls, wrapped_calls, Wraps, TrapsAtOnce, DoesNothing};
ghost use Rattle.wl_synth.specs.Memory.{CanInitMemory, InitsMemory};
ghost use Rattle.wl_synth.specs.ThreadLocal.{CanInitTls, IsInitialized};
ghost use Rattle.wl_synth.specs.Facts.{RunsOthers};
ghost use Rattle.wl_synth.specs.PlannedFacts.{RunsPlanned};

use crate::calls::{EMPTY_FUNCTION_BODY, UNREACHABLE_FUNCTION_BODY};
use wl_bytes::shortest_form_is_one;
use wl_ops::{computed_operators_are_spelled, operators_are_one};

/// Operators have one body at most, and never both a body and a constant that is refused.
pub fn body_or_fault()
    ensures one { (ops : List Op) (body other : List ℕ)
        → IsEncoded ops body → IsEncoded ops other → body ≡ other }
    ensures either { (ops : List Op) (body : List ℕ) (number : ℕ)
        → IsEncoded ops body → EncodeFault ops (Range number) → ⊥ }
{
    shortest_form_is_one();
}

/// A run of a body has one outcome at most.
pub fn runs_have_one_outcome()
    ensures { (w : World) (results : ℕ) (body : List ℕ) (s : State) (o other : Outcome)
        → Runs w results body s o → Runs w results body s other → o ≡ other }
{
    operators_are_one();
}

/// A sequence of calls makes exactly these calls, in order, and ends with an empty stack.
pub fn call_sequence_makes_its_calls()
    ensures { (w : World) (s : State) (calls : List (ℕ × ℕ)) (body : List ℕ)
        → IsEncoded (call_sequence_ops calls) body
        → AnswerByType w → AllByRecursion (HasResults w) calls → MakesCalls w s calls body }
{}

/// A wrapper calls the constructors, then its function with its own arguments, and ends with just
/// that call's results.
pub fn wrapper_makes_two_calls()
    ensures { (w : World) (s : State) (call_ctors original : ℕ) (type : FunctionType)
        (body : List ℕ) → IsEncoded (wrapper_ops call_ctors original (length type.params)) body
        → AnswerByType w → HasResults w (call_ctors, 0) → w.type_of original ≡ Some type
        → have_types s.locals type.params ≡ true
        → Wraps w s (wrapped_calls call_ctors original s) type body }
{}

/// The body of a stub traps at once, and the empty body ends and changes nothing.
pub fn short_bodies_run()
    ensures stub { TrapsAtOnce UNREACHABLE_FUNCTION_BODY }
    ensures empty { DoesNothing EMPTY_FUNCTION_BODY }
{
    computed_operators_are_spelled();
}

/// The thread that comes first lays the segments in memory; one that comes meanwhile waits, and
/// one that comes later drops the segments.
pub fn segments_are_laid_once()
    ensures { (w : World) (s : State) (flag : ℕ) (copies : List PassiveSegmentCopy) (body : List ℕ)
        → IsEncoded (init_memory_ops flag copies) body → CanInitMemory w s flag copies
        → InitsMemory w s flag copies body }
{}

/// A thread's block is made at the base, with its templates, pointers and globals.
pub fn thread_block_is_made()
    ensures { (w : World) (s : State) (base : ℕ) (b : ThreadBlock) (body : List ℕ)
        → IsEncoded (init_tls_ops b) body → CanInitTls w s base b
        → (t : State) × Runs w 0 body s (Done t) × IsInitialized s base b t }
{}

/// The machine runs bodies that no call here makes as the core specification says.
pub fn machine_runs_other_bodies()
    ensures { (w : World) → RunsOthers w }
{
    computed_operators_are_spelled();
}

/// The machine runs bodies of plans on small memories as the core specification and the threads
/// proposal say.
pub fn machine_runs_planned_bodies()
    ensures { RunsPlanned }
{
    computed_operators_are_spelled();
}
