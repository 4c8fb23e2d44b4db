//! Laws that join the machine here with that of `wl_synth`, which runs one body by itself:
//! functions with an empty body, each of which states what runs of the functions do that the linker
//! makes.

ghost use Rattle.std.specs.Prelude.{◌≡◌, ◌≤◌, ℕ, ◌+◌, true, List, [], ◌∷◌, length, slice_get, Some, Ok};
ghost use Rattle.std.specs.List.{AllByRecursion};
ghost use Rattle.wl_module.specs.Types.{FunctionType};
ghost use Rattle.wl_numeric.specs.declared.value.Value.{Value as ImageValue};
ghost use Rattle.wl_numeric.specs.declared.value.Value.TheVariants.{I32};
ghost use Rattle.wl_numeric.specs.declared.value.TrapKind.TheVariants.{Unreachable};
ghost use Rattle.wl_synth.specs.declared.parts.PassiveSegmentCopy.{PassiveSegmentCopy as Copied};
ghost use Rattle.wl_synth.specs.Bodies.{call_sequence_ops, wrapper_ops, init_memory_ops, ThreadBlock, init_tls_ops};
ghost use Rattle.wl_synth.specs.Encoding.{IsEncoded};
ghost use Rattle.wl_synth.specs.Machine.{Value as BodyValue, Call};
ghost use Rattle.wl_synth.specs.Calls.{plain_call, AnswerByType, HasResults};
ghost use Rattle.wl_synth.specs.Memory.{CanInitMemory};
ghost use Rattle.wl_synth.specs.ThreadLocal.{CanInitTls};
ghost use Rattle.wl_load.specs.declared.parts.ImageParts.{ImageParts as Parts};
ghost use Rattle.wl_load.specs.declared.parts.ImageFunction.{ImageFunction as PartsFunction};
ghost use Rattle.wl_load.specs.declared.program.Program.{Program as ImageProgram};
ghost use Rattle.wl_load.specs.declared.store.Store.{Store as ImageStore};
ghost use Rattle.wl_load.specs.declared.run_end.RunEnd.{RunEnd as End};
ghost use Rattle.wl_load.specs.declared.run_end.RunEnd.TheVariants.{Trap, Done};
ghost use Rattle.wl_load.specs.Codes.{Code};
ghost use Rattle.wl_load.specs.Values.{have_types, are_integers};
ghost use Rattle.wl_load.specs.Images.{LoadedImage as Loaded, type_of};
ghost use Rattle.wl_load.specs.Loading.{IsImageOf};
ghost use Rattle.wl_load.specs.States.{OpenCall};
ghost use Rattle.wl_load.specs.Steps.{Ended};
ghost use Rattle.wl_load.specs.Running.{start_code, run_of};
ghost use Rattle.wl_load.specs.Agreement.{state_of, world_of, silent, IsLoaded, called, ended, ComesTo, RunsTo, Agrees};
ghost use Rattle.wl_load.specs.AgreementCalls.{IsKnown, IsStop, ComeBack, OneStops, AgreesByCalls, CallsInTurn, calls_of, IsWrapper, wrapper_calls};
ghost use Rattle.wl_load.specs.AgreementMemory.{LaysOnce, MakesBlock, LaysSegments, InitsThread};

use wl_ops::{computed_operators_are_spelled, operators_are_one};
use wl_synth::{
    EMPTY_FUNCTION_BODY, UNREACHABLE_FUNCTION_BODY, call_sequence_makes_its_calls,
    runs_have_one_outcome, segments_are_laid_once, thread_block_is_made, wrapper_makes_two_calls,
};

/// A run that has ended ends so with more fuel. So where these laws say what a run comes to, a run
/// of the image comes to it with enough fuel.
pub fn runs_end_with_more_fuel()
    ensures { (image : Loaded) (f : ℕ) (arguments : List ImageValue) (n fuel : ℕ) (e : End)
        (after : ImageStore) → n ≤ fuel → run_of image f arguments n ≡ Ended e after
        → run_of image f arguments fuel ≡ Ended e after }
{}

/// A call ends as its function does where it is run by itself on the same store: it returns the
/// results to the calls that wait, or ends the run.
pub fn calls_are_runs()
    ensures { (p : ImageProgram) (f : ℕ) (code : Code) (arguments : List ImageValue)
        (store after : ImageStore) (e : End) (waiting : List OpenCall)
        → start_code p f ≡ Ok code → RunsTo p f arguments store e after
        → ComesTo p (called f code arguments waiting store) (ended e waiting after) }
{}

/// A run that is done returns values of its function's result types.
pub fn results_have_their_types()
    ensures { (p : ImageProgram) (f : ℕ) (type : FunctionType) (arguments results : List ImageValue)
        (store after : ImageStore) → type_of p f ≡ Some type
        → RunsTo p f arguments store (Done results) after → have_types results type.results ≡ true }
{}

/// A function of an image whose body declares no locals, as those that the linker makes, is one of
/// which these laws speak.
pub fn loaded_functions_can_be_run()
    ensures { (parts : Parts) (image : Loaded) (i : ℕ) (fn : PartsFunction) (type : FunctionType)
        (text : List ℕ) → IsImageOf parts image → slice_get parts.functions i ≡ Some fn
        → fn.body ≡ 0 ∷ text → slice_get parts.types fn.type_index ≡ Some type
        → are_integers type.params ≡ true
        → IsLoaded image.program (length parts.hosts + i) type fn.body }
{}

/// The bodies that the linker makes without calls do in an image what they do by themselves.
pub fn bodies_without_calls_agree()
    ensures memory { (flag : ℕ) (copies : List Copied) (body : List ℕ)
        → IsEncoded (init_memory_ops flag copies) body → Agrees body }
    ensures thread { (b : ThreadBlock) (body : List ℕ)
        → IsEncoded (init_tls_ops b) body → Agrees body }
    ensures empty { Agrees EMPTY_FUNCTION_BODY }
    ensures stub { (p : ImageProgram) (f : ℕ) (type : FunctionType)
        (h : IsLoaded p f type UNREACHABLE_FUNCTION_BODY) (arguments : List ImageValue)
        (store : ImageStore) (waiting : List OpenCall)
        → ComesTo p (called f h.code arguments waiting store) (Ended (Trap Unreachable) store) }
{
    operators_are_one();
    computed_operators_are_spelled();
}

/// The bodies that the linker makes of calls do in an image what they do by themselves, where the
/// functions that they call do what they are taken to answer.
pub fn bodies_with_calls_agree()
    ensures sequence { (p : ImageProgram) (answer : List Call → List BodyValue) (f : ℕ)
        (type : FunctionType) (calls : List (ℕ × ℕ)) (body : List ℕ)
        → type.results ≡ [] → IsEncoded (call_sequence_ops calls) body
        → AnswerByType (world_of p answer)
        → AllByRecursion (HasResults (world_of p answer)) calls
        → AgreesByCalls p answer f type body }
    ensures wrapper { (p : ImageProgram) (answer : List Call → List BodyValue) (f : ℕ)
        (type : FunctionType) (call_ctors original : ℕ) (body : List ℕ)
        → IsEncoded (wrapper_ops call_ctors original (length type.params)) body
        → AnswerByType (world_of p answer) → HasResults (world_of p answer) (call_ctors, 0)
        → type_of p original ≡ Some type
        → AgreesByCalls p answer f type body }
{
    operators_are_one();
    runs_have_one_outcome();
    call_sequence_makes_its_calls();
    wrapper_makes_two_calls();
}

/// The init functions of an image run once each, in the order of their calls, each on the store
/// that the one before left: where they return the run is done, and only there. Where one of them
/// ends otherwise, so does the run, and only there.
pub fn init_functions_run_in_turn()
    ensures done { (p : ImageProgram) (f : ℕ) (calls : List (ℕ × ℕ)) → CallsInTurn p f calls
        → (arguments : List ImageValue) (store after : ImageStore)
        → ComeBack p (calls_of calls) store after → RunsTo p f arguments store (Done []) after }
    ensures done_only { (p : ImageProgram) (f : ℕ) (calls : List (ℕ × ℕ)) → CallsInTurn p f calls
        → (arguments results : List ImageValue) (store after : ImageStore)
        → RunsTo p f arguments store (Done results) after
        → ComeBack p (calls_of calls) store after }
    ensures stops { (p : ImageProgram) (f : ℕ) (calls : List (ℕ × ℕ)) → CallsInTurn p f calls
        → (arguments : List ImageValue) (store after : ImageStore) (e : End)
        → OneStops p (calls_of calls) store e after → RunsTo p f arguments store e after }
    ensures stops_only { (p : ImageProgram) (f : ℕ) (calls : List (ℕ × ℕ)) → CallsInTurn p f calls
        → (arguments : List ImageValue) (store after : ImageStore) (e : End)
        → AllByRecursion (λ q. IsKnown p q.0) calls → IsStop e
        → RunsTo p f arguments store e after → OneStops p (calls_of calls) store e after }
{
    operators_are_one();
}

/// A wrapper runs the constructors, and then its function with its own arguments on the store that
/// they left, whose results it returns: where both return it is done, and only there. Where one of
/// the two ends otherwise, so does the run, and only there.
pub fn wrappers_run_two_functions()
    ensures done { (p : ImageProgram) (f call_ctors original : ℕ) (type : FunctionType)
        → IsWrapper p f call_ctors original type
        → (arguments results : List ImageValue) (store mid after : ImageStore)
        → have_types arguments type.params ≡ true
        → ComeBack p (plain_call call_ctors ∷ []) store mid
        → RunsTo p original arguments mid (Done results) after
        → RunsTo p f arguments store (Done results) after }
    ensures done_only { (p : ImageProgram) (f call_ctors original : ℕ) (type : FunctionType)
        → IsWrapper p f call_ctors original type
        → (arguments results : List ImageValue) (store after : ImageStore)
        → have_types arguments type.params ≡ true
        → RunsTo p f arguments store (Done results) after
        → (mid : ImageStore) × ComeBack p (plain_call call_ctors ∷ []) store mid
        × RunsTo p original arguments mid (Done results) after }
    ensures stops { (p : ImageProgram) (f call_ctors original : ℕ) (type : FunctionType)
        → IsWrapper p f call_ctors original type
        → (arguments : List ImageValue) (store after : ImageStore) (e : End)
        → have_types arguments type.params ≡ true
        → OneStops p (wrapper_calls call_ctors original arguments) store e after
        → RunsTo p f arguments store e after }
    ensures stops_only { (p : ImageProgram) (f call_ctors original : ℕ) (type : FunctionType)
        → IsWrapper p f call_ctors original type
        → (arguments : List ImageValue) (store after : ImageStore) (e : End)
        → have_types arguments type.params ≡ true → IsKnown p call_ctors → IsKnown p original
        → IsStop e → RunsTo p f arguments store e after
        → OneStops p (wrapper_calls call_ctors original arguments) store e after }
{
    operators_are_one();
}

/// A run of the function that lays segments in shared memory lays them once.
pub fn shared_memory_is_laid_once()
    ensures { (p : ImageProgram) (f flag : ℕ) (copies : List Copied) → LaysSegments p f flag copies
        → (store : ImageStore) → CanInitMemory (world_of p silent) (state_of [] store) flag copies
        → LaysOnce p f store flag copies }
{
    operators_are_one();
    segments_are_laid_once();
}

/// A run of the function that makes a thread's block makes it as it is planned.
pub fn thread_blocks_are_made()
    ensures { (p : ImageProgram) (f : ℕ) (b : ThreadBlock) → InitsThread p f b
        → (store : ImageStore) (base : ℕ)
        → CanInitTls (world_of p silent) (state_of (I32 base ∷ []) store) base b
        → MakesBlock p f store base b }
{
    operators_are_one();
    thread_block_is_made();
}
