//! What callers may count on: functions with an empty body, each of which states a law of plans.

ghost use Rattle.std.specs.Prelude.{◌≡◌, ℕ, List, Err};
ghost use Rattle.wl_linking.specs.Object.{Object as SpecObject};
ghost use Rattle.wl_linking.specs.declared.error.LinkError.{LinkError as SpecError};
ghost use Rattle.wl_reloc.specs.declared.error.RelocError.{RelocError as Why};
ghost use Rattle.wl_index.specs.declared.index_map.WasmObjectIndexMap.{WasmObjectIndexMap as Map};
ghost use Rattle.wl_symbols.specs.Link.{Link};
ghost use Rattle.wl_words.specs.declared.args.WasmArgs.{WasmArgs as SpecArgs};
ghost use Rattle.wl_symbols.specs.Input.{Input};
ghost use Rattle.wl_symbols.specs.declared.relocated.Relocated.{Relocated as KeptRelocation};
ghost use Rattle.wl_plan.specs.Faults.{link_fault};
ghost use Rattle.wl_places.specs.IndexedMaps.{AreWholeMaps};
ghost use Rattle.wl_plan.specs.LinkPlan.{IsPlanOf, IsLinkPlan, HasLinkFault};
ghost use Rattle.wl_plan.specs.Fixups.{AreFixups};
ghost use Rattle.wl_places.specs.Placing.{IsPlacing};
ghost use Rattle.wl_plan.specs.Plan.{HasEntities, HasPlaces, HasSpaces, HasBodies};
ghost use Rattle.wl_plan.specs.PlanParts.{entities_of, places_of, spaces_of, bodies_of};
ghost use Rattle.wl_plan.specs.declared.layout.WasmLayout.{WasmLayout as Layout};
ghost use Rattle.wl_output.specs.declared.fixups.Fixup.{Fixup};
ghost use Rattle.wl_plan.specs.Resolved.{IsNumbered, IsOf, answer_for, HasNoAddress};
ghost use Rattle.wl_plan.specs.declared.layout.LinkPlan.{LinkPlan as SpecPlan};
ghost use Rattle.wl_places.specs.declared.placing.Placing.{Placing as Places};

use wl_bind::{
    entries_stand_once, references_are_kept, same_targets_are_one, stubs_have_no_slot,
    table_functions_are_kept, table_functions_stand_once,
};
use wl_bytes::shortest_form_is_one;
use wl_ctors::init_calls_are_one;
use wl_data::{places_are_one, segments_have_layouts};
use wl_exports::exports_are_one;
use wl_features::features_are_one;
use wl_linking::object_or_fault;
use wl_ops::numbers_are_one;
use wl_symbols::live_sets_are_one;
use wl_synth::body_or_fault;

/// Each part of a plan is one: where things lie is fixed by the link and what is kept, and each of
/// the five parts by these and by where things lie.
pub fn parts_are_one()
    ensures placings { (input : Input) (a b : Places) → IsPlacing input a → IsPlacing input b
        → a ≡ b }
    ensures entities { (input : Input) (a b : Layout) → HasEntities input a → HasEntities input b
        → entities_of a ≡ entities_of b }
    ensures places { (input : Input) (g : Places) (a b : Layout) → HasPlaces input g a
        → HasPlaces input g b → places_of a ≡ places_of b }
    ensures spaces { (input : Input) (g : Places) (a b : Layout) → IsPlacing input g
        → HasSpaces input g a → HasSpaces input g b → spaces_of a ≡ spaces_of b }
    ensures fixups { (input : Input) (g : Places) (a b : List Fixup) → IsPlacing input g
        → AreFixups input g a → AreFixups input g b → a ≡ b }
    ensures bodies { (input : Input) (g : Places) (a b : Layout) → HasBodies input g a
        → HasBodies input g b → bodies_of a ≡ bodies_of b }
{
    shortest_form_is_one();
    numbers_are_one();
    places_are_one();
    segments_have_layouts();
    entries_stand_once();
    init_calls_are_one();
    body_or_fault();
    features_are_one();
    exports_are_one();
}

/// A link has one plan at most, and none where a step has a cause.
pub fn plan_or_fault()
    ensures one { (link : Link) (a b : SpecPlan) → IsPlanOf link a → IsPlanOf link b → a ≡ b }
    ensures either { (link : Link) (plan : SpecPlan) (e : SpecError)
        → IsPlanOf link plan → link_fault link e → ⊥ }
{
    live_sets_are_one();
    parts_are_one();
}

/// The bytes of objects have one plan at most, and never both a plan and a cause of a refusal.
pub fn link_plan_or_fault()
    ensures one { (objects : List (List ℕ)) (args : SpecArgs) (a b : SpecPlan)
        → IsLinkPlan objects args a → IsLinkPlan objects args b → a ≡ b }
    ensures either { (objects : List (List ℕ)) (args : SpecArgs) (plan : SpecPlan) (e : SpecError)
        → IsLinkPlan objects args plan → HasLinkFault objects args e → ⊥ }
{
    object_or_fault();
    plan_or_fault();
}

/// What kept relocations name has its index, its slot and its global: where references are bound
/// and things are numbered, `resolve_reloc` refuses none of them but for an address of data, which
/// has no value in its field, or one that doesn't fit.
pub fn only_addresses_are_refused()
    ensures { (input : Input) (g : Places) (maps : List Map) (r : KeptRelocation) (o : SpecObject)
        (m : Map) (why : Why) → IsNumbered input → AreWholeMaps input g maps → IsOf input maps r o m
        → answer_for input g o m r ≡ Err why → HasNoAddress input g r why }
{
    references_are_kept();
    table_functions_are_kept();
    table_functions_stand_once();
    stubs_have_no_slot();
    same_targets_are_one();
}
