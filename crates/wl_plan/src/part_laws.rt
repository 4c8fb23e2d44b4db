//! What someone may count on who writes a module by a plan: its parts fit one another. Functions
//! with an empty body, each of which states a law.

ghost use Rattle.std.specs.Prelude.{◌≡◌, ◌≢◌, ◌<◌, ◌-◌, ◌↔◌, ℕ, List, length, map, true, Some, Err, Contains, slice_get, sum_by};
ghost use Rattle.std.specs.List.{AllZip};
ghost use Rattle.wl_linking.specs.Object.{Object as SpecObject};
ghost use Rattle.wl_linking.specs.Steps.{Clear};
ghost use Rattle.wl_reloc.specs.declared.error.RelocError.{RelocError as Why};
ghost use Rattle.wl_index.specs.declared.index_map.WasmObjectIndexMap.{WasmObjectIndexMap as Map};
ghost use Rattle.wl_symbols.specs.declared.relocated.Relocated.{Relocated as KeptRelocation};
ghost use Rattle.wl_module.specs.Bodies.{Body as SpecBody};
ghost use Rattle.wl_module.specs.Exports.{Exported};
ghost use Rattle.wl_module.specs.declared.limits.TableType.{TableType as SpecTable};
ghost use Rattle.wl_index.specs.declared.index.TheConstants.{LINKER_TABLE_BASE, WASM_DEAD_INDEX};
ghost use Rattle.wl_symbols.specs.Link.{Link};
ghost use Rattle.wl_symbols.specs.Input.{Input};
ghost use Rattle.wl_symbols.specs.Kept.{IsKept};
ghost use Rattle.wl_symbols.specs.Live.{is_live};
ghost use Rattle.wl_symbols.specs.Units.{exists, units_of};
ghost use Rattle.wl_symbols.specs.declared.units.LinkUnit.{LinkUnit as Unit};
ghost use Rattle.wl_ops.specs.Decoding.{AreTaken};
ghost use Rattle.wl_ops.specs.Numbers.{AreTold};
ghost use Rattle.wl_ops.specs.Rewriting.{renumbered};
ghost use Rattle.wl_ops.specs.declared.op.Op.{Op as Operator};
ghost use Rattle.wl_ops.specs.declared.op.DataIndexImm.{DataIndexImm as Number};
ghost use Rattle.wl_data.specs.DataPlaces.{HaveLayouts, StandApart, block_ranges, in_one_row, memory_ranges};
ghost use Rattle.wl_bind.specs.Bound.{bind_fault};
ghost use Rattle.wl_bind.specs.FunctionSpace.{function_space};
ghost use Rattle.wl_bind.specs.GlobalSpace.{global_space};
ghost use Rattle.wl_bind.specs.Parts.{StandOnce};
ghost use Rattle.wl_places.specs.Addresses.{segment_space};
ghost use Rattle.wl_plan.specs.Bodies.{body_in};
ghost use Rattle.wl_places.specs.SegmentNumbers.{new_number};
ghost use Rattle.wl_plan.specs.Dropped.{dropped_in, unkept_from};
ghost use Rattle.wl_plan.specs.Exported.{LeadsToItsThing};
ghost use Rattle.wl_plan.specs.Faults.{IsValueFault, input_of};
ghost use Rattle.wl_plan.specs.Fixups.{AreFixups};
ghost use Rattle.wl_places.specs.KeptData.{all_segments};
ghost use Rattle.wl_plan.specs.LinkPlan.{IsPlanOf};
ghost use Rattle.wl_plan.specs.Origins.{OfObject, PlannedFunction as FunctionOfPlan};
ghost use Rattle.wl_places.specs.Placing.{data_options};
ghost use Rattle.wl_plan.specs.Plan.{IsPlan};
ghost use Rattle.wl_plan.specs.Resolved.{HasNoAddress, IsNumbered, IsOf, answer_by};
ghost use Rattle.wl_plan.specs.Running.{HasMadeBody};
ghost use Rattle.wl_plan.specs.declared.layout.LinkPlan.{LinkPlan as SpecPlan};

use crate::laws::only_addresses_are_refused;
use wl_bind::{entries_stand_once, same_targets_are_one};
use wl_data::{places_stand_apart, segments_have_layouts};
use wl_ops::{numbers_are_one, rewriting_keeps_operators};

/// What a plan promises of its link: each reference is bound, and each field has its value; a unit is
/// kept where nothing is dropped, and else just where a chain of references leads to it from a root;
/// nothing stands twice in a space, where an index is a place; each segment has its place, a
/// multiple of its alignment.
pub fn plans_keep_their_promises()
    ensures bound { (link : Link) (plan : SpecPlan) (is : IsPlanOf link plan)
        → Clear (bind_fault (input_of link is.live)) }
    ensures fitting { (link : Link) (plan : SpecPlan) (is : IsPlanOf link plan)
        → Clear (IsValueFault (input_of link is.live) is.is_plan.placing) }
    ensures values { (link : Link) (plan : SpecPlan) (is : IsPlanOf link plan)
        → AreFixups (input_of link is.live) is.is_plan.placing plan.fixups }
    ensures kept { (link : Link) (plan : SpecPlan) (is : IsPlanOf link plan) (u : Unit)
        → exists (units_of link.objects) u ≡ true
        → (is_live is.live u ≡ true) ↔ IsKept link u }
    ensures spaces { (input : Input) (plan : SpecPlan) → IsPlan input plan
        → StandOnce (function_space input) × StandOnce (global_space input)
        × StandOnce plan.layout.output_types }
    ensures placed { (input : Input) (plan : SpecPlan) → IsPlan input plan
        → AllZip (HaveLayouts (data_options input)) (all_segments input)
        plan.layout.object_data_layouts }
{
    entries_stand_once();
    segments_have_layouts();
}

/// Each function that isn't imported has one body, and its type is one of the output's.
pub fn functions_have_types_and_bodies()
    ensures bodies { (input : Input) (plan : SpecPlan) → IsPlan input plan
        → length plan.layout.function_bodies ≡ length plan.layout.function_type_indices }
    ensures types { (input : Input) (plan : SpecPlan) (f : FunctionOfPlan) → IsPlan input plan
        → Contains plan.layout.function_type_indices f
        → f.type_index < length plan.layout.output_types }
{}

/// The body of a function that an object defines has the operators of the object's own, but for the
/// numbers of segments. Each of these becomes the number that the same segment has in the output,
/// where no segment stands twice.
pub fn bodies_name_their_own_segments()
    ensures operators { (input : Input) (plan : SpecPlan) (is : IsPlan input plan)
        (object function : ℕ) (own b : SpecBody) (ops : List Operator)
        → HasMadeBody plan (OfObject object function) b
        → body_in input object function ≡ Some own → AreTaken ops own.bytes
        → AreTaken (map (renumbered (new_number input is.placing object)) ops) b.bytes }
    ensures numbers { (input : Input) (plan : SpecPlan) (is : IsPlan input plan)
        (object function : ℕ) (own b : SpecBody) (numbers : List Number) (n : Number)
        → HasMadeBody plan (OfObject object function) b
        → body_in input object function ≡ Some own → AreTold numbers own.bytes
        → Contains numbers n
        → (place : ℕ) × (new_number input is.placing object n.index ≡ Some place)
        × (slice_get (segment_space is.placing) place ≡ Some (object, n.index)) }
    ensures once { (input : Input) (plan : SpecPlan) (is : IsPlan input plan)
        → StandOnce (segment_space is.placing) }
{
    numbers_are_one();
    rewriting_keeps_operators();
    segments_have_layouts();
}

/// A function that has a slot after the first one stands there in the table, and the table has
/// that slot.
pub fn slots_hold_their_functions()
    ensures { (input : Input) (plan : SpecPlan) (index slot : ℕ) → IsPlan input plan
        → slice_get plan.layout.function_table_slots index ≡ Some slot
        → slot ≢ 0 → slot ≢ WASM_DEAD_INDEX
        → (slice_get plan.layout.element_functions (slot - LINKER_TABLE_BASE) ≡ Some index)
        × ((t : SpecTable) × (plan.layout.table ≡ Some t) × (slot < t.initial)) }
{
    entries_stand_once();
    same_targets_are_one();
}

/// By the layout of a plan `resolve_reloc` refuses a kept relocation for its address alone: what it
/// names has its index, its slot and its global there.
pub fn layouts_refuse_addresses_alone()
    ensures { (input : Input) (plan : SpecPlan) (is : IsPlan input plan) (r : KeptRelocation)
        (o : SpecObject) (m : Map) (why : Why) → IsNumbered input
        → IsOf input plan.layout.object_index_maps r o m → answer_by plan.layout o m r ≡ Err why
        → HasNoAddress input is.placing r why }
{
    only_addresses_are_refused();
}

/// The maps of a plan mark exactly the functions and globals of its objects that aren't kept: there
/// are as many entries for what the output doesn't have.
pub fn maps_mark_what_is_dropped()
    ensures { (link : Link) (plan : SpecPlan) (is : IsPlanOf link plan)
        → sum_by dropped_in plan.layout.object_index_maps
        ≡ unkept_from (input_of link is.live) 0 link.objects }
{}

/// No two exports of a plan have one name.
pub fn exports_have_different_names()
    ensures { (link : Link) (plan : SpecPlan) (i k : ℕ) (x y : Exported) → IsPlanOf link plan
        → slice_get plan.layout.exports i ≡ Some x → slice_get plan.layout.exports k ≡ Some y
        → x.name ≡ y.name → i ≡ k }
{}

/// Each export of a plan leads to what the link exports under its name, or to the wrapper of that.
pub fn exports_lead_to_their_things()
    ensures { (input : Input) (plan : SpecPlan) (place : ℕ) (x : Exported) → IsPlan input plan
        → slice_get plan.layout.exports place ≡ Some x → LeadsToItsThing input plan place x }
{}

/// The stack, the segments in the memory and the flag share no byte, and the segments of a thread's
/// block share none there.
pub fn places_of_plans_stand_apart()
    ensures memory { (input : Input) (plan : SpecPlan) (is : IsPlan input plan)
        → StandApart (memory_ranges (data_options input)
        (in_one_row plan.layout.object_data_layouts) is.placing.places.flag plan.layout.data_end) }
    ensures block { (input : Input) (plan : SpecPlan) → IsPlan input plan
        → StandApart (block_ranges (in_one_row plan.layout.object_data_layouts)) }
{
    places_stand_apart();
}
