//! What a text promises that was written of a plan: a function with an empty body, which states a law.

ghost use Rattle.std.specs.Prelude.{◌≡◌, ◌↔◌, ℕ, List, true};
ghost use Rattle.std.specs.List.{AllZip};
ghost use Rattle.wl_linking.specs.Steps.{Clear};
ghost use Rattle.wl_symbols.specs.Kept.{IsKept};
ghost use Rattle.wl_symbols.specs.Live.{is_live};
ghost use Rattle.wl_symbols.specs.Link.{link_of};
ghost use Rattle.wl_symbols.specs.Units.{exists, units_of};
ghost use Rattle.wl_symbols.specs.declared.units.LinkUnit.{LinkUnit as Unit};
ghost use Rattle.wl_words.specs.declared.args.WasmArgs.{WasmArgs as SpecArgs};
ghost use Rattle.wl_data.specs.DataPlaces.{HaveLayouts};
ghost use Rattle.wl_bind.specs.Bound.{bind_fault};
ghost use Rattle.wl_bind.specs.FunctionSpace.{function_space};
ghost use Rattle.wl_bind.specs.GlobalSpace.{global_space};
ghost use Rattle.wl_bind.specs.Parts.{StandOnce};
ghost use Rattle.wl_plan.specs.Faults.{IsValueFault, input_of};
ghost use Rattle.wl_plan.specs.Fixups.{AreFixups};
ghost use Rattle.wl_places.specs.KeptData.{all_segments};
ghost use Rattle.wl_plan.specs.PlanLines.{listing_text};
ghost use Rattle.wl_places.specs.Placing.{data_options};
ghost use Rattle.wl_words.specs.declared.modes.Mode.TheVariants.{Listing};
ghost use Rattle.wildplan.specs.Modes.{IsPlanText};
ghost use Rattle.wildplan.specs.Promises.{input_told};
ghost use Rattle.wildplan.specs.Replacing.{PlanInputs, AreSound};

use wl_plan::plans_keep_their_promises;

/// A text that `run` writes at status 0 describes a plan of what was given, whatever the mode:
///
/// - each object that was read is in the grammar, and so is what replaces one;
/// - each kept reference is bound, and the field of each takes its value;
/// - without a mode the text is exactly the listing of the plan;
/// - a unit is kept just where a chain of references leads to it from a root, or nothing is dropped;
/// - nothing stands twice in a space, where an index is a place;
/// - each segment has its place, a multiple of its alignment;
/// - each kept relocation has the value of what its symbol leads to.
pub fn texts_keep_their_promises()
    ensures grammar { (words : List (List ℕ)) (inputs : PlanInputs) (args : SpecArgs)
        (text : List ℕ) → IsPlanText words inputs args text → AreSound inputs }
    ensures bound { (words : List (List ℕ)) (inputs : PlanInputs) (args : SpecArgs)
        (text : List ℕ) (is : IsPlanText words inputs args text)
        → Clear (bind_fault (input_told words inputs args text is))
        × Clear (IsValueFault (input_told words inputs args text is)
        is.is_plan.planned.is_plan.placing) }
    ensures listing { (words : List (List ℕ)) (inputs : PlanInputs) (args : SpecArgs)
        (text : List ℕ) (is : IsPlanText words inputs args text) → args.mode ≡ Listing
        → text ≡ listing_text is.plan }
    ensures kept { (words : List (List ℕ)) (inputs : PlanInputs) (args : SpecArgs)
        (text : List ℕ) (is : IsPlanText words inputs args text) (u : Unit)
        → exists (units_of is.is_plan.files) u ≡ true
        → (is_live is.is_plan.planned.live u ≡ true) ↔ IsKept (link_of is.is_plan.files args) u }
    ensures spaces { (words : List (List ℕ)) (inputs : PlanInputs) (args : SpecArgs)
        (text : List ℕ) (is : IsPlanText words inputs args text)
        → StandOnce (function_space (input_told words inputs args text is))
        × StandOnce (global_space (input_told words inputs args text is))
        × StandOnce is.plan.layout.output_types }
    ensures placed { (words : List (List ℕ)) (inputs : PlanInputs) (args : SpecArgs)
        (text : List ℕ) (is : IsPlanText words inputs args text)
        → AllZip (HaveLayouts (data_options (input_told words inputs args text is)))
        (all_segments (input_told words inputs args text is))
        is.plan.layout.object_data_layouts }
    ensures values { (words : List (List ℕ)) (inputs : PlanInputs) (args : SpecArgs)
        (text : List ℕ) (is : IsPlanText words inputs args text)
        → AreFixups (input_told words inputs args text is) is.is_plan.planned.is_plan.placing
        is.plan.fixups }
{
    plans_keep_their_promises();
}
