//! What callers may count on of listings: functions with an empty body, each of which states a law.

ghost use Rattle.std.specs.Prelude.{◌≡◌, ℕ, List, Contains};
ghost use Rattle.std.specs.List.{AllByRecursion};
ghost use Rattle.wl_linking.specs.Fitting.{IsWhole};
ghost use Rattle.wl_symbols.specs.Link.{Link};
ghost use Rattle.wl_symbols.specs.LinkerNames.{name_of};
ghost use Rattle.wl_symbols.specs.declared.linker_symbol.WasmLinkerSymbol.{WasmLinkerSymbol as LinkerName};
ghost use Rattle.wl_words.specs.declared.args.WasmArgs.{WasmArgs as SpecArgs};
ghost use Rattle.wl_check.specs.Ranges.{InRange};
ghost use Rattle.wl_check.specs.Texts.{made_function_name};
ghost use Rattle.wl_plan.specs.Contents.{AllWithin};
ghost use Rattle.wl_plan.specs.LinkPlan.{IsPlanOf, IsLinkPlan};
ghost use Rattle.wl_plan.specs.Origins.{OfLinker, PlannedFunction as FunctionOfPlan};
ghost use Rattle.wl_plan.specs.PlanLines.{HasListing, lines_of, listing_text, made_function};
ghost use Rattle.wl_plan.specs.declared.layout.LinkPlan.{LinkPlan as SpecPlan};

use wl_bind::{
    same_targets_are_one, stubs_have_no_slot, table_functions_are_kept, table_functions_stand_once,
};
use wl_check::listings_differ;
use wl_data::segments_have_layouts;
use wl_module::sections_stand;
use wl_places::segments_are_small;

/// What the listing of a plan counts has 32 bits: that of objects none of which has more bytes than
/// an object may have.
pub fn plans_have_listings()
    ensures whole { (link : Link) (plan : SpecPlan) → AllByRecursion IsWhole link.objects
        → IsPlanOf link plan → HasListing plan }
    ensures read { (objects : List (List ℕ)) (args : SpecArgs) (plan : SpecPlan)
        → AllWithin objects → IsLinkPlan objects args plan → HasListing plan }
{
    sections_stand();
    segments_are_small();
    segments_have_layouts();
    table_functions_are_kept();
    table_functions_stand_once();
    stubs_have_no_slot();
    same_targets_are_one();
}

/// A listing determines the lines of its plan, with all their fields: plans with the same listing
/// have the same lines.
pub fn listings_of_plans_differ()
    ensures { (a b : SpecPlan) → AllByRecursion InRange (lines_of a)
        → AllByRecursion InRange (lines_of b) → listing_text a ≡ listing_text b
        → lines_of a ≡ lines_of b }
{
    listings_differ();
}

/// A function that the linker makes for a plan under a name is listed under that name. A line has
/// names of functions alone, and the linker makes no function under any other name.
pub fn made_functions_are_listed_by_name()
    ensures { (link : Link) (plan : SpecPlan) (f : FunctionOfPlan) (m : LinkerName)
        → IsPlanOf link plan → Contains plan.layout.function_type_indices f
        → f.origin ≡ OfLinker m → made_function_name (made_function m) ≡ name_of m }
{}
