//! What callers may count on of plans that are loaded: a function without a body, which states a law.

ghost use Rattle.wl_symbols.specs.Link.{Link};
ghost use Rattle.wl_plan.specs.LinkPlan.{IsPlanOf};
ghost use Rattle.wl_plan.specs.declared.layout.LinkPlan.{LinkPlan as SpecPlan};
ghost use Rattle.wildplan.specs.Loading.{CanBeLoaded};

use wl_plan::functions_have_types_and_bodies;

/// Each plan can be loaded: the types and the functions that it names by numbers are there, each
/// function has a body, and memory may have the pages with which it begins.
pub fn plans_can_be_loaded()
    ensures { (link : Link) (plan : SpecPlan) → IsPlanOf link plan → CanBeLoaded plan }
{
    functions_have_types_and_bodies();
}
