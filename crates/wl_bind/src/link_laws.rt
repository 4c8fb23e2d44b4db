//! What laws of the crates below say of objects, names, slots and live sets, together.

ghost use Rattle.wl_bind.specs.steps.Laws.{LinkLaws};

use wl_linking::whole_objects;
use wl_symbols::{
    definitions_have_numbers, host_imports_are_found, live_units_are_closed, name_by_cases,
    slots_are_numbered, targets_by_cases,
};

/// The laws.
pub(crate) fn link_laws()
    ensures { LinkLaws }
{
    whole_objects();
    slots_are_numbered();
    definitions_have_numbers();
    live_units_are_closed();
    targets_by_cases();
    name_by_cases();
    host_imports_are_found();
}
