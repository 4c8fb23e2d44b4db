//! The plan of the output module: [`plan_link`] leads from the bytes of objects to it.
#![tactic(auto)]

mod bindings;
mod bodies;
mod extras;
mod fixups;
mod functions;
mod global_starts;
mod globals;
mod imports;
mod laws;
mod layout;
mod lines;
mod link;
mod listing_laws;
mod module_layout;
mod object_segments;
mod objects;
mod outline;
mod parsing;
mod part_laws;
mod plan;
mod positions;
mod rewriting;
mod running_laws;
mod session;
mod sizes;
mod table;
mod threads;
mod wrappers;

pub use laws::{link_plan_or_fault, only_addresses_are_refused, parts_are_one, plan_or_fault};
pub use layout::{
    FunctionOrigin, LinkPlan, OutputFunction, OutputImport, PlannedGlobal, WasmLayout,
    count_output_imports,
};
pub use lines::{listing, plan_lines};
pub use link::{plan_files, plan_link};
pub use listing_laws::{
    listings_of_plans_differ, made_functions_are_listed_by_name, plans_have_listings,
};
pub use module_layout::build_output_module_layout;
pub use object_segments::{ObjectSegment, output_segments};
pub use objects::{MAX_OBJECT, ObjectList, PushError};
pub use parsing::parse_objects;
pub use part_laws::{
    bodies_name_their_own_segments, exports_have_different_names, exports_lead_to_their_things,
    functions_have_types_and_bodies, layouts_refuse_addresses_alone, maps_mark_what_is_dropped,
    places_of_plans_stand_apart, plans_keep_their_promises, slots_hold_their_functions,
};
pub use running_laws::{
    block_exports_name_their_things, constructors_of_plans_are_called,
    deferred_fields_are_pointers, segments_of_plans_are_laid_once, stubs_of_plans_trap,
    thread_blocks_of_plans_are_made, wrappers_of_plans_call_twice,
};
pub use session::{Session, replaced_sessions_are_planned_anew};
pub use wl_bind::TypeMerger;
pub use wl_check::Line;
pub use wl_index::{WASM_DEAD_INDEX, WasmObjectIndexMap};
pub use wl_output::{Fixup, FixupTo, GlobalOrigin, MadeGlobal, OutputImportEntity};
pub use wl_places::{flag_is_where_memory_is_filled, kept_thread_data_is_laid, placings_are_one};
pub use wl_reloc::{RelocError, deferred_tls_template_pointer, resolve_reloc};
pub use wl_sections::{
    BUILT_IN_SECTIONS, BuiltInSectionDetails, DynamicTagValues, NonAddressableIndexes,
    OUTPUT_SECTION_ORDER, OutputSection, PROGRAM_SEGMENT_DEFS, ProgramSegmentDef, Relaxation,
    SectionRuleOutcome, SegmentType, VerneedTable, high_part_relocations, merge_eflags,
    new_relaxation, section_outcome, tp_offset_start,
};
pub use wl_symbols::FixupPlace;
