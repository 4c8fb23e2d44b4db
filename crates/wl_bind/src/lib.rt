//! What the references of objects are bound to, where it is known which units are kept.
//!
//! A kept import slot is bound by the first of six rules that applies: by what names stand for (the
//! definition of an object, or what the linker makes), by an entry of a GOT list, as a stub, or as
//! an import of the host. A function symbol leads to the function that its slot is bound to, to the
//! definition in its place, or to itself.
#![tactic(auto)]

// What slots and symbols lead to.
mod binding;
mod function_slots;
mod resolution;
mod slot_rows;
mod targets;
mod types;

// One walk over the kept relocations.
mod got;
mod kinds;
mod questions;
mod scan;
mod scanning;
mod signatures;
mod undefined;

// Globals, and the calls that bind one kind of slot by one rule.
mod absorbing;
mod global_slots;
mod later;
mod resolving;
mod stubs;

// What is left to the host, and what refuses it.
mod conflicts;
mod report;
mod shared;

// All references, bound.
mod bound;

// What the linker makes.
mod exported;
mod needs;
mod thread_segments;

// Where things stand in the spaces of the output.
mod build;
mod got_globals;
mod index_maps;
mod indices;
mod merging;
mod numbering;
mod own_indices;
mod parts;
mod redirects;
mod type_marks;

// Laws.
mod binding_laws;
mod laws;
mod link_laws;
mod reference_laws;
mod space_laws;

pub use absorbing::absorb_got_imports;
pub use binding::{FunctionTarget, GlobalTarget};
pub use binding_laws::{
    bound_slots_are_kept, functions_have_their_types, slots_are_bound_by_one_rule,
};
pub use bound::{BoundReferences, bind_references};
pub use build::{BoundIndices, build_index_maps};
pub use exported::{DataSymbol, ExportedData};
pub use function_slots::stub_imports;
pub use got::{GotFunc, GotList, GotMem, TableFunctions};
pub use indices::LinkerDefinedIndices;
pub use laws::{same_targets_are_one, stubs_have_no_slot, table_functions_stand_once};
pub use merging::{MergedTypes, merge_live_output_types};
pub use needs::{LinkerImportAbsorption, has_init_functions, is_made};
pub use reference_laws::{
    entries_have_types, references_are_kept, table_functions_are_kept, types_have_indices,
};
pub use report::report_disallowed_unresolved_imports;
pub use resolution::{ImportResolution, ObjectImportResolutions, ResolutionList};
pub use resolving::resolve_import_symbols;
pub use scan::{RelocNeeds, RelocScan, got_mem_of};
pub use scanning::scan_layout_relocations;
pub use shared::{SharedUnresolvedImports, collect_shared_unresolved_imports};
pub use space_laws::entries_stand_once;
pub use stubs::absorb_weak_undef_function_imports;
pub use targets::FunctionBindings;
pub use thread_segments::thread_data;
pub use types::{SlotTypes, type_of_slot};
pub use wl_index::{WASM_DEAD_INDEX, WasmObjectIndexMap};
pub use wl_symbols::{FixupPlace, HostImport, KeptRelocations, LinkInput, Relocated, Stubs};
pub use wl_types::TypeMerger;
